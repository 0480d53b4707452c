//! The texts of several stencils in one list.
ghost use Rattle.std.specs.Prelude.{◌≡◌, ◌+◌, ◌^◌, ◌<◌, ◌≤◌, ℕ, List, [], ◌++◌, length, IfOk, OnOk, Err};
ghost use Rattle.stencil_instance.specs.Instances.{StandFrom};
ghost use Rattle.stencil_instance.specs.declared.gathered.GatherRefusal.TheVariants.{TooMany};

use atom_table::TextList;
use std::alloc::{AllocError, Global};
use std::hash::RandomState;
use std::marker::Model;
use stencil_data::Text;
use thiserror::Error;

/// How many texts a list is too short for: 2^28.
const TOO_MANY: usize = 268_435_456;

/// Why texts were not taken in.
#[derive(Debug, Clone, Copy, PartialEq, Eq, Error, Drop)]
pub enum GatherRefusal {
    #[error("there are 2^28 texts or more")]
    TooMany,
    #[error("out of memory")]
    NoMemory,
}

impl From<AllocError> for GatherRefusal {
    ghost use Rattle.std.specs.Prelude.{◌≡◌};
    ghost use Rattle.stencil_instance.specs.declared.gathered.GatherRefusal.TheVariants.{NoMemory};

    ghost from_gives = { λ _ refusal. refusal ≡ NoMemory };

    fn from(_error: AllocError) -> GatherRefusal {
        GatherRefusal::NoMemory
    }
}

/// The texts of some stencils, one stencil's after another's, fewer than 2^28 of them.
///
/// A contract sees the list of the texts.
#[derive(Drop)]
pub struct Gathered {
    texts: Vec<Text>,
}

impl Model for Gathered {
    ghost use Rattle.std.specs.Prelude.{ℕ, ◌^◌, ◌<◌, List, length};

    ghost Value = { List (List ℕ) };

    ghost view = { λ gathered. gathered.texts.items };

    ghost invariant = { λ gathered. length gathered.texts.items < 2 ^ 28 };
}

impl Gathered {
    /// No texts. It takes no memory.
    pub fn new(alloc: Global) -> Gathered
        ensures { result ≡ [] }
    {
        Gathered {
            texts: Vec::new(alloc),
        }
    }

    /// Takes copies of these texts in, behind those that are there, and answers how many stood before them. `TooMany` comes only where
    /// there would be 2^28 texts or more. Texts that were there stay where they are, also after an error.
    pub fn add(&mut self, alloc: Global, texts: &[Text]) -> Result<u32, GatherRefusal>
        ensures base { IfOk result (λ base. StandFrom self.new base texts.now) }
        ensures texts { OnOk result (self.new ≡ self.old ++ texts.now) }
        ensures keeps { (base : ℕ) (some : List (List ℕ)) → StandFrom self.old base some → StandFrom self.new base some }
        ensures many { result ≡ Err TooMany → 2 ^ 28 ≤ length self.old + length texts.now }
    {
        if texts.len() >= TOO_MANY - self.texts.len() {
            return Err(GatherRefusal::TooMany);
        }
        let base = self.texts.len() as u32;
        append(alloc, &mut self.texts, texts)?;
        Ok(base)
    }

    /// The list of the texts, hashed by these keys. It takes no memory.
    pub fn into_list(self, keys: RandomState) -> TextList
        ensures keys { result.keys ≡ keys }
        ensures texts { result.texts ≡ self }
    {
        TextList::new(keys, self.texts)
    }
}

/// Appends copies of these texts. After an error some of them are there.
fn append(alloc: Global, texts: &mut Vec<Text>, more: &[Text]) -> Result<(), AllocError>
    requires few { length texts.old.items + length more.now < 2 ^ 28 }
    ensures all { OnOk result (texts.new.items ≡ texts.old.items ++ more.now) }
    ensures front { (rest : List (List ℕ)) × (texts.new.items ≡ texts.old.items ++ rest) × (length rest ≤ length more.now) }
{
    for text in more {
        texts.push(text.copy(alloc)?)?;
    }
    Ok(())
}
