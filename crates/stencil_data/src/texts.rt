//! Texts: lists of 16-bit units, as ECMA-262 has its String values (clause 6.1.4).
//!
//! Names, strings and property keys are texts everywhere in the compiler. A contract sees a `Text`
//! as the list of its units.
ghost use Rattle.std.specs.Prelude.{◌≡◌, [], ◌∷◌, ◌++◌, Some, IfOk, OnOk, OnErr, nat_eq, refl};
ghost use Rattle.std.specs.Ordering.{nat_cmp};
ghost use Rattle.std.specs.Hash as fed;
ghost use Rattle.std.specs.Hash.{same_Alike};
ghost use Rattle.std.specs.Cmp.{partial_equiv_from_equiv};
ghost use Rattle.std.specs.Cmp.Lexicographic.{pointwise, slice_cmp, nat_list_eq_equiv, nat_list_cmp_total, texts_ties, texts_po, bytes_decides};

use smallvec::SmallVec;
use std::alloc::{AllocError, Global};
use std::cmp::Ordering;
use std::hash::{Hash, Hasher};
use std::marker::Model;

/// How many units of a text lie in the value itself. Most names have fewer; a text with more takes a block of memory.
pub const INLINE_UNITS: usize = 12;

/// A list of 16-bit units.
#[derive(Debug, Drop)]
pub struct Text {
    units: SmallVec<u16, INLINE_UNITS>,
}

impl Model for Text {
    ghost use Rattle.std.specs.Prelude.{ℕ, List};

    ghost Value = { List ℕ };

    ghost view = { λ text. text.units.items };
}

impl Text {
    /// The text without units. It takes no memory.
    pub fn empty(alloc: Global) -> Text
        ensures { result ≡ [] }
    {
        Text {
            units: SmallVec::new(alloc),
        }
    }

    /// The text of these units, in their order. Up to [`INLINE_UNITS`] of them take no memory.
    pub fn of(alloc: Global, units: &[u16]) -> Result<Text, AllocError>
        ensures { IfOk result (λ text. text ≡ units.now) }
    {
        let units = SmallVec::from_slice(alloc, units)?;
        Ok(Text { units })
    }

    /// Appends one unit. After an error the text is as before.
    pub fn push(&mut self, unit: u16) -> Result<(), AllocError>
        ensures ok { OnOk result (self.new ≡ self.old ++ unit ∷ []) }
        ensures err { OnErr result (self.new ≡ self.old) }
    {
        self.units.push(unit)?;
        Ok(())
    }

    /// The units, in their order. It takes no memory.
    #[inline]
    pub fn units(&self) -> &[u16]
        ensures { result.now ≡ self.now }
    {
        self.units.as_slice()
    }

    /// An equal text with memory of its own.
    pub fn copy(&self, alloc: Global) -> Result<Text, AllocError>
        ensures { IfOk result (λ text. text ≡ self.now) }
    {
        Text::of(alloc, self.units())
    }
}

impl Clone for Text {
    ghost is_clone = { λ text copy. copy ≡ text };

    fn clone(&self) -> Result<Text, AllocError> {
        let units = self.units.clone()?;
        Ok(Text { units })
    }
}

impl PartialEq for Text {
    ghost eq = { pointwise nat_eq };

    ghost laws = { partial_equiv_from_equiv nat_list_eq_equiv };

    fn eq(&self, other: &Text) -> bool {
        self.units() == other.units()
    }
}

impl Eq for Text {
    ghost laws = { nat_list_eq_equiv };
}

impl PartialOrd for Text {
    ghost partial_cmp = { λ one two. Some (slice_cmp nat_cmp one two) };

    ghost laws = { texts_po };

    fn partial_cmp(&self, other: &Text) -> Option<Ordering> {
        Some(self.cmp(other))
    }
}

impl Ord for Text {
    ghost cmp = { slice_cmp nat_cmp };

    ghost total = { nat_list_cmp_total };

    ghost matches_partial_cmp = { λ one two. refl };

    ghost matches_eq = { texts_ties };

    fn cmp(&self, other: &Text) -> Ordering {
        self.units().cmp(other.units())
    }
}

impl Hash for Text {
    ghost hash_input = { fed.slice fed.u16 };

    ghost respects_eq = { (same_Alike (fed.slice fed.u16) bytes_decides).fed };

    fn hash<H: Hasher>(&self, state: &mut H) {
        self.units().hash(state);
    }
}
