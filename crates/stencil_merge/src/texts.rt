//! The texts of a merger.

ghost use Rattle.std.specs.Prelude.{◌≡◌, ◌+◌, ◌-◌, ◌^◌, ◌<◌, ◌≤◌, [], length, IfOk};
ghost use Rattle.parser_atoms.specs.Places.{AreWithoutEquals};
ghost use Rattle.stencil_merge.specs.Atoms.{AreAtoms, TakesIn};

use crate::atoms::intern_all;
use parser_atoms::Atoms;
use std::alloc::{AllocError, Global};
use std::marker::Model;
use stencil_data::Text;

/// Texts without equals. Those that a merger begins with wait until more texts come: where none come, none is looked up.
///
/// A contract sees the list of the texts.
#[derive(Drop)]
pub(crate) struct MergedTexts {
    /// The texts, while none is interned; none later.
    waiting: Vec<Text>,
    atoms: Atoms,
}

impl Model for MergedTexts {
    ghost use Rattle.std.specs.Prelude.{ℕ, List};
    ghost use Rattle.parser_atoms.specs.Places.{AreWithoutEquals};
    ghost use Rattle.stencil_merge.specs.Texts.{texts_in};

    ghost Value = { List (List ℕ) };

    ghost view = { λ texts. texts_in texts.waiting.items texts.atoms };

    ghost invariant = { λ texts. AreWithoutEquals (texts_in texts.waiting.items texts.atoms) };
}

// Copies of texts, in their order.
fn copies_of(alloc: Global, texts: &[Text]) -> Result<Vec<Text>, AllocError>
    ensures { IfOk result (λ copies. copies.items ≡ texts.now) }
{
    let mut copies = Vec::with_capacity(alloc, texts.len())?;
    for text in texts {
        let copy = text.copy(alloc)?;
        copies.push(copy)?;
    }
    Ok(copies)
}

// Texts without equals, interned in their order, so that each has its place as its atom.
fn interned(alloc: Global, texts: &[Text]) -> Result<Atoms, AllocError>
    requires few { length texts.now < 2 ^ 32 - 1 }
    requires apart { AreWithoutEquals texts.now }
    ensures { IfOk result (λ atoms. atoms ≡ texts.now) }
{
    let mut atoms = Atoms::new(alloc);
    for text in texts {
        atoms.intern(alloc, text.units())?;
    }
    Ok(atoms)
}

// The texts of one list, which has no equals, interned in their order, and those of another after them; and the atoms of these.
fn intern_after(
    alloc: Global,
    before: &[Text],
    texts: &[Text],
) -> Result<(Atoms, Vec<u32>), AllocError>
    requires few { length before.now + length texts.now < 2 ^ 32 - 1 }
    requires apart { AreWithoutEquals before.now }
    ensures numbers { IfOk result (λ made. AreAtoms texts.now made.0 made.1.items) }
    ensures texts { IfOk result (λ made. TakesIn before.now texts.now made.0) }
    ensures few { IfOk result (λ made. length made.0 ≤ length before.now + length texts.now) }
{
    let mut atoms = interned(alloc, before)?;
    let numbers = intern_all(alloc, &mut atoms, texts)?;
    Ok((atoms, numbers))
}

impl MergedTexts {
    /// No texts. It takes no memory.
    pub(crate) fn new(alloc: Global) -> MergedTexts
        ensures { result ≡ [] }
    {
        MergedTexts {
            waiting: Vec::new(alloc),
            atoms: Atoms::new(alloc),
        }
    }

    /// Copies of these texts, in their order.
    pub(crate) fn of(alloc: Global, texts: &[Text]) -> Result<MergedTexts, AllocError>
        requires { AreWithoutEquals texts.now }
        ensures { IfOk result (λ made. made ≡ texts.now) }
    {
        let waiting = copies_of(alloc, texts)?;
        Ok(MergedTexts {
            waiting,
            atoms: Atoms::new(alloc),
        })
    }

    /// Interns each of these texts, and answers their atoms; where there are none, nothing is touched. After an error some of them may
    /// be there.
    pub(crate) fn intern_all(
        &mut self,
        alloc: Global,
        texts: &[Text],
    ) -> Result<Vec<u32>, AllocError>
        requires few { length self.old + length texts.now < 2 ^ 32 - 1 }
        ensures numbers { IfOk result (λ numbers. AreAtoms texts.now self.new numbers.items) }
        ensures texts { TakesIn self.old texts.now self.new }
        ensures few { length self.new ≤ length self.old + length texts.now }
    {
        let _ = &self.waiting;
        if texts.is_empty() {
            return Ok(Vec::new(alloc));
        }
        if self.atoms.is_empty() {
            let (atoms, numbers) = intern_after(alloc, &self.waiting, texts)?;
            self.atoms = atoms;
            self.waiting = Vec::new(alloc);
            return Ok(numbers);
        }
        intern_all(alloc, &mut self.atoms, texts)
    }

    /// How many texts there are.
    pub(crate) fn len(&self) -> usize
        ensures { result ≡ length self.now }
    {
        if self.atoms.is_empty() {
            self.waiting.len()
        } else {
            self.atoms.len()
        }
    }

    /// The texts, in the order of their atoms. It takes no memory.
    pub(crate) fn into_texts(self) -> Vec<Text>
        ensures list { result.items ≡ self }
        ensures apart { AreWithoutEquals self }
    {
        let MergedTexts { waiting, atoms } = self;
        if atoms.is_empty() {
            waiting
        } else {
            atoms.into_texts()
        }
    }
}
