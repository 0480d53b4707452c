//! The merger: the parts of a script, and functions of it one after another.

ghost use Rattle.std.specs.Prelude.{◌≡◌, ◌+◌, ◌-◌, ◌^◌, ◌<◌, ◌≤◌, ◌↔◌, ℕ, List, [], length, replicate, slice_index_or, IfOk, OnOk, OnErr, IsTrue};
ghost use Rattle.stencil_data.specs.declared.stencils.Entry.TheVariants as entry;
ghost use Rattle.parser_atoms.specs.Places.{AreWithoutEquals};
ghost use Rattle.stencil_merge.specs.Atoms.{known_count, with_known, AreAtoms, TakesIn};
ghost use Rattle.stencil_merge.specs.Merging as merging;
ghost use Rattle.stencil_merge.specs.Merging.{Adds, Begins, HasFunction, IsCompiled, Keeps, SameParts};

use crate::atoms::{own_places, with_known_places};
use crate::functions::outermost_of;
use crate::parts::{function_by, records_by};
use crate::texts::MergedTexts;
use std::alloc::{AllocError, Global};
use std::marker::Model;
use stencil_data::{Entry, FunctionStencil, InitialParts, LazyRecord, MergedStencil, Text};

/// A script with some of its functions compiled, in the making. Its texts have no equals.
///
/// A contract sees the merged stencil so far.
#[derive(Drop)]
pub struct Merger {
    texts: MergedTexts,
    top: FunctionStencil,
    records: Vec<LazyRecord>,
    entries: Vec<Entry>,
}

impl Model for Merger {
    ghost use Rattle.stencil_data.specs.MergedView.{MergedView};
    ghost use Rattle.stencil_merge.specs.Merging.{IsMerging};

    ghost Value = { MergedView };

    ghost view = { λ merger. record { texts = merger.texts; top = merger.top; records = merger.records.items; entries = merger.entries.items } };

    ghost invariant = { λ merger.
        IsMerging (record { texts = merger.texts; top = merger.top; records = merger.records.items; entries = merger.entries.items }) };
}

// The parts of a script whose texts have these atoms, none of its functions being compiled.
fn begin(
    alloc: Global,
    parts: &InitialParts,
    texts: MergedTexts,
    atoms: &[u32],
) -> Result<Merger, AllocError>
    requires few { length texts < 2 ^ 32 }
    requires records { length parts.now.records < 2 ^ 32 }
    requires apart { AreWithoutEquals texts }
    requires atoms { AreAtoms parts.now.texts texts atoms.now }
    ensures begins { IfOk result (Begins parts.now) }
    ensures texts { IfOk result (λ merger. merger.texts ≡ texts) }
    ensures records { IfOk result (λ merger. length merger.records ≡ length parts.now.records) }
{
    let outermost = outermost_of(alloc, &parts.records)?;
    let top = function_by(alloc, atoms, &outermost, &parts.top)?;
    let records = records_by(alloc, atoms, &parts.records)?;
    let entries = lazy_entries(alloc, records.len())?;
    Ok(Merger {
        texts,
        top,
        records,
        entries,
    })
}

// n functions, none of which is compiled.
fn lazy_entries(alloc: Global, count: usize) -> Result<Vec<Entry>, AllocError>
    ensures { IfOk result (λ entries. entries.items ≡ replicate count entry.Lazy) }
{
    let mut entries = Vec::with_capacity(alloc, count)?;
    for _ in 0..count {
        entries.push(Entry::Lazy)?;
    }
    Ok(entries)
}

// Whether a function is compiled.
fn is_compiled(entry: &Entry) -> bool
    ensures { IsTrue result ↔ IsCompiled entry.now }
{
    match entry {
        Entry::Lazy => false,
        Entry::Compiled(_) => true,
    }
}

impl Merger {
    /// Begins with the parts of a script that was compiled lazily: no function is compiled, and in the code of the script each
    /// function directly in it is named by its number, those being the ones that are in no other. Time is linear in the parts.
    /// Only memory can fail.
    pub fn new(alloc: Global, parts: &InitialParts) -> Result<Merger, AllocError>
        requires texts { length parts.now.texts < 2 ^ 32 - 1 }
        requires records { length parts.now.records < 2 ^ 32 }
        ensures begins { IfOk result (Begins parts.now) }
        ensures texts { IfOk result (λ merger. TakesIn [] parts.now.texts merger.texts) }
        ensures few { IfOk result (λ merger. length merger.texts ≤ length parts.now.texts) }
        ensures records { IfOk result (λ merger. length merger.records ≡ length parts.now.records) }
    {
        let mut texts = MergedTexts::new(alloc);
        let atoms = texts.intern_all(alloc, &parts.texts)?;
        begin(alloc, parts, texts, &atoms)
    }

    /// The same of parts whose texts have no equals, as those of a first pass: each text keeps its number. The texts are copied, and
    /// none is looked up before a function is added.
    pub fn of_apart(alloc: Global, parts: &InitialParts) -> Result<Merger, AllocError>
        requires texts { length parts.now.texts < 2 ^ 32 - 1 }
        requires records { length parts.now.records < 2 ^ 32 }
        requires apart { AreWithoutEquals parts.now.texts }
        ensures begins { IfOk result (Begins parts.now) }
        ensures same { IfOk result (λ merger. merger.texts ≡ parts.now.texts) }
        ensures records { IfOk result (λ merger. length merger.records ≡ length parts.now.records) }
    {
        let texts = MergedTexts::of(alloc, &parts.texts)?;
        let atoms = own_places(alloc, &parts.texts)?;
        begin(alloc, parts, texts, &atoms)
    }

    /// Takes a compiled function in, whose atoms are indexes into `texts`. In its code a function directly in it is named by its
    /// place; here it is named by its number. Where the function was added already, nothing changes. After an error there may be
    /// more texts, which no part names. Time is linear in the texts and the function. Only memory can fail.
    pub fn add(
        &mut self,
        alloc: Global,
        number: u32,
        stencil: &FunctionStencil,
        texts: &[Text],
    ) -> Result<(), AllocError>
        requires function { (1 ≤ number) × (number ≤ length self.old.records) }
        requires few { length self.old.texts + length texts.now < 2 ^ 32 - 1 }
        ensures adds { OnOk result (Adds number stencil.now texts.now self.old self.new) }
        ensures again { HasFunction self.old number → self.new ≡ self.old }

        ensures error { OnErr result (SameParts self.old self.new) }
        ensures keeps { OnErr result (Keeps self.old self.new) }

        ensures texts { TakesIn self.old.texts texts.now self.new.texts }
        ensures few { length self.new.texts ≤ length self.old.texts + length texts.now }
        ensures records { self.new.records ≡ self.old.records }
    {
        if self.has_function(number) {
            return Ok(());
        }
        let atoms = self.intern(alloc, texts)?;
        self.put(alloc, number, stencil, &atoms)
    }

    /// The same, where the first 7 texts here are the known words, which every list begins with, and the function's atoms are
    /// indexes into those and `behind` after them. The known words keep their atoms, and none of them is looked up.
    pub fn add_behind(
        &mut self,
        alloc: Global,
        number: u32,
        stencil: &FunctionStencil,
        behind: &[Text],
    ) -> Result<(), AllocError>
        requires function { (1 ≤ number) × (number ≤ length self.old.records) }
        requires known { known_count ≤ length self.old.texts }
        requires few { length self.old.texts + length (with_known self.old.texts behind.now) < 2 ^ 32 - 1 }
        ensures adds { OnOk result (Adds number stencil.now (with_known self.old.texts behind.now) self.old self.new) }
        ensures again { HasFunction self.old number → self.new ≡ self.old }

        ensures error { OnErr result (SameParts self.old self.new) }
        ensures keeps { OnErr result (Keeps self.old self.new) }

        ensures texts { TakesIn self.old.texts (with_known self.old.texts behind.now) self.new.texts }
        ensures few { length self.new.texts ≤ length self.old.texts + length (with_known self.old.texts behind.now) }
        ensures records { self.new.records ≡ self.old.records }
    {
        if self.has_function(number) {
            return Ok(());
        }
        let own = self.intern(alloc, behind)?;
        let atoms = with_known_places(alloc, &own)?;
        self.put(alloc, number, stencil, &atoms)
    }

    // Whether the function of this number is compiled.
    fn has_function(&self, number: u32) -> bool
        requires { (1 ≤ number) × (number ≤ length self.now.records) }
        ensures is { IsTrue result ↔ HasFunction self.now number }
        ensures apart { AreWithoutEquals self.now.texts }
    {
        is_compiled(&self.entries[number as usize - 1])
    }

    // Interns these texts, and answers their atoms. No part changes.
    fn intern(&mut self, alloc: Global, texts: &[Text]) -> Result<Vec<u32>, AllocError>
        requires few { length self.old.texts + length texts.now < 2 ^ 32 - 1 }
        ensures atoms { IfOk result (λ atoms. AreAtoms texts.now self.new.texts atoms.items) }
        ensures parts { SameParts self.old self.new }
        ensures keeps { Keeps self.old self.new }
        ensures texts { TakesIn self.old.texts texts.now self.new.texts }
        ensures few { length self.new.texts ≤ length self.old.texts + length texts.now }
    {
        self.texts.intern_all(alloc, texts)
    }

    // Fills the place of a function that is not compiled, by these atoms of its texts. After an error nothing has changed.
    fn put(
        &mut self,
        alloc: Global,
        number: u32,
        stencil: &FunctionStencil,
        atoms: &[u32],
    ) -> Result<(), AllocError>
        requires function { (1 ≤ number) × (number ≤ length self.old.records) }
        requires lacking { HasFunction self.old number → ⊥ }
        requires atoms { (texts : List (List ℕ)) × AreAtoms texts self.old.texts atoms.now }
        ensures adds { OnOk result ((texts : List (List ℕ)) → AreAtoms texts self.old.texts atoms.now
            → Adds number stencil.now texts self.old self.new) }
        ensures error { OnErr result (self.new ≡ self.old) }
        ensures texts { self.new.texts ≡ self.old.texts }
        ensures records { self.new.records ≡ self.old.records }
    {
        let place = number as usize - 1;
        let compiled = function_by(alloc, atoms, &self.records[place].inner, stencil)?;
        self.entries[place] = Entry::Compiled(compiled);
        Ok(())
    }

    /// How many texts there are.
    pub fn text_count(&self) -> usize
        ensures { result ≡ length self.now.texts }
    {
        self.texts.len()
    }

    /// How many functions the script has.
    pub fn function_count(&self) -> usize
        ensures { result ≡ length self.now.records }
    {
        self.records.len()
    }

    /// The merged stencil. It takes no memory.
    pub fn finish(self) -> MergedStencil
        ensures merged { result ≡ self }
        ensures apart { AreWithoutEquals result.texts }
    {
        let Merger {
            texts,
            top,
            records,
            entries,
        } = self;
        MergedStencil {
            texts: texts.into_texts(),
            top,
            records,
            entries,
        }
    }
}
