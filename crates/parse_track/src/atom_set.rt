//! A set of atoms that is used again and again.

ghost use Rattle.std.specs.Prelude.{◌≡◌, ◌<◌, ◌≤◌, ℕ, false, not, length, slice_index, IfOk, OnOk};
ghost use Rattle.parse_track.specs.AtomSets.{has_atom, Gains};

use std::alloc::{AllocError, Global};

/// A set of atoms. The atoms that it has are those that are marked with its version, so that it is emptied by a version more.
/// It takes memory in proportion to the greatest atom that it ever had.
#[derive(Drop)]
pub struct AtomSet {
    pub marks: Vec<u32>,
    pub version: u32,
    ghost some_version: { 0 < version },
    ghost marked_before: { (y : ℕ) → slice_index marks.items y ≤ version },
}

impl AtomSet {
    /// No atoms. It takes no memory.
    pub fn new(alloc: Global) -> AtomSet {
        AtomSet {
            marks: Vec::new(alloc),
            version: 1,
        }
    }

    /// The set has no atoms any more.
    pub fn clear(&mut self)
        ensures { (y : ℕ) → has_atom self.new.marks.items self.new.version y ≡ false }
    {
        if self.version < u32::MAX {
            self.version += 1;
            return;
        }
        self.marks.clear();
        self.version = 1;
    }

    // There is a mark for an atom. What the set has stays the same.
    fn reach(&mut self, atom: u32) -> Result<(), AllocError>
        ensures room { OnOk result (atom < length self.new.marks.items) }
        ensures same { (y : ℕ) → slice_index self.new.marks.items y ≡ slice_index self.old.marks.items y }
        ensures version { self.new.version ≡ self.old.version }
    {
        let place = atom as usize;
        if place < self.marks.len() {
            return Ok(());
        }
        self.marks.resize(place + 1, 0)?;
        Ok(())
    }

    /// Adds an atom, and says whether it is new.
    pub fn insert(&mut self, atom: u32) -> Result<bool, AllocError>
        ensures added { IfOk result (λ is_new. is_new ≡ not (has_atom self.old.marks.items self.old.version atom)) }
        ensures has { OnOk result (Gains atom (has_atom self.old.marks.items self.old.version) (has_atom self.new.marks.items self.new.version)) }
    {
        self.reach(atom)?;
        let place = atom as usize;
        let is_new = self.marks[place] != self.version;
        self.marks[place] = self.version;
        Ok(is_new)
    }

    /// Whether the set has an atom.
    pub fn contains(&self, atom: u32) -> bool
        ensures { result ≡ has_atom self.now.marks.items self.now.version atom }
    {
        match self.marks.get(atom as usize) {
            Some(mark) => *mark == self.version,
            None => false,
        }
    }
}
