//! A table of what each atom is bound to.

ghost use Rattle.std.specs.Prelude.{◌≡◌, [], ℕ, cond, length, map, IfOk, OnOk, nat_eq, Option};
ghost use Rattle.parse_track.specs.AtomTables.{entry, Says, SaysOutside};

use std::alloc::{AllocError, Global};

/// What each atom is bound to at present. Atoms are numbers from 0 on without gaps, so that the table takes memory in
/// proportion to the greatest atom that was bound: one serves a whole script, and what a scope binds is undone at its end.
#[derive(Drop)]
pub struct AtomTable<V: Copy> {
    pub entries: Vec<Option<V>>,
}

impl<V: Copy> AtomTable<V> {
    /// No atom is bound. It takes no memory.
    pub fn new(alloc: Global) -> AtomTable<V>
        ensures { result.entries.items ≡ [] }
    {
        AtomTable {
            entries: Vec::new(alloc),
        }
    }

    /// What an atom is bound to.
    pub fn get(&self, atom: u32) -> Option<V>
        ensures { result ≡ entry self.now.entries.items atom }
    {
        match self.entries.get(atom as usize) {
            Some(bound) => *bound,
            None => None,
        }
    }

    /// Binds an atom, or no longer where `bound` is None.
    pub fn set(&mut self, atom: u32, bound: Option<V>) -> Result<(), AllocError>
        ensures { OnOk result ((y : ℕ) → entry self.new.entries.items y ≡ cond (nat_eq atom y) bound (entry self.old.entries.items y)) }
    {
        let place = atom as usize;
        if place < self.entries.len() {
            self.entries[place] = bound;
            return Ok(());
        }
        self.entries.resize(place, None)?;
        self.entries.push(bound)?;
        Ok(())
    }
}

/// What these atoms are bound to.
pub fn look_up<V: Copy>(
    alloc: Global,
    table: &AtomTable<V>,
    atoms: &[u32],
) -> Result<Vec<Option<V>>, AllocError>
    ensures { IfOk result (λ saved. saved.items ≡ map (entry table.now.entries.items) atoms.now) }
{
    atoms.iter().map(|atom| table.get(*atom)).collect(alloc)
}

/// Binds these atoms to what they were bound to.
pub fn put_back<V: Copy>(
    table: &mut AtomTable<V>,
    atoms: &[u32],
    saved: &[Option<V>],
) -> Result<(), AllocError>
    requires { length atoms.now ≡ length saved.now }
    ensures { (tops : ℕ → Option V) → saved.now ≡ map tops atoms.now → SaysOutside table.old.entries.items atoms.now tops
        → OnOk result (Says table.new.entries.items tops) }
{
    for (atom, bound) in atoms.iter().zip(saved) {
        table.set(*atom, *bound)?;
    }
    Ok(())
}
