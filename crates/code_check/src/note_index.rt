//! The try notes by the offsets that they are around.
//!
//! The offsets of the code are the leaves of a binary tree: the leaf of an offset has the number `offset + size`, and
//! the node above a node has half its number. A note stands at nodes whose leaves together are those of the offsets
//! that it is around: two on each level at most. The notes of a node stand in a row, the least deep first.

ghost use Rattle.std.specs.Prelude.{◌≡◌, ◌+◌, ◌*◌, ◌/◌, ◌^◌, ◌<◌, ◌≤◌, [], None, length, replicate, IfOk, IfSome, IfNone, OnOk};
ghost use Rattle.std.specs.List.Sorted.{IsNonDecreasingBy, IsPermutation};
ghost use Rattle.code_check.specs.NoteIndex.{HoldsBack, Inserts, IsIndexed, Spreads, Takes, first_entry, with_entry, with_entry_if};

use std::alloc::{AllocError, Global};
use std::marker::Model;
use stencil_data::TryNote;

/// A note at a node, and the place of the one after it.
#[derive(Clone, Copy)]
pub(crate) struct Entry {
    pub note: usize,
    pub next: Option<usize>,
}

/// For each node the place of its first entry.
#[derive(Drop)]
pub(crate) struct NoteIndex {
    heads: Vec<Option<usize>>,
    entries: Vec<Entry>,
}

impl Model for NoteIndex {
    ghost use Rattle.code_check.specs.NoteIndex.{Index};

    ghost Value = { Index };

    ghost view = { λ index. record { heads = index.heads.items; entries = index.entries.items } };
}

/// The notes by rising depth.
pub(crate) fn sorted_notes(alloc: Global, notes: &[TryNote]) -> Result<Vec<TryNote>, AllocError>
    ensures same { IfOk result (λ sorted. IsPermutation notes.now sorted.items) }
    ensures sorted { IfOk result (λ sorted. IsNonDecreasingBy (λ note. note.depth) sorted.items) }
{
    let mut sorted = notes.to_vec(alloc)?;
    sorted.sort_unstable_by_key(|note| note.depth);
    Ok(sorted)
}

impl NoteIndex {
    /// The index of no notes, for code of this size.
    fn empty(alloc: Global, size: usize) -> Result<NoteIndex, AllocError>
        requires { 2 * size < 2 ^ 64 }
        ensures { IfOk result (λ index. index ≡ record { heads = replicate (2 * size) None; entries = [] }) }
    {
        Ok(NoteIndex {
            heads: vec![in alloc; None; 2 * size]?,
            entries: Vec::new(alloc),
        })
    }

    /// The index of notes by rising depth, for code of this size.
    pub(crate) fn new(
        alloc: Global,
        notes: &[TryNote],
        size: usize,
    ) -> Result<NoteIndex, AllocError>
        requires sorted { IsNonDecreasingBy (λ note. note.depth) notes.now }
        requires size { 2 * size < 2 ^ 64 }
        ensures { IfOk result (IsIndexed notes.now size (λ _. ⊥)) }
    {
        let mut index = NoteIndex::empty(alloc, size)?;
        let mut left = notes.len();
        while left > 0 {
            left -= 1;
            index.insert(left, notes[left])?;
        }
        Ok(index)
    }

    /// Puts the note that has this number at its nodes.
    fn insert(&mut self, number: usize, note: TryNote) -> Result<(), AllocError>
        ensures { OnOk result (Inserts number note self.old self.new) }
    {
        let size = self.heads.len() / 2;
        let end = note.end.min(size as u64);
        if note.start < end {
            self.spread(number, note.start as usize + size, end as usize + size)?;
        }
        Ok(())
    }

    /// Puts the note that has this number at nodes whose leaves together are those from `low` to below `high`.
    fn spread(&mut self, number: usize, low: usize, high: usize) -> Result<(), AllocError>
        requires { high ≤ length self.old.heads }
        ensures { OnOk result (Spreads number low high self.old self.new) }
    {
        let mut low = low;
        let mut high = high;
        while low < high {
            self.put_if(low % 2 == 1, low, number)?;
            self.put_if(high % 2 == 1, high - 1, number)?;
            low = (low + 1) / 2;
            high /= 2;
        }
        Ok(())
    }

    /// Puts the note that has this number at a node, if that is wanted.
    fn put_if(&mut self, is_wanted: bool, node: usize, number: usize) -> Result<(), AllocError>
        requires { node < length self.old.heads }
        ensures { OnOk result (self.new ≡ with_entry_if is_wanted node number self.old) }
    {
        if is_wanted {
            self.put(node, number)
        } else {
            Ok(())
        }
    }

    /// Puts the note that has this number at the front of a node's row.
    fn put(&mut self, node: usize, number: usize) -> Result<(), AllocError>
        requires { node < length self.old.heads }
        ensures { OnOk result (self.new ≡ with_entry node number self.old) }
    {
        let place = self.entries.len();
        let next = self.heads[node];
        self.entries.push(Entry { note: number, next })?;
        self.heads[node] = Some(place);
        Ok(())
    }

    /// The leaf of an offset.
    pub(crate) fn leaf(&self, at: usize) -> usize
        requires { 2 * at < length self.now.heads }
        ensures { result ≡ at + length self.now.heads / 2 }
    {
        at + self.heads.len() / 2
    }

    /// The first entry of a node.
    fn first(&self, node: usize) -> Option<Entry>
        ensures { result ≡ first_entry self.now node }
    {
        let place = self.heads.get(node).copied().flatten()?;
        self.entries.get(place).copied()
    }

    /// Takes the first note off a node's row, if it is no deeper than the stack.
    pub(crate) fn take(&mut self, notes: &[TryNote], node: usize, depth: u64) -> Option<TryNote>
        requires { node < length self.old.heads }
        ensures some { IfSome result (Takes notes.now node depth self.old self.new) }
        ensures none { IfNone result (HoldsBack notes.now node depth self.old self.new) }
    {
        let entry = self.first(node)?;
        let note = notes.get(entry.note).copied()?;
        if u64::from(note.depth) > depth {
            return None;
        }
        self.heads[node] = entry.next;
        Some(note)
    }
}
