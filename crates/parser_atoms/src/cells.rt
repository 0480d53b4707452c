//! Cells in which texts are found by their digests.
ghost use Rattle.std.specs.Prelude.{◌≡◌, ◌<◌, ◌/◌, ◌^◌, [], None, Some, IfOk, length, replicate, set};
ghost use Rattle.parser_atoms.specs.Indexed.{first_cell_of, first_of, second_cell_of, second_of};

use std::alloc::{AllocError, Global};

// What a cell has of its text.
#[derive(Clone, Copy)]
pub(crate) struct Entry {
    // The upper half of the text's digest.
    pub half: u32,
    // The text's place.
    pub place: u32,
}

// Some cells, each of one text or of none. A digest leads to two of them.
#[derive(Drop)]
pub(crate) struct Cells {
    pub entries: Vec<Option<Entry>>,
}

// The upper half of a digest.
#[inline]
pub(crate) fn upper_half(digest: u64) -> u32
    ensures { result ≡ digest / 2 ^ 32 }
{
    (digest / 4294967296) as u32
}

// The first cell of a digest, of so many.
#[inline]
fn first_cell(digest: u64, count: usize) -> usize
    requires { 0 < count }
    ensures is { result ≡ first_cell_of digest count }
    ensures within { result < count }
{
    (digest & (count as u64 - 1)) as usize
}

// The second one.
#[inline]
fn second_cell(digest: u64, count: usize) -> usize
    requires { 0 < count }
    ensures is { result ≡ second_cell_of digest count }
    ensures within { result < count }
{
    (digest / 4294967296 & (count as u64 - 1)) as usize
}

impl Cells {
    // No cells. It takes no memory.
    pub(crate) fn new(alloc: Global) -> Cells
        ensures { result.entries.items ≡ [] }
    {
        Cells {
            entries: Vec::new(alloc),
        }
    }

    // So many cells without texts.
    pub(crate) fn of(alloc: Global, count: usize) -> Result<Cells, AllocError>
        ensures { IfOk result (λ cells. cells.entries.items ≡ replicate count None) }
    {
        Ok(Cells {
            entries: vec![in alloc; None; count]?,
        })
    }

    // How many cells there are.
    #[inline]
    pub(crate) fn count(&self) -> usize
        ensures { result ≡ length self.now.entries.items }
    {
        self.entries.len()
    }

    // What the first cell of a digest has.
    #[inline]
    pub(crate) fn first(&self, digest: u64) -> Option<Entry>
        ensures { result ≡ first_of self.now.entries.items digest }
    {
        if self.entries.is_empty() {
            return None;
        }
        self.entries[first_cell(digest, self.entries.len())]
    }

    // What the second one has.
    #[inline]
    pub(crate) fn second(&self, digest: u64) -> Option<Entry>
        ensures { result ≡ second_of self.now.entries.items digest }
    {
        if self.entries.is_empty() {
            return None;
        }
        self.entries[second_cell(digest, self.entries.len())]
    }

    // Gives the first cell of a digest to a text.
    pub(crate) fn take_first(&mut self, digest: u64, entry: Entry)
        requires { 0 < length self.old.entries.items }
        ensures { self.new.entries.items ≡ set self.old.entries.items (first_cell_of digest (length self.old.entries.items)) (Some entry) }
    {
        let cell = first_cell(digest, self.entries.len());
        self.entries[cell] = Some(entry);
    }

    // Gives the second one to a text.
    pub(crate) fn take_second(&mut self, digest: u64, entry: Entry)
        requires { 0 < length self.old.entries.items }
        ensures { self.new.entries.items ≡ set self.old.entries.items (second_cell_of digest (length self.old.entries.items)) (Some entry) }
    {
        let cell = second_cell(digest, self.entries.len());
        self.entries[cell] = Some(entry);
    }
}
