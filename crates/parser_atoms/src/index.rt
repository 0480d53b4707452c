//! The places of texts, found by their digests or else by the texts themselves.
ghost use Rattle.std.specs.Prelude.{◌≡◌, ◌<◌, ◌/◌, ◌^◌, [], IfOk, OnOk, OnErr, IfSome, IfNone, length, slice_get, Some, true, false};
ghost use Rattle.parser_atoms.specs.Digest.{digest_of};
ghost use Rattle.parser_atoms.specs.Indexed.{IsEntryIn, IsIndexed, IsWhole, Indexes};
ghost use Rattle.parser_atoms.specs.Places.{AreWithoutEquals, StandsIn};

use crate::cells::{Cells, Entry, upper_half};
use crate::digest;
use std::alloc::{AllocError, Global};
use std::collections::BTreeMap;
use stencil_data::Text;

// How many cells there are at first.
const FEWEST: usize = 128;

// The places of texts. A text's digest leads to two cells, and the text has the first one that was free when it was put in. A text
// both of whose cells others have is in a tree, which is balanced: so neither looking a text up nor putting one in takes more
// comparisons of texts than the logarithm of their number, a few at each level, whatever the texts are.
#[derive(Drop)]
pub(crate) struct Index {
    pub cells: Cells,
    pub others: BTreeMap<Vec<u16>, u32>,
}

// Whether an entry is that of a text.
#[inline]
fn is_of(entry: Entry, texts: &Vec<Text>, units: &[u16], half: u32) -> bool
    requires entry { IsEntryIn texts.now.items entry }
    requires half { half ≡ digest_of units.now / 2 ^ 32 }
    ensures same { result ≡ true → slice_get texts.now.items entry.place ≡ Some units.now }
    ensures other { result ≡ false → ¬ (slice_get texts.now.items entry.place ≡ Some units.now) }
{
    entry.half == half && texts[entry.place as usize].units() == units
}

impl Index {
    // No places. It takes no memory.
    pub(crate) fn new(alloc: Global) -> Index
        ensures { IsWhole [] result.cells.entries.items result.others }
    {
        Index {
            cells: Cells::new(alloc),
            others: BTreeMap::new(alloc),
        }
    }

    // The place of the first text to which a digest leads that has the same upper half.
    #[inline]
    pub(crate) fn guess(&self, digest: u64) -> Option<u32> {
        let half = upper_half(digest);
        let first = self.cells.first(digest)?;
        if first.half == half {
            return Some(first.place);
        }
        let second = self.cells.second(digest)?;
        if second.half == half {
            return Some(second.place);
        }
        None
    }

    // The place of a text among the texts. Its digest is `digest`.
    pub(crate) fn place(&self, texts: &Vec<Text>, units: &[u16], digest: u64) -> Option<u32>
        requires whole { IsWhole texts.now.items self.now.cells.entries.items self.now.others }
        requires digest { digest ≡ digest_of units.now }
        ensures found { IfSome result (λ place. slice_get texts.now.items place ≡ Some units.now) }
        ensures absent { IfNone result (¬ (StandsIn texts.now.items units.now)) }
    {
        let half = upper_half(digest);
        let first = self.cells.first(digest)?;
        if is_of(first, texts, units, half) {
            return Some(first.place);
        }
        let second = self.cells.second(digest)?;
        if is_of(second, texts, units, half) {
            return Some(second.place);
        }
        self.others.get(units).copied()
    }

    // Puts the place of the next text in. After an error all is as before.
    pub(crate) fn put(
        &mut self,
        alloc: Global,
        units: &[u16],
        digest: u64,
        place: u32,
    ) -> Result<(), AllocError>
        requires digest { digest ≡ digest_of units.now }
        requires some { 0 < length self.old.cells.entries.items }
        ensures ok { OnOk result (Indexes self.old.cells.entries.items self.old.others units.now place self.new.cells.entries.items self.new.others) }
        ensures count { OnOk result (length self.new.cells.entries.items ≡ length self.old.cells.entries.items) }
        ensures cells { OnErr result (self.new.cells.entries.items ≡ self.old.cells.entries.items) }
        ensures others { OnErr result (self.new.others.entries ≡ self.old.others.entries) }
    {
        let entry = Entry {
            half: upper_half(digest),
            place,
        };
        if self.cells.first(digest).is_none() {
            self.cells.take_first(digest, entry);
        } else if self.cells.second(digest).is_none() {
            self.cells.take_second(digest, entry);
        } else {
            let key = Vec::from_slice(alloc, units)?;
            self.others.insert(key, place)?;
        }
        Ok(())
    }

    // The places of all these texts, with so many cells.
    fn of(alloc: Global, texts: &Vec<Text>, cells: usize) -> Result<Index, AllocError>
        requires some { 0 < cells }
        requires apart { AreWithoutEquals texts.now.items }
        requires few { length texts.now.items < 2 ^ 32 }
        ensures whole { IfOk result (λ index. IsWhole texts.now.items index.cells.entries.items index.others) }
        ensures some { IfOk result (λ index. 0 < length index.cells.entries.items) }
    {
        let mut index = Index {
            cells: Cells::of(alloc, cells)?,
            others: BTreeMap::new(alloc),
        };
        for place in 0..texts.len() {
            let units = texts[place].units();
            index.put(alloc, units, digest(units), place as u32)?;
        }
        Ok(index)
    }

    // Makes four times as many cells where they are not more than twice the texts. After an error they are as before.
    pub(crate) fn make_room(&mut self, alloc: Global, texts: &Vec<Text>) -> Result<(), AllocError>
        requires { IsWhole texts.now.items self.old.cells.entries.items self.old.others }
        ensures whole { IsWhole texts.now.items self.new.cells.entries.items self.new.others }
        ensures some { OnOk result (0 < length self.new.cells.entries.items) }
    {
        if texts.len().saturating_mul(2) < self.cells.count() {
            return Ok(());
        }
        let cells = self.cells.count().saturating_mul(4).max(FEWEST);
        *self = Index::of(alloc, texts, cells)?;
        Ok(())
    }
}
