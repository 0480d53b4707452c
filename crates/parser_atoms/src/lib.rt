//! Atoms: texts without equals, each named by its place in their list.
//!
//! The scanner interns every name, word, string and template part here, so that the parsers compare numbers and
//! not texts; the merger of stencils interns the texts of all its parts. [`Atoms::intern`] answers the place of a
//! text, which it appends where it was not there.
//!
//! A text's digest, a number of 64 bits, leads to two cells, and the text has the first one that was free when it was put in. A text
//! both of whose cells others have is in a balanced tree that is ordered by the texts themselves. So interning n texts takes at
//! most n log n comparisons of texts, whatever the texts are: no text can be chosen that makes it slower, though the digest is
//! public. A text is stored once, unless it is in the tree too.
#![tactic(auto)]

mod cells;
mod index;

ghost use Rattle.std.specs.Prelude.{◌≡◌, ◌+◌, ◌-◌, ◌^◌, ◌<◌, ◌==◌, [], ◌∷◌, ◌++◌, IfOk, OnOk, IfSome, IfNone, OnErr, length, slice_get, Some};
ghost use Rattle.parser_atoms.specs.Digest.{digest_of, digest_step};
ghost use Rattle.parser_atoms.specs.Places.{AreWithoutEquals, Interns, StandsIn};

use index::Index;
use std::alloc::{AllocError, Global};
use std::marker::Model;
use stencil_data::Text;

/// Texts without equals, each named by its place in their list: its atom.
///
/// A contract sees the list of the texts.
#[derive(Drop)]
pub struct Atoms {
    texts: Vec<Text>,
    index: Index,
}

impl Model for Atoms {
    ghost use Rattle.std.specs.Prelude.{ℕ, List};
    ghost use Rattle.parser_atoms.specs.Indexed.{IsWhole};

    ghost Value = { List (List ℕ) };

    ghost view = { λ atoms. atoms.texts.items };

    ghost invariant = { λ atoms. IsWhole atoms.texts.items atoms.index.cells.entries.items atoms.index.others };
}

/// The digest of no units: Fowler, Noll and Vo's offset basis for 64 bits.
pub const EMPTY_DIGEST: u64 = 14695981039346656037;

// Their prime.
const PRIME: u64 = 1099511628211;

// How many texts there is room for at first.
const FIRST_ROOM: usize = 64;

/// The digest of a text with one unit more, of the text's own digest.
///
/// So who reads a text unit by unit has its digest with the last of them. A number above FFFF is no unit, and what it
/// makes of a digest is none.
#[inline]
pub fn digest_with(digest: u64, unit: u32) -> u64
    ensures { result ≡ digest_step digest unit }
{
    (digest ^ u64::from(unit)).wrapping_mul(PRIME)
}

// The digest of a text.
fn digest(units: &[u16]) -> u64
    ensures { result ≡ digest_of units.now }
{
    let mut digest = EMPTY_DIGEST;
    for unit in units {
        digest = digest_with(digest, u32::from(*unit));
    }
    digest
}

// Makes room for the first texts at once, where there are none yet. After an error all is as before.
fn make_first_room(texts: &mut Vec<Text>) -> Result<(), AllocError>
    ensures { texts.new.items ≡ texts.old.items }
{
    if texts.is_empty() {
        texts.reserve(FIRST_ROOM)?;
    }
    Ok(())
}

impl Atoms {
    /// No texts. It takes no memory.
    pub fn new(alloc: Global) -> Atoms
        ensures { result ≡ [] }
    {
        Atoms {
            texts: Vec::new(alloc),
            index: Index::new(alloc),
        }
    }

    /// The place of a text, which is appended where it was not there. After an error all is as before.
    pub fn intern(&mut self, alloc: Global, units: &[u16]) -> Result<u32, AllocError>
        requires { length self.old < 2 ^ 32 - 1 }
        ensures ok { IfOk result (Interns self.old self.new units.now) }
        ensures err { OnErr result (self.new ≡ self.old) }
        ensures apart { AreWithoutEquals self.new }
    {
        let digest = digest(units);
        match self.place(units, digest) {
            Some(place) => Ok(place),
            None => self.append(alloc, units, digest),
        }
    }

    /// A guess at the atom of the text with this digest: the atom of some text, for who asks to compare.
    ///
    /// It is mostly right where the text is there. It takes a few steps and no memory.
    #[inline]
    pub fn guess(&self, digest: u64) -> Option<u32>
        ensures { IfSome result (λ atom. atom < length self.now) }
    {
        let place = self.index.guess(digest)?;
        if (place as usize) < self.len() {
            Some(place)
        } else {
            None
        }
    }

    // The place of a text.
    fn place(&self, units: &[u16], digest: u64) -> Option<u32>
        requires digest { digest ≡ digest_of units.now }
        ensures found { IfSome result (λ place. slice_get self.now place ≡ Some units.now) }
        ensures absent { IfNone result (¬ (StandsIn self.now units.now)) }
        ensures apart { AreWithoutEquals self.now }
    {
        self.index.place(&self.texts, units, digest)
    }

    // Appends a text that is not there.
    fn append(&mut self, alloc: Global, units: &[u16], digest: u64) -> Result<u32, AllocError>
        requires few { length self.old < 2 ^ 32 - 1 }
        requires absent { ¬ (StandsIn self.old units.now) }
        requires digest { digest ≡ digest_of units.now }
        ensures place { IfOk result (λ atom. atom ≡ length self.old) }
        ensures ok { OnOk result (self.new ≡ self.old ++ units.now ∷ []) }
        ensures err { OnErr result (self.new ≡ self.old) }
    {
        make_first_room(&mut self.texts)?;
        self.index.make_room(alloc, &self.texts)?;
        let atom = self.texts.len() as u32;
        let text = Text::of(alloc, units)?;
        self.texts.push(text)?;
        match self.index.put(alloc, units, digest, atom) {
            Ok(()) => Ok(atom),
            Err(error) => {
                self.texts.truncate(atom as usize);
                Err(error)
            }
        }
    }

    /// The text of an atom. It takes no memory.
    #[inline]
    pub fn text(&self, atom: u32) -> &Text
        requires { atom < length self.now }
        ensures { slice_get self.now atom ≡ Some result.now }
    {
        &self.texts[atom as usize]
    }

    /// How many texts there are.
    pub fn len(&self) -> usize
        ensures { result ≡ length self.now }
    {
        self.texts.len()
    }

    /// Whether there are no texts.
    pub fn is_empty(&self) -> bool
        ensures { result ≡ (length self.now == 0) }
    {
        self.texts.is_empty()
    }

    /// The texts, in the order of their atoms, without room for more. It takes no memory.
    pub fn into_texts(self) -> Vec<Text>
        ensures list { result.items ≡ self }
        ensures apart { AreWithoutEquals self }
    {
        let Atoms {
            mut texts,
            index: _,
        } = self;
        texts.shrink_to_fit();
        texts
    }
}
