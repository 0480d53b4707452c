//! What a part of an image is: its bytes, and how it is read from the beginning of bytes.

ghost use Rattle.std.specs.Prelude.{◌≡◌, ◌<◌, ◌↔◌, ℕ, [], ◌++◌, List, length, IfNone, IfSome, IsTrue};
ghost use Rattle.stencil_xdr_read.specs.Reading as part;
ghost use Rattle.stencil_xdr_read.specs.Reading.{Reads};
ghost use Rattle.stencil_xdr_read.specs.Unique as unique_parts;

use crate::fault::ImageFault;
use std::alloc::Global;
use std::marker::Model;

/// Bytes of which a front was read: contracts see those that are left.
#[derive(Drop)]
pub(crate) struct Reader<'a> {
    rest: &'a [u8],
}

impl<'a> Model for Reader<'a> {
    ghost use Rattle.std.specs.Prelude.{ℕ, List};

    ghost Value = { List ℕ };

    ghost view = { λ reader. reader.rest.now };
}

impl<'a> Reader<'a> {
    /// All bytes are left.
    pub fn new(bytes: &'a [u8]) -> Reader<'a>
        ensures { result ≡ bytes.now }
    {
        Reader { rest: bytes }
    }

    /// Whether no bytes are left.
    pub fn is_done(&self) -> bool
        ensures { IsTrue result ↔ (self.now ≡ []) }
    {
        self.rest.is_empty()
    }

    /// n bytes from the beginning of those that are left; `None` where fewer are left.
    pub fn take(&mut self, count: u64) -> Option<&'a [u8]>
        ensures none { IfNone result (length self.old < count) }
        ensures front { IfSome result (λ front. self.old ≡ front.now ++ self.new) }
        ensures count { IfSome result (λ front. length front.now ≡ count) }
    {
        if (self.rest.len() as u64) < count {
            return None;
        }
        let (front, rest) = self.rest.split_at(count as usize);
        self.rest = rest;
        Some(front)
    }
}

/// A part of an image.
pub(crate) trait Part: Sized + Drop {
    ghost bytes: { Self → List ℕ };

    ghost fits: { Self → Type 0 };

    /// Reads a part from the beginning of the bytes that are left.
    fn read(alloc: Global, reader: &mut Reader<'_>) -> Result<Self, ImageFault>
        ensures { Reads bytes fits reader.old reader.new result };

    ghost unique: { (x y : Self) (r s : List ℕ) → fits x → fits y → bytes x ++ r ≡ bytes y ++ s → (x ≡ y) × (r ≡ s) };
}

impl Part for u8 {
    ghost bytes = { part.byte };

    ghost fits = { part.IsByte };

    ghost unique = { unique_parts.unique_bytes };

    fn read(_alloc: Global, reader: &mut Reader<'_>) -> Result<u8, ImageFault> {
        match reader.rest.split_first() {
            None => Err(ImageFault::NoImage),
            Some((first, rest)) => {
                reader.rest = rest;
                Ok(*first)
            }
        }
    }
}

// One after the other.
impl<A: Part, B: Part> Part for (A, B) {
    ghost bytes = { part.pair_bytes A.bytes B.bytes };

    ghost fits = { part.FitPair A.fits B.fits };

    ghost unique = { unique_parts.unique_pairs A.bytes A.fits B.bytes B.fits A.unique B.unique };

    fn read(alloc: Global, reader: &mut Reader<'_>) -> Result<(A, B), ImageFault> {
        let first = A::read(alloc, reader)?;
        let second = B::read(alloc, reader)?;
        Ok((first, second))
    }
}

// A byte that says whether there is one.
impl<P: Part> Part for Option<P> {
    ghost bytes = { part.maybe_bytes P.bytes };

    ghost fits = { part.FitMaybe P.fits };

    ghost unique = { unique_parts.unique_maybes P.bytes P.fits P.unique };

    fn read(alloc: Global, reader: &mut Reader<'_>) -> Result<Option<P>, ImageFault> {
        match u8::read(alloc, reader)? {
            0 => Ok(None),
            1 => {
                let there = P::read(alloc, reader)?;
                Ok(Some(there))
            }
            _ => Err(ImageFault::NoImage),
        }
    }
}
