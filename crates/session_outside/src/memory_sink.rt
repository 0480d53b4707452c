//! Sinks that keep what they take in memory.

ghost use Rattle.std.specs.Prelude.{◌≡◌, ℕ, ◌+◌, ◌-◌, ◌^◌, ◌<◌, ◌≤◌, [], Some};

use crate::calls::is_call_told;
use crate::sink::{Sink, SinkRefusal};
use std::alloc::Global;

/// A sink in memory that takes every piece whole and never fails.
#[derive(Drop)]
pub struct FirmSink {
    taken: Vec<u8>,
}

impl FirmSink {
    /// The sink that has taken nothing. It takes no memory; each piece takes some.
    pub fn new(alloc: Global) -> Self
        ensures taken { ⟦<FirmSink as Sink>⟧.taken result ≡ Some [] }
        ensures faults { ⟦<FirmSink as Sink>⟧.faults result ≡ 0 }
    {
        FirmSink {
            taken: Vec::new(alloc),
        }
    }

    /// What it has taken.
    pub fn bytes(&self) -> &[u8]
        ensures { Some result.now ≡ ⟦<FirmSink as Sink>⟧.taken self.now }
    {
        &self.taken
    }
}

impl Sink for FirmSink {
    ghost taken = { λ s. Some s.taken.items };

    ghost faults = { λ _. 0 };

    fn write(&mut self, piece: &[u8]) -> Result<usize, SinkRefusal> {
        match self.taken.extend_from_slice(piece) {
            Ok(()) => Ok(piece.len()),
            Err(_) => Err(SinkRefusal::NoMemory),
        }
    }
}

/// A sink in memory that takes only n bytes in one call, and whose calls fail as they are told to.
#[derive(Drop)]
pub struct VecSink {
    taken: Vec<u8>,
    most: usize,
    fail: Vec<u64>,
    calls: u64,
    faults: u64,
    ghost takes_some: { 0 < most },
}

impl VecSink {
    /// The sink that has taken nothing. A call takes the first `most` bytes of its piece, or all of a
    /// shorter one. The calls whose numbers are in `fail` fail; they are counted from 0, and the count
    /// stays at 2^64 - 1. It takes no memory; each piece takes some.
    pub fn new(alloc: Global, most: usize, fail: Vec<u64>) -> Self
        requires { 0 < most }
        ensures taken { ⟦<VecSink as Sink>⟧.taken result ≡ Some [] }
        ensures faults { ⟦<VecSink as Sink>⟧.faults result ≡ 0 }
    {
        VecSink {
            taken: Vec::new(alloc),
            most,
            fail,
            calls: 0,
            faults: 0,
        }
    }

    /// What it has taken.
    pub fn bytes(&self) -> &[u8]
        ensures { Some result.now ≡ ⟦<VecSink as Sink>⟧.taken self.now }
    {
        &self.taken
    }
}

impl Sink for VecSink {
    ghost taken = { λ s. Some s.taken.items };

    ghost faults = { λ s. s.faults };

    fn write(&mut self, piece: &[u8]) -> Result<usize, SinkRefusal> {
        if is_call_told(&self.fail, &mut self.calls) {
            self.faults += 1;
            return Err(SinkRefusal::Failed);
        }
        let count = piece.len().min(self.most);
        match self.taken.extend_from_slice(&piece[..count]) {
            Ok(()) => Ok(count),
            Err(_) => Err(SinkRefusal::NoMemory),
        }
    }
}
