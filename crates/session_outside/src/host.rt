//! The shelf over real files and the sink over standard output: the trusted edge.
//!
//! No clause says what a file holds or where the bytes of standard output go.

ghost use Rattle.std.specs.Prelude.{◌≡◌, ℕ, ◌+◌, ◌-◌, ◌^◌, ◌<◌, ◌≤◌, None, [], true, false, map, is_some};
ghost use Rattle.std.specs.String.{string_bytes};

use crate::memory_shelf::keep_name;
use crate::shelf::{Shelf, ShelfRefusal};
use crate::sink::{Sink, SinkRefusal};
use std::alloc::Global;
use std::fs;
use std::io::{ErrorKind, Read};
use std::rt::Files;

/// Real files, by their paths.
#[derive(Drop)]
pub struct FileShelf<'a, R: Files> {
    rt: &'a R,
    alloc: Global,
    file: Option<R::File>,
    names: Vec<String>,
    faults: u64,
}

impl<'a, R: Files> FileShelf<'a, R> {
    /// The shelf over the files of this runtime. It takes no memory; each name that it is turned to
    /// later takes some.
    pub fn new(rt: &'a R, alloc: Global) -> Self
        ensures held { ⟦<FileShelf<'a, R> as Shelf>⟧.held result ≡ None }
        ensures faults { ⟦<FileShelf<'a, R> as Shelf>⟧.faults result ≡ 0 }
        ensures turned { ⟦<FileShelf<'a, R> as Shelf>⟧.turned result ≡ [] }
        ensures closed { ⟦<FileShelf<'a, R> as Shelf>⟧.is_open result ≡ false }
    {
        FileShelf {
            rt,
            alloc,
            file: None,
            names: Vec::new(alloc),
            faults: 0,
        }
    }
}

impl<'a, R: Files> Shelf for FileShelf<'a, R> {
    ghost held = { λ _. None };

    ghost left = { λ _. None };

    ghost faults = { λ s. s.faults };

    ghost turned = { λ s. map string_bytes s.names.items };

    ghost is_open = { λ s. is_some s.file };

    fn turn_to(&mut self, name: &str) -> Result<(), ShelfRefusal> {
        if keep_name(self.alloc, &mut self.names, name).is_err() {
            return Err(ShelfRefusal::NoMemory);
        }
        match fs::open(self.rt, name) {
            Ok(file) => {
                self.file = Some(file);
                Ok(())
            }
            Err(_) => {
                self.file = None;
                self.faults += 1;
                Err(ShelfRefusal::Failed)
            }
        }
    }

    fn read(&mut self, into: &mut [u8]) -> Result<usize, ShelfRefusal> {
        let outcome = match &mut self.file {
            None => Ok(0),
            Some(file) => file.read(into),
        };
        match outcome {
            Ok(0) => {
                self.file = None;
                Ok(0)
            }
            Ok(count) => Ok(count),
            Err(_) => {
                self.file = None;
                self.faults += 1;
                Err(ShelfRefusal::Failed)
            }
        }
    }
}

/// Standard output.
#[derive(Drop)]
pub struct OutSink<'a, P: Print> {
    rt: &'a P,
    faults: u64,
}

impl<'a, P: Print> OutSink<'a, P> {
    /// The sink over the standard output of this runtime. It takes no memory.
    pub fn new(rt: &'a P) -> Self
        ensures taken { ⟦<OutSink<'a, P> as Sink>⟧.taken result ≡ None }
        ensures faults { ⟦<OutSink<'a, P> as Sink>⟧.faults result ≡ 0 }
    {
        OutSink { rt, faults: 0 }
    }
}

impl<'a, P: Print> Sink for OutSink<'a, P> {
    ghost taken = { λ _. None };

    ghost faults = { λ s. s.faults };

    fn write(&mut self, piece: &[u8]) -> Result<usize, SinkRefusal> {
        match self.rt.write_some(piece) {
            Ok(0) | Err(_) => {
                self.faults += 1;
                Err(SinkRefusal::Failed)
            }
            Ok(count) => Ok(count),
        }
    }
}
