//! Shelves that hold their files in memory.

ghost use Rattle.std.specs.Prelude.{◌≡◌, ℕ, ◌-◌, ◌^◌, ◌<◌, ◌≤◌, false, [], ◌∷◌, ◌++◌, map, length, take, drop, min, Some, None, OnOk};
ghost use Rattle.std.specs.Prelude.{OnErr, IfOk, IsTrue, ◌↔◌, ◌⊎◌};
ghost use Rattle.std.specs.String.{string_bytes};
ghost use Rattle.std.specs.Prelude.{true};
ghost use Rattle.session_outside.specs.Files.{bytes_at, held_by, place_of};

use crate::calls::is_call_told;
use crate::shelf::{Shelf, ShelfRefusal};
use std::alloc::{AllocError, Global};

type NamedBytes = (String, Vec<u8>);

/// The bytes of the file in a place of the list, none for no place.
fn bytes_at(files: &[NamedBytes], place: Option<usize>) -> &[u8]
    ensures { result.now ≡ bytes_at files.now place }
{
    match place {
        None => &[],
        Some(index) => match files.get(index) {
            None => &[],
            Some(file) => file.1.as_slice(),
        },
    }
}

/// The place of the first file of this name.
fn place_of(files: &[NamedBytes], name: &str) -> Option<usize>
    ensures { result ≡ place_of files.now name.now }
{
    files.iter().position(|file| file.0.as_str() == name)
}

/// Appends a copy of the name; after a refusal the list is as before.
pub(crate) fn keep_name(
    alloc: Global,
    names: &mut Vec<String>,
    name: &str,
) -> Result<(), AllocError>
    ensures kept { OnOk result (map string_bytes names.new.items ≡ map string_bytes names.old.items ++ name.now ∷ []) }
    ensures same { OnErr result (names.new.items ≡ names.old.items) }
{
    let copy = String::from_str(alloc, name)?;
    names.push(copy)?;
    Ok(())
}

/// Copies the front of `bytes` to the front of `into`, as much as fits, and answers how much.
fn copy_front(bytes: &[u8], into: &mut [u8]) -> usize
    ensures count { result ≡ min (length bytes.now) (length into.new) }
    ensures copied { take result into.new ≡ take result bytes.now }
{
    let count = bytes.len().min(into.len());
    into[..count].copy_from_slice(&bytes[..count]);
    count
}

/// What stands after the first `count` bytes, nothing where there are fewer.
fn bytes_behind(bytes: &[u8], count: usize) -> &[u8]
    ensures { result.now ≡ drop count bytes.now }
{
    if count < bytes.len() {
        &bytes[count..]
    } else {
        &[]
    }
}

/// Files in memory, with the place that is read: the file, how much of it was read, and whether it may
/// be read on.
#[derive(Drop)]
struct OpenFiles {
    files: Vec<NamedBytes>,
    place: Option<usize>,
    done: usize,
    is_open: bool,
    names: Vec<String>,
    alloc: Global,
}

impl OpenFiles {
    ghost use Rattle.session_outside.specs.OpenFiles.{left_of, names_of};

    fn new(alloc: Global, files: Vec<NamedBytes>) -> Self
        ensures files { result.files ≡ files }
        ensures names { names_of result ≡ [] }
        ensures closed { result.is_open ≡ false }
    {
        OpenFiles {
            files,
            place: None,
            done: 0,
            is_open: false,
            names: Vec::new(alloc),
            alloc,
        }
    }

    fn name_turned_to(&mut self, name: &str) -> Result<(), AllocError>
        ensures kept { OnOk result (names_of self.new ≡ names_of self.old ++ name.now ∷ []) }
        ensures same_names { OnErr result (names_of self.new ≡ names_of self.old) }
        ensures files { self.new.files ≡ self.old.files }
        ensures left { left_of self.new ≡ left_of self.old }
        ensures is_open { self.new.is_open ≡ self.old.is_open }
    {
        keep_name(self.alloc, &mut self.names, name)
    }

    fn close(&mut self)
        ensures names { names_of self.new ≡ names_of self.old }
        ensures files { self.new.files ≡ self.old.files }
        ensures closed { self.new.is_open ≡ false }
    {
        self.is_open = false;
    }

    /// Makes the file in this place the one that is read, from its beginning.
    fn open(&mut self, place: Option<usize>)
        ensures names { names_of self.new ≡ names_of self.old }
        ensures files { self.new.files ≡ self.old.files }
        ensures left { left_of self.new ≡ bytes_at self.old.files.items place }
        ensures opened { self.new.is_open ≡ true }
    {
        self.place = place;
        self.done = 0;
        self.is_open = true;
    }

    fn read(&mut self, into: &mut [u8]) -> usize
        requires { 0 < length into.old }
        ensures names { names_of self.new ≡ names_of self.old }
        ensures files { self.new.files ≡ self.old.files }
        ensures within { result ≤ length into.new }
        ensures ended { result ≡ 0 → left_of self.old ≡ [] }
        ensures copied { take result into.new ≡ take result (left_of self.old) }
        ensures left { left_of self.new ≡ drop result (left_of self.old) }
        ensures stays { IsTrue self.new.is_open ↔ (0 < result) }
    {
        let left = bytes_behind(bytes_at(&self.files, self.place), self.done);
        let count = copy_front(left, into);
        self.done += count;
        self.is_open = count > 0;
        count
    }
}

/// A shelf over files in memory that never fails: a missing name is an empty file.
#[derive(Drop)]
pub struct FirmShelf {
    open: OpenFiles,
}

impl FirmShelf {
    /// The shelf that holds these files, of equal names the first. It takes no memory; each name that
    /// it is turned to later takes some.
    pub fn new(alloc: Global, files: Vec<(String, Vec<u8>)>) -> Self
        ensures held { ⟦<FirmShelf as Shelf>⟧.held result ≡ Some (held_by files.items) }
        ensures faults { ⟦<FirmShelf as Shelf>⟧.faults result ≡ 0 }
        ensures turned { ⟦<FirmShelf as Shelf>⟧.turned result ≡ [] }
        ensures closed { ⟦<FirmShelf as Shelf>⟧.is_open result ≡ false }
    {
        FirmShelf {
            open: OpenFiles::new(alloc, files),
        }
    }
}

impl Shelf for FirmShelf {
    ghost use Rattle.session_outside.specs.OpenFiles.{left_of, names_of};

    ghost held = { λ s. Some (held_by s.open.files.items) };

    ghost left = { λ s. Some (left_of s.open) };

    ghost faults = { λ _. 0 };

    ghost turned = { λ s. names_of s.open };

    ghost is_open = { λ s. s.open.is_open };

    fn turn_to(&mut self, name: &str) -> Result<(), ShelfRefusal> {
        match self.open.name_turned_to(name) {
            Ok(()) => {
                let place = place_of(&self.open.files, name);
                self.open.open(place);
                Ok(())
            }
            Err(_) => Err(ShelfRefusal::NoMemory),
        }
    }

    fn read(&mut self, into: &mut [u8]) -> Result<usize, ShelfRefusal> {
        Ok(self.open.read(into))
    }
}

/// A shelf over files in memory whose calls fail as they are told to.
#[derive(Drop)]
pub struct MapShelf {
    open: OpenFiles,
    fail: Vec<u64>,
    calls: u64,
    faults: u64,
}

impl MapShelf {
    ghost use Rattle.std.specs.Prelude.{Contains, IsSome, List};
    ghost use Rattle.session_outside.specs.MapShelves.{HasName, IsTold};

    /// The shelf that holds these files, of equal names the first. The calls whose numbers are in
    /// `fail` fail, and so does each `turn_to` of a missing name; calls are counted from 0 over both
    /// methods, and the count stays at 2^64 - 1. It takes no memory; each name that it is turned to
    /// later takes some.
    pub fn new(alloc: Global, files: Vec<(String, Vec<u8>)>, fail: Vec<u64>) -> Self
        ensures held { ⟦<MapShelf as Shelf>⟧.held result ≡ Some (held_by files.items) }
        ensures faults { ⟦<MapShelf as Shelf>⟧.faults result ≡ 0 }
        ensures turned { ⟦<MapShelf as Shelf>⟧.turned result ≡ [] }
        ensures closed { ⟦<MapShelf as Shelf>⟧.is_open result ≡ false }
        ensures has { (name : List ℕ) → HasName result name ↔ IsSome (place_of files.items name) }
        ensures first { IsTold result ↔ Contains fail.items 0 }
    {
        MapShelf {
            open: OpenFiles::new(alloc, files),
            fail,
            calls: 0,
            faults: 0,
        }
    }
}

impl Shelf for MapShelf {
    ghost use Rattle.session_outside.specs.OpenFiles.{left_of, names_of};
    ghost use Rattle.session_outside.specs.MapShelves.{Counted, Fails, HasName, IsTold};
    ghost use Rattle.session_outside.specs.Shelf.{CountsShelf, AddsName, Opens, LeavesAfterTurn, StaysOpen, LeavesAfterRead};

    ghost held = { λ s. Some (held_by s.open.files.items) };

    ghost left = { λ s. Some (left_of s.open) };

    ghost faults = { λ s. s.faults };

    ghost turned = { λ s. names_of s.open };

    ghost is_open = { λ s. s.open.is_open };

    /// Fails at a name that is not there, and where it is told to.
    fn turn_to(&mut self, name: &str) -> Result<(), ShelfRefusal>
        requires { ⟦<MapShelf as Shelf>⟧.faults self.old < 2 ^ 64 - 1 }
        ensures count { CountsShelf (⟦<MapShelf as Shelf>⟧.faults self.old) (⟦<MapShelf as Shelf>⟧.faults self.new) result }
        ensures names { AddsName (⟦<MapShelf as Shelf>⟧.turned self.old) (⟦<MapShelf as Shelf>⟧.turned self.new) name.now result }
        ensures same { ⟦<MapShelf as Shelf>⟧.held self.new ≡ ⟦<MapShelf as Shelf>⟧.held self.old }
        ensures opens { Opens (⟦<MapShelf as Shelf>⟧.is_open self.old) (⟦<MapShelf as Shelf>⟧.is_open self.new) result }
        ensures leaves { LeavesAfterTurn (⟦<MapShelf as Shelf>⟧.held self.old) (⟦<MapShelf as Shelf>⟧.left self.old)
            (⟦<MapShelf as Shelf>⟧.left self.new) name.now result }
        ensures missing { ¬ HasName self.old name.now → Fails result }
        ensures told { IsTold self.old → Fails result }
        ensures failed { result ≡ Err ShelfRefusal.Failed → IsTold self.old ⊎ (¬ HasName self.old name.now) }
        ensures counted { Counted self.old self.new result }
    {
        if self.open.name_turned_to(name).is_err() {
            return Err(ShelfRefusal::NoMemory);
        }
        let told = is_call_told(&self.fail, &mut self.calls);
        let place = place_of(&self.open.files, name);
        if told || place.is_none() {
            self.open.close();
            self.faults += 1;
            return Err(ShelfRefusal::Failed);
        }
        self.open.open(place);
        Ok(())
    }

    /// Fails where it is told to.
    fn read(&mut self, into: &mut [u8]) -> Result<usize, ShelfRefusal>
        requires counted { ⟦<MapShelf as Shelf>⟧.faults self.old < 2 ^ 64 - 1 }
        requires opened { ⟦<MapShelf as Shelf>⟧.is_open self.old ≡ true }
        requires room { 0 < length into.old }
        ensures count { CountsShelf (⟦<MapShelf as Shelf>⟧.faults self.old) (⟦<MapShelf as Shelf>⟧.faults self.new) result }
        ensures names { ⟦<MapShelf as Shelf>⟧.turned self.new ≡ ⟦<MapShelf as Shelf>⟧.turned self.old }
        ensures same { ⟦<MapShelf as Shelf>⟧.held self.new ≡ ⟦<MapShelf as Shelf>⟧.held self.old }
        ensures within { IfOk result (λ n. n ≤ length into.new) }
        ensures stays { StaysOpen (⟦<MapShelf as Shelf>⟧.is_open self.old) (⟦<MapShelf as Shelf>⟧.is_open self.new) result }
        ensures leaves { LeavesAfterRead (⟦<MapShelf as Shelf>⟧.left self.old) (⟦<MapShelf as Shelf>⟧.left self.new) into.new result }
        ensures told { IsTold self.old → Fails result }
        ensures failed { result ≡ Err ShelfRefusal.Failed → IsTold self.old }
        ensures counted { Counted self.old self.new result }
    {
        if is_call_told(&self.fail, &mut self.calls) {
            self.open.close();
            self.faults += 1;
            return Err(ShelfRefusal::Failed);
        }
        Ok(self.open.read(into))
    }
}
