//! Reading files whole.

ghost use Rattle.std.specs.Prelude.{◌≡◌, ℕ, ◌+◌, ◌-◌, ◌^◌, ◌<◌, ◌≤◌, true, [], ◌++◌, List, Some, length, map, IfOk, IfSome, OnOk};
ghost use Rattle.std.specs.String.{string_bytes};
ghost use Rattle.session_outside.specs.Shelf.{CountsShelf, TurnsToNext, TurnsToOpened, TurnsToRead};
ghost use Rattle.session_outside.specs.Loops.{AreLeft, EndsWithin, GoesOn, HasAtMost, HasLeft, HasRead, HaveAtMost, IsWholeBehind};
ghost use Rattle.session_outside.specs.Loops.{ReadsAllWithin, ReadsBehind, ReadsNameWithin, TurnsWithin, opened_within};

use crate::shelf::{Shelf, ShelfRefusal};
use std::alloc::Global;

/// The bytes that one call of `read` asks for.
const PIECE: usize = 8192;

/// Reads on until the end, or until there are more bytes than `most`: whether the end was reached.
fn read_rest<L: Shelf>(
    shelf: &mut L,
    buffer: &mut [u8],
    bytes: &mut Vec<u8>,
    most: usize,
) -> Result<bool, ShelfRefusal>
    requires counted { L.faults shelf.old < 2 ^ 64 - 1 }
    requires opened { L.is_open shelf.old ≡ true }
    requires room { 0 < length buffer.old }
    requires empty { bytes.old.items ≡ [] }
    requires most { most < 2 ^ 62 }
    ensures count { CountsShelf (L.faults shelf.old) (L.faults shelf.new) result }
    ensures names { L.turned shelf.new ≡ L.turned shelf.old }
    ensures same { L.held shelf.new ≡ L.held shelf.old }
    ensures within { IfOk result (λ ended. EndsWithin most ended bytes.new.items) }
    ensures whole { IfOk result (λ ended. HasRead (L.left shelf.old) most ended bytes.new.items) }
{
    loop {
        match shelf.read(buffer) {
            Ok(0) => return Ok(true),
            Ok(count) => {
                if bytes.extend_from_slice(&buffer[..count]).is_err() {
                    return Err(ShelfRefusal::NoMemory);
                }
                if bytes.len() > most {
                    return Ok(false);
                }
            }
            Err(ShelfRefusal::Failed) => return Err(ShelfRefusal::Failed),
            Err(ShelfRefusal::NoMemory) => return Err(ShelfRefusal::NoMemory),
        }
    }
}

/// Turns the shelf to `name` and reads the file whole: its bytes, or none where they are more than
/// `most`, of which reading stops soon.
pub fn read_file<L: Shelf>(
    alloc: Global,
    shelf: &mut L,
    name: &str,
    most: usize,
) -> Result<Option<Vec<u8>>, ShelfRefusal>
    requires counted { L.faults shelf.old < 2 ^ 64 - 1 }
    requires most { most < 2 ^ 62 }
    ensures count { CountsShelf (L.faults shelf.old) (L.faults shelf.new) result }
    ensures names { TurnsToRead (L.turned shelf.old) (L.turned shelf.new) name.now result }
    ensures same { L.held shelf.new ≡ L.held shelf.old }
    ensures within { IfOk result (HasAtMost most) }
    ensures read { IfOk result (ReadsNameWithin (L.held shelf.old) name.now most) }
{
    match shelf.turn_to(name) {
        Ok(()) => {}
        Err(ShelfRefusal::Failed) => return Err(ShelfRefusal::Failed),
        Err(ShelfRefusal::NoMemory) => return Err(ShelfRefusal::NoMemory),
    }
    let mut bytes = Vec::new(alloc);
    let mut buffer = [0; PIECE];
    match read_rest(shelf, &mut buffer, &mut bytes, most) {
        Ok(true) => Ok(Some(bytes)),
        Ok(false) => Ok(None),
        Err(ShelfRefusal::Failed) => Err(ShelfRefusal::Failed),
        Err(ShelfRefusal::NoMemory) => Err(ShelfRefusal::NoMemory),
    }
}

/// Reads the file of this name, of which no more bytes are wanted than are left; it is not opened where `left` is none.
fn read_next<L: Shelf>(
    alloc: Global,
    shelf: &mut L,
    name: &str,
    left: Option<usize>,
    most: usize,
) -> Result<Option<Vec<u8>>, ShelfRefusal>
    requires counted { L.faults shelf.old < 2 ^ 64 - 1 }
    requires most { most < 2 ^ 62 }
    requires few { IfSome left (λ l. l ≤ most) }
    ensures count { CountsShelf (L.faults shelf.old) (L.faults shelf.new) result }
    ensures names { TurnsToNext left (L.turned shelf.old) (L.turned shelf.new) name.now result }
    ensures same { L.held shelf.new ≡ L.held shelf.old }
    ensures within { IfOk result (HasLeft left) }
    ensures read { (before : ℕ) → AreLeft most before left → IfOk result (ReadsBehind (L.held shelf.old) name.now most before) }
{
    match left {
        Some(left) => read_file(alloc, shelf, name, left),
        None => Ok(None),
    }
}

/// How many bytes are left after a file that was read, none where there were too many.
fn left_behind(left: Option<usize>, read: &Option<Vec<u8>>) -> Option<usize>
    requires { HasLeft left read.now }
    ensures within { (most : ℕ) → IfSome left (λ l. l ≤ most) → IfSome result (λ l. l ≤ most) }
    ensures left { (most before : ℕ) (file : List ℕ) → AreLeft most before left → IsWholeBehind most before file read.now
        → AreLeft most (before + length file) result }
    ensures on { GoesOn left read.now result }
{
    match (left, read) {
        (Some(left), Some(bytes)) => Some(left - bytes.len()),
        _ => None,
    }
}

/// Turns the shelf to these names, one after another, and reads their files whole: of each its bytes, or none where the bytes
/// of the files up to it are more than `most`. Files after the first such are not opened.
pub fn read_files<L: Shelf>(
    alloc: Global,
    shelf: &mut L,
    names: &[String],
    most: usize,
) -> Result<Vec<Option<Vec<u8>>>, ShelfRefusal>
    requires counted { L.faults shelf.old < 2 ^ 64 - 1 }
    requires most { most < 2 ^ 62 }
    ensures count { CountsShelf (L.faults shelf.old) (L.faults shelf.new) result }
    ensures names { TurnsToOpened (L.turned shelf.old) (L.turned shelf.new) (map string_bytes names.now) result }
    ensures opened { (held : List ℕ → List ℕ) → L.held shelf.old ≡ Some held →
        TurnsWithin (L.turned shelf.old) (L.turned shelf.new) (opened_within most held 0 (map string_bytes names.now)) result }
    ensures same { L.held shelf.new ≡ L.held shelf.old }
    ensures within { IfOk result (λ reads. HaveAtMost most reads.items) }
    ensures read { IfOk result (λ reads. ReadsAllWithin (L.held shelf.old) (map string_bytes names.now) most reads.items) }
{
    let mut reads = Vec::new(alloc);
    let mut left = Some(most);
    for name in names {
        match read_next(alloc, shelf, name.as_str(), left, most) {
            Ok(read) => {
                left = left_behind(left, &read);
                match reads.push(read) {
                    Ok(()) => {}
                    Err(_) => return Err(ShelfRefusal::NoMemory),
                }
            }
            Err(ShelfRefusal::Failed) => return Err(ShelfRefusal::Failed),
            Err(ShelfRefusal::NoMemory) => return Err(ShelfRefusal::NoMemory),
        }
    }
    Ok(reads)
}
