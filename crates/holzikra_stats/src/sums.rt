//! Sums over the parts of a script.

ghost use Rattle.std.specs.Prelude.{◌≡◌, ◌*◌, ◌≤◌, length, map, sum};
ghost use Rattle.bytecode_buf.specs.Layout as layout;
ghost use Rattle.holzikra_stats.specs.Counts as counts;

use bytecode_buf::decode_at;
use stencil_data::{Entry, LazyRecord};

/// The number of the whole instructions of a code.
pub fn code_instructions(code: &[u8]) -> usize
    ensures { result ≡ length (layout.instructions code.now) }
{
    let mut count = 0;
    let mut at = 0;
    for _ in 0..code.len() {
        match decode_at(code, at) {
            None => return count,
            Some(instr) => {
                count += 1;
                at = instr.next;
            }
        }
    }
    count
}

/// The number of the names that are closed over, by these records.
pub(crate) fn closed_of(records: &[LazyRecord]) -> u128
    ensures { result ≡ sum (map counts.closed_names records.now) }
{
    let mut count = 0u128;
    for lazy in records {
        count += lazy.closed.len() as u128;
    }
    count
}

fn entry_instructions(entry: &Entry) -> usize
    ensures { result ≡ counts.entry_instructions entry.now }
{
    match entry {
        Entry::Lazy => 0,
        Entry::Compiled(part) => code_instructions(&part.code),
    }
}

/// The number of the instructions of entries.
pub(crate) fn instructions_of(entries: &[Entry]) -> u128
    ensures value { result ≡ sum (map counts.entry_instructions entries.now) }
    ensures few { result ≤ length entries.now * 18446744073709551615 }
{
    let mut count = 0u128;
    for entry in entries {
        count += entry_instructions(entry) as u128;
    }
    count
}

fn entry_bytes(entry: &Entry) -> usize
    ensures { result ≡ counts.entry_bytes entry.now }
{
    match entry {
        Entry::Lazy => 0,
        Entry::Compiled(part) => part.code.len(),
    }
}

/// The number of the bytes of the code of entries.
pub(crate) fn bytes_of(entries: &[Entry]) -> u128
    ensures value { result ≡ sum (map counts.entry_bytes entries.now) }
    ensures few { result ≤ length entries.now * 18446744073709551615 }
{
    let mut count = 0u128;
    for entry in entries {
        count += entry_bytes(entry) as u128;
    }
    count
}
