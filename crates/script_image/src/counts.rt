//! How many instructions the scripts of a file have.

ghost use Rattle.std.specs.Prelude.{◌≡◌, ◌*◌, ◌≤◌, List, length, map, sum};
ghost use Rattle.stencil_data.specs.Named.{NamedMerged};
ghost use Rattle.stencil_data.specs.StandsFor.{MergedStandsFor};
ghost use Rattle.bytecode_buf.specs.Command.{Listed};
ghost use Rattle.bytecode_buf.specs.Layout as layout;
ghost use Rattle.script_image.specs.Listed.{ShowsListed, entry_size};
ghost use Rattle.script_image.specs.ScriptLines as lines;

use bytecode_buf::decode_at;
use stencil_data::{Entry, MergedStencil};

/// The number of the whole instructions of a code.
fn count_instructions(code: &[u8]) -> usize
    ensures { result ≡ length (layout.instructions code.now) }
{
    let mut count = 0;
    let mut at = 0;
    for _ in 0..code.len() {
        match decode_at(code, at) {
            None => return count,
            Some(instr) => {
                count += 1;
                at = instr.next;
            }
        }
    }
    count
}

/// The number of the instructions of an entry, 0 where it is not compiled.
fn entry_instructions(entry: &Entry) -> usize
    ensures { result ≡ entry_size entry.now }
{
    match entry {
        Entry::Lazy => 0,
        Entry::Compiled(script) => count_instructions(&script.code),
    }
}

/// The number of the instructions of all entries.
fn entries_instructions(entries: &[Entry]) -> u128
    ensures value { result ≡ sum (map entry_size entries.now) }
    ensures few { result ≤ length entries.now * 18446744073709551615 }
{
    let mut count = 0u128;
    for entry in entries {
        count += entry_instructions(entry) as u128;
    }
    count
}

/// The number of the instructions of all scripts of a merged stencil: of its top and of each function that is compiled. It
/// takes no memory.
pub fn instructions(merged: &MergedStencil) -> u128
    ensures { (named : NamedMerged (List Listed)) → MergedStandsFor ShowsListed merged.now named → result ≡ lines.instruction_count named }
{
    count_instructions(&merged.top.code) as u128 + entries_instructions(&merged.entries)
}
