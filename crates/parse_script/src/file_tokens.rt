//! The tokens of a file, from its bytes.

ghost use Rattle.std.specs.Prelude.{◌≡◌, ◌≤◌, ◌<◌, ◌+◌, ◌-◌, ◌^◌, length, IfOk, IfErr, OnOk};
ghost use Rattle.std.specs.Str.{IsUtf8};
ghost use Rattle.unit_text.specs.Faults.{IsFaultOf};
ghost use Rattle.unit_text.specs.Points.{points};
ghost use Rattle.script_scanner.specs.Lexemes.{lexemes};
ghost use Rattle.script_scanner.specs.Stands.{StandFor, GainsOnly, HasOneLast, Keeps};
ghost use Rattle.script_scanner.specs.Tokens.{tokens};
ghost use Rattle.parse_script.specs.Tokens.{tokens_in, IsSound};

use parse_track::region::WellKnownAtoms;
use parser_atoms::Atoms;
use script_grammar::brackets::Brackets;
use script_grammar::compact::CompactToken;
use script_scanner::{scan, scan_ascii};
use std::alloc::Global;
use stencil_data::Text;
use track_atoms::known_words;
use unit_text::{DecodeFault, decode, is_ascii};

/// The tokens of a file, which of them match as brackets, and the texts that their atoms index; `known` has the atoms of the known words.
#[derive(Drop)]
pub struct FileTokens {
    pub tokens: Vec<CompactToken>,
    pub brackets: Brackets,
    pub texts: Vec<Text>,
    pub known: WellKnownAtoms,
}

/// The tokens of a file, the last of them End or Bad. Takes time and memory in proportion to the bytes.
pub fn tokens_of(alloc: Global, bytes: &[u8]) -> Result<FileTokens, DecodeFault>
    requires { length bytes.now ≤ 16777215 }
    ensures utf8 { OnOk result (IsUtf8 bytes.now) }
    ensures tokens { IfOk result (λ file. tokens_in file ≡ lexemes bytes.now) }
    ensures sound { IfOk result IsSound }
    ensures fault { IfErr result (IsFaultOf bytes.now) }
{
    let mut atoms = Atoms::new(alloc);
    let known = known_words(alloc, &mut atoms)?;
    let tokens = scan_file(alloc, bytes, &mut atoms)?;
    let texts = atoms.into_texts();
    let brackets = Brackets::of(alloc, &tokens)?;
    Ok(FileTokens {
        tokens,
        brackets,
        texts,
        known,
    })
}

/// The same, their texts interned in `atoms`. Most files are of ASCII alone, and are read without a list of their points.
#[tactic(auto, using(crate::proofs::AsciiFiles::ascii_points, crate::proofs::AsciiFiles::ascii_utf8))]
fn scan_file(
    alloc: Global,
    bytes: &[u8],
    atoms: &mut Atoms,
) -> Result<Vec<CompactToken>, DecodeFault>
    requires size { length bytes.now ≤ 16777215 }
    requires room { length bytes.now + length atoms.old < 2 ^ 32 - 1 }
    ensures utf8 { OnOk result (IsUtf8 bytes.now) }
    ensures tokens { IfOk result (λ made. StandFor atoms.new made.items (tokens (points bytes.now) 0 (length bytes.now))) }
    ensures last { IfOk result (λ made. HasOneLast made.items) }
    ensures gains { OnOk result (GainsOnly atoms.old atoms.new (tokens (points bytes.now) 0 (length bytes.now))) }
    ensures keeps { OnOk result (Keeps atoms.old atoms.new) }
    ensures fault { IfErr result (IsFaultOf bytes.now) }
{
    if is_ascii(bytes) {
        let tokens = scan_ascii(alloc, bytes, 0, atoms)?;
        return Ok(tokens);
    }
    let points = decode(alloc, bytes)?;
    let tokens = scan(alloc, &points, 0, bytes.len() as u32, atoms)?;
    Ok(tokens)
}
