//! Names.
ghost use Rattle.std.specs.Prelude.{◌≡◌, ◌≤◌, ◌<◌, true, length, map};
ghost use Rattle.unit_text.specs.Points.{code_of};
ghost use Rattle.script_scanner.specs.Names.{is_name_start, is_name_part, name_length};

use crate::sources::Source;
use parser_atoms::{EMPTY_DIGEST, digest_with};

/// Whether a name may begin with a code point (ECMA-262, 12th edition, clause 12.6: IdentifierStartChar).
#[tactic(auto, using(crate::proofs::NameLemmas::start_ascii, crate::proofs::NameLemmas::start_other))]
pub fn is_name_start(code: char) -> bool
    ensures { result ≡ is_name_start code }
{
    if code < '\u{80}' {
        code.is_ascii_alphabetic() | (code == '$') | (code == '_')
    } else {
        unicode_ident::is_xid_start(code)
    }
}

/// Whether a code point is a small letter of ASCII. Most that stand in names are.
#[inline]
fn is_small_letter(code: char) -> bool
    ensures { result ≡ true → (0x61 ≤ code) × (code ≤ 0x7A) }
{
    ('a' <= code) & (code <= 'z')
}

/// Whether a name may go on with a code point (IdentifierPartChar). Most that end one stand before the digits.
#[inline]
#[tactic(auto, using(crate::proofs::NameLemmas::part_small, crate::proofs::NameLemmas::part_low, crate::proofs::NameLemmas::part_middle, crate::proofs::NameLemmas::part_other))]
pub fn is_name_part(code: char) -> bool
    ensures { result ≡ is_name_part code }
{
    if is_small_letter(code) {
        return true;
    }
    if code < '0' {
        return code == '$';
    }
    if code < '\u{80}' {
        code.is_ascii_alphanumeric() | (code == '_')
    } else {
        unicode_ident::is_xid_continue(code) | (code == '\u{200C}') | (code == '\u{200D}')
    }
}

/// Code points at the front of others, and the digest of their text.
#[derive(Clone, Copy, Debug, PartialEq, Eq)]
pub struct Spelled {
    /// How many code points they are.
    pub length: usize,
    /// The digest of their text, where each of them is one unit.
    pub digest: u64,
}

/// The name that begins with the first code point.
#[tactic(auto, using(crate::proofs::NameLemmas::name_begins, crate::proofs::Lists::prefix_more, crate::proofs::Lists::prefix_stops, crate::proofs::Lists::prefix_ends))]
pub fn spelled_name<T: Source>(rest: T) -> Spelled
    requires { 0 < length (T.points rest) }
    ensures value { result.length ≡ name_length (map code_of (T.points rest)) }
    ensures positive { 0 < result.length }
    ensures within { result.length ≤ length (T.points rest) }
{
    let mut length = 1;
    let mut digest = digest_with(EMPTY_DIGEST, rest.point_at(0).code as u32);
    while length < rest.count() {
        let code = rest.point_at(length).code;
        if !is_name_part(code) {
            break;
        }
        digest = digest_with(digest, code as u32);
        length += 1;
    }
    Spelled { length, digest }
}
