//! Names and strings whose texts have atoms already. In most scripts nearly each of them has stood before, and then its code points
//! are compared with the text that stands there: no text is put together for it.
ghost use Rattle.std.specs.Prelude.{◌≡◌, ◌≤◌, ◌<◌, true, length, map, IfSome};
ghost use Rattle.unit_text.specs.Points.{code_of};
ghost use Rattle.unit_text.specs.Units.{text_units};
ghost use Rattle.script_scanner.specs.Blanks.{first_is};
ghost use Rattle.script_scanner.specs.Fronts.{BeginsName, IsQuoted};
ghost use Rattle.script_scanner.specs.Known.{IsKnown};
ghost use Rattle.script_scanner.specs.Names.{name_length};

use crate::names::Spelled;
use crate::parts::plain_front;
use crate::pieces::kind_of_name;
use crate::sources::Source;
use crate::words::word_at;
use parser_atoms::Atoms;
use script_grammar::token::Kind;

/// A name, a word or a string at the front of points, whose text has an atom.
#[derive(Clone, Copy, Debug, PartialEq, Eq)]
pub struct KnownToken {
    /// What it is.
    pub kind: Kind,
    /// The atom of its text.
    pub atom: u32,
    /// How many code points it takes.
    pub length: usize,
}

/// Whether code points are these units, each one of them. Where it answers no, they may still stand for the same text.
#[tactic(auto, using(crate::proofs::KnownLemmas::unit_more, crate::proofs::KnownLemmas::units_all))]
fn are_units<T: Source>(points: T, units: &[u16]) -> bool
    ensures { result ≡ true → text_units (map code_of (T.points points)) ≡ units.now }
{
    if points.count() != units.len() {
        return false;
    }
    for at in 0..units.len() {
        if points.point_at(at).code as u32 != u32::from(units[at]) {
            return false;
        }
    }
    true
}

/// The name at the front, of which this is known, where its text stands where the texts' guess is.
#[inline]
pub fn known_name<T: Source>(name: Spelled, rest: T, atoms: &Atoms) -> Option<KnownToken>
    requires begins { BeginsName (map code_of (T.points rest)) }
    requires long { name.length ≡ name_length (map code_of (T.points rest)) }
    requires positive { 0 < name.length }
    requires within { name.length ≤ length (T.points rest) }
    ensures value { IfSome result (IsKnown atoms.now (map code_of (T.points rest))) }
    ensures within { IfSome result (λ known. known.length ≤ length (T.points rest)) }
{
    let atom = atoms.guess(name.digest)?;
    let units = atoms.text(atom).units();
    if !are_units(rest.front(name.length), units) {
        return None;
    }
    Some(KnownToken {
        kind: kind_of_name(word_at(units)),
        atom,
        length: name.length,
    })
}

/// Whether this code point stands at the front.
#[inline]
fn begins_with<T: Source>(code: char, rest: T) -> bool
    ensures value { result ≡ first_is code (map code_of (T.points rest)) }
    ensures some { result ≡ true → 0 < length (T.points rest) }
{
    match rest.split_first() {
        None => false,
        Some((first, _)) => code == first.code,
    }
}

/// The string at the front, which this quote begins: where no escape stands in it, and its text stands where the texts' guess is.
pub fn known_string<T: Source>(quote: char, rest: T, atoms: &Atoms) -> Option<KnownToken>
    requires quoted { IsQuoted quote (map code_of (T.points rest)) }
    requires some { 0 < length (T.points rest) }
    ensures value { IfSome result (IsKnown atoms.now (map code_of (T.points rest))) }
    ensures within { IfSome result (λ known. known.length ≤ length (T.points rest)) }
{
    let others = rest.behind(1);
    let plain = plain_front(quote, others);
    if !begins_with(quote, others.behind(plain.length)) {
        return None;
    }
    let atom = atoms.guess(plain.digest)?;
    let units = atoms.text(atom).units();
    if !are_units(others.front(plain.length), units) {
        return None;
    }
    Some(KnownToken {
        kind: Kind::Str,
        atom,
        length: plain.length + 2,
    })
}
