//! One token: names, numbers, strings, template parts and marks.
ghost use Rattle.std.specs.Prelude.{◌≡◌, ◌≤◌, ◌<◌, ◌+◌, ◌++◌, ℕ, List, length, map, IfOk, IfSome, OnOk, Some};
ghost use Rattle.unit_text.specs.Points.{code_of};
ghost use Rattle.unit_text.specs.Units.{text_units};
ghost use Rattle.script_scanner.specs.Marks.{mark_at};
ghost use Rattle.script_scanner.specs.Numbers.{numeral_at};
ghost use Rattle.script_scanner.specs.Names.{name_length};
ghost use Rattle.script_scanner.specs.Parts.{body_of};
ghost use Rattle.script_scanner.specs.Tokens.{name_kind, name_piece, number_piece, string_piece, template_piece, mark_piece, token_at};
ghost use Rattle.script_scanner.specs.Reads.{FindsPiece};

use crate::marks::mark_at;
use crate::names::{is_name_start, spelled_name};
use crate::numbers::{is_spoiled_by, numeral_at};
use crate::parts::{Ending, push_code, read_body};
use crate::sources::Source;
use crate::words::word_at;
use script_grammar::compact::TokenValue;
use script_grammar::token::Kind;
use std::alloc::AllocError;

/// What a token has beside its kind.
#[derive(Clone, Copy, Debug)]
pub enum Content {
    /// The units in the scanner's buffer.
    Units,
    /// A number.
    Number(TokenValue),
    /// Nothing.
    Nothing,
}

/// A token at the front of a text.
#[derive(Clone, Copy, Debug)]
pub struct FoundToken {
    /// Its kind.
    pub kind: Kind,
    /// What it has beside its kind.
    pub content: Content,
    /// How many code points it takes.
    pub length: usize,
}

/// Appends the units of code points.
fn push_points<T: Source>(units: &mut Vec<u16>, points: T) -> Result<(), AllocError>
    ensures { OnOk result (units.new.items ≡ units.old.items ++ text_units (map code_of (T.points points))) }
{
    for at in 0..points.count() {
        push_code(units, points.point_at(at).code as u32)?;
    }
    Ok(())
}

/// A name, or a word where it is one.
pub fn kind_of_name(word: Option<u8>) -> Kind
    ensures { result ≡ name_kind word }
{
    match word {
        None => Kind::Name,
        Some(index) => Kind::Word(index),
    }
}

/// The name or word at the front, of so many code points.
pub fn name_piece<T: Source>(
    rest: T,
    count: usize,
    units: &mut Vec<u16>,
) -> Result<FoundToken, AllocError>
    requires long { count ≡ name_length (map code_of (T.points rest)) }
    requires positive { 0 < count }
    requires within { count ≤ length (T.points rest) }
    ensures value { IfOk result (λ found. FindsPiece (Some (name_piece (map code_of (T.points rest)))) (Some found) units.new.items) }
    ensures within { IfOk result (λ found. (0 < found.length) × (found.length ≤ length (T.points rest))) }
{
    units.clear();
    push_points(units, rest.front(count))?;
    Ok(FoundToken {
        kind: kind_of_name(word_at(units.as_slice())),
        content: Content::Units,
        length: count,
    })
}

/// The number at the front, where digits begin.
fn number_piece<T: Source>(rest: T) -> Option<FoundToken>
    requires { 0 < length (T.points rest) }
    ensures value { (units : List ℕ) → FindsPiece (number_piece (numeral_at (map code_of (T.points rest)))
        (map code_of (T.points rest))) result units }
    ensures within { IfSome result (λ found. (0 < found.length) × (found.length ≤ length (T.points rest))) }
{
    let numeral = numeral_at(rest);
    if is_spoiled_by(numeral.is_decimal, rest.behind(numeral.length)) {
        return None;
    }
    match numeral.value {
        None => None,
        Some(value) => Some(FoundToken {
            kind: Kind::Number,
            content: Content::Number(value),
            length: numeral.length,
        }),
    }
}

/// The string after its quote.
fn string_piece<T: Source>(
    quote: char,
    others: T,
    units: &mut Vec<u16>,
) -> Result<Option<FoundToken>, AllocError>
    ensures value { IfOk result (λ found. FindsPiece
        (string_piece (body_of (Ending.Quote quote) (map code_of (T.points others)))) found units.new.items) }
    ensures within { IfOk result (λ o. IfSome o (λ found. (0 < found.length) × (found.length ≤ 1 + length (T.points others)))) }
{
    match read_body(Ending::Quote(quote), others, units)? {
        None => Ok(None),
        Some(extent) => Ok(Some(FoundToken {
            kind: Kind::Str,
            content: Content::Units,
            length: 1 + extent.inner + extent.closing,
        })),
    }
}

/// The part of a template after what begins it: of the one kind where a backquote ends it, of the other where `${` does.
fn template_piece<T: Source>(
    whole: Kind,
    head: Kind,
    others: T,
    units: &mut Vec<u16>,
) -> Result<Option<FoundToken>, AllocError>
    ensures value { IfOk result (λ found. FindsPiece
        (template_piece whole head (body_of Ending.Template (map code_of (T.points others)))) found units.new.items) }
    ensures within { IfOk result (λ o. IfSome o (λ found. (0 < found.length) × (found.length ≤ 1 + length (T.points others)))) }
{
    match read_body(Ending::Template, others, units)? {
        None => Ok(None),
        Some(extent) => Ok(Some(FoundToken {
            kind: if extent.closing == 1 { whole } else { head },
            content: Content::Units,
            length: 1 + extent.inner + extent.closing,
        })),
    }
}

/// The mark at the front.
fn mark_piece<T: Source>(rest: T) -> Option<FoundToken>
    ensures value { (units : List ℕ) → FindsPiece (mark_piece (mark_at (map code_of (T.points rest)))) result units }
    ensures within { IfSome result (λ found. (0 < found.length) × (found.length ≤ length (T.points rest))) }
{
    match mark_at(rest) {
        None => None,
        Some(sign) => Some(FoundToken {
            kind: Kind::Mark(sign.mark),
            content: Content::Nothing,
            length: sign.length,
        }),
    }
}

/// The longest token at the front of points that are no blank; its units are left in the buffer.
pub fn token_at<T: Source>(
    rest: T,
    in_template: bool,
    units: &mut Vec<u16>,
) -> Result<Option<FoundToken>, AllocError>
    ensures value { IfOk result (λ found. FindsPiece (token_at in_template (map code_of (T.points rest))) found units.new.items) }
    ensures within { IfOk result (λ o. IfSome o (λ found. (0 < found.length) × (found.length ≤ length (T.points rest)))) }
{
    match rest.split_first() {
        None => Ok(None),
        Some((first, _)) => {
            let code = first.code;
            let others = rest.behind(1);
            if is_name_start(code) {
                let name = spelled_name(rest);
                let found = name_piece(rest, name.length, units)?;
                Ok(Some(found))
            } else if code.is_digit(10) {
                Ok(number_piece(rest))
            } else if (code == '"') | (code == '\'') {
                let found = string_piece(code, others, units)?;
                Ok(found)
            } else if code == '`' {
                let found = template_piece(Kind::TemplateWhole, Kind::TemplateHead, others, units)?;
                Ok(found)
            } else if (code == '}') & in_template {
                let found = template_piece(
                    Kind::TemplateTail,
                    Kind::TemplateMiddle,
                    others,
                    units,
                )?;
                Ok(found)
            } else {
                Ok(mark_piece(rest))
            }
        }
    }
}
