//! What stands at the front of a text, where its first code point tells, or the two first: that is most of any script.
ghost use Rattle.std.specs.Prelude.{◌≡◌, ◌≢◌, ◌<◌, ◌∷◌, true, length, map};
ghost use Rattle.unit_text.specs.Points.{code_of};
ghost use Rattle.script_scanner.specs.Fronts.{StandsAt, EndsMark, BeginsEnded};
ghost use Rattle.script_scanner.specs.declared.fronts.Front.TheVariants.{Other};

use crate::sources::Source;
use script_grammar::token::mark;

/// What stands at the front of a text.
#[derive(Clone, Copy, Debug, PartialEq, Eq)]
pub enum Front {
    /// A line end of one code point.
    LineFeed,
    /// A name or a word.
    Name,
    /// A string, which this quote begins.
    Quote(char),
    /// The mark of this index, which takes one code point.
    Mark(u8),
    /// A `}`: a mark, unless a template goes on with it.
    Close,
    /// What more code points have to tell, or nothing.
    Other,
}

/// Whether a code point after the first of a mark is no part of that mark, whatever mark begins there.
#[inline]
fn ends_mark(code: char) -> bool
    ensures { result ≡ true → EndsMark code }
{
    match code {
        '!' => false,
        '&' => false,
        '*' => false,
        '+' => false,
        '-' => false,
        '.' => false,
        '/' => false,
        '<' => false,
        '=' => false,
        '>' => false,
        '?' => false,
        '|' => false,
        _ => true,
    }
}

/// Whether such a code point follows.
#[inline]
fn is_ended<T: Source>(others: T) -> bool
    ensures { result ≡ true → BeginsEnded (map code_of (T.points others)) }
{
    match others.split_first() {
        None => false,
        Some((next, _)) => ends_mark(next.code),
    }
}

/// The same of a text that begins with this code point, where it may be the first of a mark of several code points.
#[inline]
fn operator_with<T: Source>(first: char, others: T) -> Front
    ensures { StandsAt (first ∷ map code_of (T.points others)) result }
{
    if !is_ended(others) {
        return Front::Other;
    }
    match first {
        '=' => Front::Mark(mark::ASSIGN),
        '+' => Front::Mark(mark::PLUS),
        '-' => Front::Mark(mark::MINUS),
        '*' => Front::Mark(mark::TIMES),
        '<' => Front::Mark(mark::LESS),
        '>' => Front::Mark(mark::GREATER),
        '!' => Front::Mark(mark::NOT),
        '?' => Front::Mark(mark::QUESTION),
        _ => Front::Other,
    }
}

/// The same of a text that begins with this code point, where it is no letter.
#[inline]
fn front_with<T: Source>(first: char, others: T) -> Front
    ensures { StandsAt (first ∷ map code_of (T.points others)) result }
{
    match first {
        '\n' => Front::LineFeed,
        '(' => Front::Mark(mark::OPEN_PAREN),
        ')' => Front::Mark(mark::CLOSE_PAREN),
        ',' => Front::Mark(mark::COMMA),
        ';' => Front::Mark(mark::SEMICOLON),
        ':' => Front::Mark(mark::COLON),
        '[' => Front::Mark(mark::OPEN_BRACKET),
        ']' => Front::Mark(mark::CLOSE_BRACKET),
        '{' => Front::Mark(mark::OPEN_BRACE),
        '}' => Front::Close,
        '.' => dot_before(others),
        '"' => Front::Quote('"'),
        '\'' => Front::Quote('\''),
        '$' => Front::Name,
        '_' => Front::Name,
        _ => operator_with(first, others),
    }
}

/// The same of a text that begins with a dot.
#[inline]
fn dot_before<T: Source>(others: T) -> Front
    ensures { StandsAt (0x2E ∷ map code_of (T.points others)) result }
{
    match others.split_first() {
        None => Front::Other,
        Some((next, _)) => {
            if next.code == '.' {
                return Front::Other;
            }
            if next.code.is_digit(10) {
                return Front::Other;
            }
            Front::Mark(mark::DOT)
        }
    }
}

/// What stands at the front of a text.
#[inline]
pub fn front_at<T: Source>(rest: T) -> Front
    ensures value { StandsAt (map code_of (T.points rest)) result }
    ensures some { result ≢ Other → 0 < length (T.points rest) }
{
    match rest.split_first() {
        None => Front::Other,
        Some((first, _)) => {
            if first.code.is_ascii_alphabetic() {
                Front::Name
            } else {
                front_with(first.code, rest.behind(1))
            }
        }
    }
}
