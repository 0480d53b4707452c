//! Marks: the punctuators.
ghost use Rattle.std.specs.Prelude.{◌≡◌, ◌<◌, ◌≤◌, ◌+◌, ◌∷◌, find, option_map, length, map, IfSome, Some};
ghost use Rattle.unit_text.specs.Points.{code_of};
ghost use Rattle.script_scanner.specs.Marks.{mark_at, mark_from, sign_of};

use crate::blanks::begins;
use crate::escapes::begins_with_digit;
use crate::sources::Source;
use script_grammar::token::mark;

/// A mark at the front of a text.
#[derive(Clone, Copy, Debug, PartialEq, Eq)]
pub struct Sign {
    /// Its index.
    pub mark: u8,
    /// How many code points it takes.
    pub length: usize,
}

fn found(mark: u8, length: usize) -> Option<Sign>
    ensures { result ≡ Some (record { mark = mark; length = length }) }
{
    Some(Sign { mark, length })
}

/// The mark that begins with `<`, of what follows it.
#[tactic(auto, unfolding(crate::specs::Marks::mark_from))]
fn mark_with_less<T: Source>(others: T) -> Option<Sign>
    ensures { result ≡ option_map sign_of (mark_from 60 (map code_of (T.points others))) }
{
    if begins(others, b"!--") {
        return None;
    }
    if begins(others, b"<=") {
        return found(mark::LEFT_SHIFT_ASSIGN, 3);
    }
    if begins(others, b"=") {
        return found(mark::LESS_EQUAL, 2);
    }
    if begins(others, b"<") {
        return found(mark::LEFT_SHIFT, 2);
    }
    found(mark::LESS, 1)
}

/// The mark that begins with `>`, of what follows it.
#[tactic(auto, unfolding(crate::specs::Marks::mark_from))]
fn mark_with_greater<T: Source>(others: T) -> Option<Sign>
    ensures { result ≡ option_map sign_of (mark_from 62 (map code_of (T.points others))) }
{
    if begins(others, b">>=") {
        return found(mark::UNSIGNED_RIGHT_SHIFT_ASSIGN, 4);
    }
    if begins(others, b">>") {
        return found(mark::UNSIGNED_RIGHT_SHIFT, 3);
    }
    if begins(others, b">=") {
        return found(mark::RIGHT_SHIFT_ASSIGN, 3);
    }
    if begins(others, b"=") {
        return found(mark::GREATER_EQUAL, 2);
    }
    if begins(others, b">") {
        return found(mark::RIGHT_SHIFT, 2);
    }
    found(mark::GREATER, 1)
}

/// The mark that begins with `=`, of what follows it.
#[tactic(auto, unfolding(crate::specs::Marks::mark_from))]
fn mark_with_equals<T: Source>(others: T) -> Option<Sign>
    ensures { result ≡ option_map sign_of (mark_from 61 (map code_of (T.points others))) }
{
    if begins(others, b"==") {
        return found(mark::STRICT_EQUAL, 3);
    }
    if begins(others, b"=") {
        return found(mark::EQUAL, 2);
    }
    if begins(others, b">") {
        return found(mark::ARROW, 2);
    }
    found(mark::ASSIGN, 1)
}

/// The mark that begins with `!`, of what follows it.
#[tactic(auto, unfolding(crate::specs::Marks::mark_from))]
fn mark_with_bang<T: Source>(others: T) -> Option<Sign>
    ensures { result ≡ option_map sign_of (mark_from 33 (map code_of (T.points others))) }
{
    if begins(others, b"==") {
        return found(mark::STRICT_NOT_EQUAL, 3);
    }
    if begins(others, b"=") {
        return found(mark::NOT_EQUAL, 2);
    }
    found(mark::NOT, 1)
}

/// The mark that begins with `+`, of what follows it.
#[tactic(auto, unfolding(crate::specs::Marks::mark_from))]
fn mark_with_plus<T: Source>(others: T) -> Option<Sign>
    ensures { result ≡ option_map sign_of (mark_from 43 (map code_of (T.points others))) }
{
    if begins(others, b"+") {
        return found(mark::INCREMENT, 2);
    }
    if begins(others, b"=") {
        return found(mark::PLUS_ASSIGN, 2);
    }
    found(mark::PLUS, 1)
}

/// The mark that begins with `-`, of what follows it.
#[tactic(auto, unfolding(crate::specs::Marks::mark_from))]
fn mark_with_minus<T: Source>(others: T) -> Option<Sign>
    ensures { result ≡ option_map sign_of (mark_from 45 (map code_of (T.points others))) }
{
    if begins(others, b"-") {
        return found(mark::DECREMENT, 2);
    }
    if begins(others, b"=") {
        return found(mark::MINUS_ASSIGN, 2);
    }
    found(mark::MINUS, 1)
}

/// The mark that begins with `*`, of what follows it.
#[tactic(auto, unfolding(crate::specs::Marks::mark_from))]
fn mark_with_star<T: Source>(others: T) -> Option<Sign>
    ensures { result ≡ option_map sign_of (mark_from 42 (map code_of (T.points others))) }
{
    if begins(others, b"*=") {
        return found(mark::POWER_ASSIGN, 3);
    }
    if begins(others, b"*") {
        return found(mark::POWER, 2);
    }
    if begins(others, b"=") {
        return found(mark::TIMES_ASSIGN, 2);
    }
    found(mark::TIMES, 1)
}

/// The mark that begins with `/`, of what follows it.
#[tactic(auto, unfolding(crate::specs::Marks::mark_from))]
fn mark_with_slash<T: Source>(others: T) -> Option<Sign>
    ensures { result ≡ option_map sign_of (mark_from 47 (map code_of (T.points others))) }
{
    if begins(others, b"*") {
        return None;
    }
    if begins(others, b"=") {
        return found(mark::DIVIDE_ASSIGN, 2);
    }
    found(mark::DIVIDE, 1)
}

/// The mark that begins with `%`, of what follows it.
#[tactic(auto, unfolding(crate::specs::Marks::mark_from))]
fn mark_with_percent<T: Source>(others: T) -> Option<Sign>
    ensures { result ≡ option_map sign_of (mark_from 37 (map code_of (T.points others))) }
{
    if begins(others, b"=") {
        return found(mark::REMAINDER_ASSIGN, 2);
    }
    found(mark::REMAINDER, 1)
}

/// The mark that begins with `&`, of what follows it.
#[tactic(auto, unfolding(crate::specs::Marks::mark_from))]
fn mark_with_ampersand<T: Source>(others: T) -> Option<Sign>
    ensures { result ≡ option_map sign_of (mark_from 38 (map code_of (T.points others))) }
{
    if begins(others, b"&=") {
        return found(mark::AND_ASSIGN, 3);
    }
    if begins(others, b"&") {
        return found(mark::AND, 2);
    }
    if begins(others, b"=") {
        return found(mark::BIT_AND_ASSIGN, 2);
    }
    found(mark::BIT_AND, 1)
}

/// The mark that begins with `|`, of what follows it.
#[tactic(auto, unfolding(crate::specs::Marks::mark_from))]
fn mark_with_bar<T: Source>(others: T) -> Option<Sign>
    ensures { result ≡ option_map sign_of (mark_from 124 (map code_of (T.points others))) }
{
    if begins(others, b"|=") {
        return found(mark::OR_ASSIGN, 3);
    }
    if begins(others, b"|") {
        return found(mark::OR, 2);
    }
    if begins(others, b"=") {
        return found(mark::BIT_OR_ASSIGN, 2);
    }
    found(mark::BIT_OR, 1)
}

/// The mark that begins with `^`, of what follows it.
#[tactic(auto, unfolding(crate::specs::Marks::mark_from))]
fn mark_with_caret<T: Source>(others: T) -> Option<Sign>
    ensures { result ≡ option_map sign_of (mark_from 94 (map code_of (T.points others))) }
{
    if begins(others, b"=") {
        return found(mark::BIT_XOR_ASSIGN, 2);
    }
    found(mark::BIT_XOR, 1)
}

/// The mark that begins with `?`, of what follows it.
#[tactic(auto, unfolding(crate::specs::Marks::mark_from))]
fn mark_with_question<T: Source>(others: T) -> Option<Sign>
    ensures { result ≡ option_map sign_of (mark_from 63 (map code_of (T.points others))) }
{
    if begins(others, b"?=") {
        return found(mark::COALESCE_ASSIGN, 3);
    }
    if begins(others, b"?") {
        return found(mark::COALESCE, 2);
    }
    if begins(others, b".") && !begins_with_digit(others.behind(1)) {
        return found(mark::OPTIONAL_DOT, 2);
    }
    found(mark::QUESTION, 1)
}

/// The mark that begins with `.`, of what follows it.
#[tactic(auto, unfolding(crate::specs::Marks::mark_from))]
fn mark_with_dot<T: Source>(others: T) -> Option<Sign>
    ensures { result ≡ option_map sign_of (mark_from 46 (map code_of (T.points others))) }
{
    if begins(others, b"..") {
        return found(mark::ELLIPSIS, 3);
    }
    if begins_with_digit(others) {
        return None;
    }
    found(mark::DOT, 1)
}

/// The longest mark at the front of a text, if there is one.
pub fn mark_at<T: Source>(rest: T) -> Option<Sign>
    ensures value { result ≡ option_map sign_of (mark_at (map code_of (T.points rest))) }
    ensures within { IfSome result (λ sign. (0 < sign.length) × (sign.length ≤ length (T.points rest))) }
{
    match rest.split_first() {
        None => None,
        Some((first, _)) => mark_with(first.code, rest.behind(1)),
    }
}

/// The same, of a text that begins with this code point.
fn mark_with<T: Source>(first: char, others: T) -> Option<Sign>
    ensures { result ≡ option_map sign_of (mark_from first (map code_of (T.points others))) }
{
    match first {
        '{' => found(mark::OPEN_BRACE, 1),
        '}' => found(mark::CLOSE_BRACE, 1),
        '(' => found(mark::OPEN_PAREN, 1),
        ')' => found(mark::CLOSE_PAREN, 1),
        '[' => found(mark::OPEN_BRACKET, 1),
        ']' => found(mark::CLOSE_BRACKET, 1),
        ';' => found(mark::SEMICOLON, 1),
        ',' => found(mark::COMMA, 1),
        '<' => mark_with_less(others),
        '>' => mark_with_greater(others),
        '=' => mark_with_equals(others),
        '!' => mark_with_bang(others),
        '+' => mark_with_plus(others),
        '-' => mark_with_minus(others),
        '*' => mark_with_star(others),
        '/' => mark_with_slash(others),
        '%' => mark_with_percent(others),
        '&' => mark_with_ampersand(others),
        '|' => mark_with_bar(others),
        '^' => mark_with_caret(others),
        '~' => found(mark::BIT_NOT, 1),
        '?' => mark_with_question(others),
        ':' => found(mark::COLON, 1),
        '.' => mark_with_dot(others),
        _ => None,
    }
}
