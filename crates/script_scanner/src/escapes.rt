//! Escapes in strings and templates.
ghost use Rattle.std.specs.Prelude.{◌≡◌, ◌≤◌, ◌<◌, ◌+◌, length, map, IfSome, not, ◌==◌};
ghost use Rattle.std.specs.List.{prefix_len};
ghost use Rattle.unit_text.specs.Points.{code_of};
ghost use Rattle.script_scanner.specs.Escapes.{begins_with_digit, is_hex_digit, hex_byte, hex_unit, braced_step, unicode_step};
ghost use Rattle.script_scanner.specs.Escapes.{single_escape, escape_step, value_step};
ghost use Rattle.script_scanner.specs.Fits.{StepFits};

use crate::blanks::{begins, is_line_end, line_end_length};
use crate::numbers::digits_value;
use crate::sources::Source;

/// What the code points at the front of a string's or a template's rest do.
#[derive(Clone, Copy, Debug, PartialEq, Eq)]
pub enum Step {
    /// Add a code point, or a lone surrogate.
    Add { code: u32, length: usize },
    /// Add nothing.
    Skip { length: usize },
    /// End it.
    Close { length: usize },
    /// Break it.
    Break,
}

/// Whether a decimal digit stands at the front.
pub fn begins_with_digit<T: Source>(rest: T) -> bool
    ensures { result ≡ begins_with_digit (map code_of (T.points rest)) }
{
    match rest.split_first() {
        None => false,
        Some((first, _)) => first.code.is_digit(10),
    }
}

/// The value of two hexadecimal digits at the front.
fn hex_byte<T: Source>(rest: T) -> Option<u32>
    ensures value { result ≡ hex_byte (map code_of (T.points rest)) }
    ensures small { IfSome result (λ value. value < 256) }
    ensures within { IfSome result (λ _. 2 ≤ length (T.points rest)) }
{
    match rest.split_first() {
        None => None,
        Some((first, others)) => match others.split_first() {
            None => None,
            Some((second, _)) => match (first.code.to_digit(16), second.code.to_digit(16)) {
                (Some(high), Some(low)) => Some(16 * high + low),
                _ => None,
            },
        },
    }
}

/// The value of four hexadecimal digits at the front.
#[tactic(auto, using(crate::proofs::Lists::map_drop))]
fn hex_unit<T: Source>(rest: T) -> Option<u32>
    ensures value { result ≡ hex_unit (map code_of (T.points rest)) }
    ensures small { IfSome result (λ value. value < 65536) }
    ensures within { IfSome result (λ _. 4 ≤ length (T.points rest)) }
{
    match hex_byte(rest) {
        None => None,
        Some(high) => match hex_byte(rest.behind(2)) {
            None => None,
            Some(low) => Some(256 * high + low),
        },
    }
}

/// How many hexadecimal digits stand at the front.
#[tactic(auto, using(crate::proofs::Lists::prefix_more, crate::proofs::Lists::prefix_stops, crate::proofs::Lists::prefix_ends))]
fn hex_length<T: Source>(rest: T) -> usize
    ensures value { result ≡ prefix_len is_hex_digit (map code_of (T.points rest)) }
    ensures within { result ≤ length (T.points rest) }
    ensures few { result ≤ 9223372036854775807 }
{
    let mut at = 0;
    while at < rest.count() && rest.point_at(at).code.is_digit(16) {
        at += 1;
    }
    at
}

/// What `\u{` and the text after it do.
#[tactic(auto, using(crate::proofs::Lists::map_take, crate::proofs::Lists::map_drop))]
fn braced_step<T: Source>(rest: T) -> Step
    ensures value { result ≡ braced_step (map code_of (T.points rest)) }
    ensures fits { StepFits (3 + length (T.points rest)) result }
{
    let count = hex_length(rest);
    if count == 0 {
        return Step::Break;
    }
    if !begins(rest.behind(count), b"}") {
        return Step::Break;
    }
    match digits_value(rest.front(count), 16) {
        None => Step::Break,
        Some(value) => {
            if value <= 0x10_FFFF {
                Step::Add {
                    code: value as u32,
                    length: 4 + count,
                }
            } else {
                Step::Break
            }
        }
    }
}

/// What `\u` and the text after it do.
#[tactic(auto, using(crate::proofs::Lists::map_drop))]
fn unicode_step<T: Source>(rest: T) -> Step
    ensures value { result ≡ unicode_step (map code_of (T.points rest)) }
    ensures fits { StepFits (2 + length (T.points rest)) result }
{
    if begins(rest, b"{") {
        return braced_step(rest.behind(1));
    }
    match hex_unit(rest) {
        None => Step::Break,
        Some(code) => Step::Add { code, length: 6 },
    }
}

/// What `\x` and the text after it do.
fn hex_step<T: Source>(rest: T) -> Step
    ensures value { result ≡ value_step (hex_byte (map code_of (T.points rest))) 4 }
    ensures fits { StepFits (2 + length (T.points rest)) result }
{
    match hex_byte(rest) {
        None => Step::Break,
        Some(code) => Step::Add { code, length: 4 },
    }
}

/// What an escape of one character stands for.
fn single_escape(letter: char) -> u32
    ensures value { result ≡ single_escape letter }
    ensures fits { result ≤ 0x10_FFFF }
{
    match letter {
        'b' => 0x8,
        't' => 0x9,
        'n' => 0xA,
        'v' => 0xB,
        'f' => 0xC,
        'r' => 0xD,
        _ => letter as u32,
    }
}

/// What a `\` and the text after it do.
pub fn escape_step<T: Source>(rest: T) -> Step
    ensures value { result ≡ escape_step (map code_of (T.points rest)) }
    ensures fits { StepFits (1 + length (T.points rest)) result }
{
    match rest.split_first() {
        None => Step::Break,
        Some((first, others)) => {
            let letter = first.code;
            if is_line_end(letter) {
                Step::Skip {
                    length: 1 + line_end_length(rest),
                }
            } else if letter.is_digit(10) {
                if letter == '0' && !begins_with_digit(others) {
                    Step::Add { code: 0, length: 2 }
                } else {
                    Step::Break
                }
            } else if letter == 'x' {
                hex_step(others)
            } else if letter == 'u' {
                unicode_step(others)
            } else {
                Step::Add {
                    code: single_escape(letter),
                    length: 2,
                }
            }
        }
    }
}
