//! Numbers: digits in four bases.
ghost use Rattle.std.specs.Prelude.{◌≡◌, ◌≤◌, ◌<◌, ◌+◌, ℕ, length, map, take, IfSome, Some, ◌==◌, ◌||◌};
ghost use Rattle.unit_text.specs.Points.{code_of};
ghost use Rattle.script_scanner.specs.Numbers.{digit_length, more_digits, digits_value, with_digit, radix_of, with_radix, after_zero};
ghost use Rattle.script_scanner.specs.Numbers.{numeral_at, is_spoiled_by, zero_literal};

use crate::names::is_name_start;
use crate::sources::Source;
use script_grammar::compact::TokenValue;

/// The greatest value of a literal: 2^53 - 1.
const MAX_VALUE: u64 = 9_007_199_254_740_991;

/// A numeric literal.
#[derive(Clone, Copy, Debug)]
pub struct Numeral {
    /// How many code points it takes.
    pub length: usize,
    /// Its value, if that is at most 2^53 - 1.
    pub value: Option<TokenValue>,
    /// Whether it has no letter for its base.
    pub is_decimal: bool,
}

/// How many code points one more digit takes, with the `_` before it; 0 where none follows.
#[inline]
fn digit_length<T: Source>(rest: T, radix: u32) -> usize
    requires low { 2 ≤ radix }
    requires high { radix ≤ 36 }
    ensures value { result ≡ digit_length radix (map code_of (T.points rest)) }
    ensures within { result ≤ length (T.points rest) }
{
    match rest.split_first() {
        None => 0,
        Some((first, others)) => {
            if first.code.is_digit(radix) {
                return 1;
            }
            match others.split_first() {
                None => 0,
                Some((second, _)) => {
                    if first.code == '_' && second.code.is_digit(radix) {
                        2
                    } else {
                        0
                    }
                }
            }
        }
    }
}

/// How many code points the digits take that follow a digit.
#[inline]
fn more_digits<T: Source>(rest: T, radix: u32) -> usize
    requires low { 2 ≤ radix }
    requires high { radix ≤ 36 }
    ensures value { result ≡ more_digits radix (map code_of (T.points rest)) }
    ensures within { result ≤ length (T.points rest) }
{
    let mut at = 0;
    while at < rest.count() {
        let taken = digit_length(rest.behind(at), radix);
        if taken == 0 {
            return at;
        }
        at += taken;
    }
    at
}

/// The value so far, with one more digit.
#[inline]
fn with_digit(value: u64, radix: u32, code: char) -> u64
    requires low { 2 ≤ radix }
    requires high { radix ≤ 36 }
    requires small { value ≤ 9007199254740991 }
    ensures { result ≡ with_digit radix value code }
{
    match code.to_digit(radix) {
        None => value,
        Some(digit) => value * u64::from(radix) + u64::from(digit),
    }
}

/// The value of digits, if it is at most 2^53 - 1.
#[inline]
#[tactic(auto, using(crate::proofs::NumberLemmas::value_next, crate::proofs::NumberLemmas::value_all))]
pub fn digits_value<T: Source>(digits: T, radix: u32) -> Option<u64>
    requires low { 2 ≤ radix }
    requires high { radix ≤ 36 }
    ensures value { result ≡ digits_value radix (map code_of (T.points digits)) }
    ensures small { IfSome result (λ value. value ≤ 9007199254740991) }
{
    let mut value = 0;
    for at in 0..digits.count() {
        value = with_digit(value, radix, digits.point_at(at).code);
        if value > MAX_VALUE {
            return None;
        }
    }
    Some(value)
}

/// The value of a literal, as a token has it.
#[inline]
fn whole_of<T: Source>(digits: T, radix: u32) -> Option<TokenValue>
    requires low { 2 ≤ radix }
    requires high { radix ≤ 36 }
    ensures { result ≡ digits_value radix (map code_of (T.points digits)) }
{
    match digits_value(digits, radix) {
        None => None,
        Some(value) => Some(TokenValue::new(value)),
    }
}

/// The base that a letter after a leading `0` gives.
fn radix_of(letter: char) -> Option<u32>
    ensures value { result ≡ radix_of letter }
    ensures low { IfSome result (λ radix. 2 ≤ radix) }
    ensures high { IfSome result (λ radix. radix ≤ 36) }
{
    if (letter == 'x') | (letter == 'X') {
        Some(16)
    } else if (letter == 'o') | (letter == 'O') {
        Some(8)
    } else if (letter == 'b') | (letter == 'B') {
        Some(2)
    } else {
        None
    }
}

fn zero_literal() -> Numeral
    ensures { result ≡ zero_literal }
{
    Numeral {
        length: 1,
        value: Some(TokenValue::new(0)),
        is_decimal: true,
    }
}

/// A literal of this base, of what follows `0` and a letter, or the `0` alone.
#[tactic(auto, using(crate::proofs::Lists::map_take))]
fn with_radix<T: Source>(radix: u32, rest: T) -> Numeral
    requires low { 2 ≤ radix }
    requires high { radix ≤ 36 }
    ensures value { result ≡ with_radix (Some radix) (map code_of (T.points rest)) }
    ensures positive { 0 < result.length }
    ensures within { result.length ≤ 2 + length (T.points rest) }
{
    match rest.split_first() {
        None => zero_literal(),
        Some((first, others)) => {
            if !first.code.is_digit(radix) {
                return zero_literal();
            }
            let more = more_digits(others, radix);
            Numeral {
                length: 3 + more,
                value: whole_of(rest.front(1 + more), radix),
                is_decimal: false,
            }
        }
    }
}

/// The literal that begins with `0`, of what follows it.
fn after_zero<T: Source>(rest: T) -> Numeral
    ensures value { result ≡ after_zero (map code_of (T.points rest)) }
    ensures positive { 0 < result.length }
    ensures within { result.length ≤ 1 + length (T.points rest) }
{
    match rest.split_first() {
        None => zero_literal(),
        Some((first, others)) => match radix_of(first.code) {
            None => zero_literal(),
            Some(radix) => with_radix(radix, others),
        },
    }
}

/// The literal at the front of points that begin with a decimal digit.
#[tactic(auto, using(crate::proofs::Lists::map_take))]
pub fn numeral_at<T: Source>(rest: T) -> Numeral
    requires { 0 < length (T.points rest) }
    ensures value { result ≡ numeral_at (map code_of (T.points rest)) }
    ensures positive { 0 < result.length }
    ensures within { result.length ≤ length (T.points rest) }
{
    match rest.split_first() {
        None => zero_literal(),
        Some((first, others)) => {
            if first.code == '0' {
                return after_zero(others);
            }
            let more = more_digits(others, 10);
            Numeral {
                length: 1 + more,
                value: whole_of(rest.front(1 + more), 10),
                is_decimal: true,
            }
        }
    }
}

/// Whether what follows a literal directly spoils it.
pub fn is_spoiled_by<T: Source>(is_decimal: bool, rest: T) -> bool
    ensures { result ≡ is_spoiled_by is_decimal (map code_of (T.points rest)) }
{
    match rest.split_first() {
        None => false,
        Some((first, _)) => is_name_start(first.code)
            | first.code.is_digit(10)
            | (is_decimal & (first.code == '.')),
    }
}
