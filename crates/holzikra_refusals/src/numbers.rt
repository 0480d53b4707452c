//! Numbers that are refused.

use crate::code::Form;

/// The greatest whole number below 2^53.
const MOST: u64 = 9_007_199_254_740_991;

/// The form of a number that the text begins with, if it has one that is outside the profile.
pub(crate) fn number_form(text: &[u8]) -> Option<Form> {
    let digits = match text
        .iter()
        .position(|byte| !matches!(*byte, b'0'..=b'9' | b'_'))
    {
        None => text,
        Some(end) => text.get(..end).unwrap_or(text),
    };
    let next = text.get(digits.len());
    match (digits, next) {
        (_, Some(b'n')) => Some(Form::BigInt),
        ([b'0', _, ..], _) => Some(Form::Sloppy),
        (_, Some(b'.' | b'e' | b'E')) => Some(Form::Fraction),
        ([b'0'], Some(b'x' | b'X' | b'b' | b'B' | b'o' | b'O')) => prefixed_form(text),
        _ => {
            if is_large(digits) {
                Some(Form::LargeNumber)
            } else {
                None
            }
        }
    }
}

/// The same of a number with `0x`, `0o` or `0b` in front.
fn prefixed_form(text: &[u8]) -> Option<Form> {
    let end = text
        .iter()
        .position(|byte| !byte.is_ascii_alphanumeric())
        .unwrap_or(text.len());
    let word = text.get(..end).unwrap_or(text);
    match word.last() {
        Some(b'n') => Some(Form::BigInt),
        _ => {
            if word.len() > 15 {
                Some(Form::LargeNumber)
            } else {
                None
            }
        }
    }
}

/// Whether digits are those of a number above 2^53 - 1.
fn is_large(digits: &[u8]) -> bool {
    let mut value: u64 = 0;
    for digit in digits {
        if *digit != b'_' {
            value = value
                .saturating_mul(10)
                .saturating_add(u64::from(digit.saturating_sub(b'0')));
        }
    }
    value > MOST
}
