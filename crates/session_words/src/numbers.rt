//! Numbers as the words of a command spell them.

ghost use Rattle.std.specs.Prelude.{◌≡◌, ◌<◌, ℕ, ◌∷◌, true, length, nat_le, if◌then◌else◌, option_map, IfOk, IfSome, Some, None, vec_items};
ghost use Rattle.session_words.specs.Numbers.{is_digit, all_digits, is_number, value, number_in, numbers_in, pieces, pieces_behind};

use std::alloc::{AllocError, Global};

/// The largest number of a function.
const MOST_FUNCTIONS: u32 = 16_777_215;

fn is_digit(byte: u8) -> bool
    ensures { result ≡ is_digit byte }
{
    48 <= byte && byte <= 57
}

fn all_digits(word: &[u8]) -> bool
    ensures { result ≡ all_digits word.now }
{
    let mut word = word;
    while let Some((byte, rest)) = word.split_first() {
        if !is_digit(*byte) {
            return false;
        }
        word = rest;
    }
    true
}

/// Whether the word is `0`, or a digit from 1 to 9 and digits after it.
#[tactic(auto, using(crate::proofs::NumberLemmas::digits_of_number))]
fn is_number(word: &[u8]) -> bool
    ensures { result ≡ is_number word.now }
{
    match word {
        [] => false,
        [byte] => is_digit(*byte),
        [byte, rest @ ..] => is_digit(*byte) && *byte != 48 && all_digits(rest),
    }
}

/// The value of digits, if it is at most `high`.
fn value_within(high: u32, digits: &[u8]) -> Option<u32>
    requires digits { all_digits digits.now ≡ true }
    ensures { result ≡ (if nat_le (value digits.now) high then Some (value digits.now) else None) }
{
    let mut rest = digits;
    let mut value: u64 = 0;
    while let Some((byte, behind)) = rest.split_first() {
        value = value * 10 + (*byte - 48) as u64;
        if value > high as u64 {
            return None;
        }
        rest = behind;
    }
    Some(value as u32)
}

/// The number from `low` to `high` that the word spells.
pub fn number_in(low: u32, high: u32, word: &[u8]) -> Option<u32>
    ensures { result ≡ number_in low high word.now }
{
    if !is_number(word) {
        return None;
    }
    let number = value_within(high, word)?;
    if low <= number { Some(number) } else { None }
}

/// The piece in front of the first comma, and what stands after that, if there is one.
fn cut(word: &[u8]) -> (&[u8], Option<&[u8]>)
    ensures pieces { pieces word.now ≡ result.0.now ∷ pieces_behind (option_map (λ rest. rest.now) result.1) }
    ensures shorter { IfSome result.1 (λ rest. length rest.now < length word.now) }
{
    for i in 0..word.len() {
        if word[i] == 44 {
            return (&word[..i], Some(&word[i + 1..]));
        }
    }
    (word, None)
}

/// The numbers of functions that the word spells, with one comma between two.
pub fn numbers_in(alloc: Global, word: &[u8]) -> Result<Option<Vec<u32>>, AllocError>
    ensures { IfOk result (λ numbers. option_map vec_items numbers ≡ numbers_in 1 16777215 word.now) }
{
    let mut numbers = Vec::new(alloc);
    let mut rest = word;
    loop {
        let (piece, behind) = cut(rest);
        match number_in(1, MOST_FUNCTIONS, piece) {
            None => return Ok(None),
            Some(number) => numbers.push(number)?,
        }
        match behind {
            None => return Ok(Some(numbers)),
            Some(further) => rest = further,
        }
    }
}
