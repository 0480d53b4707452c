//! The functions of a script that are wanted, and what is listed of it.

ghost use Rattle.std.specs.Prelude.{◌≡◌, ◌≤◌, ◌⊎◌, MatchOption};
ghost use Rattle.session_specs.specs.Answer as answer;
ghost use Rattle.compile_wanted.specs.Numbers.{to_show};
ghost use Rattle.session_words.specs.Asked as asked;
ghost use Rattle.compile_session.specs.Answers.{IsMissing};
ghost use Rattle.compile_session.specs.Listed.{listing_for};

use compile_wanted::Wanted;
use script_image::Listing;
use session_words::{Command, Want};

/// Which functions are wanted compiled.
pub(crate) fn wanted_of(want: &Want) -> Wanted<'_>
    ensures { to_show result ≡ answer.to_show (asked.wanted want.now) }
{
    match want {
        Want::All => Wanted::All,
        Want::Nothing => Wanted::Numbers(&[]),
        Want::Numbers(numbers) => Wanted::Numbers(numbers),
    }
}

/// The least of these numbers that is above the count.
fn least_above(numbers: &[u32], count: usize) -> Option<u32>
    ensures { IsMissing (asked.Numbers numbers.now) count result }
{
    let mut least = None;
    for number in numbers {
        if *number as usize > count {
            least = Some(lesser(least, *number));
        }
    }
    least
}

/// The lesser of two numbers, of which the first may be missing.
fn lesser(one: Option<u32>, other: u32) -> u32
    ensures is { MatchOption one (result ≡ other) (λ n. (result ≡ n) ⊎ (result ≡ other)) }
    ensures least { (result ≤ other) × MatchOption one (Unit {0}) (λ n. result ≤ n) }
{
    match one {
        Some(one) => one.min(other),
        None => other,
    }
}

/// The least wanted number that none of n functions has.
pub(crate) fn missing_of(want: &Want, count: usize) -> Option<u32>
    ensures { IsMissing (asked.wanted want.now) count result }
{
    match want {
        Want::All => None,
        Want::Nothing => None,
        Want::Numbers(numbers) => least_above(numbers, count),
    }
}

/// What a command lists of a script, if it lists one.
pub(crate) fn listing_of(command: Command) -> Listing
    ensures { result ≡ listing_for command }
{
    match command {
        Command::Scopes => Listing::Scopes,
        Command::Code | Command::Check | Command::Save | Command::Load | Command::Verify => {
            Listing::Code
        }
    }
}
