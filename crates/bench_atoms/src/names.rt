//! The names that are interned.
ghost use Rattle.std.specs.Prelude.{◌≡◌, ◌*◌, ◌≤◌, length, IfOk};

use atom_table::TextList;
use std::alloc::{AllocError, Global};
use std::hash::RandomState;
use stencil_data::Text;

/// How the names are written.
#[derive(Debug, Clone, Copy, PartialEq, Eq)]
pub enum Spelling {
    /// `a0`, `a1` and so on.
    Plain,
    /// `a00000000`, `a00000001` and so on, all of one length.
    Padded,
}

/// The digits of a padded name.
const WIDTH: usize = 8;

/// n names in this spelling, and then the same once more, hashed by these keys.
pub fn doubled_names(
    alloc: Global,
    keys: RandomState,
    spelling: Spelling,
    count: u32,
) -> Result<TextList, AllocError>
    requires { count ≤ 100000000 }
    ensures { IfOk result (λ list. length list.texts ≡ 2 * count) }
{
    let mut texts = Vec::new(alloc);
    for index in 0..2 * count {
        texts.push(name(alloc, spelling, index % count)?)?;
    }
    Ok(TextList::new(keys, texts))
}

// The letter `a` and the number in decimal digits.
fn name(alloc: Global, spelling: Spelling, number: u32) -> Result<Text, AllocError> {
    let digits = number.to_string(alloc)?;
    let mut text = Text::of(alloc, &[97])?;
    if spelling == Spelling::Padded {
        for _ in digits.len()..WIDTH {
            text.push(48)?;
        }
    }
    for digit in digits.as_bytes() {
        text.push(u16::from(*digit))?;
    }
    Ok(text)
}
