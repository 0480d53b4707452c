//! Parts of a text between colour sequences.

ghost use Rattle.std.specs.Prelude.{◌≡◌, ◌≤◌, ◌<◌, length, IfOk, OnOk, false};
ghost use Rattle.holzikra_colours.specs.Colours.{IsPainted, ShowsAsBefore, has_escape, without_colours};

use crate::part::{Part, Style};
use std::alloc::{AllocError, Global};

/// The digits of the parameter that turns to a style (ECMA-48, 8.3.117).
fn digits(style: Style) -> (u8, u8)
    ensures tens { result.0 < 58 }
    ensures units { result.1 < 58 }
{
    match style {
        Style::Wrong => (b'3', b'1'),
        Style::Right => (b'3', b'2'),
        Style::Unsure => (b'3', b'3'),
        Style::Aside => (b'3', b'6'),
        Style::Head => (b'0', b'1'),
        Style::Faint => (b'0', b'2'),
    }
}

/// Appends a colour sequence with a parameter of these digits.
fn push_sequence(out: &mut Vec<u8>, tens: u8, units: u8) -> Result<(), AllocError>
    requires tens { tens < 58 }
    requires units { units < 58 }
    ensures { OnOk result (ShowsAsBefore out.old.items out.new.items) }
{
    out.push(27)?;
    out.push(b'[')?;
    out.push(tens)?;
    out.push(units)?;
    out.push(b'm')?;
    Ok(())
}

/// Appends a text up to the end of a part, from this place on. The part stands between colour sequences.
fn push_part(out: &mut Vec<u8>, text: &[u8], at: usize, part: Part) -> Result<(), AllocError>
    requires front { at ≤ part.from }
    requires part { part.from ≤ part.to }
    requires behind { part.to ≤ length text.now }
    ensures { OnOk result (IsPainted text.now at out.old.items → IsPainted text.now part.to out.new.items) }
{
    let (tens, units) = digits(part.style);
    out.extend_from_slice(&text[at..part.from])?;
    push_sequence(out, tens, units)?;
    out.extend_from_slice(&text[part.from..part.to])?;
    push_sequence(out, b'0', b'0')?;
    Ok(())
}

/// The text, its parts between colour sequences. A part that is not behind those in front of it, or not in the text, is passed over.
pub(crate) fn painted(alloc: Global, text: &[u8], parts: &[Part]) -> Result<Vec<u8>, AllocError>
    ensures { IfOk result (λ out. has_escape text.now ≡ false → without_colours out.items ≡ text.now) }
{
    let mut out = Vec::new(alloc);
    let mut at: usize = 0;
    for part in parts {
        if at <= part.from && part.from <= part.to && part.to <= text.len() {
            push_part(&mut out, text, at, *part)?;
            at = part.to;
        }
    }
    out.extend_from_slice(&text[at..])?;
    Ok(out)
}
