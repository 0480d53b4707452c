//! Notes taken off a listing.

ghost use Rattle.std.specs.Prelude.{◌≡◌, ◌++◌, IfOk, OnOk};
ghost use Rattle.holzikra_listing.specs.Notes as notes;

use std::alloc::{AllocError, Global};

/// Where a byte of a listing stands.
#[derive(Clone, Copy)]
pub(crate) enum Place {
    /// At the start of a line.
    Start,
    /// Behind blanks at the start of a line.
    Lead,
    /// In a line of the listing.
    Plain,
    /// There, behind one blank.
    Held,
    /// There, between quotation marks.
    Text,
    /// In a note.
    Note,
    /// In a line that was added.
    Added,
}

/// What a byte is.
#[derive(Clone, Copy)]
pub(crate) enum Letter {
    End,
    Blank,
    Quote,
    Hash,
    Semicolon,
    Other,
}

/// What stays of a byte.
#[derive(Clone, Copy)]
pub(crate) enum Keep {
    Nothing,
    Byte,
    /// The byte, and in front of it the blank that was held back.
    BlankAndByte,
}

/// What is done with a byte.
#[derive(Clone, Copy)]
pub(crate) struct Step {
    pub keep: Keep,
    /// Where the byte behind it stands.
    pub next: Place,
}

fn letter_of(byte: u8) -> Letter
    ensures { result ≡ notes.letter_of byte }
{
    if byte == b'\n' {
        Letter::End
    } else if byte == b' ' {
        Letter::Blank
    } else if byte == b'"' {
        Letter::Quote
    } else if byte == b'#' {
        Letter::Hash
    } else if byte == b';' {
        Letter::Semicolon
    } else {
        Letter::Other
    }
}

fn make_step(keep: Keep, next: Place) -> Step
    ensures { result ≡ notes.step_to keep next }
{
    Step { keep, next }
}

/// What is done with a byte at the start of a line.
fn step_at_start(letter: Letter) -> Step
    ensures { result ≡ notes.step_at Place.Start letter }
{
    match letter {
        Letter::End => make_step(Keep::Byte, Place::Start),
        Letter::Blank => make_step(Keep::Byte, Place::Lead),
        Letter::Quote => make_step(Keep::Byte, Place::Text),
        Letter::Hash => make_step(Keep::Nothing, Place::Added),
        Letter::Semicolon => make_step(Keep::Byte, Place::Plain),
        Letter::Other => make_step(Keep::Byte, Place::Plain),
    }
}

/// What is done with a byte behind the blanks at the start of a line.
fn step_at_lead(letter: Letter) -> Step
    ensures { result ≡ notes.step_at Place.Lead letter }
{
    match letter {
        Letter::End => make_step(Keep::Byte, Place::Start),
        Letter::Blank => make_step(Keep::Byte, Place::Lead),
        Letter::Quote => make_step(Keep::Byte, Place::Text),
        Letter::Hash => make_step(Keep::Byte, Place::Plain),
        Letter::Semicolon => make_step(Keep::Byte, Place::Plain),
        Letter::Other => make_step(Keep::Byte, Place::Plain),
    }
}

/// What is done with a byte in a line of the listing.
fn step_at_plain(letter: Letter) -> Step
    ensures { result ≡ notes.step_at Place.Plain letter }
{
    match letter {
        Letter::End => make_step(Keep::Byte, Place::Start),
        Letter::Blank => make_step(Keep::Nothing, Place::Held),
        Letter::Quote => make_step(Keep::Byte, Place::Text),
        Letter::Hash => make_step(Keep::Byte, Place::Plain),
        Letter::Semicolon => make_step(Keep::Byte, Place::Plain),
        Letter::Other => make_step(Keep::Byte, Place::Plain),
    }
}

/// What is done with a byte behind one blank there.
fn step_at_held(letter: Letter) -> Step
    ensures { result ≡ notes.step_at Place.Held letter }
{
    match letter {
        Letter::End => make_step(Keep::BlankAndByte, Place::Start),
        Letter::Blank => make_step(Keep::Nothing, Place::Note),
        Letter::Quote => make_step(Keep::BlankAndByte, Place::Text),
        Letter::Hash => make_step(Keep::BlankAndByte, Place::Plain),
        Letter::Semicolon => make_step(Keep::Nothing, Place::Note),
        Letter::Other => make_step(Keep::BlankAndByte, Place::Plain),
    }
}

/// What is done with a byte between quotation marks.
fn step_at_text(letter: Letter) -> Step
    ensures { result ≡ notes.step_at Place.Text letter }
{
    match letter {
        Letter::End => make_step(Keep::Byte, Place::Start),
        Letter::Blank => make_step(Keep::Byte, Place::Text),
        Letter::Quote => make_step(Keep::Byte, Place::Plain),
        Letter::Hash => make_step(Keep::Byte, Place::Text),
        Letter::Semicolon => make_step(Keep::Byte, Place::Text),
        Letter::Other => make_step(Keep::Byte, Place::Text),
    }
}

/// What is done with a byte in a note.
fn step_at_note(letter: Letter) -> Step
    ensures { result ≡ notes.step_at Place.Note letter }
{
    match letter {
        Letter::End => make_step(Keep::Byte, Place::Start),
        Letter::Blank => make_step(Keep::Nothing, Place::Note),
        Letter::Quote => make_step(Keep::Nothing, Place::Note),
        Letter::Hash => make_step(Keep::Nothing, Place::Note),
        Letter::Semicolon => make_step(Keep::Nothing, Place::Note),
        Letter::Other => make_step(Keep::Nothing, Place::Note),
    }
}

/// What is done with a byte in a line that was added.
fn step_at_added(letter: Letter) -> Step
    ensures { result ≡ notes.step_at Place.Added letter }
{
    match letter {
        Letter::End => make_step(Keep::Nothing, Place::Start),
        Letter::Blank => make_step(Keep::Nothing, Place::Added),
        Letter::Quote => make_step(Keep::Nothing, Place::Added),
        Letter::Hash => make_step(Keep::Nothing, Place::Added),
        Letter::Semicolon => make_step(Keep::Nothing, Place::Added),
        Letter::Other => make_step(Keep::Nothing, Place::Added),
    }
}

/// What is done with a byte at a place.
fn step_at(place: Place, letter: Letter) -> Step
    ensures { result ≡ notes.step_at place letter }
{
    match place {
        Place::Start => step_at_start(letter),
        Place::Lead => step_at_lead(letter),
        Place::Plain => step_at_plain(letter),
        Place::Held => step_at_held(letter),
        Place::Text => step_at_text(letter),
        Place::Note => step_at_note(letter),
        Place::Added => step_at_added(letter),
    }
}

/// Appends what stays of a byte.
fn append_kept(out: &mut Vec<u8>, keep: Keep, byte: u8) -> Result<(), AllocError>
    ensures { OnOk result (out.new.items ≡ out.old.items ++ notes.staying keep byte) }
{
    match keep {
        Keep::Nothing => (),
        Keep::Byte => out.push(byte)?,
        Keep::BlankAndByte => {
            out.push(b' ')?;
            out.push(byte)?;
        }
    }
    Ok(())
}

/// A listing without its notes and without the lines that were added. It takes time in proportion to the listing.
pub fn without_notes(alloc: Global, text: &[u8]) -> Result<Vec<u8>, AllocError>
    ensures { IfOk result (λ plain. plain.items ≡ notes.without_notes text.now) }
{
    let mut plain = Vec::new(alloc);
    let mut place = Place::Start;
    for byte in text {
        let step = step_at(place, letter_of(*byte));
        append_kept(&mut plain, step.keep, *byte)?;
        place = step.next;
    }
    Ok(plain)
}
