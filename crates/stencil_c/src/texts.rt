//! Exports over texts.

ghost use Rattle.stencil_c.specs.Answers.{IsCheckedFor};
ghost use Rattle.stencil_c.specs.Images.{IsImageFor};

use crate::answers::{StencilAnswer, counted, plain, refused};
use crate::room::hand_out;
use std::alloc::Global;
use stencil::{Answer, Wanted, check, compile, write_image};

/// How many functions the script has that a text is, or why the text is refused. The text is any bytes.
#[unsafe(no_mangle)]
pub extern "C" fn stencil_check(alloc: Global, text: &[u8]) -> StencilAnswer
    ensures { IsCheckedFor text.now result }
{
    match check(alloc, text) {
        Ok(Answer::Script(count)) => counted(count as u64),
        Ok(Answer::Refused(why)) => refused(why),
        Err(_) => plain(9),
    }
}

/// The image of the script that a text is, with all functions compiled, or why the text is refused. Where the room is too small
/// nothing is written.
#[unsafe(no_mangle)]
pub extern "C" fn stencil_image(alloc: Global, text: &[u8], room: &mut [u8]) -> StencilAnswer
    ensures { IsImageFor text.now room.old room.new result }
{
    let stencil = match compile(alloc, text, Wanted::All) {
        Ok(Answer::Script(stencil)) => stencil,
        Ok(Answer::Refused(why)) => return refused(why),
        Err(_) => return plain(9),
    };
    match write_image(alloc, &stencil) {
        Ok(bytes) => hand_out(bytes.as_slice(), room),
        Err(_) => plain(9),
    }
}
