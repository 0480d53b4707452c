//! Exports over images, which may come from anywhere.

ghost use Rattle.stencil_c.specs.Images.{IsListedFor, IsVerifiedFor};

use crate::answers::{StencilAnswer, judged, plain};
use crate::room::hand_out;
use script_image::code_text;
use std::alloc::Global;
use stencil::{ImageFault, read_image, verify};

/// Whether all code of an image can run without ever taking from an empty stack or leaving its instructions.
#[unsafe(no_mangle)]
pub extern "C" fn stencil_verify(alloc: Global, image: &[u8]) -> StencilAnswer
    ensures { IsVerifiedFor image.now result }
{
    match read_image(alloc, image) {
        Err(ImageFault::NoImage) => plain(7),
        Err(ImageFault::NoMemory) => plain(9),
        Ok(stencil) => match verify(alloc, &stencil) {
            Ok(soundness) => judged(soundness),
            Err(_) => plain(9),
        },
    }
}

/// The lines of an image's code, as the command `load` prints them after the line with the file's name. Where the room is too small
/// nothing is written.
#[unsafe(no_mangle)]
pub extern "C" fn stencil_listing(alloc: Global, image: &[u8], room: &mut [u8]) -> StencilAnswer
    ensures { IsListedFor image.now room.old room.new result }
{
    let stencil = match read_image(alloc, image) {
        Ok(stencil) => stencil,
        Err(ImageFault::NoImage) => return plain(7),
        Err(ImageFault::NoMemory) => return plain(9),
    };
    let mut lines = Vec::new(alloc);
    match code_text(&mut lines, &stencil) {
        Ok(()) => hand_out(lines.as_slice(), room),
        Err(_) => plain(9),
    }
}
