//! Images, those of scripts that were compiled here, and those from a place that is not trusted.
//!
//! [`saved`] writes an image. Whatever bytes come, [`print_verdict`] tells whether their code could take from an empty stack.

use anyhow::Result;
use std::alloc::{AllocError, Global};
use std::io::Print;
use stencil::{Answer, ImageFault, Soundness, Wanted, compile, read_image, verify, write_image};

/// The image of a script with all of its functions; none where the text is refused.
fn saved(alloc: Global, text: &[u8]) -> Result<Option<Vec<u8>>, AllocError> {
    let answer = compile(alloc, text, Wanted::All)?;
    let Answer::Script(stencil) = answer else {
        return Ok(None);
    };
    let image = write_image(alloc, &stencil)?;
    Ok(Some(image))
}

/// Prints whether the code of an image may run.
fn print_verdict(rt: &impl Print, alloc: Global, image: &[u8]) -> Result<()> {
    match read_image(alloc, image) {
        Err(ImageFault::NoImage) => println!(rt; "no image")?,
        Err(ImageFault::NoMemory) => return Err(AllocError.into()),
        Ok(stencil) => match verify(alloc, &stencil)? {
            Soundness::Sound { depth } => println!(rt;
                "may run, with {depth} values on the stack at most"
            )?,
            Soundness::Unsound { script } => println!(rt; "script {script} must not run")?,
        },
    }
    Ok(())
}

/// Where the last instruction of the empty script stands in its image, and the opcode that takes a value from the stack.
const LAST: usize = 49;

const POP: u8 = 112;

/// An image that was written, four bytes that only begin as one does, and one whose code takes from an empty stack.
pub(crate) fn show(rt: &impl Print, alloc: Global) -> Result<()> {
    if let Some(image) = saved(alloc, b"let sum = (a, b) => a + b; sum(1, 2)")? {
        print_verdict(rt, alloc, &image)?;
        print_verdict(rt, alloc, b"STN1")?;
    }
    if let Some(mut image) = saved(alloc, b"")? {
        if let Some(byte) = image.get_mut(LAST) {
            *byte = POP;
        }
        print_verdict(rt, alloc, &image)?;
    }
    Ok(())
}
