//! The bytes of images, which are read whole, however many they are.

use std::io::Read;
use std::rt::Files;
use std::{fs, io};

/// All bytes of a file.
pub(crate) fn image_of<R: Files + AllocGlobal>(rt: &R, path: &str) -> io::Result<Vec<u8>> {
    fs::read(rt, path)
}

/// All bytes of standard input.
pub(crate) fn input_image<R: Input + AllocGlobal>(rt: &R) -> io::Result<Vec<u8>> {
    let mut bytes = Vec::new(rt.alloc());
    rt.reader().read_to_end(&mut bytes)?;
    Ok(bytes)
}
