//! What is said on standard error of a file.

use holzikra_places::push_shown_text;
use std::io;
use std::rt::Runtime;

/// Says what is wrong with a file. Its name is shown as a terminal may have it, since a folder may hold files of any name.
pub(crate) fn complain<R: Runtime + AllocGlobal>(rt: &R, name: &str, why: &str) -> io::Result<()> {
    let mut line = String::from_str(rt.alloc(), "holzikra: ")?;
    push_shown_text(&mut line, name)?;
    eprintln!(rt; "{line}: {why}")
}
