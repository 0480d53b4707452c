//! Texts as they stand in HTML.

ghost use Rattle.std.specs.Prelude.{◌≡◌, ◌++◌, OnOk};
ghost use Rattle.holzikra_page.specs.Escape.{AppendsEscaped, escape_of, escaped};

use std::alloc::AllocError;

/// Appends what stands for a byte.
fn append_byte(out: &mut Vec<u8>, byte: u8) -> Result<(), AllocError>
    ensures { OnOk result (out.new.items ≡ out.old.items ++ escape_of byte) }
{
    if byte == b'&' {
        out.extend_from_slice(b"&amp;")?;
    } else if byte == b'<' {
        out.extend_from_slice(b"&lt;")?;
    } else if byte == b'>' {
        out.extend_from_slice(b"&gt;")?;
    } else if byte == b'"' {
        out.extend_from_slice(b"&quot;")?;
    } else if byte == b'\'' {
        out.extend_from_slice(b"&#39;")?;
    } else {
        out.push(byte)?;
    }
    Ok(())
}

fn append_bytes(out: &mut Vec<u8>, text: &[u8]) -> Result<(), AllocError>
    ensures { OnOk result (out.new.items ≡ out.old.items ++ escaped text.now) }
{
    for byte in text {
        append_byte(out, *byte)?;
    }
    Ok(())
}

/// Appends a text with references to the five characters that have a meaning in HTML, in place of these.
pub fn append_text(out: &mut Vec<u8>, text: &[u8]) -> Result<(), AllocError>
    ensures { OnOk result (AppendsEscaped out.old.items out.new.items text.now) }
{
    append_bytes(out, text)?;
    Ok(())
}
