//! The start and the end of a page.

use crate::parts::{SCRIPT, SCRIPT_HASH, STYLE, STYLE_HASH};
use script_image::append_decimal;
use std::alloc::AllocError;

/// Appends several pieces of HTML.
pub(crate) fn append_all(out: &mut Vec<u8>, pieces: &[&str]) -> Result<(), AllocError> {
    for piece in pieces {
        out.extend_from_slice(piece.as_bytes())?;
    }
    Ok(())
}

/// Appends pieces of HTML, behind each a number.
pub(crate) fn append_numbers(
    out: &mut Vec<u8>,
    pieces: &[(&str, usize)],
) -> Result<(), AllocError> {
    for (piece, number) in pieces {
        out.extend_from_slice(piece.as_bytes())?;
        append_decimal(out, *number as u64)?;
    }
    Ok(())
}

/// Appends what stands in front of the files of a page.
pub fn append_start(out: &mut Vec<u8>) -> Result<(), AllocError> {
    append_all(
        out,
        &[
            "<!DOCTYPE html>\n<html lang=\"en\">\n<head>\n<meta charset=\"utf-8\">\n",
            "<meta http-equiv=\"Content-Security-Policy\" content=\"default-src 'none'; style-src '",
            STYLE_HASH,
            "'; script-src '",
            SCRIPT_HASH,
            "'\">\n<meta name=\"viewport\" content=\"width=device-width, initial-scale=1\">\n",
            "<title>holzikra report</title>\n<style>",
            STYLE,
            "</style>\n</head>\n<body>\n<h1>holzikra report</h1>\n",
        ],
    )
}

/// Appends what stands behind the files of a page.
pub fn append_end(out: &mut Vec<u8>) -> Result<(), AllocError> {
    append_all(out, &["<script>", SCRIPT, "</script>\n</body>\n</html>\n"])
}
