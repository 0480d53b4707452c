//! The listings of images.

ghost use Rattle.std.specs.Prelude.{IfOk};
ghost use Rattle.holzikra_scripts.specs.Images.{IsImageCode, IsLoaded, IsLoadedBack, IsStencilCode};

use crate::code::{noted_image, plain_code};
use crate::json::json_of_image;
use holzikra_words::LoadFormat;
use std::alloc::{AllocError, Global};
use stencil_data::MergedStencil;
use stencil_xdr_read::{ImageFault, read_image};

/// The listing of the code of a stencil that came in these bytes, without its source text.
fn stencil_code(
    alloc: Global,
    format: LoadFormat,
    name: &str,
    image: &[u8],
    stencil: &MergedStencil,
) -> Result<Vec<u8>, AllocError>
    ensures { IfOk result (λ out. IsStencilCode format name.now image.now stencil.now out.items) }
{
    match format {
        LoadFormat::Plain => {
            let lines = plain_code(alloc, name, stencil)?;
            Ok(lines)
        }
        LoadFormat::Human => {
            let lines = noted_image(alloc, name, stencil)?;
            Ok(lines)
        }
        LoadFormat::Json => {
            let line = json_of_image(alloc, name, image.len(), stencil)?;
            Ok(line)
        }
    }
}

/// The line of the file and the listing of the code of an image; none where the bytes are no image. Takes time in proportion to the
/// bytes, up to the logarithms of sorting jumps and names; only memory can fail.
pub fn image_code(
    alloc: Global,
    format: LoadFormat,
    name: &str,
    bytes: &[u8],
) -> Result<Option<Vec<u8>>, AllocError>
    ensures listed { IfOk result (IsLoaded bytes.now (λ named out. IsImageCode format name.now bytes.now named out.items)) }

    // Of what was saved of a script it lists what is listed of that script.
    ensures saved { IfOk result (IsLoadedBack bytes.now (λ named out. IsImageCode format name.now bytes.now named out.items)) }
{
    match read_image(alloc, bytes) {
        Ok(stencil) => {
            let lines = stencil_code(alloc, format, name, bytes, &stencil)?;
            Ok(Some(lines))
        }
        Err(ImageFault::NoImage) => Ok(None),
        Err(ImageFault::NoMemory) => Err(AllocError),
    }
}
