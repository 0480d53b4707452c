//! The listing of an image.

ghost use Rattle.std.specs.Prelude.{◌≡◌, ◌++◌, Err, List, OnOk};
ghost use Rattle.stencil_data.specs.Named.{NamedMerged};
ghost use Rattle.bytecode_buf.specs.Command.{Listed};
ghost use Rattle.stencil_xdr_read.specs.declared.fault.ImageFault.TheVariants.{NoImage};
ghost use Rattle.session_image_specs.specs.Images.{IsImageFor, IsNoImage};
ghost use Rattle.script_image.specs.ScriptLines as lines;

use script_image::code_text;
use std::alloc::Global;
use stencil_xdr_read::{ImageFault, read_image};

/// Appends the listing of the code of all scripts that stand in an image. After an error nothing is said of what was appended.
pub fn append_listing(alloc: Global, out: &mut Vec<u8>, bytes: &[u8]) -> Result<(), ImageFault>
    ensures listing { OnOk result ((merged : NamedMerged (List Listed)) × IsImageFor bytes.now merged
        × (out.new.items ≡ out.old.items ++ lines.code_text merged)) }
    ensures none { result ≡ Err NoImage → IsNoImage bytes.now }
{
    let stencil = read_image(alloc, bytes)?;
    code_text(out, &stencil)?;
    Ok(())
}
