//! The code of names that are found from where an expression stands.
ghost use Rattle.std.specs.Prelude.{◌≡◌, OnOk};
ghost use Rattle.stencil_data.specs.Fits.{PlaceFits};
ghost use Rattle.stencil_data.specs.Resolve as defined;
ghost use Rattle.emit_exprs.specs.Exprs as code;
ghost use Rattle.emit_exprs.specs.Sites.{EmitsAt, scene_of, text_in};

use crate::names::{base_at, read_at, write_at};
use crate::site::Site;
use bytecode_buf::CodeBuf;
use scope_analysis::resolve;
use std::alloc::AllocError;
use stencil_data::{Place, Text};

/// Where the name with this atom lives.
pub fn find_place(site: &Site, atom: u32) -> Place
    ensures is { result ≡ defined.resolve site.now.chain.now (text_in site.now atom) }
    ensures fits { PlaceFits result }
{
    match site.texts.get(atom as usize) {
        Some(text) => resolve(site.chain, text),
        None => resolve(site.chain, &Text::empty(site.alloc)),
    }
}

/// The value of a name.
pub fn reading(out: &mut CodeBuf, site: &Site, atom: u32) -> Result<(), AllocError>
    ensures { OnOk result (EmitsAt site.now out.old out.new (code.reading (scene_of site.now) (text_in site.now atom))) }
{
    let place = find_place(site, atom);
    read_at(out, atom, &place)?;
    Ok(())
}

/// What stands below the value when a name is written.
pub fn basing(out: &mut CodeBuf, site: &Site, atom: u32) -> Result<(), AllocError>
    ensures { OnOk result (EmitsAt site.now out.old out.new (code.basing (scene_of site.now) (text_in site.now atom))) }
{
    let place = find_place(site, atom);
    base_at(out, atom, &place)?;
    Ok(())
}

/// A write to a name.
pub fn writing(out: &mut CodeBuf, site: &Site, atom: u32) -> Result<(), AllocError>
    ensures { OnOk result (EmitsAt site.now out.old out.new (code.writing (scene_of site.now) (text_in site.now atom))) }
{
    let place = find_place(site, atom);
    write_at(out, atom, &place)?;
    Ok(())
}
