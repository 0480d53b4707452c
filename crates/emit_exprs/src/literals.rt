// Numbers, `this` and functions.
ghost use Rattle.std.specs.Prelude.{◌≡◌, ℕ, ◌^◌, ◌<◌, ◌≤◌, List, OnOk, nat_lt, count_by, length};
ghost use Rattle.stencil_data.specs.Fits.{PlaceFits};
ghost use Rattle.bytecode_buf.specs.Command as command;
ghost use Rattle.bytecode_buf.specs.Pieces.{one};
ghost use Rattle.bytecode_buf.specs.Emits.{Emits};
ghost use Rattle.emit_exprs.specs.Exprs as code;
ghost use Rattle.emit_exprs.specs.Rising.{Rises};
ghost use Rattle.emit_exprs.specs.Sites.{EmitsAt, scene_of};
ghost use Rattle.emit_exprs.specs.Whole.{whole};

use crate::names::{access_of_kind, read_env, read_frame};
use crate::site::Site;
use crate::steps::{counted, plain};
use bytecode_buf::{CodeBuf, Op};
use emit_operators::{NumberForm, number_form};
use scope_analysis::resolve;
use scope_analysis::special_names::THIS;
use std::alloc::AllocError;
use stencil_data::{Extent, Place, Text};

fn wide(out: &mut CodeBuf, number: u64) -> Result<(), AllocError>
    ensures { OnOk result ((texts : List (List ℕ)) → Emits texts out.old out.new (one (command.counted Op.Double number))) }
{
    out.put(Op::Double, number, 0)?;
    Ok(())
}

/// A number, in its shortest form.
pub fn number(out: &mut CodeBuf, value: u64) -> Result<(), AllocError>
    ensures { OnOk result ((texts : List (List ℕ)) → Emits texts out.old out.new (code.number_code value)) }
{
    match number_form(value) {
        NumberForm::Zero => Ok(plain(out, Op::Zero)?),
        NumberForm::One => Ok(plain(out, Op::One)?),
        NumberForm::Byte => Ok(counted(out, Op::Int8, value as u32)?),
        NumberForm::Short => Ok(counted(out, Op::Uint16, value as u32)?),
        NumberForm::Triple => Ok(counted(out, Op::Uint24, value as u32)?),
        NumberForm::Long => Ok(counted(out, Op::Int32, value as u32)?),
        NumberForm::Wide => Ok(wide(out, value)?),
    }
}

fn this_at(out: &mut CodeBuf, place: &Place) -> Result<(), AllocError>
    requires { PlaceFits place.now }
    ensures { OnOk result ((texts : List (List ℕ)) → Emits texts out.old out.new (whole (code.this_at place.now))) }
{
    match *place {
        Place::Global => Ok(plain(out, Op::GlobalThis)?),
        Place::Arg(index) => Ok(counted(out, Op::GetArg, index)?),
        Place::Frame { slot, kind } => Ok(read_frame(out, slot, access_of_kind(kind))?),
        Place::Env { hops, slot, kind } => Ok(read_env(out, hops, slot, access_of_kind(kind))?),
        Place::Callee => Ok(plain(out, Op::Callee)?),
    }
}

/// `this` of the script, or of the function around.
pub fn this(out: &mut CodeBuf, site: &Site) -> Result<(), AllocError>
    ensures { OnOk result (EmitsAt site.now out.old out.new (code.this_code (scene_of site.now))) }
{
    let name = Text::of(site.alloc, &THIS)?;
    let place = resolve(site.chain, &name);
    this_at(out, &place)?;
    Ok(())
}

// The place of a function among others that are in order of rising start.
fn place_among(inner: &[Extent], start: u32) -> usize
    requires { Rises 0 inner.now }
    ensures place { result ≡ count_by (λ e. nat_lt e.start start) inner.now }
    ensures bound { result ≤ length inner.now }
{
    inner.partition_point(|extent| extent.start < start)
}

/// The function whose parameters start here.
pub fn lambda(out: &mut CodeBuf, site: &Site, start: u32) -> Result<(), AllocError>
    ensures { OnOk result (EmitsAt site.now out.old out.new (code.lambda_at (scene_of site.now) start)) }
{
    let place = place_among(site.inner, start);
    counted(out, Op::Lambda, place as u32)?;
    Ok(())
}
