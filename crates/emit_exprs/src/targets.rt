// Places that are written: what reads and writes them once they were reached.
ghost use Rattle.std.specs.Prelude.{◌≡◌, ℕ, List, OnOk, slice_index_or, [], ◌∷◌, ◌≤◌};
ghost use Rattle.bytecode_buf.specs.Command as command;
ghost use Rattle.bytecode_buf.specs.Emits.{Emits};
ghost use Rattle.emit_exprs.specs.Exprs as code;
ghost use Rattle.emit_exprs.specs.Sites.{EmitsAt, scene_of};
ghost use Rattle.emit_exprs.specs.Targets.{target_in};
ghost use Rattle.emit_exprs.specs.Whole.{whole};

use crate::scenes::{reading, writing};
use crate::site::Site;
use crate::steps::{named, plain};
use bytecode_buf::{CodeBuf, Op};
use std::alloc::AllocError;

/// What is written.
#[derive(Clone, Copy)]
pub enum Target {
    /// The name with this atom.
    Name(u32),
    /// The property with this atom of an object.
    Prop(u32),
    /// The property of an object with a computed key.
    Elem,
    /// Nothing that can be written.
    Nothing,
}

fn load_prop(out: &mut CodeBuf, atom: u32) -> Result<(), AllocError>
    ensures { OnOk result ((texts : List (List ℕ)) → Emits texts out.old out.new
        (whole (command.plain Op.Dup ∷ command.named Op.GetProp (slice_index_or texts atom []) ∷ []))) }
{
    plain(out, Op::Dup)?;
    named(out, Op::GetProp, atom)?;
    Ok(())
}

fn load_elem(out: &mut CodeBuf) -> Result<(), AllocError>
    ensures { OnOk result ((texts : List (List ℕ)) → Emits texts out.old out.new
        (whole (command.plain Op.ToPropertyKey ∷ command.plain Op.Dup2 ∷ command.plain Op.GetElem ∷ []))) }
{
    plain(out, Op::ToPropertyKey)?;
    plain(out, Op::Dup2)?;
    plain(out, Op::GetElem)?;
    Ok(())
}

/// The value at a place that was reached, over what reached it.
#[tactic(auto, using(crate::proofs::Singles::emits_nothing))]
pub fn loading(out: &mut CodeBuf, site: &Site, target: Target) -> Result<(), AllocError>
    ensures { OnOk result (EmitsAt site.now out.old out.new (code.loading (scene_of site.now) (target_in site.now.texts.now target))) }
{
    match target {
        Target::Name(atom) => Ok(reading(out, site, atom)?),
        Target::Prop(atom) => Ok(load_prop(out, atom)?),
        Target::Elem => Ok(load_elem(out)?),
        Target::Nothing => Ok(()),
    }
}

/// A value into a place that was reached.
#[tactic(auto, using(crate::proofs::Singles::emits_nothing))]
pub fn storing(out: &mut CodeBuf, site: &Site, target: Target) -> Result<(), AllocError>
    ensures { OnOk result (EmitsAt site.now out.old out.new (code.storing (scene_of site.now) (target_in site.now.texts.now target))) }
{
    match target {
        Target::Name(atom) => Ok(writing(out, site, atom)?),
        Target::Prop(atom) => Ok(named(out, Op::StrictSetProp, atom)?),
        Target::Elem => Ok(plain(out, Op::StrictSetElem)?),
        Target::Nothing => Ok(()),
    }
}
