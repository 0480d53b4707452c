// Values that are no parts of a tree further down, and how each is used.
ghost use Rattle.std.specs.Prelude.{◌≡◌, [], ◌∷◌, ◌++◌, ℕ, List, OnOk, IsTrue, ◌↔◌, if◌then◌else◌};
ghost use Rattle.bytecode_buf.specs.Emits.{Emits};
ghost use Rattle.bytecode_buf.specs.declared.opcode.Shape.TheVariants as shape;
ghost use Rattle.bytecode_buf.specs.Width.{shape_of};
ghost use Rattle.bytecode_buf.specs.Command as command;
ghost use Rattle.bytecode_buf.specs.Pieces.{one};
ghost use Rattle.emit_exprs.specs.Exprs as code;
ghost use Rattle.emit_exprs.specs.Sites.{EmitsAt, scene_of, text_in};
ghost use Rattle.emit_exprs.specs.Whole.{just, whole};

use crate::literals::{lambda, number, this};
use crate::scenes::{basing, reading};
use crate::site::Site;
use crate::steps::{named, plain};
use crate::uses::{Use, pop_true, used_value};
use bytecode_buf::{CodeBuf, Op};
use std::alloc::AllocError;

/// `this`.
pub fn this_value(out: &mut CodeBuf, site: &Site, wanted: Use) -> Result<(), AllocError>
    ensures { OnOk result (EmitsAt site.now out.old out.new (code.this_code (scene_of site.now) ++ code.used_value wanted)) }
{
    this(out, site)?;
    used_value(out, wanted)?;
    Ok(())
}

/// A value that one opcode makes.
pub fn plain_value(out: &mut CodeBuf, site: &Site, op: Op, wanted: Use) -> Result<(), AllocError>
    requires { shape_of op ≡ shape.Nothing }
    ensures { OnOk result (EmitsAt site.now out.old out.new (just op ++ code.used_value wanted)) }
{
    plain(out, op)?;
    used_value(out, wanted)?;
    Ok(())
}

/// A number.
pub fn number_value(
    out: &mut CodeBuf,
    site: &Site,
    value: u64,
    wanted: Use,
) -> Result<(), AllocError>
    ensures { OnOk result (EmitsAt site.now out.old out.new (code.number_code value ++ code.used_value wanted)) }
{
    number(out, value)?;
    used_value(out, wanted)?;
    Ok(())
}

/// A string.
pub fn text_value(out: &mut CodeBuf, site: &Site, atom: u32, wanted: Use) -> Result<(), AllocError>
    ensures { OnOk result (EmitsAt site.now out.old out.new (one (command.named Op.String (text_in site.now atom)) ++ code.used_value wanted)) }
{
    named(out, Op::String, atom)?;
    used_value(out, wanted)?;
    Ok(())
}

/// A function whose parameters start here.
pub fn function_value(
    out: &mut CodeBuf,
    site: &Site,
    start: u32,
    wanted: Use,
) -> Result<(), AllocError>
    ensures { OnOk result (EmitsAt site.now out.old out.new (code.lambda_at (scene_of site.now) start ++ code.used_value wanted)) }
{
    lambda(out, site, start)?;
    used_value(out, wanted)?;
    Ok(())
}

fn called_name(out: &mut CodeBuf, site: &Site, atom: u32) -> Result<(), AllocError>
    ensures { OnOk result (EmitsAt site.now out.old out.new (code.used_name Use.Called (scene_of site.now) (text_in site.now atom))) }
{
    reading(out, site, atom)?;
    plain(out, Op::Undefined)?;
    Ok(())
}

fn deleted_name(out: &mut CodeBuf, site: &Site, atom: u32) -> Result<(), AllocError>
    ensures { OnOk result (EmitsAt site.now out.old out.new (code.used_name Use.Deleted (scene_of site.now) (text_in site.now atom))) }
{
    reading(out, site, atom)?;
    pop_true(out)?;
    Ok(())
}

/// A name.
pub fn name_value(out: &mut CodeBuf, site: &Site, atom: u32, wanted: Use) -> Result<(), AllocError>
    ensures { OnOk result (EmitsAt site.now out.old out.new (code.used_name wanted (scene_of site.now) (text_in site.now atom))) }
{
    match wanted {
        Use::Plainly => Ok(reading(out, site, atom)?),
        Use::Called => Ok(called_name(out, site, atom)?),
        Use::Reached => Ok(basing(out, site, atom)?),
        Use::Deleted => Ok(deleted_name(out, site, atom)?),
    }
}

/// A name that is a property and its value.
pub fn short_prop(out: &mut CodeBuf, site: &Site, atom: u32) -> Result<(), AllocError>
    ensures { OnOk result (EmitsAt site.now out.old out.new
        (code.reading (scene_of site.now) (text_in site.now atom) ++ one (command.named Op.InitProp (text_in site.now atom)))) }
{
    reading(out, site, atom)?;
    named(out, Op::InitProp, atom)?;
    Ok(())
}

fn text_added(out: &mut CodeBuf, site: &Site, atom: u32) -> Result<(), AllocError>
    ensures { OnOk result (EmitsAt site.now out.old out.new (whole (command.named Op.String (text_in site.now atom) ∷ command.plain Op.Add ∷ []))) }
{
    named(out, Op::String, atom)?;
    plain(out, Op::Add)?;
    Ok(())
}

fn is_empty(site: &Site, atom: u32) -> bool
    ensures { IsTrue result ↔ (text_in site.now atom ≡ []) }
{
    match site.texts.get(atom as usize) {
        Some(text) => text.units().is_empty(),
        None => true,
    }
}

// The text after a substitution of a template, unless it is empty.
#[tactic(auto, using(crate::proofs::Singles::emits_nothing))]
fn text_behind(out: &mut CodeBuf, site: &Site, atom: u32) -> Result<(), AllocError>
    ensures { OnOk result (EmitsAt site.now out.old out.new (code.text_behind (text_in site.now atom))) }
{
    if is_empty(site, atom) {
        Ok(())
    } else {
        Ok(text_added(out, site, atom)?)
    }
}

/// What stands after the value of a template's substitution; the atom is that of the text after it.
pub fn after_part(out: &mut CodeBuf, site: &Site, atom: u32) -> Result<(), AllocError>
    ensures { OnOk result (EmitsAt site.now out.old out.new
        (whole (command.plain Op.ToString ∷ command.plain Op.Add ∷ []) ++ code.text_behind (text_in site.now atom))) }
{
    plain(out, Op::ToString)?;
    plain(out, Op::Add)?;
    text_behind(out, site, atom)?;
    Ok(())
}

/// What stands after what `new` is done with.
pub fn before_new(out: &mut CodeBuf) -> Result<(), AllocError>
    ensures { OnOk result ((texts : List (List ℕ)) → Emits texts out.old out.new
        (whole (command.plain Op.Dup ∷ command.plain Op.IsConstructing ∷ []))) }
{
    plain(out, Op::Dup)?;
    plain(out, Op::IsConstructing)?;
    Ok(())
}

/// A value that is dropped, where another follows a comma.
#[tactic(auto, using(crate::proofs::Singles::emits_nothing))]
pub fn dropping(out: &mut CodeBuf, has_next: bool) -> Result<(), AllocError>
    ensures { OnOk result ((texts : List (List ℕ)) → Emits texts out.old out.new (if has_next then just Op.Pop else [])) }
{
    if has_next {
        Ok(plain(out, Op::Pop)?)
    } else {
        Ok(())
    }
}
