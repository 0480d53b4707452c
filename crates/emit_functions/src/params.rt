//! What a function does before its body: `arguments` and `this`, and its parameters.
ghost use Rattle.std.specs.Prelude.{◌≡◌, ◌∷◌, ◌++◌, [], OnOk};
ghost use Rattle.stencil_data.specs.StandsFor.{named_binding, named_bindings};
ghost use Rattle.bytecode_buf.specs.declared.opcode.Shape.TheVariants as shape;
ghost use Rattle.bytecode_buf.specs.Command as command;
ghost use Rattle.bytecode_buf.specs.Width.{shape_of};
ghost use Rattle.emit_exprs.specs.Exprs as expr;
ghost use Rattle.emit_exprs.specs.Sites.{EmitsAt, scene_of, text_in};
ghost use Rattle.emit_exprs.specs.Whole.{just, whole};
ghost use Rattle.emit_stmts.specs.Functions as code;
ghost use Rattle.emit_stmts.specs.ValueCode.{ValueEmits, named_in};
ghost use Rattle.emit_functions.specs.ParamCode.{ParamEmits, ParamsEmit, default_of};

use bytecode_buf::{Aim, CodeBuf, Op, jump_to, target};
use emit_exprs::scenes::{reading, writing};
use emit_exprs::steps::plain;
use emit_exprs::{Site, Use, emit_expr};
use script_grammar::tree::{Expr, Ident, Param};
use std::alloc::AllocError;
use stencil_data::{BindKind, Binding};

// What an instruction gives, into a name.
fn given(out: &mut CodeBuf, site: &Site, op: Op, atom: u32) -> Result<(), AllocError>
    requires { shape_of op ≡ shape.Nothing }
    ensures { OnOk result (EmitsAt site.now out.old out.new (just op ++ expr.writing (scene_of site.now) (text_in site.now atom) ++ just Op.Pop)) }
{
    plain(out, op)?;
    writing(out, site, atom)?;
    plain(out, Op::Pop)?;
    Ok(())
}

// `arguments` or `this`, where the binding is one of these.
#[tactic(auto, using(emit_exprs::proofs::Singles::emits_nothing))]
fn special(out: &mut CodeBuf, site: &Site, binding: Binding) -> Result<(), AllocError>
    ensures { OnOk result (EmitsAt site.now out.old out.new
        (code.special_code (scene_of site.now) (named_binding site.now.texts.now binding) binding.kind)) }
{
    match binding.kind {
        BindKind::Arguments => Ok(given(out, site, Op::Arguments, binding.atom)?),
        BindKind::This => Ok(given(out, site, Op::FunctionThis, binding.atom)?),
        _ => Ok(()),
    }
}

/// `arguments` and `this`, where they are among the bindings of the function's own scope.
pub fn specials(out: &mut CodeBuf, site: &Site, bindings: &[Binding]) -> Result<(), AllocError>
    ensures { OnOk result (EmitsAt site.now out.old out.new
        (code.specials_code (scene_of site.now) (named_bindings site.now.texts.now bindings.now))) }
{
    for binding in bindings {
        special(out, site, *binding)?;
    }
    Ok(())
}

// Whether a parameter is undefined.
fn is_undefined(out: &mut CodeBuf, site: &Site, atom: u32) -> Result<(), AllocError>
    ensures { OnOk result (EmitsAt site.now out.old out.new
        (expr.reading (scene_of site.now) (text_in site.now atom) ++ whole (command.plain Op.Undefined ∷ command.plain Op.StrictEq ∷ []))) }
{
    reading(out, site, atom)?;
    plain(out, Op::Undefined)?;
    plain(out, Op::StrictEq)?;
    Ok(())
}

// A parameter's initializer, where the argument is undefined.
fn default_value(
    out: &mut CodeBuf,
    site: &Site,
    name: Ident,
    value: &Option<Expr>,
) -> Result<(), AllocError>
    ensures { OnOk result (ValueEmits site.now out.old out.new value.now (default_of (named_in site.now name))) }
{
    match value {
        Some(value) => {
            let mut waits = Vec::new(site.alloc);
            let mut outside = Vec::new(site.alloc);
            is_undefined(out, site, name.atom)?;
            jump_to(out, Op::JumpIfFalse, Aim::After, &mut waits)?;
            emit_expr(out, site, value, Use::Plainly)?;
            writing(out, site, name.atom)?;
            plain(out, Op::Pop)?;
            target(out, &waits, Aim::After, &mut outside)?;
            Ok(())
        }
        None => Ok(()),
    }
}

// The rest of the arguments, into the parameter that takes it.
#[tactic(auto, using(emit_exprs::proofs::Singles::emits_nothing))]
fn rest_argument(out: &mut CodeBuf, site: &Site, name: Ident, rest: bool) -> Result<(), AllocError>
    ensures { OnOk result (EmitsAt site.now out.old out.new (code.rest_code (scene_of site.now) (named_in site.now name) rest)) }
{
    if rest {
        Ok(given(out, site, Op::Rest, name.atom)?)
    } else {
        Ok(())
    }
}

fn param(out: &mut CodeBuf, site: &Site, param: &Param) -> Result<(), AllocError>
    ensures { OnOk result (ParamEmits site.now out.old out.new param.now) }
{
    default_value(out, site, param.name, &param.value)?;
    rest_argument(out, site, param.name, param.rest)?;
    Ok(())
}

/// The parameters' initializers and the rest of the arguments, in the order of the parameters.
pub fn params(out: &mut CodeBuf, site: &Site, params: &[Param]) -> Result<(), AllocError>
    ensures { OnOk result (ParamsEmit site.now out.old out.new params.now) }
{
    for item in params {
        param(out, site, item)?;
    }
    Ok(())
}
