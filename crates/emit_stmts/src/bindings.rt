//! Values, and names that are bound.
ghost use Rattle.std.specs.Prelude.{OnOk};
ghost use Rattle.emit_stmts.specs.Stmts as code;
ghost use Rattle.emit_stmts.specs.ValueCode.{ValueEmits, BindsEmit, InitEmits, named_in, bind_of_decl, lexical_of, var_of};

use crate::functions::initializing;
use bytecode_buf::{CodeBuf, Op};
use emit_exprs::scenes::{basing, writing};
use emit_exprs::steps::plain;
use emit_exprs::{Site, Use, emit_expr};
use script_grammar::token::Decl;
use script_grammar::tree::{Bind, Expr, Ident, Init};
use std::alloc::AllocError;

/// A value, or undefined.
pub fn value_or_undefined(
    out: &mut CodeBuf,
    site: &Site,
    value: &Option<Expr>,
) -> Result<(), AllocError>
    ensures { OnOk result (ValueEmits site.now out.old out.new value.now code.value_or_undefined) }
{
    match value {
        Some(value) => Ok(emit_expr(out, site, value, Use::Plainly)?),
        None => Ok(plain(out, Op::Undefined)?),
    }
}

/// What stands after a turn of a `for`.
pub fn update(out: &mut CodeBuf, site: &Site, value: &Option<Expr>) -> Result<(), AllocError>
    ensures { OnOk result (ValueEmits site.now out.old out.new value.now code.update_code) }
{
    match value {
        Some(value) => {
            emit_expr(out, site, value, Use::Plainly)?;
            plain(out, Op::Pop)?;
            Ok(())
        }
        None => Ok(()),
    }
}

// A `var` name and its initializer.
fn bind_var(
    out: &mut CodeBuf,
    site: &Site,
    name: Ident,
    value: &Option<Expr>,
) -> Result<(), AllocError>
    ensures { OnOk result (ValueEmits site.now out.old out.new value.now (var_of (named_in site.now name))) }
{
    match value {
        Some(value) => {
            basing(out, site, name.atom)?;
            emit_expr(out, site, value, Use::Plainly)?;
            writing(out, site, name.atom)?;
            plain(out, Op::Pop)?;
            Ok(())
        }
        None => Ok(()),
    }
}

// A `let` or `const` name and its initializer.
fn bind_lexical(
    out: &mut CodeBuf,
    site: &Site,
    name: Ident,
    value: &Option<Expr>,
) -> Result<(), AllocError>
    ensures { OnOk result (ValueEmits site.now out.old out.new value.now (lexical_of (named_in site.now name))) }
{
    value_or_undefined(out, site, value)?;
    initializing(out, site, name.atom)?;
    plain(out, Op::Pop)?;
    Ok(())
}

fn bind_name(
    out: &mut CodeBuf,
    site: &Site,
    decl: Decl,
    name: Ident,
    value: &Option<Expr>,
) -> Result<(), AllocError>
    ensures { OnOk result (ValueEmits site.now out.old out.new value.now (bind_of_decl decl (named_in site.now name))) }
{
    match decl {
        Decl::Var => Ok(bind_var(out, site, name, value)?),
        Decl::Let => Ok(bind_lexical(out, site, name, value)?),
        Decl::Const => Ok(bind_lexical(out, site, name, value)?),
    }
}

/// Names that are declared so, with their initializers.
pub fn bind_names(
    out: &mut CodeBuf,
    site: &Site,
    decl: Decl,
    binds: &[Bind],
) -> Result<(), AllocError>
    ensures { OnOk result (BindsEmit site.now out.old out.new decl binds.now) }
{
    for bind in binds {
        bind_name(out, site, decl, bind.name, &bind.value)?;
    }
    Ok(())
}

/// What stands first in the head of a `for`.
pub fn init(out: &mut CodeBuf, site: &Site, init: &Init) -> Result<(), AllocError>
    ensures { OnOk result (InitEmits site.now out.old out.new init.now) }
{
    match init {
        Init::Nothing => Ok(()),
        Init::Value(value) => {
            emit_expr(out, site, value, Use::Plainly)?;
            plain(out, Op::Pop)?;
            Ok(())
        }
        Init::Binds { decl, binds } => Ok(bind_names(out, site, *decl, binds)?),
    }
}
