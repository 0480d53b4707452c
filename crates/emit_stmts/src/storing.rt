//! What a for-in gives its keys to.
ghost use Rattle.std.specs.Prelude.{◌≡◌, ℕ, List, [], OnOk, slice_index_or};
ghost use Rattle.script_grammar.specs.Interpretation.{Interpretation};
ghost use Rattle.bytecode_buf.specs.Emits.{Emits};
ghost use Rattle.emit_exprs.specs.Names.{base};
ghost use Rattle.emit_exprs.specs.Sites.{EmitsAt, scene_of, text_in};
ghost use Rattle.emit_exprs.specs.Whole.{whole};
ghost use Rattle.emit_stmts.specs.Stmts as code;
ghost use Rattle.emit_stmts.specs.ValueCode.{EachEmits, TargetEmits};

use crate::functions::initializing;
use bytecode_buf::{CodeBuf, Op};
use emit_exprs::scenes::{find_place, writing};
use emit_exprs::steps::{counted, named, plain};
use emit_exprs::{Site, Target, Use, emit_expr, target_of};
use script_grammar::token::Decl;
use script_grammar::tree::{Each, Expr, Ident};
use std::alloc::AllocError;
use stencil_data::Place;

// What stands below the value on top of the stack when the name is written.
#[tactic(auto, using(emit_exprs::proofs::Singles::emits_nothing))]
fn base_below(out: &mut CodeBuf, atom: u32, place: &Place) -> Result<(), AllocError>
    ensures { OnOk result ((texts : List (List ℕ)) → Emits texts out.old out.new
        (whole (code.swapped (base (slice_index_or texts atom []) place.now)))) }
{
    match *place {
        Place::Global => {
            named(out, Op::BindGName, atom)?;
            plain(out, Op::Swap)?;
            Ok(())
        }
        Place::Arg(_) => Ok(()),
        Place::Frame { .. } => Ok(()),
        Place::Env { .. } => Ok(()),
        Place::Callee => Ok(()),
    }
}

/// The value on top of the stack into a name.
fn store_name(out: &mut CodeBuf, site: &Site, atom: u32) -> Result<(), AllocError>
    ensures { OnOk result (EmitsAt site.now out.old out.new (code.store_name (scene_of site.now) (text_in site.now atom))) }
{
    let place = find_place(site, atom);
    base_below(out, atom, &place)?;
    writing(out, site, atom)?;
    Ok(())
}

// The value on top of the stack into what this expression stands for on the left of an assignment.
fn store_target(out: &mut CodeBuf, site: &Site, tree: &Expr) -> Result<(), AllocError>
    ensures { OnOk result (TargetEmits site.now out.old out.new tree.now) }
{
    match target_of(tree) {
        Target::Name(atom) => Ok(store_name(out, site, atom)?),
        Target::Prop(atom) => {
            emit_expr(out, site, tree, Use::Reached)?;
            plain(out, Op::Swap)?;
            named(out, Op::StrictSetProp, atom)?;
            Ok(())
        }
        Target::Elem => {
            emit_expr(out, site, tree, Use::Reached)?;
            counted(out, Op::Pick, 2)?;
            plain(out, Op::StrictSetElem)?;
            Ok(())
        }
        Target::Nothing => Ok(()),
    }
}

fn store_bound(out: &mut CodeBuf, site: &Site, decl: Decl, name: Ident) -> Result<(), AllocError>
    ensures { OnOk result (EmitsAt site.now out.old out.new (code.store_bound (scene_of site.now) decl (text_in site.now name.atom))) }
{
    match decl {
        Decl::Var => Ok(store_name(out, site, name.atom)?),
        Decl::Let => Ok(initializing(out, site, name.atom)?),
        Decl::Const => Ok(initializing(out, site, name.atom)?),
    }
}

/// The key on top of the stack into what the head of a for-in names.
pub fn store_each(out: &mut CodeBuf, site: &Site, each: &Each) -> Result<(), AllocError>
    ensures { OnOk result (EachEmits site.now out.old out.new each.now) }
{
    match each {
        Each::Target(tree) => Ok(store_target(out, site, tree)?),
        Each::Bind { decl, name } => Ok(store_bound(out, site, *decl, *name)?),
    }
}
