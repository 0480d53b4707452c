// Assignments, `++` and `--` on a place that was reached, and prefix operators.
ghost use Rattle.std.specs.Prelude.{◌≡◌, ◌≤◌, [], ◌∷◌, true, false, if◌then◌else◌, nat_eq, OnOk, ℕ, List};
ghost use Rattle.script_grammar.specs.declared.token.mark.TheConstants as mark;
ghost use Rattle.bytecode_buf.specs.declared.opcode.Shape.TheVariants as shape;
ghost use Rattle.bytecode_buf.specs.Width.{shape_of};
ghost use Rattle.bytecode_buf.specs.Command as command;
ghost use Rattle.bytecode_buf.specs.Emits.{Emits};
ghost use Rattle.emit_exprs.specs.Names as names;
ghost use Rattle.emit_exprs.specs.Exprs as code;
ghost use Rattle.emit_operators.specs.Operators as operators;
ghost use Rattle.emit_exprs.specs.Sites.{EmitsAt, scene_of};
ghost use Rattle.emit_exprs.specs.Targets.{target_in};
ghost use Rattle.emit_exprs.specs.Whole.{whole, just};

use crate::scenes::find_place;
use crate::site::Site;
use crate::steps::{counted, plain};
use crate::targets::{Target, loading, storing};
use crate::uses::Use;
use bytecode_buf::{CodeBuf, Op};
use emit_operators::{assign_op, prefix_op, update_op};
use script_grammar::token::{mark, word};
use std::alloc::AllocError;
use stencil_data::Place;

fn base_size(place: &Place) -> u32
    ensures is { (name : List ℕ) → result ≡ code.base_size (names.base name place.now) }
    ensures small { result ≤ 1 }
{
    match *place {
        Place::Global => 1,
        Place::Arg(_) => 0,
        Place::Frame { .. } => 0,
        Place::Env { .. } => 0,
        Place::Callee => 0,
    }
}

// How many values reach the name with this atom.
fn name_size(site: &Site, atom: u32) -> u32
    ensures is { result ≡ code.reach_size (scene_of site.now) (target_in site.now.texts.now (Target.Name atom)) }
    ensures small { result ≤ 1 }
{
    let place = find_place(site, atom);
    base_size(&place)
}

// How many values reach this place.
fn reach_size(site: &Site, target: Target) -> u32
    ensures is { result ≡ code.reach_size (scene_of site.now) (target_in site.now.texts.now target) }
    ensures small { result ≤ 2 }
{
    match target {
        Target::Name(atom) => name_size(site, atom),
        Target::Prop(_) => 1,
        Target::Elem => 2,
        Target::Nothing => 0,
    }
}

// The old value goes below what reached the place.
#[tactic(auto, using(crate::proofs::Singles::emits_nothing))]
fn keeping(out: &mut CodeBuf, size: u32) -> Result<(), AllocError>
    requires { size ≤ 2 }
    ensures { OnOk result ((texts : List (List ℕ)) → Emits texts out.old out.new (code.keeping size)) }
{
    if size == 0 {
        Ok(())
    } else {
        Ok(counted(out, Op::Unpick, size + 1)?)
    }
}

fn numeric_updated(out: &mut CodeBuf, sign: u8) -> Result<(), AllocError>
    ensures { OnOk result ((texts : List (List ℕ)) → Emits texts out.old out.new
        (whole (command.plain Op.ToNumeric ∷ command.plain (operators.update_op sign) ∷ []))) }
{
    plain(out, Op::ToNumeric)?;
    plain(out, update_op(sign))?;
    Ok(())
}

fn numeric_twice(out: &mut CodeBuf) -> Result<(), AllocError>
    ensures { OnOk result ((texts : List (List ℕ)) → Emits texts out.old out.new (whole (command.plain Op.ToNumeric ∷ command.plain Op.Dup ∷ []))) }
{
    plain(out, Op::ToNumeric)?;
    plain(out, Op::Dup)?;
    Ok(())
}

fn updating_before(
    out: &mut CodeBuf,
    site: &Site,
    sign: u8,
    target: Target,
) -> Result<(), AllocError>
    ensures { OnOk result (EmitsAt site.now out.old out.new (code.updating (scene_of site.now) true sign (target_in site.now.texts.now target))) }
{
    loading(out, site, target)?;
    numeric_updated(out, sign)?;
    storing(out, site, target)?;
    Ok(())
}

fn updating_behind(
    out: &mut CodeBuf,
    site: &Site,
    sign: u8,
    target: Target,
) -> Result<(), AllocError>
    ensures { OnOk result (EmitsAt site.now out.old out.new (code.updating (scene_of site.now) false sign (target_in site.now.texts.now target))) }
{
    loading(out, site, target)?;
    numeric_twice(out)?;
    let size = reach_size(site, target);
    keeping(out, size)?;
    plain(out, update_op(sign))?;
    storing(out, site, target)?;
    plain(out, Op::Pop)?;
    Ok(())
}

/// `++` or `--` on a place that was reached; `prefix` says that it stands before its operand.
pub fn updating(
    out: &mut CodeBuf,
    site: &Site,
    prefix: bool,
    sign: u8,
    target: Target,
) -> Result<(), AllocError>
    ensures { OnOk result (EmitsAt site.now out.old out.new (code.updating (scene_of site.now) prefix sign (target_in site.now.texts.now target))) }
{
    if prefix {
        Ok(updating_before(out, site, sign, target)?)
    } else {
        Ok(updating_behind(out, site, sign, target)?)
    }
}

/// What an assignment puts before its value, over what reached the place.
#[tactic(auto, using(crate::proofs::Singles::emits_nothing))]
pub fn before_value(
    out: &mut CodeBuf,
    site: &Site,
    sign: u8,
    target: Target,
) -> Result<(), AllocError>
    ensures { OnOk result (EmitsAt site.now out.old out.new (code.before_value (scene_of site.now) sign (target_in site.now.texts.now target))) }
{
    if sign == mark::ASSIGN {
        Ok(())
    } else {
        Ok(loading(out, site, target)?)
    }
}

// The operator of an assignment, where it has one.
#[tactic(auto, using(crate::proofs::Singles::emits_nothing))]
fn operating(out: &mut CodeBuf, sign: u8) -> Result<(), AllocError>
    ensures { OnOk result ((texts : List (List ℕ)) → Emits texts out.old out.new
        (if nat_eq sign mark.ASSIGN then [] else just (operators.assign_op sign))) }
{
    if sign == mark::ASSIGN {
        Ok(())
    } else {
        Ok(plain(out, assign_op(sign))?)
    }
}

/// What an assignment puts after its value.
pub fn behind_value(
    out: &mut CodeBuf,
    site: &Site,
    sign: u8,
    target: Target,
) -> Result<(), AllocError>
    ensures { OnOk result (EmitsAt site.now out.old out.new (code.behind_value (scene_of site.now) sign (target_in site.now.texts.now target))) }
{
    operating(out, sign)?;
    storing(out, site, target)?;
    Ok(())
}

/// How the operand of a prefix operator is used.
pub fn operand_use(is_word: bool, sign: u8) -> Use
    ensures { result ≡ code.operand_use is_word sign }
{
    if is_word {
        if sign == word::DELETE {
            Use::Deleted
        } else {
            Use::Plainly
        }
    } else {
        Use::Plainly
    }
}

fn typeof_op(of_name: bool) -> Op
    ensures is { result ≡ (if of_name then Op.Typeof else Op.TypeofExpr) }
    ensures plain { shape_of result ≡ shape.Nothing }
{
    if of_name { Op::Typeof } else { Op::TypeofExpr }
}

#[tactic(auto, using(crate::proofs::Singles::emits_nothing))]
fn word_operator(out: &mut CodeBuf, sign: u8, of_name: bool) -> Result<(), AllocError>
    ensures { OnOk result ((texts : List (List ℕ)) → Emits texts out.old out.new (code.word_code sign of_name)) }
{
    if sign == word::DELETE {
        Ok(())
    } else if sign == word::TYPEOF {
        Ok(plain(out, typeof_op(of_name))?)
    } else {
        Ok(plain(out, Op::Void)?)
    }
}

/// What a prefix operator puts after its operand.
pub fn prefix_operator(
    out: &mut CodeBuf,
    is_word: bool,
    sign: u8,
    of_name: bool,
) -> Result<(), AllocError>
    ensures { OnOk result ((texts : List (List ℕ)) → Emits texts out.old out.new (code.prefix_code is_word sign of_name)) }
{
    if is_word {
        Ok(word_operator(out, sign, of_name)?)
    } else {
        Ok(plain(out, prefix_op(false, sign))?)
    }
}
