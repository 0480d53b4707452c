// The code of a whole expression.
ghost use Rattle.std.specs.Prelude.{◌≡◌, ℕ, Bool, map, option_map, OnOk};
ghost use Rattle.script_grammar.specs.Tree as model;
ghost use Rattle.script_grammar.specs.TreeLists.{exprs_of, items_of, parts_of, props_of};
ghost use Rattle.script_grammar.specs.TreeOf.{expr_of, part_of, prop_of};
ghost use Rattle.emit_exprs.specs.Sites.{text_in};
ghost use Rattle.emit_exprs.specs.Shortcuts.{OperandsEmit};
ghost use Rattle.emit_exprs.specs.TreeCode.{at_site, RowEmits, ExprEmits, ExprsEmit, ArgsEmit, ItemEmits, TailEmits, TailsEmit, PropEmits};
ghost use Rattle.emit_exprs.specs.TreeCode.{MethodEmits, KeyEmits};

use crate::counts::{array_item, call, construct, new_array};
use crate::literals::{lambda, number};
use crate::places::{is_name, list_joining, target_of, use_before};
use crate::properties::{Defines, closing, closing_pair};
use crate::scenes::reading;
use crate::shortcuts::{before_operand, behind_operand, join};
use crate::site::Site;
use crate::steps::{named, plain};
use crate::updates::{before_value, behind_value, operand_use, prefix_operator, updating};
use crate::uses::{Use, before_index, behind_index, used_dot, used_value};
use crate::values::{
    after_part, before_new, dropping, function_value, name_value, number_value, plain_value,
    short_prop, text_value, this_value,
};
use bytecode_buf::{Aim, CodeBuf, Op, Wait, jump_to, target};
use emit_operators::Joining;
use script_grammar::tree::{Args, Expr, Key, NewExpression, Operand, Prop, Tail, TemplatePart};
use std::alloc::AllocError;

/// Appends the code of an expression that is used so.
#[cycle(exprs)]
pub fn emit_expr(out: &mut CodeBuf, site: &Site, tree: &Expr, wanted: Use) -> Result<(), AllocError>
    ensures { OnOk result (ExprEmits site.now out.old out.new wanted tree.now) }
{
    match tree {
        Expr::This { at: _ } => Ok(this_value(out, site, wanted)?),
        Expr::Name(name) => Ok(name_value(out, site, name.atom, wanted)?),
        Expr::Null { at: _ } => Ok(plain_value(out, site, Op::Null, wanted)?),
        Expr::True { at: _ } => Ok(plain_value(out, site, Op::True, wanted)?),
        Expr::False { at: _ } => Ok(plain_value(out, site, Op::False, wanted)?),
        Expr::Number { at: _, value } => Ok(number_value(out, site, *value, wanted)?),
        Expr::Str {
            at: _,
            end: _,
            atom,
        } => Ok(text_value(out, site, *atom, wanted)?),
        Expr::Template {
            at: _,
            first,
            parts,
        } => Ok(emit_template(out, site, *first, parts, wanted)?),
        Expr::Array {
            at: _,
            items,
            comma: _,
        } => Ok(emit_array(out, site, items, wanted)?),
        Expr::Object {
            at: _,
            props,
            comma: _,
        } => Ok(emit_object(out, site, props, wanted)?),
        Expr::Func { at: _, func } => Ok(function_value(out, site, func.start, wanted)?),
        Expr::Paren { at: _, inner } => Ok(emit_expr(out, site, inner, wanted)?),
        Expr::Chain { head, tails } => {
            emit_expr(out, site, head, use_before(wanted, tails))?;
            emit_tails(out, site, tails, wanted)?;
            Ok(())
        }
        Expr::New(boxed) => {
            let new: &NewExpression = boxed;
            emit_expr(out, site, &new.callee, Use::Plainly)?;
            before_new(out)?;
            emit_args(out, site, &new.args, wanted)?;
            Ok(())
        }
        Expr::Unary {
            at: _,
            op,
            of,
            is_word,
        } => Ok(emit_unary(out, site, *op, *is_word, of, wanted)?),
        Expr::Update {
            at: _,
            op,
            prefix,
            of,
        } => Ok(emit_update(out, site, *op, *prefix, of, wanted)?),
        Expr::Binary { first, rest } => {
            let how = list_joining(rest);
            let mut waits = Vec::new(site.alloc);
            emit_expr(out, site, first, Use::Plainly)?;
            emit_operands(out, site, rest, how, &mut waits)?;
            join(out, site, how, rest, &waits)?;
            used_value(out, wanted)?;
            Ok(())
        }
        Expr::Cond { test, yes, no } => {
            let mut waits = Vec::new(site.alloc);
            let mut ends = Vec::new(site.alloc);
            let mut outside = Vec::new(site.alloc);
            emit_expr(out, site, test, Use::Plainly)?;
            jump_to(out, Op::JumpIfFalse, Aim::Otherwise, &mut waits)?;
            emit_expr(out, site, yes, Use::Plainly)?;
            jump_to(out, Op::Goto, Aim::After, &mut waits)?;
            target(out, &waits, Aim::Otherwise, &mut ends)?;
            emit_expr(out, site, no, Use::Plainly)?;
            target(out, &ends, Aim::After, &mut outside)?;
            used_value(out, wanted)?;
            Ok(())
        }
        Expr::Assign { op, target, value } => {
            let place = target_of(target);
            emit_expr(out, site, target, Use::Reached)?;
            before_value(out, site, *op, place)?;
            emit_expr(out, site, value, Use::Plainly)?;
            behind_value(out, site, *op, place)?;
            used_value(out, wanted)?;
            Ok(())
        }
        Expr::Comma { items } => Ok(emit_comma(out, site, items, wanted)?),
    }
}

#[cycle(exprs)]
fn emit_template(
    out: &mut CodeBuf,
    site: &Site,
    first: u32,
    parts: &[TemplatePart],
    wanted: Use,
) -> Result<(), AllocError>
    ensures { OnOk result ((at : ℕ) → RowEmits site.now out.old out.new wanted
        (λ bodies. model.Template at (text_in site.now first) (parts_of (map (part_of (at_site site.now bodies)) parts.now)))) }
{
    named(out, Op::String, first)?;
    for part in parts {
        emit_expr(out, site, &part.value, Use::Plainly)?;
        after_part(out, site, part.after)?;
    }
    used_value(out, wanted)?;
    Ok(())
}

#[cycle(exprs)]
fn emit_array(
    out: &mut CodeBuf,
    site: &Site,
    items: &[Option<Expr>],
    wanted: Use,
) -> Result<(), AllocError>
    ensures { OnOk result ((at : ℕ) (comma : Bool) → RowEmits site.now out.old out.new wanted
        (λ bodies. model.Array at (items_of (map (option_map (expr_of (at_site site.now bodies))) items.now)) comma)) }
{
    new_array(out, site, items.len())?;
    for (index, item) in items.iter().enumerate() {
        emit_item(out, site, item)?;
        array_item(out, site, index)?;
    }
    used_value(out, wanted)?;
    Ok(())
}

// An item of an array, or its hole.
#[cycle(exprs)]
fn emit_item(out: &mut CodeBuf, site: &Site, item: &Option<Expr>) -> Result<(), AllocError>
    ensures { OnOk result (ItemEmits site.now out.old out.new item.now) }
{
    match item {
        Some(value) => Ok(emit_expr(out, site, value, Use::Plainly)?),
        None => Ok(plain(out, Op::Hole)?),
    }
}

#[cycle(exprs)]
fn emit_object(
    out: &mut CodeBuf,
    site: &Site,
    props: &[Prop],
    wanted: Use,
) -> Result<(), AllocError>
    ensures { OnOk result ((at : ℕ) (comma : Bool) → RowEmits site.now out.old out.new wanted
        (λ bodies. model.Object at (props_of (map (prop_of (at_site site.now bodies)) props.now)) comma)) }
{
    plain(out, Op::NewInit)?;
    for prop in props {
        emit_prop(out, site, prop)?;
    }
    used_value(out, wanted)?;
    Ok(())
}

#[cycle(exprs)]
fn emit_prop(out: &mut CodeBuf, site: &Site, prop: &Prop) -> Result<(), AllocError>
    ensures { OnOk result (PropEmits site.now out.old out.new prop.now) }
{
    match prop {
        Prop::Short(name) => Ok(short_prop(out, site, name.atom)?),
        Prop::Pair { key, value } => {
            emit_key(out, site, key)?;
            emit_expr(out, site, value, Use::Plainly)?;
            closing_pair(out, site, key)?;
            Ok(())
        }
        Prop::Method { key, func } => Ok(emit_method(out, site, key, func.start, Defines::Value)?),
        Prop::Get { key, func } => Ok(emit_method(out, site, key, func.start, Defines::Getter)?),
        Prop::Set { key, func } => Ok(emit_method(out, site, key, func.start, Defines::Setter)?),
    }
}

// A property whose value is the function that starts here.
#[cycle(exprs)]
fn emit_method(
    out: &mut CodeBuf,
    site: &Site,
    key: &Key,
    start: u32,
    how: Defines,
) -> Result<(), AllocError>
    ensures { OnOk result (MethodEmits site.now out.old out.new how start key.now) }
{
    emit_key(out, site, key)?;
    lambda(out, site, start)?;
    closing(out, site, key, how)?;
    Ok(())
}

// What stands before the value of a property with this key.
#[cycle(exprs)]
fn emit_key(out: &mut CodeBuf, site: &Site, key: &Key) -> Result<(), AllocError>
    ensures { OnOk result (KeyEmits site.now out.old out.new key.now) }
{
    match key {
        Key::Word(_) => Ok(()),
        Key::Str(_) => Ok(()),
        Key::Number { at: _, value } => Ok(number(out, *value)?),
        Key::Computed(value) => {
            emit_expr(out, site, value, Use::Plainly)?;
            plain(out, Op::ToPropertyKey)?;
            Ok(())
        }
    }
}

#[cycle(exprs)]
fn emit_tails(out: &mut CodeBuf, site: &Site, tails: &[Tail], wanted: Use) -> Result<(), AllocError>
    ensures { OnOk result (TailsEmit site.now out.old out.new wanted tails.now) }
{
    for (index, tail) in tails.iter().enumerate() {
        emit_tail(out, site, tail, use_before(wanted, &tails[index + 1..]))?;
    }
    Ok(())
}

#[cycle(exprs)]
fn emit_tail(out: &mut CodeBuf, site: &Site, tail: &Tail, wanted: Use) -> Result<(), AllocError>
    ensures { OnOk result (TailEmits site.now out.old out.new wanted tail.now) }
{
    match tail {
        Tail::Dot { atom } => Ok(used_dot(out, wanted, *atom)?),
        Tail::Index(key) => {
            before_index(out, wanted)?;
            emit_expr(out, site, key, Use::Plainly)?;
            behind_index(out, wanted)?;
            Ok(())
        }
        Tail::Call(args) => {
            emit_exprs(out, site, &args.items)?;
            call(out, site, args.items.len(), wanted)?;
            Ok(())
        }
    }
}

#[cycle(exprs)]
fn emit_exprs(out: &mut CodeBuf, site: &Site, items: &[Expr]) -> Result<(), AllocError>
    ensures { OnOk result (ExprsEmit site.now out.old out.new items.now) }
{
    for item in items {
        emit_expr(out, site, item, Use::Plainly)?;
    }
    Ok(())
}

// The arguments of a `new`, and the `new`.
#[cycle(exprs)]
fn emit_args(
    out: &mut CodeBuf,
    site: &Site,
    args: &Option<Args>,
    wanted: Use,
) -> Result<(), AllocError>
    ensures { OnOk result (ArgsEmit site.now out.old out.new wanted args.now) }
{
    match args {
        Some(some) => {
            emit_exprs(out, site, &some.items)?;
            construct(out, site, some.items.len(), wanted)?;
            Ok(())
        }
        None => Ok(construct(out, site, 0, wanted)?),
    }
}

#[cycle(exprs)]
fn emit_unary(
    out: &mut CodeBuf,
    site: &Site,
    sign: u8,
    is_word: bool,
    operand: &Expr,
    wanted: Use,
) -> Result<(), AllocError>
    ensures { OnOk result ((at : ℕ) → RowEmits site.now out.old out.new wanted
        (λ bodies. model.Unary at sign (expr_of (at_site site.now bodies) operand.now) is_word)) }
{
    emit_expr(out, site, operand, operand_use(is_word, sign))?;
    prefix_operator(out, is_word, sign, is_name(target_of(operand)))?;
    used_value(out, wanted)?;
    Ok(())
}

#[cycle(exprs)]
fn emit_update(
    out: &mut CodeBuf,
    site: &Site,
    sign: u8,
    prefix: bool,
    operand: &Expr,
    wanted: Use,
) -> Result<(), AllocError>
    ensures { OnOk result ((at : ℕ) → RowEmits site.now out.old out.new wanted
        (λ bodies. model.Update at sign prefix (expr_of (at_site site.now bodies) operand.now))) }
{
    emit_expr(out, site, operand, Use::Reached)?;
    updating(out, site, prefix, sign, target_of(operand))?;
    used_value(out, wanted)?;
    Ok(())
}

// The operands of a binary list after the first; the jumps over them wait for what follows.
#[cycle(exprs)]
fn emit_operands(
    out: &mut CodeBuf,
    site: &Site,
    rest: &[Operand],
    how: Joining,
    waits: &mut Vec<Wait>,
) -> Result<(), AllocError>
    ensures { OnOk result (OperandsEmit site.now how out.old waits.old.items out.new waits.new.items rest.now) }
{
    for operand in rest {
        before_operand(out, how, waits)?;
        emit_expr(out, site, &operand.value, Use::Plainly)?;
        behind_operand(out, how, operand.is_word, operand.op)?;
    }
    Ok(())
}

#[cycle(exprs)]
fn emit_comma(out: &mut CodeBuf, site: &Site, items: &[Expr], wanted: Use) -> Result<(), AllocError>
    ensures { OnOk result (RowEmits site.now out.old out.new wanted
        (λ bodies. model.Comma (exprs_of (map (expr_of (at_site site.now bodies)) items.now)))) }
{
    for (index, item) in items.iter().enumerate() {
        emit_expr(out, site, item, Use::Plainly)?;
        dropping(out, index + 1 < items.len())?;
    }
    used_value(out, wanted)?;
    Ok(())
}
