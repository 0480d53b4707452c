//! The functions directly in an expression, with the chain of scopes at each.
ghost use Rattle.std.specs.Prelude.{◌≡◌, ◌∷◌, [], map, option_map, OnOk};
ghost use Rattle.script_grammar.specs.Interpretation.{Interpretation, text_of};
ghost use Rattle.script_grammar.specs.Tree.{Named};
ghost use Rattle.script_grammar.specs.TreeLists.{exprs_of, maybe_expr_of, items_of, maybe_args_of, operands_of, parts_of, tails_of, props_of};
ghost use Rattle.script_grammar.specs.TreeOf.{expr_of, key_of, prop_of, tail_of, args_of, func_of, operand_of, part_of};
ghost use Rattle.scope_analysis.specs.DeclaredNames.{function_name};
ghost use Rattle.scope_analysis.specs.Functions as defined;
ghost use Rattle.scope_inner.specs.Finding.{FindsBy};

use crate::sites::FunctionSite;
use script_grammar::token::FuncForm;
use script_grammar::tree::{
    Args, Expr, Func, Key, NewExpression, Operand, Prop, Tail, TemplatePart,
};
use std::alloc::AllocError;
use stencil_data::{Chain, FuncKind};

// A function of this kind and name, under this chain.
fn find_function<'a>(
    found: &mut Vec<FunctionSite<'a>>,
    func: &'a Func,
    kind: FuncKind,
    name: Option<u32>,
    chain: &Chain,
) -> Result<(), AllocError>
    ensures { OnOk result (FindsBy found.old.items found.new.items chain.now
        (λ i around. record { func = func_of i func.now; kind = kind; name = option_map (text_of i) name; around = around } ∷ [])) }
{
    found.push(FunctionSite {
        func,
        kind,
        name,
        chain: chain.copy()?,
    })?;
    Ok(())
}

fn own_name(func: &Func) -> Option<u32>
    ensures { (i : Interpretation) → option_map (text_of i) result ≡ option_map (λ (n : Named). n.text) (function_name (func_of i func.now)) }
{
    match func.name {
        Some(name) => Some(name.atom),
        None => None,
    }
}

fn expression_kind(form: FuncForm) -> FuncKind
    ensures { result ≡ defined.expression_kind form }
{
    match form {
        FuncForm::Arrow => FuncKind::Arrow,
        _ => FuncKind::Expression,
    }
}

/// A function of this kind with the name that is written in it.
pub fn find_named<'a>(
    found: &mut Vec<FunctionSite<'a>>,
    func: &'a Func,
    kind: FuncKind,
    chain: &Chain,
) -> Result<(), AllocError>
    ensures { OnOk result (FindsBy found.old.items found.new.items chain.now (λ i. defined.named_inner kind (func_of i func.now))) }
{
    Ok(find_function(found, func, kind, own_name(func), chain)?)
}

// A function of this kind without a name of its own.
fn find_nameless<'a>(
    found: &mut Vec<FunctionSite<'a>>,
    func: &'a Func,
    kind: FuncKind,
    chain: &Chain,
) -> Result<(), AllocError>
    ensures { OnOk result (FindsBy found.old.items found.new.items chain.now (λ i. defined.nameless_inner kind (func_of i func.now))) }
{
    Ok(find_function(found, func, kind, None, chain)?)
}

// A function expression or an arrow.
fn find_expression<'a>(
    found: &mut Vec<FunctionSite<'a>>,
    func: &'a Func,
    chain: &Chain,
) -> Result<(), AllocError>
    ensures { OnOk result (FindsBy found.old.items found.new.items chain.now
        (λ i. defined.named_inner (defined.expression_kind (defined.function_form (func_of i func.now))) (func_of i func.now))) }
{
    Ok(find_named(found, func, expression_kind(func.form), chain)?)
}

/// The functions directly in an expression, in the order of the source.
#[cycle(finding)]
pub fn find_expr<'a>(
    found: &mut Vec<FunctionSite<'a>>,
    tree: &'a Expr,
    chain: &Chain,
) -> Result<(), AllocError>
    ensures { OnOk result (FindsBy found.old.items found.new.items chain.now (λ i. defined.inner_expr (expr_of i tree.now))) }
{
    match tree {
        Expr::This { .. } => Ok(()),
        Expr::Name(_) => Ok(()),
        Expr::Null { .. } => Ok(()),
        Expr::True { .. } => Ok(()),
        Expr::False { .. } => Ok(()),
        Expr::Number { .. } => Ok(()),
        Expr::Str { .. } => Ok(()),
        Expr::Template { parts, .. } => Ok(find_parts(found, parts, chain)?),
        Expr::Array { items, .. } => Ok(find_items(found, items, chain)?),
        Expr::Object { props, .. } => Ok(find_props(found, props, chain)?),
        Expr::Func { func, .. } => Ok(find_expression(found, func, chain)?),
        Expr::Paren { inner, .. } => Ok(find_expr(found, inner, chain)?),
        Expr::Chain { head, tails } => {
            find_expr(found, head, chain)?;
            find_tails(found, tails, chain)?;
            Ok(())
        }
        Expr::New(boxed) => {
            let new: &NewExpression = boxed;
            find_expr(found, &new.callee, chain)?;
            find_args(found, &new.args, chain)?;
            Ok(())
        }
        Expr::Unary { of, .. } => Ok(find_expr(found, of, chain)?),
        Expr::Update { of, .. } => Ok(find_expr(found, of, chain)?),
        Expr::Binary { first, rest } => {
            find_expr(found, first, chain)?;
            find_operands(found, rest, chain)?;
            Ok(())
        }
        Expr::Cond { test, yes, no } => {
            find_expr(found, test, chain)?;
            find_expr(found, yes, chain)?;
            find_expr(found, no, chain)?;
            Ok(())
        }
        Expr::Assign { target, value, .. } => {
            find_expr(found, target, chain)?;
            find_expr(found, value, chain)?;
            Ok(())
        }
        Expr::Comma { items } => Ok(find_exprs(found, items, chain)?),
    }
}

// Expressions, as the arguments of a call.
#[cycle(finding)]
fn find_exprs<'a>(
    found: &mut Vec<FunctionSite<'a>>,
    items: &'a [Expr],
    chain: &Chain,
) -> Result<(), AllocError>
    ensures { OnOk result (FindsBy found.old.items found.new.items chain.now (λ i. defined.inner_exprs (exprs_of (map (expr_of i) items.now)))) }
{
    for item in items {
        find_expr(found, item, chain)?;
    }
    Ok(())
}

// The arguments of a `new`.
#[cycle(finding)]
fn find_args<'a>(
    found: &mut Vec<FunctionSite<'a>>,
    args: &'a Option<Args>,
    chain: &Chain,
) -> Result<(), AllocError>
    ensures { OnOk result (FindsBy found.old.items found.new.items chain.now
        (λ i. defined.inner_args (maybe_args_of (option_map (args_of i) args.now)))) }
{
    match args {
        Some(some) => Ok(find_exprs(found, &some.items, chain)?),
        None => Ok(()),
    }
}

// The values in a template.
#[cycle(finding)]
fn find_parts<'a>(
    found: &mut Vec<FunctionSite<'a>>,
    parts: &'a [TemplatePart],
    chain: &Chain,
) -> Result<(), AllocError>
    ensures { OnOk result (FindsBy found.old.items found.new.items chain.now (λ i. defined.inner_parts (parts_of (map (part_of i) parts.now)))) }
{
    for part in parts {
        find_expr(found, &part.value, chain)?;
    }
    Ok(())
}

// The items of an array.
#[cycle(finding)]
fn find_items<'a>(
    found: &mut Vec<FunctionSite<'a>>,
    items: &'a [Option<Expr>],
    chain: &Chain,
) -> Result<(), AllocError>
    ensures { OnOk result (FindsBy found.old.items found.new.items chain.now
        (λ i. defined.inner_items (items_of (map (option_map (expr_of i)) items.now)))) }
{
    for item in items {
        find_maybe(found, item, chain)?;
    }
    Ok(())
}

/// The functions directly in an expression that may be left out.
#[cycle(finding)]
pub fn find_maybe<'a>(
    found: &mut Vec<FunctionSite<'a>>,
    value: &'a Option<Expr>,
    chain: &Chain,
) -> Result<(), AllocError>
    ensures { OnOk result (FindsBy found.old.items found.new.items chain.now
        (λ i. defined.inner_maybe (maybe_expr_of (option_map (expr_of i) value.now)))) }
{
    match value {
        Some(value) => Ok(find_expr(found, value, chain)?),
        None => Ok(()),
    }
}

// The operands of a binary list after the first.
#[cycle(finding)]
fn find_operands<'a>(
    found: &mut Vec<FunctionSite<'a>>,
    rest: &'a [Operand],
    chain: &Chain,
) -> Result<(), AllocError>
    ensures { OnOk result (FindsBy found.old.items found.new.items chain.now
        (λ i. defined.inner_operands (operands_of (map (operand_of i) rest.now)))) }
{
    for operand in rest {
        find_expr(found, &operand.value, chain)?;
    }
    Ok(())
}

// The members and calls after an expression.
#[cycle(finding)]
fn find_tails<'a>(
    found: &mut Vec<FunctionSite<'a>>,
    tails: &'a [Tail],
    chain: &Chain,
) -> Result<(), AllocError>
    ensures { OnOk result (FindsBy found.old.items found.new.items chain.now (λ i. defined.inner_tails (tails_of (map (tail_of i) tails.now)))) }
{
    for tail in tails {
        find_tail(found, tail, chain)?;
    }
    Ok(())
}

#[cycle(finding)]
fn find_tail<'a>(
    found: &mut Vec<FunctionSite<'a>>,
    tail: &'a Tail,
    chain: &Chain,
) -> Result<(), AllocError>
    ensures { OnOk result (FindsBy found.old.items found.new.items chain.now (λ i. defined.inner_tail (tail_of i tail.now))) }
{
    match tail {
        Tail::Dot { .. } => Ok(()),
        Tail::Index(key) => Ok(find_expr(found, key, chain)?),
        Tail::Call(args) => Ok(find_exprs(found, &args.items, chain)?),
    }
}

#[cycle(finding)]
fn find_key<'a>(
    found: &mut Vec<FunctionSite<'a>>,
    key: &'a Key,
    chain: &Chain,
) -> Result<(), AllocError>
    ensures { OnOk result (FindsBy found.old.items found.new.items chain.now (λ i. defined.inner_key (key_of i key.now))) }
{
    match key {
        Key::Word(_) => Ok(()),
        Key::Str(_) => Ok(()),
        Key::Number { .. } => Ok(()),
        Key::Computed(value) => Ok(find_expr(found, value, chain)?),
    }
}

#[cycle(finding)]
fn find_prop<'a>(
    found: &mut Vec<FunctionSite<'a>>,
    prop: &'a Prop,
    chain: &Chain,
) -> Result<(), AllocError>
    ensures { OnOk result (FindsBy found.old.items found.new.items chain.now (λ i. defined.inner_prop (prop_of i prop.now))) }
{
    match prop {
        Prop::Short(_) => Ok(()),
        Prop::Pair { key, value } => {
            find_key(found, key, chain)?;
            find_expr(found, value, chain)?;
            Ok(())
        }
        Prop::Method { key, func } => {
            find_key(found, key, chain)?;
            find_nameless(found, func, FuncKind::Method, chain)?;
            Ok(())
        }
        Prop::Get { key, func } => {
            find_key(found, key, chain)?;
            find_nameless(found, func, FuncKind::Getter, chain)?;
            Ok(())
        }
        Prop::Set { key, func } => {
            find_key(found, key, chain)?;
            find_nameless(found, func, FuncKind::Setter, chain)?;
            Ok(())
        }
    }
}

// The properties of an object.
#[cycle(finding)]
fn find_props<'a>(
    found: &mut Vec<FunctionSite<'a>>,
    props: &'a [Prop],
    chain: &Chain,
) -> Result<(), AllocError>
    ensures { OnOk result (FindsBy found.old.items found.new.items chain.now (λ i. defined.inner_props (props_of (map (prop_of i) props.now)))) }
{
    for prop in props {
        find_prop(found, prop, chain)?;
    }
    Ok(())
}
