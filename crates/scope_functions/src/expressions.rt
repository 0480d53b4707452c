//! Whether expressions use a name themselves: functions inside them are left out.

ghost use Rattle.std.specs.Prelude.{◌≡◌, ℕ, map, option_map};
ghost use Rattle.script_grammar.specs.Tree.{Stmts};
ghost use Rattle.script_grammar.specs.TreeLists.{exprs_of, maybe_expr_of, items_of, maybe_args_of, operands_of, parts_of, tails_of};
ghost use Rattle.script_grammar.specs.TreeLists.{props_of, params_of, binds_of};
ghost use Rattle.script_grammar.specs.TreeOf.{expr_of, operand_of, part_of, tail_of, args_of, key_of, prop_of, bind_of, param_of};
ghost use Rattle.scope_analysis.specs.Uses as uses;
ghost use Rattle.scope_analysis.specs.Kept.{under};
ghost use Rattle.scope_functions.specs.OwnUse.{uses_itself};

use crate::wanted::{Wanted, is_atom, is_this};
use script_grammar::tree::{
    Args, Bind, Expr, Key, NewExpression, Operand, Param, Prop, Tail, TemplatePart,
};

/// Whether an expression uses the name.
#[cycle(using)]
pub fn uses_expr(wanted: &Wanted, tree: &Expr) -> bool
    ensures { (bodies : ℕ → Stmts) → result ≡ uses_itself
        (uses.uses_expr (expr_of (under wanted.now.texts.now bodies) tree.now)) wanted.now.units.now }
{
    match tree {
        Expr::This { .. } => is_this(wanted),
        Expr::Name(name) => is_atom(wanted, name.atom),
        Expr::Null { .. } => false,
        Expr::True { .. } => false,
        Expr::False { .. } => false,
        Expr::Number { .. } => false,
        Expr::Str { .. } => false,
        Expr::Template { parts, .. } => uses_parts(wanted, parts),
        Expr::Array { items, .. } => uses_items(wanted, items),
        Expr::Object { props, .. } => uses_props(wanted, props),
        Expr::Func { .. } => false,
        Expr::Paren { inner, .. } => uses_expr(wanted, inner),
        Expr::Chain { head, tails } => uses_expr(wanted, head) || uses_tails(wanted, tails),
        Expr::New(boxed) => {
            let new: &NewExpression = boxed;
            uses_expr(wanted, &new.callee) || uses_args(wanted, &new.args)
        }
        Expr::Unary { of, .. } => uses_expr(wanted, of),
        Expr::Update { of, .. } => uses_expr(wanted, of),
        Expr::Binary { first, rest } => uses_expr(wanted, first) || uses_operands(wanted, rest),
        Expr::Cond { test, yes, no } => {
            uses_expr(wanted, test) || (uses_expr(wanted, yes) || uses_expr(wanted, no))
        }
        Expr::Assign { target, value, .. } => uses_expr(wanted, target) || uses_expr(wanted, value),
        Expr::Comma { items } => uses_exprs(wanted, items),
    }
}

#[cycle(using)]
fn uses_exprs(wanted: &Wanted, items: &[Expr]) -> bool
    ensures { (bodies : ℕ → Stmts) → result ≡ uses_itself
        (uses.uses_exprs (exprs_of (map (expr_of (under wanted.now.texts.now bodies)) items.now))) wanted.now.units.now }
{
    for item in items {
        if uses_expr(wanted, item) {
            return true;
        }
    }
    false
}

/// Whether an expression that may be left out uses the name.
#[cycle(using)]
pub fn uses_maybe(wanted: &Wanted, value: &Option<Expr>) -> bool
    ensures { (bodies : ℕ → Stmts) → result ≡ uses_itself
        (uses.uses_maybe (maybe_expr_of (option_map (expr_of (under wanted.now.texts.now bodies)) value.now))) wanted.now.units.now }
{
    match value {
        Some(tree) => uses_expr(wanted, tree),
        None => false,
    }
}

#[cycle(using)]
fn uses_args(wanted: &Wanted, args: &Option<Args>) -> bool
    ensures { (bodies : ℕ → Stmts) → result ≡ uses_itself
        (uses.uses_args (maybe_args_of (option_map (args_of (under wanted.now.texts.now bodies)) args.now))) wanted.now.units.now }
{
    match args {
        Some(given) => uses_exprs(wanted, &given.items),
        None => false,
    }
}

#[cycle(using)]
fn uses_parts(wanted: &Wanted, parts: &[TemplatePart]) -> bool
    ensures { (bodies : ℕ → Stmts) → result ≡ uses_itself
        (uses.uses_parts (parts_of (map (part_of (under wanted.now.texts.now bodies)) parts.now))) wanted.now.units.now }
{
    for part in parts {
        if uses_expr(wanted, &part.value) {
            return true;
        }
    }
    false
}

#[cycle(using)]
fn uses_items(wanted: &Wanted, items: &[Option<Expr>]) -> bool
    ensures { (bodies : ℕ → Stmts) → result ≡ uses_itself
        (uses.uses_items (items_of (map (option_map (expr_of (under wanted.now.texts.now bodies))) items.now))) wanted.now.units.now }
{
    for item in items {
        if uses_maybe(wanted, item) {
            return true;
        }
    }
    false
}

#[cycle(using)]
fn uses_operands(wanted: &Wanted, rest: &[Operand]) -> bool
    ensures { (bodies : ℕ → Stmts) → result ≡ uses_itself
        (uses.uses_operands (operands_of (map (operand_of (under wanted.now.texts.now bodies)) rest.now))) wanted.now.units.now }
{
    for operand in rest {
        if uses_expr(wanted, &operand.value) {
            return true;
        }
    }
    false
}

#[cycle(using)]
fn uses_tails(wanted: &Wanted, tails: &[Tail]) -> bool
    ensures { (bodies : ℕ → Stmts) → result ≡ uses_itself
        (uses.uses_tails (tails_of (map (tail_of (under wanted.now.texts.now bodies)) tails.now))) wanted.now.units.now }
{
    for tail in tails {
        if uses_tail(wanted, tail) {
            return true;
        }
    }
    false
}

#[cycle(using)]
fn uses_tail(wanted: &Wanted, tail: &Tail) -> bool
    ensures { (bodies : ℕ → Stmts) → result ≡ uses_itself
        (uses.uses_tail (tail_of (under wanted.now.texts.now bodies) tail.now)) wanted.now.units.now }
{
    match tail {
        Tail::Dot { .. } => false,
        Tail::Index(value) => uses_expr(wanted, value),
        Tail::Call(given) => uses_exprs(wanted, &given.items),
    }
}

#[cycle(using)]
fn uses_key(wanted: &Wanted, key: &Key) -> bool
    ensures { (bodies : ℕ → Stmts) → result ≡ uses_itself (uses.uses_key (key_of (under wanted.now.texts.now bodies) key.now)) wanted.now.units.now }
{
    match key {
        Key::Word(_) => false,
        Key::Str(_) => false,
        Key::Number { .. } => false,
        Key::Computed(value) => uses_expr(wanted, value),
    }
}

#[cycle(using)]
fn uses_prop(wanted: &Wanted, prop: &Prop) -> bool
    ensures { (bodies : ℕ → Stmts) → result ≡ uses_itself
        (uses.uses_prop (prop_of (under wanted.now.texts.now bodies) prop.now)) wanted.now.units.now }
{
    match prop {
        Prop::Short(name) => is_atom(wanted, name.atom),
        Prop::Pair { key, value } => uses_key(wanted, key) || uses_expr(wanted, value),
        Prop::Method { key, .. } => uses_key(wanted, key),
        Prop::Get { key, .. } => uses_key(wanted, key),
        Prop::Set { key, .. } => uses_key(wanted, key),
    }
}

#[cycle(using)]
fn uses_props(wanted: &Wanted, props: &[Prop]) -> bool
    ensures { (bodies : ℕ → Stmts) → result ≡ uses_itself
        (uses.uses_props (props_of (map (prop_of (under wanted.now.texts.now bodies)) props.now))) wanted.now.units.now }
{
    for prop in props {
        if uses_prop(wanted, prop) {
            return true;
        }
    }
    false
}

/// Whether the initializers of parameters use the name.
pub fn uses_params(wanted: &Wanted, params: &[Param]) -> bool
    ensures { (bodies : ℕ → Stmts) → result ≡ uses_itself
        (uses.uses_params (params_of (map (param_of (under wanted.now.texts.now bodies)) params.now))) wanted.now.units.now }
{
    for param in params {
        if uses_maybe(wanted, &param.value) {
            return true;
        }
    }
    false
}

/// Whether the initializers of names use the name.
pub fn uses_binds(wanted: &Wanted, binds: &[Bind]) -> bool
    ensures { (bodies : ℕ → Stmts) → result ≡ uses_itself
        (uses.uses_binds (binds_of (map (bind_of (under wanted.now.texts.now bodies)) binds.now))) wanted.now.units.now }
{
    for bind in binds {
        if uses_maybe(wanted, &bind.value) {
            return true;
        }
    }
    false
}
