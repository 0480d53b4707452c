//! The parts of a kept tree, made of parts over nodes that are trees.

ghost use Rattle.std.specs.Prelude.{◌≡◌, List, ℕ, IfOk, map, option_map};
ghost use Rattle.script_grammar.specs.Interpretation.{Interpretation};
ghost use Rattle.script_grammar.specs.Shows.{ShowAll};
ghost use Rattle.script_grammar.specs.TreeOf.{args_of, operand_of, part_of, tail_of, key_of, body_of, param_of, func_of, bind_of, init_of};
ghost use Rattle.script_grammar.specs.TreeOf.{each_of, clause_of};
ghost use Rattle.parse_handlers.specs.Kept.{kept_args, kept_operand, kept_part, kept_tail, kept_key, kept_body, kept_param, kept_func};
ghost use Rattle.parse_handlers.specs.Kept.{kept_bind, kept_init, kept_each, kept_clause};

use script_grammar::node::{
    NodeArgs, NodeBind, NodeClause, NodeEach, NodeFunc, NodeFuncBody, NodeInit, NodeKey,
    NodeOperand, NodeParam, NodeTail, NodeTemplatePart,
};
use script_grammar::tree::{
    Args, Bind, Clause, Each, Expr, Func, FuncBody, Init, Key, Operand, Param, Stmt, Tail,
    TemplatePart,
};
use std::alloc::{AllocError, Global};

pub fn args(node: NodeArgs<Expr>) -> Args
    ensures { (i : Interpretation) → args_of i result ≡ kept_args i node }
{
    let NodeArgs { items, comma } = node;
    Args { items, comma }
}

pub fn maybe_args(node: Option<NodeArgs<Expr>>) -> Option<Args>
    ensures { (i : Interpretation) → option_map (args_of i) result ≡ option_map (kept_args i) node }
{
    match node {
        None => None,
        Some(node) => Some(args(node)),
    }
}

fn operand(node: NodeOperand<Expr>) -> Operand
    ensures { (i : Interpretation) → operand_of i result ≡ kept_operand i node }
{
    let NodeOperand { op, is_word, value } = node;
    Operand { op, is_word, value }
}

fn template_part(node: NodeTemplatePart<Expr>) -> TemplatePart
    ensures { (i : Interpretation) → part_of i result ≡ kept_part i node }
{
    let NodeTemplatePart { value, after } = node;
    TemplatePart { value, after }
}

fn tail(node: NodeTail<Expr>) -> Tail
    ensures { (i : Interpretation) → tail_of i result ≡ kept_tail i node }
{
    match node {
        NodeTail::Dot { atom } => Tail::Dot { atom },
        NodeTail::Index(value) => Tail::Index(value),
        NodeTail::Call(node) => Tail::Call(args(node)),
    }
}

pub fn key(node: NodeKey<Expr>) -> Key
    ensures { (i : Interpretation) → key_of i result ≡ kept_key i node }
{
    match node {
        NodeKey::Word(name) => Key::Word(name),
        NodeKey::Str(name) => Key::Str(name),
        NodeKey::Number { at, value } => Key::Number { at, value },
        NodeKey::Computed(value) => Key::Computed(value),
    }
}

fn body(alloc: Global, node: NodeFuncBody<Expr, Vec<Stmt>>) -> Result<FuncBody, AllocError>
    ensures { IfOk result (λ b. (i : Interpretation) → body_of i b ≡ kept_body i node) }
{
    match node {
        NodeFuncBody::Braced(items) => Ok(FuncBody::Braced(items)),
        NodeFuncBody::Short(value) => Ok(FuncBody::Short(Box::new(alloc, value)?)),
        NodeFuncBody::Passed => Ok(FuncBody::Passed),
    }
}

fn param(node: NodeParam<Expr>) -> Param
    ensures { (i : Interpretation) → param_of i result ≡ kept_param i node }
{
    let NodeParam { name, value, rest } = node;
    Param { name, value, rest }
}

fn bind(node: NodeBind<Expr>) -> Bind
    ensures { (i : Interpretation) → bind_of i result ≡ kept_bind i node }
{
    let NodeBind { name, value } = node;
    Bind { name, value }
}

fn clause(node: NodeClause<Expr, Stmt>) -> Clause
    ensures { (i : Interpretation) → clause_of i result ≡ kept_clause i node }
{
    let NodeClause { test, items } = node;
    Clause { test, items }
}

fn converted<N: Drop, T: Drop, F: Fn(N) -> T + Drop>(
    alloc: Global,
    nodes: Vec<N>,
    convert: F,
) -> Result<Vec<T>, AllocError>
    requires { F.IsAlwaysCallable convert }
    ensures { IfOk result (λ made. ShowAll (F.post convert) nodes.items made.items) }
{
    let mut made = Vec::with_capacity(alloc, nodes.len())?;
    for node in nodes {
        made.push(convert(node))?;
    }
    Ok(made)
}

pub fn operands(alloc: Global, nodes: Vec<NodeOperand<Expr>>) -> Result<Vec<Operand>, AllocError>
    ensures { IfOk result (λ v. (i : Interpretation) → map (operand_of i) v.items ≡ map (kept_operand i) nodes.items) }
{
    converted(alloc, nodes, operand)
}

pub fn template_parts(
    alloc: Global,
    nodes: Vec<NodeTemplatePart<Expr>>,
) -> Result<Vec<TemplatePart>, AllocError>
    ensures { IfOk result (λ v. (i : Interpretation) → map (part_of i) v.items ≡ map (kept_part i) nodes.items) }
{
    converted(alloc, nodes, template_part)
}

pub fn tails(alloc: Global, nodes: Vec<NodeTail<Expr>>) -> Result<Vec<Tail>, AllocError>
    ensures { IfOk result (λ v. (i : Interpretation) → map (tail_of i) v.items ≡ map (kept_tail i) nodes.items) }
{
    converted(alloc, nodes, tail)
}

fn params(alloc: Global, nodes: Vec<NodeParam<Expr>>) -> Result<Vec<Param>, AllocError>
    ensures { IfOk result (λ v. (i : Interpretation) → map (param_of i) v.items ≡ map (kept_param i) nodes.items) }
{
    converted(alloc, nodes, param)
}

pub fn binds(alloc: Global, nodes: Vec<NodeBind<Expr>>) -> Result<Vec<Bind>, AllocError>
    ensures { IfOk result (λ v. (i : Interpretation) → map (bind_of i) v.items ≡ map (kept_bind i) nodes.items) }
{
    converted(alloc, nodes, bind)
}

pub fn clauses(alloc: Global, nodes: Vec<NodeClause<Expr, Stmt>>) -> Result<Vec<Clause>, AllocError>
    ensures { IfOk result (λ v. (i : Interpretation) → map (clause_of i) v.items ≡ map (kept_clause i) nodes.items) }
{
    converted(alloc, nodes, clause)
}

pub fn func(alloc: Global, node: NodeFunc<Expr, Vec<Stmt>>) -> Result<Func, AllocError>
    ensures { IfOk result (λ f. (i : Interpretation) → func_of i f ≡ kept_func i node) }
{
    let NodeFunc {
        form,
        start,
        end,
        name,
        params,
        comma,
        bare,
        body,
    } = node;
    let params = self::params(alloc, params)?;
    let body = self::body(alloc, body)?;
    Ok(Func {
        form,
        start,
        end,
        name,
        params,
        comma,
        bare,
        body,
    })
}

pub fn init(alloc: Global, node: NodeInit<Expr>) -> Result<Init, AllocError>
    ensures { IfOk result (λ n. (i : Interpretation) → init_of i n ≡ kept_init i node) }
{
    match node {
        NodeInit::Nothing => Ok(Init::Nothing),
        NodeInit::Value(value) => Ok(Init::Value(value)),
        NodeInit::Binds { decl, binds } => Ok(Init::Binds {
            decl,
            binds: self::binds(alloc, binds)?,
        }),
    }
}

pub fn each(node: NodeEach<Expr>) -> Each
    ensures { (i : Interpretation) → each_of i result ≡ kept_each i node }
{
    match node {
        NodeEach::Target(value) => Each::Target(value),
        NodeEach::Bind { decl, name } => Each::Bind { decl, name },
    }
}
