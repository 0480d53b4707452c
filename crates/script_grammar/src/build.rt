//! One call for each variant of a tree, which says what the new tree stands for.

ghost use Rattle.std.specs.Prelude.{◌≡◌, List, Option, Some, None, IfOk, map, option_map};
ghost use Rattle.script_grammar.specs.Interpretation.{Interpretation, text_of, named, maybe_named};
ghost use Rattle.script_grammar.specs.Tree as model;
ghost use Rattle.script_grammar.specs.TreeLists.{exprs_of, maybe_expr_of, items_of, maybe_args_of, operands_of, parts_of, tails_of};
ghost use Rattle.script_grammar.specs.TreeLists.{props_of, params_of, binds_of, clauses_of, stmts_of, maybe_stmt_of};
ghost use Rattle.script_grammar.specs.TreeOf.{expr_of, stmt_of, prop_of, key_of, body_of, init_of, each_of, tail_of, args_of, bind_of};
ghost use Rattle.script_grammar.specs.TreeOf.{clause_of, func_of, operand_of, param_of, part_of};

use crate::token::Decl;
use crate::tree::{
    Args, Bind, Clause, Each, Expr, ForInStatement, ForStatement, Func, Ident, IfStatement, Init,
    Key, NewExpression, Operand, Prop, Stmt, SwitchStatement, Tail, TemplatePart, TryStatement,
};
use std::alloc::{AllocError, Global};

/// `this`.
pub fn this(at: u32) -> Expr
    ensures { (i : Interpretation) → expr_of i result ≡ model.This at }
{
    Expr::This { at }
}

/// A name.
pub fn name(name: Ident) -> Expr
    ensures { (i : Interpretation) → expr_of i result ≡ model.Name (named i name) }
{
    Expr::Name(name)
}

/// `null`.
pub fn null(at: u32) -> Expr
    ensures { (i : Interpretation) → expr_of i result ≡ model.Null at }
{
    Expr::Null { at }
}

/// `true`.
pub fn truth(at: u32) -> Expr
    ensures { (i : Interpretation) → expr_of i result ≡ model.True at }
{
    Expr::True { at }
}

/// `false`.
pub fn falsehood(at: u32) -> Expr
    ensures { (i : Interpretation) → expr_of i result ≡ model.False at }
{
    Expr::False { at }
}

/// A number.
pub fn number(at: u32, value: u64) -> Expr
    ensures { (i : Interpretation) → expr_of i result ≡ model.Number at value }
{
    Expr::Number { at, value }
}

/// A string.
pub fn string(at: u32, end: u32, atom: u32) -> Expr
    ensures { (i : Interpretation) → expr_of i result ≡ model.Str at end (text_of i atom) }
{
    Expr::Str { at, end, atom }
}

/// A template.
pub fn template(at: u32, first: u32, parts: Vec<TemplatePart>) -> Expr
    ensures { (i : Interpretation) → expr_of i result ≡ model.Template at (text_of i first) (parts_of (map (part_of i) parts.items)) }
{
    Expr::Template { at, first, parts }
}

/// An array.
pub fn array(at: u32, items: Vec<Option<Expr>>, comma: bool) -> Expr
    ensures { (i : Interpretation) → expr_of i result ≡ model.Array at (items_of (map (option_map (expr_of i)) items.items)) comma }
{
    Expr::Array { at, items, comma }
}

/// An object.
pub fn object(at: u32, props: Vec<Prop>, comma: bool) -> Expr
    ensures { (i : Interpretation) → expr_of i result ≡ model.Object at (props_of (map (prop_of i) props.items)) comma }
{
    Expr::Object { at, props, comma }
}

/// A function expression or an arrow.
pub fn function(alloc: Global, at: u32, func: Func) -> Result<Expr, AllocError>
    ensures { IfOk result (λ made. (i : Interpretation) → expr_of i made ≡ model.Func at (func_of i func)) }
{
    Ok(Expr::Func {
        at,
        func: Box::new(alloc, func)?,
    })
}

/// An expression in parentheses.
pub fn paren(alloc: Global, at: u32, inner: Expr) -> Result<Expr, AllocError>
    ensures { IfOk result (λ made. (i : Interpretation) → expr_of i made ≡ model.Paren at (expr_of i inner)) }
{
    Ok(Expr::Paren {
        at,
        inner: Box::new(alloc, inner)?,
    })
}

/// Members and calls.
pub fn chain(alloc: Global, head: Expr, tails: Vec<Tail>) -> Result<Expr, AllocError>
    ensures { IfOk result (λ made. (i : Interpretation) → expr_of i made ≡ model.Chain (expr_of i head) (tails_of (map (tail_of i) tails.items))) }
{
    Ok(Expr::Chain {
        head: Box::new(alloc, head)?,
        tails,
    })
}

/// `new`.
pub fn new_expr(
    alloc: Global,
    at: u32,
    callee: Expr,
    args: Option<Args>,
) -> Result<Expr, AllocError>
    ensures { IfOk result (λ made. (i : Interpretation)
        → expr_of i made ≡ model.New at (expr_of i callee) (maybe_args_of (option_map (args_of i) args))) }
{
    let new = NewExpression { at, callee, args };
    Ok(Expr::New(Box::new(alloc, new)?))
}

/// A prefix operator.
pub fn unary(alloc: Global, at: u32, op: u8, of: Expr, is_word: bool) -> Result<Expr, AllocError>
    ensures { IfOk result (λ made. (i : Interpretation) → expr_of i made ≡ model.Unary at op (expr_of i of) is_word) }
{
    Ok(Expr::Unary {
        at,
        op,
        of: Box::new(alloc, of)?,
        is_word,
    })
}

/// `++` or `--`.
pub fn update(alloc: Global, at: u32, op: u8, prefix: bool, of: Expr) -> Result<Expr, AllocError>
    ensures { IfOk result (λ made. (i : Interpretation) → expr_of i made ≡ model.Update at op prefix (expr_of i of)) }
{
    Ok(Expr::Update {
        at,
        op,
        prefix,
        of: Box::new(alloc, of)?,
    })
}

/// One level of binary operators.
pub fn binary(alloc: Global, first: Expr, rest: Vec<Operand>) -> Result<Expr, AllocError>
    ensures { IfOk result (λ made. (i : Interpretation)
        → expr_of i made ≡ model.Binary (expr_of i first) (operands_of (map (operand_of i) rest.items))) }
{
    Ok(Expr::Binary {
        first: Box::new(alloc, first)?,
        rest,
    })
}

/// A conditional.
pub fn cond(alloc: Global, test: Expr, yes: Expr, no: Expr) -> Result<Expr, AllocError>
    ensures { IfOk result (λ made. (i : Interpretation) → expr_of i made ≡ model.Cond (expr_of i test) (expr_of i yes) (expr_of i no)) }
{
    Ok(Expr::Cond {
        test: Box::new(alloc, test)?,
        yes: Box::new(alloc, yes)?,
        no: Box::new(alloc, no)?,
    })
}

/// An assignment.
pub fn assign(alloc: Global, op: u8, target: Expr, value: Expr) -> Result<Expr, AllocError>
    ensures { IfOk result (λ made. (i : Interpretation) → expr_of i made ≡ model.Assign op (expr_of i target) (expr_of i value)) }
{
    Ok(Expr::Assign {
        op,
        target: Box::new(alloc, target)?,
        value: Box::new(alloc, value)?,
    })
}

/// Expressions with commas between.
pub fn comma(items: Vec<Expr>) -> Expr
    ensures { (i : Interpretation) → expr_of i result ≡ model.Comma (exprs_of (map (expr_of i) items.items)) }
{
    Expr::Comma { items }
}

/// A block.
pub fn block(items: Vec<Stmt>) -> Stmt
    ensures { (i : Interpretation) → stmt_of i result ≡ model.Block (stmts_of (map (stmt_of i) items.items)) }
{
    Stmt::Block(items)
}

/// A `;` by itself.
pub fn empty() -> Stmt
    ensures { (i : Interpretation) → stmt_of i result ≡ model.Empty }
{
    Stmt::Empty
}

/// `debugger`.
pub fn debugger(semi: bool) -> Stmt
    ensures { (i : Interpretation) → stmt_of i result ≡ model.Debugger semi }
{
    Stmt::Debugger { semi }
}

/// `var`, `let` or `const`.
pub fn binds(decl: Decl, binds: Vec<Bind>, semi: bool) -> Stmt
    ensures { (i : Interpretation) → stmt_of i result ≡ model.Binding decl (binds_of (map (bind_of i) binds.items)) semi }
{
    Stmt::Binds { decl, binds, semi }
}

/// An expression statement.
pub fn value(value: Expr, semi: bool) -> Stmt
    ensures { (i : Interpretation) → stmt_of i result ≡ model.Value (expr_of i value) semi }
{
    Stmt::Value { value, semi }
}

/// `if`.
pub fn if_stmt(alloc: Global, test: Expr, yes: Stmt, no: Option<Stmt>) -> Result<Stmt, AllocError>
    ensures { IfOk result (λ made. (i : Interpretation)
        → stmt_of i made ≡ model.If (expr_of i test) (stmt_of i yes) (maybe_stmt_of (option_map (stmt_of i) no))) }
{
    match no {
        Some(no) => {
            let no = Some(Box::new(alloc, no)?);
            Ok(Stmt::If(Box::new(alloc, IfStatement { test, yes, no })?))
        }
        None => {
            let no = None;
            Ok(Stmt::If(Box::new(alloc, IfStatement { test, yes, no })?))
        }
    }
}

/// `do`.
pub fn do_stmt(alloc: Global, body: Stmt, test: Expr, semi: bool) -> Result<Stmt, AllocError>
    ensures { IfOk result (λ made. (i : Interpretation) → stmt_of i made ≡ model.Do (stmt_of i body) (expr_of i test) semi) }
{
    Ok(Stmt::Do {
        body: Box::new(alloc, body)?,
        test,
        semi,
    })
}

/// `while`.
pub fn while_stmt(alloc: Global, test: Expr, body: Stmt) -> Result<Stmt, AllocError>
    ensures { IfOk result (λ made. (i : Interpretation) → stmt_of i made ≡ model.While (expr_of i test) (stmt_of i body)) }
{
    Ok(Stmt::While {
        test,
        body: Box::new(alloc, body)?,
    })
}

/// A `for` with two semicolons.
pub fn for_stmt(
    alloc: Global,
    init: Init,
    test: Option<Expr>,
    update: Option<Expr>,
    body: Stmt,
) -> Result<Stmt, AllocError>
    ensures { IfOk result (λ made. (i : Interpretation)
        → stmt_of i made ≡ model.For (init_of i init) (maybe_expr_of (option_map (expr_of i) test))
        (maybe_expr_of (option_map (expr_of i) update)) (stmt_of i body)) }
{
    let statement = ForStatement {
        init,
        test,
        update,
        body,
    };
    Ok(Stmt::For(Box::new(alloc, statement)?))
}

/// A `for` with `in`.
pub fn for_in(alloc: Global, each: Each, over: Expr, body: Stmt) -> Result<Stmt, AllocError>
    ensures { IfOk result (λ made. (i : Interpretation) → stmt_of i made ≡ model.ForIn (each_of i each) (expr_of i over) (stmt_of i body)) }
{
    let statement = ForInStatement { each, over, body };
    Ok(Stmt::ForIn(Box::new(alloc, statement)?))
}

/// `continue`.
pub fn continue_stmt(at: u32, label: Option<Ident>, semi: bool) -> Stmt
    ensures { (i : Interpretation) → stmt_of i result ≡ model.Continue at (maybe_named i label) semi }
{
    Stmt::Continue { at, label, semi }
}

/// `break`.
pub fn break_stmt(at: u32, label: Option<Ident>, semi: bool) -> Stmt
    ensures { (i : Interpretation) → stmt_of i result ≡ model.Break at (maybe_named i label) semi }
{
    Stmt::Break { at, label, semi }
}

/// `return`.
pub fn return_stmt(value: Option<Expr>, semi: bool) -> Stmt
    ensures { (i : Interpretation) → stmt_of i result ≡ model.Return (maybe_expr_of (option_map (expr_of i) value)) semi }
{
    Stmt::Return { value, semi }
}

/// `throw`.
pub fn throw(value: Expr, semi: bool) -> Stmt
    ensures { (i : Interpretation) → stmt_of i result ≡ model.Throw (expr_of i value) semi }
{
    Stmt::Throw { value, semi }
}

/// `switch`.
pub fn switch(alloc: Global, of: Expr, clauses: Vec<Clause>) -> Result<Stmt, AllocError>
    ensures { IfOk result (λ made. (i : Interpretation)
        → stmt_of i made ≡ model.Switch (expr_of i of) (clauses_of (map (clause_of i) clauses.items))) }
{
    let statement = SwitchStatement { of, clauses };
    Ok(Stmt::Switch(Box::new(alloc, statement)?))
}

/// A labelled statement.
pub fn label(alloc: Global, name: Ident, body: Stmt) -> Result<Stmt, AllocError>
    ensures { IfOk result (λ made. (i : Interpretation) → stmt_of i made ≡ model.Label (named i name) (stmt_of i body)) }
{
    Ok(Stmt::Label {
        name,
        body: Box::new(alloc, body)?,
    })
}

/// `try`.
pub fn try_stmt(
    alloc: Global,
    body: Vec<Stmt>,
    param: Option<Ident>,
    handler: Vec<Stmt>,
) -> Result<Stmt, AllocError>
    ensures { IfOk result (λ made. (i : Interpretation)
        → stmt_of i made ≡ model.Try (stmts_of (map (stmt_of i) body.items)) (maybe_named i param) (stmts_of (map (stmt_of i) handler.items))) }
{
    let statement = TryStatement {
        body,
        param,
        handler,
    };
    Ok(Stmt::Try(Box::new(alloc, statement)?))
}

/// A function declaration.
pub fn declared(alloc: Global, func: Func) -> Result<Stmt, AllocError>
    ensures { IfOk result (λ made. (i : Interpretation) → stmt_of i made ≡ model.Declared (func_of i func)) }
{
    Ok(Stmt::Func(Box::new(alloc, func)?))
}

/// A shorthand property.
pub fn short(name: Ident) -> Prop
    ensures { (i : Interpretation) → prop_of i result ≡ model.Short (named i name) }
{
    Prop::Short(name)
}

/// A key and a value.
pub fn pair(key: Key, value: Expr) -> Prop
    ensures { (i : Interpretation) → prop_of i result ≡ model.Pair (key_of i key) (expr_of i value) }
{
    Prop::Pair { key, value }
}

/// A method.
pub fn method(alloc: Global, key: Key, func: Func) -> Result<Prop, AllocError>
    ensures { IfOk result (λ made. (i : Interpretation) → prop_of i made ≡ model.Method (key_of i key) (func_of i func)) }
{
    Ok(Prop::Method {
        key,
        func: Box::new(alloc, func)?,
    })
}

/// A getter.
pub fn getter(alloc: Global, key: Key, func: Func) -> Result<Prop, AllocError>
    ensures { IfOk result (λ made. (i : Interpretation) → prop_of i made ≡ model.Get (key_of i key) (func_of i func)) }
{
    Ok(Prop::Get {
        key,
        func: Box::new(alloc, func)?,
    })
}

/// A setter.
pub fn setter(alloc: Global, key: Key, func: Func) -> Result<Prop, AllocError>
    ensures { IfOk result (λ made. (i : Interpretation) → prop_of i made ≡ model.Set (key_of i key) (func_of i func)) }
{
    Ok(Prop::Set {
        key,
        func: Box::new(alloc, func)?,
    })
}
