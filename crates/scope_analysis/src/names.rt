//! The names that parts of a tree declare.

ghost use Rattle.std.specs.Prelude.{◌≡◌, ◌++◌, ◌∷◌, [], map, option_map, OnOk};
ghost use Rattle.stencil_data.specs.declared.scopes.BindKind.TheVariants as bind_kind;
ghost use Rattle.script_grammar.specs.Interpretation.{Interpretation, text_of, named, maybe_named};
ghost use Rattle.script_grammar.specs.TreeLists.{binds_of, stmts_of, maybe_stmt_of, clauses_of};
ghost use Rattle.script_grammar.specs.Tree as model;
ghost use Rattle.script_grammar.specs.TreeOf.{bind_of, stmt_of, clause_of, init_of, each_of, func_of};
ghost use Rattle.scope_analysis.specs.DeclaredNames as defined;
ghost use Rattle.scope_analysis.specs.Kept.{declarations_in};
ghost use Rattle.scope_analysis.specs.Scopes.{catch_names};

use script_grammar::token::Decl;
use script_grammar::tree::{
    Bind, Clause, Each, ForInStatement, ForStatement, Func, Ident, IfStatement, Init, Stmt,
    TryStatement,
};
use std::alloc::AllocError;
use stencil_data::BindKind;

/// A declared name, and how it was declared.
#[derive(Clone, Copy, Debug, PartialEq, Eq)]
pub struct DeclaredName {
    pub atom: u32,
    pub kind: BindKind,
}

// Appends names that are declared so.
fn push_binds(
    kind: BindKind,
    binds: &[Bind],
    names: &mut Vec<DeclaredName>,
) -> Result<(), AllocError>
    ensures { OnOk result ((i : Interpretation) → declarations_in i names.new.items
        ≡ declarations_in i names.old.items ++ defined.declarations kind (defined.bound_names (binds_of (map (bind_of i) binds.now)))) }
{
    for bind in binds {
        names.push(DeclaredName {
            atom: bind.name.atom,
            kind,
        })?;
    }
    Ok(())
}

// Appends the names of `let` and `const`.
fn push_lexical_binds(
    decl: Decl,
    binds: &[Bind],
    names: &mut Vec<DeclaredName>,
) -> Result<(), AllocError>
    ensures { OnOk result ((i : Interpretation) → declarations_in i names.new.items
        ≡ declarations_in i names.old.items ++ defined.lexical_binds decl (binds_of (map (bind_of i) binds.now))) }
{
    match decl {
        Decl::Var => Ok(()),
        Decl::Let => push_binds(BindKind::Let, binds, names),
        Decl::Const => push_binds(BindKind::Const, binds, names),
    }
}

// Appends the texts of names.
fn push_bound(binds: &[Bind], atoms: &mut Vec<u32>) -> Result<(), AllocError>
    ensures { OnOk result ((i : Interpretation) → map (text_of i) atoms.new.items
        ≡ map (text_of i) atoms.old.items ++ defined.bound_names (binds_of (map (bind_of i) binds.now))) }
{
    for bind in binds {
        atoms.push(bind.name.atom)?;
    }
    Ok(())
}

// Appends the names of `var`.
fn push_var_binds(decl: Decl, binds: &[Bind], atoms: &mut Vec<u32>) -> Result<(), AllocError>
    ensures { OnOk result ((i : Interpretation) → map (text_of i) atoms.new.items
        ≡ map (text_of i) atoms.old.items ++ defined.var_binds decl (binds_of (map (bind_of i) binds.now))) }
{
    match decl {
        Decl::Var => push_bound(binds, atoms),
        Decl::Let => Ok(()),
        Decl::Const => Ok(()),
    }
}

// Appends the var names of the head of a `for`.
fn push_init_vars(init: &Init, atoms: &mut Vec<u32>) -> Result<(), AllocError>
    ensures { OnOk result ((i : Interpretation) → map (text_of i) atoms.new.items
        ≡ map (text_of i) atoms.old.items ++ defined.init_var_names (init_of i init.now)) }
{
    match init {
        Init::Nothing => Ok(()),
        Init::Value(_) => Ok(()),
        Init::Binds { decl, binds } => push_var_binds(*decl, binds, atoms),
    }
}

// Appends the var name of the head of a `for` with `in`.
fn push_each_var(each: &Each, atoms: &mut Vec<u32>) -> Result<(), AllocError>
    ensures { OnOk result ((i : Interpretation) → map (text_of i) atoms.new.items
        ≡ map (text_of i) atoms.old.items ++ defined.each_var_names (each_of i each.now)) }
{
    match each {
        Each::Target(_) => Ok(()),
        Each::Bind { decl, name } => push_each_bind(*decl, *name, atoms),
    }
}

fn push_each_bind(decl: Decl, name: Ident, atoms: &mut Vec<u32>) -> Result<(), AllocError>
    ensures { OnOk result ((i : Interpretation) → map (text_of i) atoms.new.items
        ≡ map (text_of i) atoms.old.items ++ defined.each_var_names (model.BindEach decl (named i name))) }
{
    match decl {
        Decl::Var => {
            atoms.push(name.atom)?;
            Ok(())
        }
        Decl::Let => Ok(()),
        Decl::Const => Ok(()),
    }
}

/// Appends the var names of a statement, at any depth, functions left out.
#[cycle(var_names)]
pub fn push_var_names(stmt: &Stmt, atoms: &mut Vec<u32>) -> Result<(), AllocError>
    ensures { OnOk result ((i : Interpretation) → map (text_of i) atoms.new.items
        ≡ map (text_of i) atoms.old.items ++ defined.var_names_in (stmt_of i stmt.now)) }
{
    match stmt {
        Stmt::Block(items) => push_all_var_names(items, atoms),
        Stmt::Empty => Ok(()),
        Stmt::Debugger { .. } => Ok(()),
        Stmt::Binds { decl, binds, .. } => push_var_binds(*decl, binds, atoms),
        Stmt::Value { .. } => Ok(()),
        Stmt::If(boxed) => {
            let statement: &IfStatement = boxed;
            push_var_names(&statement.yes, atoms)?;
            push_else_var_names(&statement.no, atoms)?;
            Ok(())
        }
        Stmt::Do { body, .. } => push_var_names(body, atoms),
        Stmt::While { body, .. } => push_var_names(body, atoms),
        Stmt::For(boxed) => {
            let statement: &ForStatement = boxed;
            push_init_vars(&statement.init, atoms)?;
            push_var_names(&statement.body, atoms)?;
            Ok(())
        }
        Stmt::ForIn(boxed) => {
            let statement: &ForInStatement = boxed;
            push_each_var(&statement.each, atoms)?;
            push_var_names(&statement.body, atoms)?;
            Ok(())
        }
        Stmt::Continue { .. } => Ok(()),
        Stmt::Break { .. } => Ok(()),
        Stmt::Return { .. } => Ok(()),
        Stmt::Throw { .. } => Ok(()),
        Stmt::Switch(boxed) => push_clauses_var_names(&boxed.clauses, atoms),
        Stmt::Label { body, .. } => push_var_names(body, atoms),
        Stmt::Try(boxed) => {
            let statement: &TryStatement = boxed;
            push_all_var_names(&statement.body, atoms)?;
            push_all_var_names(&statement.handler, atoms)?;
            Ok(())
        }
        Stmt::Func(_) => Ok(()),
    }
}

#[cycle(var_names)]
fn push_all_var_names(items: &[Stmt], atoms: &mut Vec<u32>) -> Result<(), AllocError>
    ensures { OnOk result ((i : Interpretation) → map (text_of i) atoms.new.items
        ≡ map (text_of i) atoms.old.items ++ defined.var_names (stmts_of (map (stmt_of i) items.now))) }
{
    for item in items {
        push_var_names(item, atoms)?;
    }
    Ok(())
}

#[cycle(var_names)]
fn push_else_var_names(no: &Option<Box<Stmt>>, atoms: &mut Vec<u32>) -> Result<(), AllocError>
    ensures { OnOk result ((i : Interpretation) → map (text_of i) atoms.new.items
        ≡ map (text_of i) atoms.old.items ++ defined.else_var_names (maybe_stmt_of (option_map (λ boxed. stmt_of i boxed.value) no.now))) }
{
    match no {
        None => Ok(()),
        Some(body) => push_var_names(body, atoms),
    }
}

#[cycle(var_names)]
fn push_clauses_var_names(clauses: &[Clause], atoms: &mut Vec<u32>) -> Result<(), AllocError>
    ensures { OnOk result ((i : Interpretation) → map (text_of i) atoms.new.items
        ≡ map (text_of i) atoms.old.items ++ defined.clauses_var_names (clauses_of (map (clause_of i) clauses.now))) }
{
    for clause in clauses {
        push_all_var_names(&clause.items, atoms)?;
    }
    Ok(())
}

// Appends the name of a function that is declared in a block.
fn push_function_name(func: &Func, names: &mut Vec<DeclaredName>) -> Result<(), AllocError>
    ensures { OnOk result ((i : Interpretation) → declarations_in i names.new.items
        ≡ declarations_in i names.old.items ++ defined.declarations bind_kind.Function
        (defined.name_list (defined.function_name (func_of i func.now)))) }
{
    match func.name {
        Some(name) => {
            names.push(DeclaredName {
                atom: name.atom,
                kind: BindKind::Function,
            })?;
            Ok(())
        }
        None => Ok(()),
    }
}

// Appends the lexical names of one statement of a block.
fn push_lexical_name(stmt: &Stmt, names: &mut Vec<DeclaredName>) -> Result<(), AllocError>
    ensures { OnOk result ((i : Interpretation) → declarations_in i names.new.items
        ≡ declarations_in i names.old.items ++ defined.lexical_name (stmt_of i stmt.now)) }
{
    match stmt {
        Stmt::Binds { decl, binds, .. } => push_lexical_binds(*decl, binds, names),
        Stmt::Func(func) => push_function_name(func, names),
        _ => Ok(()),
    }
}

/// Appends the lexical names of a block.
pub fn push_lexical_names(items: &[Stmt], names: &mut Vec<DeclaredName>) -> Result<(), AllocError>
    ensures { OnOk result ((i : Interpretation) → declarations_in i names.new.items
        ≡ declarations_in i names.old.items ++ defined.lexical_names (stmts_of (map (stmt_of i) items.now))) }
{
    for item in items {
        push_lexical_name(item, names)?;
    }
    Ok(())
}

/// Appends the lexical names of the clauses of a `switch`.
pub fn push_clauses_lexical_names(
    clauses: &[Clause],
    names: &mut Vec<DeclaredName>,
) -> Result<(), AllocError>
    ensures { OnOk result ((i : Interpretation) → declarations_in i names.new.items
        ≡ declarations_in i names.old.items ++ defined.clauses_lexical_names (clauses_of (map (clause_of i) clauses.now))) }
{
    for clause in clauses {
        push_lexical_names(&clause.items, names)?;
    }
    Ok(())
}

// Appends the lexical names of one statement at the top of a script or function body.
fn push_top_lexical_name(stmt: &Stmt, names: &mut Vec<DeclaredName>) -> Result<(), AllocError>
    ensures { OnOk result ((i : Interpretation) → declarations_in i names.new.items
        ≡ declarations_in i names.old.items ++ defined.top_lexical_name (stmt_of i stmt.now)) }
{
    match stmt {
        Stmt::Binds { decl, binds, .. } => push_lexical_binds(*decl, binds, names),
        _ => Ok(()),
    }
}

/// Appends the lexical names at the top of a script or function body.
pub fn push_top_lexical_names(
    items: &[Stmt],
    names: &mut Vec<DeclaredName>,
) -> Result<(), AllocError>
    ensures { OnOk result ((i : Interpretation) → declarations_in i names.new.items
        ≡ declarations_in i names.old.items ++ defined.top_lexical_names (stmts_of (map (stmt_of i) items.now))) }
{
    for item in items {
        push_top_lexical_name(item, names)?;
    }
    Ok(())
}

/// Appends the lexical names of the head of a `for`.
pub fn push_init_lexical_names(init: &Init, names: &mut Vec<DeclaredName>) -> Result<(), AllocError>
    ensures { OnOk result ((i : Interpretation) → declarations_in i names.new.items
        ≡ declarations_in i names.old.items ++ defined.init_lexical_names (init_of i init.now)) }
{
    match init {
        Init::Nothing => Ok(()),
        Init::Value(_) => Ok(()),
        Init::Binds { decl, binds } => push_lexical_binds(*decl, binds, names),
    }
}

fn push_name(kind: BindKind, name: Ident, names: &mut Vec<DeclaredName>) -> Result<(), AllocError>
    ensures { OnOk result ((i : Interpretation) → declarations_in i names.new.items
        ≡ declarations_in i names.old.items ++ defined.declaration kind (text_of i name.atom) ∷ []) }
{
    names.push(DeclaredName {
        atom: name.atom,
        kind,
    })?;
    Ok(())
}

fn push_each_name(decl: Decl, name: Ident, names: &mut Vec<DeclaredName>) -> Result<(), AllocError>
    ensures { OnOk result ((i : Interpretation) → declarations_in i names.new.items
        ≡ declarations_in i names.old.items ++ defined.each_lexical_names (model.BindEach decl (named i name))) }
{
    match decl {
        Decl::Var => Ok(()),
        Decl::Let => push_name(BindKind::Let, name, names),
        Decl::Const => push_name(BindKind::Const, name, names),
    }
}

/// Appends the lexical name of the head of a `for` with `in`.
pub fn push_each_lexical_names(each: &Each, names: &mut Vec<DeclaredName>) -> Result<(), AllocError>
    ensures { OnOk result ((i : Interpretation) → declarations_in i names.new.items
        ≡ declarations_in i names.old.items ++ defined.each_lexical_names (each_of i each.now)) }
{
    match each {
        Each::Target(_) => Ok(()),
        Each::Bind { decl, name } => push_each_name(*decl, *name, names),
    }
}

/// Appends the parameter of a catch clause.
pub fn push_catch_name(
    param: Option<Ident>,
    names: &mut Vec<DeclaredName>,
) -> Result<(), AllocError>
    ensures { OnOk result ((i : Interpretation) → declarations_in i names.new.items
        ≡ declarations_in i names.old.items ++ catch_names (maybe_named i param)) }
{
    match param {
        Some(name) => push_name(BindKind::Catch, name, names),
        None => Ok(()),
    }
}
