//! Whether parts of a tree declare a name.

ghost use Rattle.std.specs.Prelude.{◌≡◌, ℕ, map, option_map};
ghost use Rattle.script_grammar.specs.Interpretation.{named, maybe_named};
ghost use Rattle.script_grammar.specs.Tree as model;
ghost use Rattle.script_grammar.specs.TreeLists.{binds_of, stmts_of, maybe_stmt_of, clauses_of};
ghost use Rattle.script_grammar.specs.TreeOf.{bind_of, stmt_of, clause_of, init_of, each_of};
ghost use Rattle.scope_analysis.specs.DeclaredNames as defined;
ghost use Rattle.scope_analysis.specs.DeclaredNames.{has_text, texts_of};
ghost use Rattle.scope_analysis.specs.Kept.{under, declared_name};

use crate::wanted::{Wanted, is_atom};
use script_grammar::token::Decl;
use script_grammar::tree::{
    Bind, Clause, Each, ForInStatement, ForStatement, Ident, IfStatement, Init, Stmt, TryStatement,
};

/// Whether the name is this one, where there is one.
pub fn is_named(wanted: &Wanted, name: Option<Ident>) -> bool
    ensures { (bodies : ℕ → model.Stmts) → result ≡ has_text
        (defined.name_list (maybe_named (under wanted.now.texts.now bodies) name)) wanted.now.units.now }
{
    match name {
        Some(ident) => is_atom(wanted, ident.atom),
        None => false,
    }
}

// Whether the name is one of these that are declared.
fn is_bound(wanted: &Wanted, binds: &[Bind]) -> bool
    ensures { (bodies : ℕ → model.Stmts) → result ≡ has_text
        (defined.bound_names (binds_of (map (bind_of (under wanted.now.texts.now bodies)) binds.now))) wanted.now.units.now }
{
    for bind in binds {
        if is_atom(wanted, bind.name.atom) {
            return true;
        }
    }
    false
}

// Whether `let` or `const` declares the name here.
fn is_lexically_bound(wanted: &Wanted, decl: Decl, binds: &[Bind]) -> bool
    ensures { (bodies : ℕ → model.Stmts) → result ≡ has_text
        (texts_of (defined.lexical_binds decl (binds_of (map (bind_of (under wanted.now.texts.now bodies)) binds.now)))) wanted.now.units.now }
{
    match decl {
        Decl::Var => false,
        Decl::Let => is_bound(wanted, binds),
        Decl::Const => is_bound(wanted, binds),
    }
}

// Whether `var` declares the name here.
fn is_var_bound(wanted: &Wanted, decl: Decl, binds: &[Bind]) -> bool
    ensures { (bodies : ℕ → model.Stmts) → result ≡ has_text
        (defined.var_binds decl (binds_of (map (bind_of (under wanted.now.texts.now bodies)) binds.now))) wanted.now.units.now }
{
    match decl {
        Decl::Var => is_bound(wanted, binds),
        Decl::Let => false,
        Decl::Const => false,
    }
}

// Whether one statement of a block declares the name for the block.
fn is_lexical_name(wanted: &Wanted, stmt: &Stmt) -> bool
    ensures { (bodies : ℕ → model.Stmts) → result ≡ has_text
        (texts_of (defined.lexical_name (stmt_of (under wanted.now.texts.now bodies) stmt.now))) wanted.now.units.now }
{
    match stmt {
        Stmt::Binds { decl, binds, .. } => is_lexically_bound(wanted, *decl, binds),
        Stmt::Func(func) => is_named(wanted, func.name),
        _ => false,
    }
}

/// Whether a block declares the name.
pub fn is_lexical(wanted: &Wanted, items: &[Stmt]) -> bool
    ensures { (bodies : ℕ → model.Stmts) → result ≡ has_text
        (texts_of (defined.lexical_names (stmts_of (map (stmt_of (under wanted.now.texts.now bodies)) items.now)))) wanted.now.units.now }
{
    for item in items {
        if is_lexical_name(wanted, item) {
            return true;
        }
    }
    false
}

/// Whether the clauses of a `switch` declare the name.
pub fn is_lexical_in_clauses(wanted: &Wanted, clauses: &[Clause]) -> bool
    ensures { (bodies : ℕ → model.Stmts) → result ≡ has_text
        (texts_of (defined.clauses_lexical_names (clauses_of
        (map (clause_of (under wanted.now.texts.now bodies)) clauses.now)))) wanted.now.units.now }
{
    for clause in clauses {
        if is_lexical(wanted, &clause.items) {
            return true;
        }
    }
    false
}

// Whether one statement at the top of a function's body declares the name as a lexical one.
fn is_top_lexical_name(wanted: &Wanted, stmt: &Stmt) -> bool
    ensures { (bodies : ℕ → model.Stmts) → result ≡ has_text
        (texts_of (defined.top_lexical_name (stmt_of (under wanted.now.texts.now bodies) stmt.now))) wanted.now.units.now }
{
    match stmt {
        Stmt::Binds { decl, binds, .. } => is_lexically_bound(wanted, *decl, binds),
        _ => false,
    }
}

/// Whether a function's body declares the name as a lexical one.
pub fn is_top_lexical(wanted: &Wanted, items: &[Stmt]) -> bool
    ensures { (bodies : ℕ → model.Stmts) → result ≡ has_text
        (texts_of (defined.top_lexical_names (stmts_of (map (stmt_of (under wanted.now.texts.now bodies)) items.now)))) wanted.now.units.now }
{
    for item in items {
        if is_top_lexical_name(wanted, item) {
            return true;
        }
    }
    false
}

/// Whether the head of a `for` declares the name for the loop.
pub fn is_lexical_in_init(wanted: &Wanted, init: &Init) -> bool
    ensures { (bodies : ℕ → model.Stmts) → result ≡ has_text
        (texts_of (defined.init_lexical_names (init_of (under wanted.now.texts.now bodies) init.now))) wanted.now.units.now }
{
    match init {
        Init::Nothing => false,
        Init::Value(_) => false,
        Init::Binds { decl, binds } => is_lexically_bound(wanted, *decl, binds),
    }
}

fn is_lexical_bind(wanted: &Wanted, decl: Decl, name: Ident) -> bool
    ensures { (bodies : ℕ → model.Stmts) → result ≡ has_text
        (texts_of (defined.each_lexical_names (model.BindEach decl (named (under wanted.now.texts.now bodies) name)))) wanted.now.units.now }
{
    match decl {
        Decl::Var => false,
        Decl::Let => is_atom(wanted, name.atom),
        Decl::Const => is_atom(wanted, name.atom),
    }
}

/// Whether the head of a `for` with `in` declares the name for the loop.
pub fn is_lexical_in_each(wanted: &Wanted, each: &Each) -> bool
    ensures { (bodies : ℕ → model.Stmts) → result ≡ has_text
        (texts_of (defined.each_lexical_names (each_of (under wanted.now.texts.now bodies) each.now))) wanted.now.units.now }
{
    match each {
        Each::Target(_) => false,
        Each::Bind { decl, name } => is_lexical_bind(wanted, *decl, *name),
    }
}

// Whether the head of a `for` declares the name by `var`.
fn is_var_in_init(wanted: &Wanted, init: &Init) -> bool
    ensures { (bodies : ℕ → model.Stmts) → result ≡ has_text
        (defined.init_var_names (init_of (under wanted.now.texts.now bodies) init.now)) wanted.now.units.now }
{
    match init {
        Init::Nothing => false,
        Init::Value(_) => false,
        Init::Binds { decl, binds } => is_var_bound(wanted, *decl, binds),
    }
}

fn is_var_bind(wanted: &Wanted, decl: Decl, name: Ident) -> bool
    ensures { (bodies : ℕ → model.Stmts) → result ≡ has_text
        (defined.each_var_names (model.BindEach decl (named (under wanted.now.texts.now bodies) name))) wanted.now.units.now }
{
    match decl {
        Decl::Var => is_atom(wanted, name.atom),
        Decl::Let => false,
        Decl::Const => false,
    }
}

// Whether the head of a `for` with `in` declares the name by `var`.
fn is_var_in_each(wanted: &Wanted, each: &Each) -> bool
    ensures { (bodies : ℕ → model.Stmts) → result ≡ has_text
        (defined.each_var_names (each_of (under wanted.now.texts.now bodies) each.now)) wanted.now.units.now }
{
    match each {
        Each::Target(_) => false,
        Each::Bind { decl, name } => is_var_bind(wanted, *decl, *name),
    }
}

// Whether a statement declares the name by `var`, at any depth, functions left out.
#[cycle(vars)]
fn is_var_in(wanted: &Wanted, stmt: &Stmt) -> bool
    ensures { (bodies : ℕ → model.Stmts) → result ≡ has_text
        (defined.var_names_in (stmt_of (under wanted.now.texts.now bodies) stmt.now)) wanted.now.units.now }
{
    match stmt {
        Stmt::Block(items) => is_var(wanted, items),
        Stmt::Empty => false,
        Stmt::Debugger { .. } => false,
        Stmt::Binds { decl, binds, .. } => is_var_bound(wanted, *decl, binds),
        Stmt::Value { .. } => false,
        Stmt::If(boxed) => {
            let statement: &IfStatement = boxed;
            is_var_in(wanted, &statement.yes) || is_var_in_else(wanted, &statement.no)
        }
        Stmt::Do { body, .. } => is_var_in(wanted, body),
        Stmt::While { body, .. } => is_var_in(wanted, body),
        Stmt::For(boxed) => {
            let statement: &ForStatement = boxed;
            is_var_in_init(wanted, &statement.init) || is_var_in(wanted, &statement.body)
        }
        Stmt::ForIn(boxed) => {
            let statement: &ForInStatement = boxed;
            is_var_in_each(wanted, &statement.each) || is_var_in(wanted, &statement.body)
        }
        Stmt::Continue { .. } => false,
        Stmt::Break { .. } => false,
        Stmt::Return { .. } => false,
        Stmt::Throw { .. } => false,
        Stmt::Switch(boxed) => is_var_in_clauses(wanted, &boxed.clauses),
        Stmt::Label { body, .. } => is_var_in(wanted, body),
        Stmt::Try(boxed) => {
            let statement: &TryStatement = boxed;
            is_var(wanted, &statement.body) || is_var(wanted, &statement.handler)
        }
        Stmt::Func(_) => false,
    }
}

#[cycle(vars)]
fn is_var(wanted: &Wanted, items: &[Stmt]) -> bool
    ensures { (bodies : ℕ → model.Stmts) → result ≡ has_text
        (defined.var_names (stmts_of (map (stmt_of (under wanted.now.texts.now bodies)) items.now))) wanted.now.units.now }
{
    for item in items {
        if is_var_in(wanted, item) {
            return true;
        }
    }
    false
}

#[cycle(vars)]
fn is_var_in_else(wanted: &Wanted, no: &Option<Box<Stmt>>) -> bool
    ensures { (bodies : ℕ → model.Stmts) → result ≡ has_text
        (defined.else_var_names (maybe_stmt_of (option_map
        (λ boxed. stmt_of (under wanted.now.texts.now bodies) boxed.value) no.now))) wanted.now.units.now }
{
    match no {
        None => false,
        Some(body) => is_var_in(wanted, body),
    }
}

#[cycle(vars)]
fn is_var_in_clauses(wanted: &Wanted, clauses: &[Clause]) -> bool
    ensures { (bodies : ℕ → model.Stmts) → result ≡ has_text
        (defined.clauses_var_names (clauses_of (map (clause_of (under wanted.now.texts.now bodies)) clauses.now))) wanted.now.units.now }
{
    for clause in clauses {
        if is_var(wanted, &clause.items) {
            return true;
        }
    }
    false
}

// Whether a statement declares the name as a function.
fn is_declared_name(wanted: &Wanted, stmt: &Stmt) -> bool
    ensures { (bodies : ℕ → model.Stmts) → result ≡ has_text
        (declared_name (stmt_of (under wanted.now.texts.now bodies) stmt.now)) wanted.now.units.now }
{
    match stmt {
        Stmt::Func(func) => is_named(wanted, func.name),
        _ => false,
    }
}

// Whether one statement at the top of a function's body declares the name by `var` or as a function.
fn is_top_var_name(wanted: &Wanted, stmt: &Stmt) -> bool
    ensures { (bodies : ℕ → model.Stmts) → result ≡ has_text
        (defined.top_var_names_in (stmt_of (under wanted.now.texts.now bodies) stmt.now)) wanted.now.units.now }
{
    is_declared_name(wanted, stmt) || is_var_in(wanted, stmt)
}

/// Whether a function's body declares the name by `var` or as a function.
pub fn is_top_var(wanted: &Wanted, items: &[Stmt]) -> bool
    ensures { (bodies : ℕ → model.Stmts) → result ≡ has_text
        (defined.all_top_var_names (stmts_of (map (stmt_of (under wanted.now.texts.now bodies)) items.now))) wanted.now.units.now }
{
    for item in items {
        if is_top_var_name(wanted, item) {
            return true;
        }
    }
    false
}
