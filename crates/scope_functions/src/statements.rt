//! Whether statements use a name themselves: functions inside them are left out, and so are uses below a scope that binds
//! the name.

ghost use Rattle.std.specs.Prelude.{◌≡◌, ℕ, map, option_map};
ghost use Rattle.script_grammar.specs.Tree.{Stmts};
ghost use Rattle.script_grammar.specs.TreeLists.{maybe_expr_of, stmts_of, maybe_stmt_of, clauses_of};
ghost use Rattle.script_grammar.specs.TreeOf.{expr_of, stmt_of, clause_of, init_of, each_of};
ghost use Rattle.scope_analysis.specs.DeclaredNames.{texts_of, lexical_names, clauses_lexical_names};
ghost use Rattle.scope_analysis.specs.Uses as uses;
ghost use Rattle.scope_analysis.specs.Kept.{under};
ghost use Rattle.scope_functions.specs.OwnUse.{uses_itself};

use crate::declared::{
    is_lexical, is_lexical_in_clauses, is_lexical_in_each, is_lexical_in_init, is_named,
};
use crate::expressions::{uses_binds, uses_expr, uses_maybe};
use crate::wanted::Wanted;
use script_grammar::tree::{
    Clause, Each, Expr, ForInStatement, ForStatement, IfStatement, Init, Stmt, SwitchStatement,
    TryStatement,
};

// Whether the head of a `for` uses the name.
fn uses_init(wanted: &Wanted, init: &Init) -> bool
    ensures { (bodies : ℕ → Stmts) → result ≡ uses_itself
        (uses.uses_init (init_of (under wanted.now.texts.now bodies) init.now)) wanted.now.units.now }
{
    match init {
        Init::Nothing => false,
        Init::Value(value) => uses_expr(wanted, value),
        Init::Binds { binds, .. } => uses_binds(wanted, binds),
    }
}

// Whether the head of a `for` with `in` uses the name.
fn uses_each(wanted: &Wanted, each: &Each) -> bool
    ensures { (bodies : ℕ → Stmts) → result ≡ uses_itself
        (uses.uses_each (each_of (under wanted.now.texts.now bodies) each.now)) wanted.now.units.now }
{
    match each {
        Each::Target(target) => uses_expr(wanted, target),
        Each::Bind { .. } => false,
    }
}

// Whether the head of a `for` uses the name, or its test, or what it does between turns.
fn uses_for_head(wanted: &Wanted, init: &Init, test: &Option<Expr>, update: &Option<Expr>) -> bool
    ensures { (bodies : ℕ → Stmts) → let i = under wanted.now.texts.now bodies in result
        ≡ uses_itself (uses.uses_both (uses.uses_init (init_of i init.now))
        (uses.uses_both (uses.uses_maybe (maybe_expr_of (option_map (expr_of i) test.now)))
        (uses.uses_maybe (maybe_expr_of (option_map (expr_of i) update.now))))) wanted.now.units.now }
{
    uses_init(wanted, init) || (uses_maybe(wanted, test) || uses_maybe(wanted, update))
}

// Whether the head of a `for` with `in` uses the name, or what it goes over.
fn uses_for_in_head(wanted: &Wanted, each: &Each, over: &Expr) -> bool
    ensures { (bodies : ℕ → Stmts) → let i = under wanted.now.texts.now bodies in result
        ≡ uses_itself (uses.uses_both (uses.uses_each (each_of i each.now)) (uses.uses_expr (expr_of i over.now))) wanted.now.units.now }
{
    uses_each(wanted, each) || uses_expr(wanted, over)
}

// Whether a statement uses the name.
#[cycle(using)]
fn uses_stmt(wanted: &Wanted, stmt: &Stmt) -> bool
    ensures { (bodies : ℕ → Stmts) → result ≡ uses_itself
        (uses.uses_stmt (stmt_of (under wanted.now.texts.now bodies) stmt.now)) wanted.now.units.now }
{
    match stmt {
        Stmt::Block(items) => uses_block(wanted, items),
        Stmt::Empty => false,
        Stmt::Debugger { .. } => false,
        Stmt::Binds { binds, .. } => uses_binds(wanted, binds),
        Stmt::Value { value, .. } => uses_expr(wanted, value),
        Stmt::If(boxed) => {
            let statement: &IfStatement = boxed;
            uses_expr(wanted, &statement.test)
                || (uses_stmt(wanted, &statement.yes) || uses_else(wanted, &statement.no))
        }
        Stmt::Do { body, test, .. } => uses_stmt(wanted, body) || uses_expr(wanted, test),
        Stmt::While { test, body } => uses_expr(wanted, test) || uses_stmt(wanted, body),
        Stmt::For(boxed) => {
            let statement: &ForStatement = boxed;
            !is_lexical_in_init(wanted, &statement.init)
                && (uses_for_head(wanted, &statement.init, &statement.test, &statement.update)
                    || uses_stmt(wanted, &statement.body))
        }
        Stmt::ForIn(boxed) => {
            let statement: &ForInStatement = boxed;
            !is_lexical_in_each(wanted, &statement.each)
                && (uses_for_in_head(wanted, &statement.each, &statement.over)
                    || uses_stmt(wanted, &statement.body))
        }
        Stmt::Continue { .. } => false,
        Stmt::Break { .. } => false,
        Stmt::Return { value, .. } => uses_maybe(wanted, value),
        Stmt::Throw { value, .. } => uses_expr(wanted, value),
        Stmt::Switch(boxed) => {
            let statement: &SwitchStatement = boxed;
            uses_expr(wanted, &statement.of) || uses_switch(wanted, &statement.clauses)
        }
        Stmt::Label { body, .. } => uses_stmt(wanted, body),
        Stmt::Try(boxed) => {
            let statement: &TryStatement = boxed;
            uses_block(wanted, &statement.body)
                || (!is_named(wanted, statement.param) && uses_block(wanted, &statement.handler))
        }
        Stmt::Func(_) => false,
    }
}

// Whether a block uses the name and does not declare it.
#[cycle(using)]
fn uses_block(wanted: &Wanted, items: &[Stmt]) -> bool
    ensures { (bodies : ℕ → Stmts) → let block = stmts_of (map (stmt_of (under wanted.now.texts.now bodies)) items.now) in result
        ≡ uses_itself (uses.uses_without (texts_of (lexical_names block)) (uses.uses_stmts block)) wanted.now.units.now }
{
    !is_lexical(wanted, items) && uses_stmts(wanted, items)
}

// Whether the clauses of a `switch` use the name and do not declare it.
#[cycle(using)]
fn uses_switch(wanted: &Wanted, clauses: &[Clause]) -> bool
    ensures { (bodies : ℕ → Stmts) → let all = clauses_of (map (clause_of (under wanted.now.texts.now bodies)) clauses.now) in result
        ≡ uses_itself (uses.uses_without (texts_of (clauses_lexical_names all)) (uses.uses_clauses all)) wanted.now.units.now }
{
    !is_lexical_in_clauses(wanted, clauses) && uses_clauses(wanted, clauses)
}

/// Whether statements use the name, whatever they declare.
#[cycle(using)]
pub fn uses_stmts(wanted: &Wanted, items: &[Stmt]) -> bool
    ensures { (bodies : ℕ → Stmts) → result ≡ uses_itself
        (uses.uses_stmts (stmts_of (map (stmt_of (under wanted.now.texts.now bodies)) items.now))) wanted.now.units.now }
{
    for item in items {
        if uses_stmt(wanted, item) {
            return true;
        }
    }
    false
}

#[cycle(using)]
fn uses_else(wanted: &Wanted, no: &Option<Box<Stmt>>) -> bool
    ensures { (bodies : ℕ → Stmts) → result ≡ uses_itself
        (uses.uses_else (maybe_stmt_of (option_map (λ boxed. stmt_of (under wanted.now.texts.now bodies) boxed.value) no.now))) wanted.now.units.now }
{
    match no {
        None => false,
        Some(body) => uses_stmt(wanted, body),
    }
}

#[cycle(using)]
fn uses_clauses(wanted: &Wanted, clauses: &[Clause]) -> bool
    ensures { (bodies : ℕ → Stmts) → result ≡ uses_itself
        (uses.uses_clauses (clauses_of (map (clause_of (under wanted.now.texts.now bodies)) clauses.now))) wanted.now.units.now }
{
    for clause in clauses {
        if uses_clause(wanted, clause) {
            return true;
        }
    }
    false
}

#[cycle(using)]
fn uses_clause(wanted: &Wanted, clause: &Clause) -> bool
    ensures { (bodies : ℕ → Stmts) → let one = clause_of (under wanted.now.texts.now bodies) clause.now in result
        ≡ uses_itself (uses.uses_both (uses.uses_maybe (maybe_expr_of one.test)) (uses.uses_stmts (stmts_of one.items))) wanted.now.units.now }
{
    uses_maybe(wanted, &clause.test) || uses_stmts(wanted, &clause.items)
}
