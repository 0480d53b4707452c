//! Whether parts of a tree declare lexical names, so that they have a scope.
ghost use Rattle.std.specs.Prelude.{◌≡◌, map};
ghost use Rattle.script_grammar.specs.Interpretation.{Interpretation};
ghost use Rattle.script_grammar.specs.Tree.{Named};
ghost use Rattle.script_grammar.specs.Tree as model;
ghost use Rattle.script_grammar.specs.TreeLists.{binds_of, stmts_of, clauses_of};
ghost use Rattle.script_grammar.specs.TreeOf.{bind_of, stmt_of, clause_of, init_of, each_of};
ghost use Rattle.scope_analysis.specs.DeclaredNames as names;
ghost use Rattle.emit_stmts.specs.Declares as defined;

use script_grammar::token::Decl;
use script_grammar::tree::{Bind, Clause, Each, Init, Stmt};

/// Whether there are names, declared by `let` or `const`.
pub fn binds_declare(decl: Decl, binds: &[Bind]) -> bool
    ensures { (i : Interpretation) → result ≡ defined.declares (names.lexical_binds decl (binds_of (map (bind_of i) binds.now))) }
{
    match decl {
        Decl::Var => false,
        Decl::Let => !binds.is_empty(),
        Decl::Const => !binds.is_empty(),
    }
}

// Whether a statement of a block declares a name in it.
fn stmt_declares(stmt: &Stmt) -> bool
    ensures { (i : Interpretation) → result ≡ defined.declares (names.lexical_name (stmt_of i stmt.now)) }
{
    match stmt {
        Stmt::Binds { decl, binds, .. } => binds_declare(*decl, binds),
        Stmt::Func(func) => func.name.is_some(),
        _ => false,
    }
}

/// Whether a block has a scope.
pub fn block_declares(items: &[Stmt]) -> bool
    ensures { (i : Interpretation) → result ≡ defined.declares (names.lexical_names (stmts_of (map (stmt_of i) items.now))) }
{
    for item in items {
        if stmt_declares(item) {
            return true;
        }
    }
    false
}

/// Whether the clauses of a `switch` have a scope.
pub fn clauses_declare(clauses: &[Clause]) -> bool
    ensures { (i : Interpretation) → result ≡ defined.declares (names.clauses_lexical_names (clauses_of (map (clause_of i) clauses.now))) }
{
    for clause in clauses {
        if block_declares(&clause.items) {
            return true;
        }
    }
    false
}

/// Whether the head of a `for` has a scope.
pub fn init_declares(init: &Init) -> bool
    ensures { (i : Interpretation) → result ≡ defined.declares (names.init_lexical_names (init_of i init.now)) }
{
    match init {
        Init::Nothing => false,
        Init::Value(_) => false,
        Init::Binds { decl, binds } => binds_declare(*decl, binds),
    }
}

fn is_lexical(decl: Decl) -> bool
    ensures { (name : Named) → result ≡ defined.declares (names.each_lexical_names (model.BindEach decl name)) }
{
    match decl {
        Decl::Var => false,
        Decl::Let => true,
        Decl::Const => true,
    }
}

/// Whether the head of a for-in has a scope.
pub fn each_declares(each: &Each) -> bool
    ensures { (i : Interpretation) → result ≡ defined.declares (names.each_lexical_names (each_of i each.now)) }
{
    match each {
        Each::Target(_) => false,
        Each::Bind { decl, name: _ } => is_lexical(*decl),
    }
}
