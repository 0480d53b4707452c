//! The scopes of a function, with what it uses itself.

ghost use Rattle.std.specs.Prelude.{◌≡◌, ℕ, ◌∷◌, [], ◌++◌, map, option_map, Some, IfOk};
ghost use Rattle.script_grammar.specs.Interpretation.{Interpretation};
ghost use Rattle.script_grammar.specs.Tree as model;
ghost use Rattle.script_grammar.specs.TreeLists.{params_of, stmts_of};
ghost use Rattle.script_grammar.specs.TreeOf.{param_of, stmt_of, body_of, func_of};
ghost use Rattle.stencil_data.specs.StandsFor.{text_at};
ghost use Rattle.scope_analysis.specs.DeclaredNames as defined;
ghost use Rattle.scope_analysis.specs.DeclaredNames.{has_text, texts_of};
ghost use Rattle.scope_analysis.specs.FunctionTree.{params_in, HasBody, UsesItself, KnowsNames};
ghost use Rattle.scope_analysis.specs.Kept.{under};
ghost use Rattle.scope_analysis.specs.Scopes.{function_scopes, function_uses};
ghost use Rattle.scope_analysis.specs.Uses as uses;
ghost use Rattle.scope_analysis.specs.Walked.{AreScopes};
ghost use Rattle.scope_functions.specs.OwnUse.{uses_itself};

use crate::declared::{is_top_lexical, is_top_var};
use crate::expressions::{uses_expr, uses_params};
use crate::statements::uses_stmts;
use crate::wanted::Wanted;
use scope_analysis::special_names::{ARGUMENTS, THIS};
use scope_analysis::{OwnUses, has_initializer, scopes_using};
use script_grammar::tree::{Func, FuncBody, Stmt};
use std::alloc::{AllocError, Global};
use stencil_data::{ClosedName, FuncKind, ScopeData, Text};

// Whether a braced body binds the name around its statements. Its var names are its own where a parameter has an
// initializer.
fn is_bound_in(wanted: &Wanted, initialized: bool, items: &[Stmt]) -> bool
    ensures { (bodies : ℕ → model.Stmts) → let body = stmts_of (map (stmt_of (under wanted.now.texts.now bodies)) items.now) in result
        ≡ has_text (texts_of (defined.top_lexical_names body) ++ uses.body_vars initialized body) wanted.now.units.now }
{
    is_top_lexical(wanted, items) || (initialized && is_top_var(wanted, items))
}

// Whether a braced body uses the name and does not bind it.
fn uses_braced(wanted: &Wanted, initialized: bool, items: &[Stmt]) -> bool
    ensures { (bodies : ℕ → model.Stmts) → result ≡ uses_itself
        (uses.uses_body initialized (model.BracedBody (stmts_of
        (map (stmt_of (under wanted.now.texts.now bodies)) items.now)))) wanted.now.units.now }
{
    !is_bound_in(wanted, initialized, items) && uses_stmts(wanted, items)
}

// Whether a body uses the name and does not bind it.
fn uses_body(wanted: &Wanted, initialized: bool, body: &FuncBody) -> bool
    ensures { (bodies : ℕ → model.Stmts) (b : model.Body) → body_of (under wanted.now.texts.now bodies) body.now ≡ Some b
        → result ≡ uses_itself (uses.uses_body initialized b) wanted.now.units.now }
{
    match body {
        FuncBody::Braced(items) => uses_braced(wanted, initialized, items),
        FuncBody::Short(value) => uses_expr(wanted, value),
        FuncBody::Passed => false,
    }
}

// Whether a function uses the name itself.
fn uses_name(texts: &[Text], units: &[u16], func: &Func) -> bool
    ensures { (bodies : ℕ → model.Stmts) (b : model.Body) → HasBody (under texts.now bodies) func.now b
        → result ≡ uses_itself (function_uses (params_in (under texts.now bodies) func.now) b) units.now }
{
    let wanted = Wanted { texts, units };
    let initialized = has_initializer(&func.params);
    uses_params(&wanted, &func.params) || uses_body(&wanted, initialized, &func.body)
}

// Which of `arguments` and `this` a function uses itself.
fn own_uses(func: &Func, texts: &[Text]) -> OwnUses
    ensures { (bodies : ℕ → model.Stmts) (b : model.Body) → HasBody (under texts.now bodies) func.now b
        → UsesItself result (params_in (under texts.now bodies) func.now) b }
{
    OwnUses {
        arguments: uses_name(texts, &ARGUMENTS, func),
        this: uses_name(texts, &THIS, func),
    }
}

/// The scopes of a function, in source order. Kind and name are handed in; the name in the tree is not looked at. `closed`
/// has the names of its scopes that functions in it close over, and `texts` the text of each atom, `arguments` and `.this`
/// among them. Only memory can fail.
pub fn scopes(
    alloc: Global,
    func: &Func,
    kind: FuncKind,
    name: Option<u32>,
    closed: &[ClosedName],
    texts: &[Text],
) -> Result<Vec<ScopeData>, AllocError>
    ensures { IfOk result (λ scopes. (bodies : ℕ → model.Stmts) (b : model.Body) → HasBody (under texts.now bodies) func.now b
        → KnowsNames texts.now → AreScopes texts.now closed.now scopes.items
        (function_scopes kind (option_map (text_at texts.now) name) (func_of (under texts.now bodies) func.now))) }
{
    scopes_using(
        alloc,
        func,
        kind,
        name,
        closed,
        texts,
        own_uses(func, texts),
    )
}
