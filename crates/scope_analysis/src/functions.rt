//! The scopes of a function.

ghost use Rattle.std.specs.Prelude.{◌≡◌, ℕ, ◌++◌, ◌||◌, ◌∷◌, [], ◌^◌, ◌<◌, Bool, true, List, Option, map, option_map, length, bytes_eq};
ghost use Rattle.std.specs.Prelude.{if◌then◌else◌, OnOk, IfOk};
ghost use Rattle.script_grammar.specs.declared.tree.Func.{out-Func};
ghost use Rattle.script_grammar.specs.Interpretation.{Interpretation, text_of};
ghost use Rattle.script_grammar.specs.Kinds.{is_arrow_form};
ghost use Rattle.script_grammar.specs.Tree.{Stmts};
ghost use Rattle.script_grammar.specs.Tree as model;
ghost use Rattle.script_grammar.specs.TreeLists.{params_of, stmts_of};
ghost use Rattle.script_grammar.specs.TreeOf.{param_of, stmt_of, body_of, func_of};
ghost use Rattle.stencil_data.specs.StandsFor.{text_at, named_closed};
ghost use Rattle.stencil_data.specs.declared.scopes.BindKind.TheVariants as bind_kind;
ghost use Rattle.stencil_data.specs.declared.scopes.ScopeKind.TheVariants as scope_kind;
ghost use Rattle.scope_analysis.specs.DeclaredNames as defined;
ghost use Rattle.scope_analysis.specs.DeclaredNames.{has_text, declarations, texts_without};
ghost use Rattle.scope_analysis.specs.Closed.{has_closed};
ghost use Rattle.scope_analysis.specs.FunctionTree.{params_in, HasBody, UsesItself, KnowsNames, specials};
ghost use Rattle.scope_analysis.specs.Kept.{declarations_of, under};
ghost use Rattle.scope_analysis.specs.Scopes.{callee_names, body_var_names, scopes_body, function_scopes};
ghost use Rattle.scope_analysis.specs.Uses.{beside_params, arguments_text, this_text};
ghost use Rattle.scope_analysis.specs.Walked.{within, Adds, OpensAny, AreScopes};

use crate::names::{DeclaredName, push_top_lexical_names};
use crate::place::{ScopeContext, narrow, same_units, units_of};
use crate::scoping::{ScopePosition, Scoping, add_stmts, open_scope, push_scope};
use crate::special_names::{ARGUMENTS, THIS};
use crate::texts::without;
use crate::toplevel::{push_all, top_vars};
use script_grammar::token::FuncForm;
use script_grammar::tree::{Func, FuncBody, Param, Stmt};
use std::alloc::{AllocError, Global};
use stencil_data::{BindKind, ClosedName, FuncKind, ScopeData, ScopeKind, Text};

/// Whether a function uses `arguments` and `this` itself, functions inside it left out.
#[derive(Clone, Copy, Debug)]
pub struct OwnUses {
    pub arguments: bool,
    pub this: bool,
}

fn push_param_names(params: &[Param], atoms: &mut Vec<u32>) -> Result<(), AllocError>
    ensures { OnOk result ((i : Interpretation) → map (text_of i) atoms.new.items
        ≡ map (text_of i) atoms.old.items ++ defined.param_names (params_of (map (param_of i) params.now))) }
{
    for param in params {
        atoms.push(param.name.atom)?;
    }
    Ok(())
}

fn has_value(param: &Param) -> bool
    ensures { (i : Interpretation) → result ≡ defined.has_initializer (params_of (param_of i param.now ∷ [])) }
{
    match param.value {
        Some(_) => true,
        None => false,
    }
}

/// Whether some parameter has an initializer.
pub fn has_initializer(params: &[Param]) -> bool
    ensures { (i : Interpretation) → result ≡ defined.has_initializer (params_of (map (param_of i) params.now)) }
{
    for param in params {
        if has_value(param) {
            return true;
        }
    }
    false
}

// Whether a closed name is this one of this scope.
fn is_named(texts: &[Text], name: ClosedName, number: usize, units: &[u16]) -> bool
    ensures { result ≡ has_closed number units.now (named_closed texts.now name ∷ []) }
{
    name.scope as usize == number && same_units(units_of(texts, name.atom), units)
}

// Whether functions inside close over this name of this scope.
fn is_closed(known: &ScopeContext, number: usize, units: &[u16]) -> bool
    ensures { result ≡ has_closed number units.now (map (named_closed known.now.texts.now) known.now.closed.now) }
{
    for name in known.closed {
        if is_named(known.texts, *name, number, units) {
            return true;
        }
    }
    false
}

// The atom of a text that is among these.
fn atom_of(texts: &[Text], units: &[u16]) -> u32
    ensures { length texts.now < 2 ^ 32 → has_text texts.now units.now ≡ true → text_at texts.now result ≡ units.now }
{
    for (index, text) in texts.iter().enumerate() {
        if same_units(text.units(), units) {
            return narrow(index);
        }
    }
    0
}

fn is_arrow(form: FuncForm) -> bool
    ensures { result ≡ is_arrow_form form }
{
    matches!(form, FuncForm::Arrow)
}

// Appends a name, where it is bound.
fn push_if(
    bound: bool,
    kind: BindKind,
    atom: u32,
    names: &mut Vec<DeclaredName>,
) -> Result<(), AllocError>
    ensures { OnOk result ((texts : List (List ℕ)) → declarations_of texts names.new.items
        ≡ declarations_of texts names.old.items ++ (if bound then defined.declaration kind (text_at texts atom) ∷ [] else [])) }
{
    if bound {
        names.push(DeclaredName { atom, kind })?;
    }
    Ok(())
}

// Appends `arguments` and `this`, where a function that is no arrow uses them, itself or through functions inside.
fn push_specials(
    known: &ScopeContext,
    number: usize,
    form: FuncForm,
    own: OwnUses,
    names: &mut Vec<DeclaredName>,
) -> Result<(), AllocError>
    ensures { OnOk result (KnowsNames known.now.texts.now
        → declarations_of known.now.texts.now names.new.items
        ≡ declarations_of known.now.texts.now names.old.items
        ++ specials form (own.arguments || has_closed number arguments_text (map (named_closed known.now.texts.now) known.now.closed.now))
        (own.this || has_closed number this_text (map (named_closed known.now.texts.now) known.now.closed.now))) }
{
    if is_arrow(form) {
        return Ok(());
    }
    let arguments = own.arguments || is_closed(known, number, &ARGUMENTS);
    push_if(
        arguments,
        BindKind::Arguments,
        atom_of(known.texts, &ARGUMENTS),
        names,
    )?;
    let this = own.this || is_closed(known, number, &THIS);
    push_if(this, BindKind::This, atom_of(known.texts, &THIS), names)?;
    Ok(())
}

// The var names that stand beside the parameters.
fn vars_beside(
    known: &ScopeContext,
    initialized: bool,
    body: &FuncBody,
) -> Result<Vec<u32>, AllocError>
    ensures { IfOk result (λ vars. (bodies : ℕ → Stmts) (b : model.Body) → body_of (under known.now.texts.now bodies) body.now ≡ Some b
        → map (text_at known.now.texts.now) vars.items ≡ beside_params initialized b) }
{
    if initialized {
        return Ok(Vec::new(known.alloc));
    }
    match body {
        FuncBody::Braced(items) => {
            let vars = top_vars(known.alloc, known.texts, items)?;
            Ok(vars)
        }
        FuncBody::Short(_) => Ok(Vec::new(known.alloc)),
        FuncBody::Passed => Ok(Vec::new(known.alloc)),
    }
}

// The parameters, and the var names beside them.
fn own_names(
    known: &ScopeContext,
    params: &[Param],
    initialized: bool,
    body: &FuncBody,
) -> Result<Vec<DeclaredName>, AllocError>
    ensures { IfOk result (λ names. (bodies : ℕ → Stmts) (b : model.Body) → body_of (under known.now.texts.now bodies) body.now ≡ Some b
        → let ps = defined.param_names (params_of (map
        (param_of (under known.now.texts.now bodies)) params.now)) in declarations_of known.now.texts.now names.items
        ≡ declarations bind_kind.Param ps ++ declarations bind_kind.Var (texts_without ps (beside_params initialized b))) }
{
    let mut atoms = Vec::new(known.alloc);
    push_param_names(params, &mut atoms)?;
    let all_vars = vars_beside(known, initialized, body)?;
    let vars = without(known.alloc, known.texts, &atoms, &all_vars)?;
    let mut names = Vec::new(known.alloc);
    push_all(BindKind::Param, &atoms, &mut names)?;
    push_all(BindKind::Var, &vars, &mut names)?;
    Ok(names)
}

// The name of a function expression.
fn callee(alloc: Global, kind: FuncKind, name: Option<u32>) -> Result<Vec<DeclaredName>, AllocError>
    ensures { IfOk result (λ names. (texts : List (List ℕ))
        → declarations_of texts names.items ≡ callee_names kind (option_map (text_at texts) name)) }
{
    let mut names = Vec::new(alloc);
    if let (FuncKind::Expression, Some(atom)) = (kind, name) {
        names.push(DeclaredName {
            atom,
            kind: BindKind::Callee,
        })?;
    }
    Ok(names)
}

// The var names of a body.
fn vars_of(known: &ScopeContext, items: &[Stmt]) -> Result<Vec<DeclaredName>, AllocError>
    ensures { IfOk result (λ names. (bodies : ℕ → Stmts)
        → declarations_of known.now.texts.now names.items
        ≡ declarations bind_kind.Var (defined.top_var_names (stmts_of (map (stmt_of (under known.now.texts.now bodies)) items.now)))) }
{
    let vars = top_vars(known.alloc, known.texts, items)?;
    let mut names = Vec::new(known.alloc);
    push_all(BindKind::Var, &vars, &mut names)?;
    Ok(names)
}

// The var names of a body that has a scope of its own for them.
fn body_vars(
    known: &ScopeContext,
    initialized: bool,
    items: &[Stmt],
) -> Result<Vec<DeclaredName>, AllocError>
    ensures { IfOk result (λ names. (bodies : ℕ → Stmts)
        → declarations_of known.now.texts.now names.items
        ≡ body_var_names initialized (stmts_of (map (stmt_of (under known.now.texts.now bodies)) items.now))) }
{
    if initialized {
        Ok(vars_of(known, items)?)
    } else {
        Ok(Vec::new(known.alloc))
    }
}

// Adds the scope of the var names of a body, where it has one.
fn open_vars(
    known: &ScopeContext,
    made: &mut Scoping,
    initialized: bool,
    items: &[Stmt],
    around: ScopePosition,
) -> Result<ScopePosition, AllocError>
    ensures { IfOk result (λ inside. (bodies : ℕ → Stmts)
        → OpensAny known.now.texts.now known.now.closed.now made.old.scopes.items made.old.closed made.new.scopes.items made.new.closed
        scope_kind.FunctionBodyVar (body_var_names initialized
        (stmts_of (map (stmt_of (under known.now.texts.now bodies)) items.now))) around inside) }
{
    let names = body_vars(known, initialized, items)?;
    let inside = open_scope(known, made, ScopeKind::FunctionBodyVar, &names, around)?;
    Ok(inside)
}

// The lexical names of a body.
fn open_lexical(
    known: &ScopeContext,
    made: &mut Scoping,
    items: &[Stmt],
    around: ScopePosition,
) -> Result<ScopePosition, AllocError>
    ensures { IfOk result (λ inside. (bodies : ℕ → Stmts)
        → OpensAny known.now.texts.now known.now.closed.now made.old.scopes.items made.old.closed made.new.scopes.items made.new.closed
        scope_kind.FunctionLexical (defined.top_lexical_names
        (stmts_of (map (stmt_of (under known.now.texts.now bodies)) items.now))) around inside) }
{
    let mut names = Vec::new(known.alloc);
    push_top_lexical_names(items, &mut names)?;
    let inside = open_scope(known, made, ScopeKind::FunctionLexical, &names, around)?;
    Ok(inside)
}

// Adds the scopes of a braced body.
fn add_braced(
    known: &ScopeContext,
    made: &mut Scoping,
    initialized: bool,
    items: &[Stmt],
    around: ScopePosition,
) -> Result<(), AllocError>
    ensures { OnOk result ((bodies : ℕ → Stmts)
        → Adds known.now.texts.now known.now.closed.now made.old.scopes.items made.old.closed made.new.scopes.items made.new.closed
        (scopes_body initialized (model.BracedBody (stmts_of (map (stmt_of (under known.now.texts.now bodies)) items.now)))
        (within around (length made.old.scopes.items)))) }
{
    let vars = open_vars(known, made, initialized, items, around)?;
    let lexical = open_lexical(known, made, items, vars)?;
    add_stmts(known, made, items, lexical)?;
    Ok(())
}

// Adds the scopes of a body.
fn add_body(
    known: &ScopeContext,
    made: &mut Scoping,
    initialized: bool,
    body: &FuncBody,
    around: ScopePosition,
) -> Result<(), AllocError>
    ensures { OnOk result ((bodies : ℕ → Stmts) (b : model.Body) → body_of (under known.now.texts.now bodies) body.now ≡ Some b
        → Adds known.now.texts.now known.now.closed.now made.old.scopes.items made.old.closed made.new.scopes.items made.new.closed
        (scopes_body initialized b (within around (length made.old.scopes.items)))) }
{
    match body {
        FuncBody::Braced(items) => Ok(add_braced(known, made, initialized, items, around)?),
        FuncBody::Short(_) => Ok(()),
        FuncBody::Passed => Ok(()),
    }
}

/// The scopes of a function, in source order. Kind and name are handed in; the name in the tree is not looked at. `closed`
/// has the names of its scopes that functions in it close over, `texts` the text of each atom, and `own` says which of
/// `arguments` and `this` it uses itself.
pub fn scopes_using(
    alloc: Global,
    func: &Func,
    kind: FuncKind,
    name: Option<u32>,
    closed: &[ClosedName],
    texts: &[Text],
    own: OwnUses,
) -> Result<Vec<ScopeData>, AllocError>
    ensures { IfOk result (λ scopes. (bodies : ℕ → Stmts) (b : model.Body) → HasBody (under texts.now bodies) func.now b
        → KnowsNames texts.now → UsesItself own (params_in (under texts.now bodies) func.now) b
        → AreScopes texts.now closed.now scopes.items (function_scopes kind (option_map (text_at texts.now) name)
        (func_of (under texts.now bodies) func.now))) }
{
    let known = ScopeContext {
        alloc,
        texts,
        closed,
    };
    // Most functions have one scope.
    let mut made = Scoping {
        scopes: Vec::with_capacity(alloc, 1)?,
        closed: 0,
    };
    let around = ScopePosition {
        parent: None,
        frame: 0,
    };
    let own_name = callee(alloc, kind, name)?;
    let named = open_scope(
        &known,
        &mut made,
        ScopeKind::StrictNamedLambda,
        &own_name,
        around,
    )?;
    let number = made.scopes.len();
    let initialized = has_initializer(&func.params);
    let mut names = own_names(&known, &func.params, initialized, &func.body)?;
    push_specials(&known, number, func.form, own, &mut names)?;
    let inside = push_scope(&known, &mut made, ScopeKind::Function, &names, named)?;
    add_body(&known, &mut made, initialized, &func.body, inside)?;
    let Scoping {
        mut scopes,
        closed: _,
    } = made;
    scopes.shrink_to_fit();
    Ok(scopes)
}
