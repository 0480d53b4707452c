//! The names at the top of scripts and function bodies, and the scopes of a script.

ghost use Rattle.std.specs.Prelude.{◌≡◌, ℕ, ◌++◌, List, map, OnOk, IfOk};
ghost use Rattle.script_grammar.specs.Interpretation.{Interpretation, text_of};
ghost use Rattle.script_grammar.specs.Tree.{Stmts};
ghost use Rattle.script_grammar.specs.TreeLists.{stmts_of};
ghost use Rattle.script_grammar.specs.TreeOf.{stmt_of, func_of};
ghost use Rattle.scope_analysis.specs.DeclaredNames as names;
ghost use Rattle.stencil_data.specs.StandsFor.{text_at};
ghost use Rattle.stencil_data.specs.declared.scopes.Slot.TheVariants as slot;
ghost use Rattle.scope_analysis.specs.DeclaredNames.{all_top_var_names, top_var_names, declarations};
ghost use Rattle.scope_analysis.specs.Closed.{inside_global};
ghost use Rattle.scope_analysis.specs.Kept.{declarations_of, declared_name, under};
ghost use Rattle.scope_analysis.specs.Scopes as defined;
ghost use Rattle.scope_analysis.specs.Walked.{AreScopes};

use crate::names::{DeclaredName, push_top_lexical_names, push_var_names};
use crate::place::ScopeContext;
use crate::scoping::{ScopePosition, Scoping, add_stmts};
use crate::texts::first_ones;
use script_grammar::tree::{Func, Stmt};
use std::alloc::{AllocError, Global};
use stencil_data::{BindKind, Binding, ClosedName, ScopeData, ScopeKind, Slot, Text};

// Appends the name of a declared function.
fn push_declared_name(stmt: &Stmt, atoms: &mut Vec<u32>) -> Result<(), AllocError>
    ensures { OnOk result ((i : Interpretation) → map (text_of i) atoms.new.items
        ≡ map (text_of i) atoms.old.items ++ declared_name (stmt_of i stmt.now)) }
{
    match stmt {
        Stmt::Func(func) => push_own_name(func, atoms),
        _ => Ok(()),
    }
}

fn push_own_name(func: &Func, atoms: &mut Vec<u32>) -> Result<(), AllocError>
    ensures { OnOk result ((i : Interpretation) → map (text_of i) atoms.new.items
        ≡ map (text_of i) atoms.old.items ++ names.name_list (names.function_name (func_of i func.now))) }
{
    match func.name {
        Some(name) => {
            atoms.push(name.atom)?;
            Ok(())
        }
        None => Ok(()),
    }
}

// Appends the var names at the top.
fn push_top_var_names(items: &[Stmt], atoms: &mut Vec<u32>) -> Result<(), AllocError>
    ensures { OnOk result ((i : Interpretation) → map (text_of i) atoms.new.items
        ≡ map (text_of i) atoms.old.items ++ all_top_var_names (stmts_of (map (stmt_of i) items.now))) }
{
    for item in items {
        push_declared_name(item, atoms)?;
        push_var_names(item, atoms)?;
    }
    Ok(())
}

/// The var names at the top, each once.
pub fn top_vars(alloc: Global, texts: &[Text], items: &[Stmt]) -> Result<Vec<u32>, AllocError>
    ensures { IfOk result (λ vars. (bodies : ℕ → Stmts)
        → map (text_at texts.now) vars.items ≡ top_var_names (stmts_of (map (stmt_of (under texts.now bodies)) items.now))) }
{
    let mut atoms = Vec::new(alloc);
    push_top_var_names(items, &mut atoms)?;
    let vars = first_ones(alloc, texts, &atoms)?;
    Ok(vars)
}

/// Appends these names, declared so.
pub fn push_all(
    kind: BindKind,
    atoms: &[u32],
    names: &mut Vec<DeclaredName>,
) -> Result<(), AllocError>
    ensures { OnOk result ((texts : List (List ℕ)) → declarations_of texts names.new.items
        ≡ declarations_of texts names.old.items ++ declarations kind (map (text_at texts) atoms.now)) }
{
    for atom in atoms {
        names.push(DeclaredName { atom: *atom, kind })?;
    }
    Ok(())
}

// The names of the global scope.
fn global_names(
    alloc: Global,
    texts: &[Text],
    items: &[Stmt],
) -> Result<Vec<DeclaredName>, AllocError>
    ensures { IfOk result (λ names. (bodies : ℕ → Stmts)
        → declarations_of texts.now names.items ≡ defined.global_names (stmts_of (map (stmt_of (under texts.now bodies)) items.now))) }
{
    let vars = top_vars(alloc, texts, items)?;
    let mut names = Vec::new(alloc);
    push_all(BindKind::Var, &vars, &mut names)?;
    push_top_lexical_names(items, &mut names)?;
    Ok(names)
}

// The bindings of the global scope.
fn global_bindings(alloc: Global, names: &[DeclaredName]) -> Result<Vec<Binding>, AllocError>
    ensures { IfOk result (λ bindings. bindings.items ≡ map (λ name. record { atom = name.atom; kind = name.kind; slot = slot.Global }) names.now) }
{
    names
        .iter()
        .map(|name| Binding {
            atom: name.atom,
            kind: name.kind,
            slot: Slot::Global,
        })
        .collect(alloc)
}

// The closed names of the scopes inside the global one.
fn closed_inside(alloc: Global, closed: &[ClosedName]) -> Result<Vec<ClosedName>, AllocError>
    ensures { IfOk result (λ inner. inner.items ≡ inside_global closed.now) }
{
    closed
        .iter()
        .filter(|name| name.scope != 0)
        .copied()
        .collect(alloc)
}

/// The scopes of a script, in source order. `closed` has the names that functions in it close over, and `texts` the text
/// of each atom.
pub fn top_scopes(
    alloc: Global,
    items: &[Stmt],
    closed: &[ClosedName],
    texts: &[Text],
) -> Result<Vec<ScopeData>, AllocError>
    ensures { IfOk result (λ scopes. (bodies : ℕ → Stmts)
        → AreScopes texts.now (inside_global closed.now) scopes.items
        (defined.script_scopes (stmts_of (map (stmt_of (under texts.now bodies)) items.now)))) }
{
    let inner = closed_inside(alloc, closed)?;
    let names = global_names(alloc, texts, items)?;
    let bindings = global_bindings(alloc, &names)?;
    let mut scopes = Vec::new(alloc);
    scopes.push(ScopeData {
        kind: ScopeKind::Global,
        parent: None,
        bindings,
        env_slots: 0,
    })?;
    let mut made = Scoping { scopes, closed: 0 };
    let known = ScopeContext {
        alloc,
        texts,
        closed: &inner,
    };
    let around = ScopePosition {
        parent: Some(0),
        frame: 0,
    };
    add_stmts(&known, &mut made, items, around)?;
    let Scoping { scopes, closed: _ } = made;
    Ok(scopes)
}
