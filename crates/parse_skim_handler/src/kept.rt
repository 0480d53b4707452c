//! What is kept of parts of a script, one after the other.

ghost use Rattle.std.specs.Prelude.{◌≡◌, Option, IfOk, true, false};
ghost use Rattle.script_grammar.specs.Interpretation.{Interpretation};
ghost use Rattle.parse_track.specs.Log.{region_of};
ghost use Rattle.track_log_laws.specs.Spelled.{region_text};
ghost use Rattle.parse_track_pieces.specs.Pieces.{piece_says};
ghost use Rattle.parse_skim_handler.specs.Meaning.{Meaning, all_meant, error_meant, maybe_meant, name_meant, nothing_meant, region_meant, said_meant};
ghost use Rattle.parse_skim_handler.specs.Kept.{Adds, Means, expr_means, kept_means, prop_means, stmt_as, stmt_means, target_means};
ghost use Rattle.parse_skim_handler.specs.Telling.{told_puts, told_says};

use crate::nodes::{SkimExpr, SkimProp, SkimStmt, WholeExpr, WholeProp};
use crate::packed::Whole;
use crate::told::{Told, then, with_piece, with_region};
use parse_early_handler::early::sooner;
use parse_early_handler::parts::target_first;
use parse_track::region::{Declare, Early, Region};
use parse_track_pieces::Piece;
use script_grammar::tree::Ident;
use std::alloc::{AllocError, Global};

/// What is kept of some parts by now: what they tell, the functions in them, and their first early error of a rule that looks at
/// no region.
#[derive(Drop)]
pub struct Kept {
    pub told: Told,
    pub first: Option<Early>,
}

/// Of what something is kept.
pub trait Skim: Drop {
    // what it means to a first pass
    ghost means: { Interpretation → Self → Meaning };

    /// Puts what is kept of it after what is kept by now.
    fn skim(self, alloc: Global, kept: Kept) -> Result<Kept, AllocError>
        ensures { IfOk result (λ made. (i : Interpretation) → Adds i kept made (means i self)) };
}

/// What is kept of nothing.
pub(crate) fn nothing() -> Kept
    ensures { (i : Interpretation) → Means i result nothing_meant }
{
    Kept {
        told: Told::Nothing,
        first: None,
    }
}

/// What is kept where this early error was found, and nothing besides.
pub(crate) fn of_error(first: Option<Early>) -> Kept
    ensures { (i : Interpretation) → Means i result (error_meant first) }
{
    Kept {
        told: Told::Nothing,
        first,
    }
}

/// What is kept of an expression.
pub(crate) fn of_expr(expr: SkimExpr) -> Kept
    ensures { (i : Interpretation) → Means i result (expr_means i expr) }
{
    let WholeExpr { told, errors } = expr.whole();
    Kept {
        told,
        first: errors.first,
    }
}

/// What is kept of an expression that is assigned to.
pub(crate) fn of_target(expr: SkimExpr) -> Kept
    ensures { (i : Interpretation) → Means i result (target_means i expr) }
{
    let WholeExpr { told, errors } = expr.whole();
    let first = target_first(errors);
    Kept { told, first }
}

/// An early error after what is kept.
pub(crate) fn with_error(kept: Kept, error: Option<Early>) -> Kept
    ensures { (i : Interpretation) → Adds i kept result (error_meant error) }
{
    let Kept { told, first } = kept;
    let first = sooner(first, error);
    Kept { told, first }
}

/// One after the other.
pub(crate) fn then_kept(alloc: Global, kept: Kept, other: Kept) -> Result<Kept, AllocError>
    ensures { IfOk result (λ made. (i : Interpretation) → Adds i kept made (kept_means i other)) }
{
    let first = sooner(kept.first, other.first);
    let told = then(alloc, kept.told, other.told)?;
    Ok(Kept { told, first })
}

/// A piece after what is kept.
pub(crate) fn with_said(alloc: Global, kept: Kept, piece: Piece) -> Result<Kept, AllocError>
    ensures { IfOk result (λ made. (i : Interpretation) → Adds i kept made (said_meant (piece_says i piece))) }
{
    let Kept { told, first } = kept;
    let told = with_piece(alloc, told, piece)?;
    Ok(Kept { told, first })
}

/// A name that is declared, after what is kept.
pub(crate) fn declared(
    alloc: Global,
    kept: Kept,
    how: Declare,
    name: Ident,
) -> Result<Kept, AllocError>
    ensures { IfOk result (λ made. (i : Interpretation) → Adds i kept made (name_meant i how name)) }
{
    with_said(alloc, kept, Piece::Declared { how, name })
}

/// A region after what is kept, in which the other stands.
pub(crate) fn region(
    alloc: Global,
    kept: Kept,
    kind: Region,
    inside: Kept,
) -> Result<Kept, AllocError>
    ensures { IfOk result (λ made. (i : Interpretation) → Adds i kept made (region_meant (region_text i (region_of kind)) 0 (kept_means i inside))) }
{
    let first = sooner(kept.first, inside.first);
    let told = with_region(alloc, kept.told, kind, inside.told)?;
    Ok(Kept { told, first })
}

impl Skim for SkimExpr {
    ghost means = { expr_means };

    fn skim(self, alloc: Global, kept: Kept) -> Result<Kept, AllocError> {
        let other = of_expr(self);
        then_kept(alloc, kept, other)
    }
}

impl Skim for SkimProp {
    ghost means = { prop_means };

    fn skim(self, alloc: Global, kept: Kept) -> Result<Kept, AllocError> {
        let WholeProp { told, errors } = self.whole();
        let first = errors.first;
        then_kept(alloc, kept, Kept { told, first })
    }
}

/// A statement; `how` says how a function declaration declares its name where the statement stands.
fn skim_stmt(alloc: Global, kept: Kept, how: Declare, stmt: SkimStmt) -> Result<Kept, AllocError>
    ensures { IfOk result (λ made. (i : Interpretation) → Adds i kept made (stmt_as i how stmt)) }
{
    let Whole {
        declares,
        labels_on: _,
        told,
        errors,
    } = stmt.whole();
    let first = errors.first;
    let other = Kept { told, first };
    match declares {
        None => then_kept(alloc, kept, other),
        Some(name) => {
            let named = declared(alloc, kept, how, name)?;
            then_kept(alloc, named, other)
        }
    }
}

impl Skim for SkimStmt {
    ghost means = { λ i. stmt_means i false };

    fn skim(self, alloc: Global, kept: Kept) -> Result<Kept, AllocError> {
        skim_stmt(alloc, kept, Declare::Lexical, self)
    }
}

impl<T: Skim> Skim for Vec<T> {
    ghost means = { λ i parts. all_meant (T.means i) parts.items };

    fn skim(self, alloc: Global, kept: Kept) -> Result<Kept, AllocError> {
        let mut made = kept;
        for part in self {
            made = part.skim(alloc, made)?;
        }
        Ok(made)
    }
}

impl<T: Skim> Skim for Option<T> {
    ghost means = { λ i. maybe_meant (T.means i) };

    fn skim(self, alloc: Global, kept: Kept) -> Result<Kept, AllocError> {
        match self {
            None => Ok(kept),
            Some(part) => part.skim(alloc, kept),
        }
    }
}

/// Statements at the top of a script or of a function's body.
pub(crate) fn skim_top(alloc: Global, kept: Kept, items: Vec<SkimStmt>) -> Result<Kept, AllocError>
    ensures { IfOk result (λ made. (i : Interpretation) → Adds i kept made (all_meant (stmt_means i true) items.items)) }
{
    let mut made = kept;
    for item in items {
        made = skim_stmt(alloc, made, Declare::Var, item)?;
    }
    Ok(made)
}
