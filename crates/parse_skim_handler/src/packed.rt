//! What is kept of a part, in 16 bytes of memory.

ghost use Rattle.std.specs.Prelude.{◌≡◌, IfOk, None};
ghost use Rattle.parse_skim_handler.specs.Packed.{kept_of, looping, noted, plain, stmt_errors, unpacked, whole_expr, whole_prop, whole_stmt};

use crate::kept::Kept;
use crate::nodes::{SkimExpr, SkimProp, SkimStmt, WholeExpr, WholeProp};
use crate::told::{FunctionTold, Parts, Told};
use parse_early_handler::{Directive, ExprErrors, PropErrors, StmtErrors};
use parse_track::region::Early;
use parse_track_pieces::Piece;
use parse_track_pieces::piece::RegionHead;
use script_grammar::tree::Ident;
use std::alloc::{AllocError, Global};

/// What is kept of a statement; of an expression and of a property, the told and the first early error in it.
#[derive(Drop)]
pub struct Whole {
    /// The name of the function that the statement declares, which depends on where the statement stands how it is declared.
    pub declares: Option<Ident>,
    /// Whether the statement is a loop or has a label, so that a label before it labels a loop.
    pub labels_on: bool,
    /// All else that it tells, and the functions in it.
    pub told: Told,
    pub errors: StmtErrors,
}

/// The same, packed. Of most parts nothing is kept but what they tell: only what has more takes a box for it.
#[derive(Drop)]
pub enum Packed {
    Nothing,
    /// A name is used, by its atom.
    Used { atom: u32 },
    /// Two names are used, one after the other.
    Two { first: u32, second: u32 },
    /// Three names are used, one after the other.
    Three { first: u32, second: u32, third: u32 },
    /// The region of a block in which nothing stands.
    EmptyBlock,
    /// A region with what stands in it, and no function.
    Inside(Box<(RegionHead, Vec<Piece>)>),
    /// The same, of a statement that is a loop or has a label.
    Looping(Box<(RegionHead, Vec<Piece>)>),
    /// A function, and no other directly beside it.
    Function(Box<FunctionTold>),
    Parts(Box<Parts>),
    /// More is kept than what is told.
    More(Box<Whole>),
}

const _: () = prove!(size_of::<Packed>() == 16);

/// Of a part nothing is kept but what it tells.
fn pack_told(told: Told) -> Packed
    ensures { unpacked result ≡ plain told }
{
    match told {
        Told::Nothing => Packed::Nothing,
        Told::Used { atom } => Packed::Used { atom },
        Told::Two { first, second } => Packed::Two { first, second },
        Told::Three {
            first,
            second,
            third,
        } => Packed::Three {
            first,
            second,
            third,
        },
        Told::EmptyBlock => Packed::EmptyBlock,
        Told::Inside(region) => Packed::Inside(region),
        Told::Function(function) => Packed::Function(function),
        Told::Parts(parts) => Packed::Parts(parts),
    }
}

/// Of a part nothing is kept but what it tells and the first early error in it.
fn noted(told: Told, first: Option<Early>) -> Whole
    ensures { result ≡ noted told first }
{
    Whole {
        declares: None,
        labels_on: false,
        told,
        errors: StmtErrors {
            first,
            directive: Directive::No,
        },
    }
}

/// Of a part nothing is kept but what it tells.
fn plain(told: Told) -> Whole
    ensures { result ≡ plain told }
{
    noted(told, None)
}

/// Of a loop or of a statement that has a label nothing is kept but its region.
fn looping(region: Box<(RegionHead, Vec<Piece>)>) -> Whole
    ensures { result ≡ looping region }
{
    let told = Told::Inside(region);
    Whole {
        labels_on: true,
        ..plain(told)
    }
}

/// What is kept, packed.
pub(crate) fn pack(alloc: Global, whole: Whole) -> Result<Packed, AllocError>
    ensures { IfOk result (λ made. unpacked made ≡ whole) }
{
    match whole {
        Whole {
            declares: None,
            labels_on: false,
            told,
            errors: StmtErrors {
                first: None,
                directive: Directive::No,
            },
        } => Ok(pack_told(told)),
        Whole {
            declares: None,
            labels_on: true,
            told: Told::Inside(region),
            errors: StmtErrors {
                first: None,
                directive: Directive::No,
            },
        } => Ok(Packed::Looping(region)),
        more => Ok(Packed::More(Box::new(alloc, more)?)),
    }
}

impl Packed {
    /// What is kept, unpacked.
    pub(crate) fn whole(self) -> Whole
        ensures { result ≡ unpacked self }
    {
        match self {
            Packed::Nothing => plain(Told::Nothing),
            Packed::Used { atom } => plain(Told::Used { atom }),
            Packed::Two { first, second } => plain(Told::Two { first, second }),
            Packed::Three {
                first,
                second,
                third,
            } => plain(Told::Three {
                first,
                second,
                third,
            }),
            Packed::EmptyBlock => plain(Told::EmptyBlock),
            Packed::Inside(region) => plain(Told::Inside(region)),
            Packed::Looping(region) => looping(region),
            Packed::Function(function) => plain(Told::Function(function)),
            Packed::Parts(parts) => plain(Told::Parts(parts)),
            Packed::More(whole) => Box::into_inner(whole),
        }
    }

    /// What is told, and the first early error.
    fn kept(self) -> Kept
        ensures { result ≡ kept_of (unpacked self) }
    {
        match self {
            Packed::Nothing => quiet(Told::Nothing),
            Packed::Used { atom } => quiet(Told::Used { atom }),
            Packed::Two { first, second } => quiet(Told::Two { first, second }),
            Packed::Three {
                first,
                second,
                third,
            } => quiet(Told::Three {
                first,
                second,
                third,
            }),
            Packed::EmptyBlock => quiet(Told::EmptyBlock),
            Packed::Inside(region) => quiet(Told::Inside(region)),
            Packed::Looping(region) => quiet(Told::Inside(region)),
            Packed::Function(function) => quiet(Told::Function(function)),
            Packed::Parts(parts) => quiet(Told::Parts(parts)),
            Packed::More(whole) => kept_of(Box::into_inner(whole)),
        }
    }
}

/// What is told without an early error.
fn quiet(told: Told) -> Kept
    ensures { result ≡ record { told = told; first = None } }
{
    Kept { told, first: None }
}

/// What is told, and the first early error.
fn kept_of(whole: Whole) -> Kept
    ensures { result ≡ kept_of whole }
{
    let Whole {
        declares: _,
        labels_on: _,
        told,
        errors,
    } = whole;
    let first = errors.first;
    Kept { told, first }
}

/// What a part tells and the first early error in it, packed.
fn pack_noted(alloc: Global, told: Told, first: Option<Early>) -> Result<Packed, AllocError>
    ensures { IfOk result (λ made. unpacked made ≡ noted told first) }
{
    match first {
        None => Ok(pack_told(told)),
        Some(early) => {
            let whole = noted(told, Some(early));
            Ok(Packed::More(Box::new(alloc, whole)?))
        }
    }
}

/// What is kept of an expression, packed.
pub(crate) fn pack_expr(alloc: Global, expr: WholeExpr) -> Result<SkimExpr, AllocError>
    ensures { IfOk result (λ made. whole_expr made ≡ expr) }
{
    let WholeExpr { told, errors } = expr;
    let ExprErrors {
        first,
        start,
        shape,
    } = errors;
    let kept = pack_noted(alloc, told, first)?;
    Ok(SkimExpr { kept, start, shape })
}

/// What is kept of a property, packed.
pub(crate) fn pack_prop(alloc: Global, prop: WholeProp) -> Result<SkimProp, AllocError>
    ensures { IfOk result (λ made. whole_prop made ≡ prop) }
{
    let WholeProp { told, errors } = prop;
    let PropErrors { first, proto } = errors;
    let kept = pack_noted(alloc, told, first)?;
    Ok(SkimProp { kept, proto })
}

/// What is kept of a statement, packed.
pub(crate) fn pack_stmt(alloc: Global, whole: Whole) -> Result<SkimStmt, AllocError>
    ensures { IfOk result (λ made. whole_stmt made ≡ whole) }
{
    let kept = pack(alloc, whole)?;
    Ok(SkimStmt { kept })
}

impl SkimExpr {
    /// What is kept of the expression, unpacked.
    pub fn whole(self) -> WholeExpr
        ensures { result ≡ whole_expr self }
    {
        let SkimExpr { kept, start, shape } = self;
        let Kept { told, first } = kept.kept();
        WholeExpr {
            told,
            errors: ExprErrors {
                first,
                start,
                shape,
            },
        }
    }
}

impl SkimProp {
    /// What is kept of the property, unpacked.
    pub(crate) fn whole(self) -> WholeProp
        ensures { result ≡ whole_prop self }
    {
        let SkimProp { kept, proto } = self;
        let Kept { told, first } = kept.kept();
        WholeProp {
            told,
            errors: PropErrors { first, proto },
        }
    }
}

impl SkimStmt {
    /// What is kept of the statement, unpacked.
    pub(crate) fn whole(self) -> Whole
        ensures { result ≡ whole_stmt self }
    {
        self.kept.whole()
    }

    /// Whether the statement is a loop or has a label.
    pub(crate) fn labels_on(&self) -> bool
        ensures { result ≡ (whole_stmt self.now).labels_on }
    {
        match &self.kept {
            Packed::Nothing => false,
            Packed::Used { atom: _ } => false,
            Packed::Two {
                first: _,
                second: _,
            } => false,
            Packed::Three {
                first: _,
                second: _,
                third: _,
            } => false,
            Packed::EmptyBlock => false,
            Packed::Inside(_) => false,
            Packed::Looping(_) => true,
            Packed::Function(_) => false,
            Packed::Parts(_) => false,
            Packed::More(whole) => whole.labels_on,
        }
    }

    /// Which directive the statement is.
    pub(crate) fn directive(&self) -> Directive
        ensures { result ≡ (stmt_errors self.now).directive }
    {
        match &self.kept {
            Packed::Nothing => Directive::No,
            Packed::Used { atom: _ } => Directive::No,
            Packed::Two {
                first: _,
                second: _,
            } => Directive::No,
            Packed::Three {
                first: _,
                second: _,
                third: _,
            } => Directive::No,
            Packed::EmptyBlock => Directive::No,
            Packed::Inside(_) => Directive::No,
            Packed::Looping(_) => Directive::No,
            Packed::Function(_) => Directive::No,
            Packed::Parts(_) => Directive::No,
            Packed::More(whole) => whole.errors.directive,
        }
    }
}
