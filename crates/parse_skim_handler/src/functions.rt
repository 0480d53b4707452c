//! Functions.

ghost use Rattle.std.specs.Prelude.{◌≡◌, IfOk, false, option_map};
ghost use Rattle.script_grammar.specs.Interpretation.{Interpretation, text_of, maybe_named};
ghost use Rattle.parse_track.specs.Log.{region_of};
ghost use Rattle.parse_track.specs.Tells as tell;
ghost use Rattle.track_log_laws.specs.Spelled.{region_text};
ghost use Rattle.parse_track_pieces.specs.Pieces.{Rest, piece_says, pieces_say, says_read, says_region};
ghost use Rattle.parse_handlers.specs.FoundOf.{found_of};
ghost use Rattle.parse_handlers.specs.Inner.{kind_of};
ghost use Rattle.parse_early_handler.specs.Firsts.{strict_error};
ghost use Rattle.parse_skim_handler.specs.Telling.{function_says};
ghost use Rattle.parse_skim_handler.specs.Kept.{Adds, Means, found_as, has_braces};
ghost use Rattle.parse_skim_handler.specs.Kept.{body_means, function_means, inside_means, named_means, own_means, param_means, read_means};

use crate::kept::{Kept, Skim, declared, nothing, of_error, region, with_error, with_said};
use crate::nodes::{SkimBody, SkimExpr};
use crate::told::{FunctionTold, Parts, parts_of, with_function};
use parse_early_handler::early::{error_of, sooner};
use parse_early_handler::limits::many_params;
use parse_early_handler::parts::are_more;
use parse_handlers::FoundFunction;
use parse_track::region::{Declare, Early, Region};
use parse_track_pieces::piece::RegionHead;
use parse_track_pieces::{Piece, has_initializer};
use script_grammar::node::{NodeFunc, NodeFuncBody, NodeParam};
use script_grammar::token::FuncForm;
use script_grammar::tree::Ident;
use std::alloc::{AllocError, Global};
use stencil_data::{Extent, FuncKind};

impl Skim for NodeParam<SkimExpr> {
    ghost means = { param_means };

    fn skim(self, alloc: Global, kept: Kept) -> Result<Kept, AllocError> {
        let NodeParam {
            name,
            value,
            rest: _,
        } = self;
        let named = declared(alloc, kept, Declare::Param, name)?;
        value.skim(alloc, named)
    }
}

/// The early error at a directive `use strict` in the body of a function whose parameters are more than names (rule 14).
fn strict_error(more: bool, at: Option<u32>) -> Option<Early>
    ensures { result ≡ strict_error more at }
{
    if more { error_of(14, at) } else { None }
}

/// What a body tells that was read where it stands. A list of pieces, as each body is, is taken as it is.
fn kept_body(alloc: Global, told: Piece) -> Result<Piece, AllocError>
    ensures { IfOk result (λ piece. (i : Interpretation) (rest : Rest) → piece_says i piece rest ≡ says_read (piece_says i told) rest) }
{
    match told {
        Piece::Many(pieces) => Ok(Piece::Kept(pieces)),
        other => {
            let mut pieces = Vec::with_capacity(alloc, 1)?;
            pieces.push(other)?;
            let kept = Piece::kept(alloc, pieces)?;
            Ok(kept)
        }
    }
}

/// A body that was read where it stands.
fn skim_read(alloc: Global, kept: Kept, more: bool, body: SkimBody) -> Result<Kept, AllocError>
    ensures { IfOk result (λ made. (i : Interpretation) → Adds i kept made (read_means i more body)) }
{
    let SkimBody {
        told,
        found: _,
        errors,
    } = body;
    let strict = strict_error(more, errors.strict);
    let error = sooner(strict, errors.first);
    let noted = with_error(kept, error);
    let piece = kept_body(alloc, told)?;
    with_said(alloc, noted, piece)
}

/// The body of a function whose parameters start at this offset, in bytes; `more` says that these are more than names.
fn skim_body(
    alloc: Global,
    kept: Kept,
    start: u32,
    more: bool,
    body: NodeFuncBody<SkimExpr, SkimBody>,
) -> Result<Kept, AllocError>
    ensures { IfOk result (λ made. (i : Interpretation) → Adds i kept made (body_means i more start body)) }
{
    match body {
        NodeFuncBody::Braced(body) => skim_read(alloc, kept, more, body),
        NodeFuncBody::Short(value) => value.skim(alloc, kept),
        NodeFuncBody::Passed => with_said(alloc, kept, Piece::Passed { start }),
    }
}

/// The body of a function, which is a region of its own or is not.
fn skim_own(
    alloc: Global,
    kept: Kept,
    start: u32,
    own: bool,
    more: bool,
    body: NodeFuncBody<SkimExpr, SkimBody>,
) -> Result<Kept, AllocError>
    ensures { IfOk result (λ made. (i : Interpretation) → Adds i kept made (own_means i own more start body)) }
{
    if own {
        let inside = skim_body(alloc, nothing(), start, more, body)?;
        region(alloc, kept, Region::VarBody, inside)
    } else {
        skim_body(alloc, kept, start, more, body)
    }
}

/// What a function is in the log of a track.
fn function_region(form: FuncForm) -> Region
    ensures { (i : Interpretation) → region_text i (region_of result) ≡ tell.function_region form }
{
    match form {
        FuncForm::Arrow => Region::Arrow,
        FuncForm::Script => Region::Function,
        FuncForm::Function => Region::Function,
        FuncForm::Method => Region::Function,
        FuncForm::Getter => Region::Function,
        FuncForm::Setter => Region::Function,
    }
}

fn kind_of(form: FuncForm, declared: bool) -> FuncKind
    ensures { result ≡ kind_of declared form }
{
    match form {
        FuncForm::Script => FuncKind::Declared,
        FuncForm::Function => {
            if declared {
                FuncKind::Declared
            } else {
                FuncKind::Expression
            }
        }
        FuncForm::Arrow => FuncKind::Arrow,
        FuncForm::Method => FuncKind::Method,
        FuncForm::Getter => FuncKind::Getter,
        FuncForm::Setter => FuncKind::Setter,
    }
}

fn atom_of(name: Option<Ident>) -> Option<u32>
    ensures { (i : Interpretation) → option_map (text_of i) result ≡ option_map (λ n. n.text) (maybe_named i name) }
{
    match name {
        None => None,
        Some(name) => Some(name.atom),
    }
}

/// Whether a body stands in braces.
fn is_braced(body: &NodeFuncBody<SkimExpr, SkimBody>) -> bool
    ensures { result ≡ has_braces body.now }
{
    match body {
        NodeFuncBody::Braced(_) => true,
        NodeFuncBody::Short(_) => false,
        NodeFuncBody::Passed => true,
    }
}

/// What stands in a function: its parameters and its body.
fn skim_inside(
    alloc: Global,
    start: u32,
    params: Vec<NodeParam<SkimExpr>>,
    body: NodeFuncBody<SkimExpr, SkimBody>,
) -> Result<Kept, AllocError>
    ensures { IfOk result (λ made. (i : Interpretation) → Means i made (inside_means i start params.items body)) }
{
    let listed: &[NodeParam<SkimExpr>] = &params;
    let more = are_more(listed);
    let own = has_initializer(listed);
    let many = many_params(listed);
    let given = params.skim(alloc, of_error(many))?;
    skim_own(alloc, given, start, own, more, body)
}

fn found(
    extent: Extent,
    kind: FuncKind,
    name: Option<u32>,
    braced: bool,
    simple: bool,
    inner: Vec<FoundFunction>,
) -> FoundFunction
    ensures { (i : Interpretation) → found_of i result ≡ found_as i extent kind name braced simple inner.items }
{
    FoundFunction {
        extent,
        kind,
        name,
        braced,
        simple,
        inner,
    }
}

/// A function in its region, in which these pieces stand; `start` is the offset where its parameters start, in bytes.
fn in_region(
    alloc: Global,
    form: FuncForm,
    start: u32,
    pieces: Vec<Piece>,
    found: FoundFunction,
) -> Result<Box<FunctionTold>, AllocError>
    ensures says { IfOk result (λ function. (i : Interpretation) (rest : Rest)
        → function_says i function.value rest ≡ says_region (tell.function_region form) start (pieces_say i pieces.items) rest) }
    ensures found { IfOk result (λ function. function.value.found ≡ found) }
{
    let kind = function_region(form);
    let head = RegionHead { kind, at: start };
    let function = FunctionTold {
        head,
        pieces,
        found,
    };
    let boxed = Box::new(alloc, function)?;
    Ok(boxed)
}

/// A function after what is kept.
pub(crate) fn skim_function(
    alloc: Global,
    kept: Kept,
    declared: bool,
    func: NodeFunc<SkimExpr, SkimBody>,
) -> Result<Kept, AllocError>
    ensures { IfOk result (λ made. (i : Interpretation) → Adds i kept made (function_means i declared func)) }
{
    let NodeFunc {
        form,
        start,
        end,
        name,
        params,
        comma: _,
        bare: _,
        body,
    } = func;
    let braced = is_braced(&body);
    let more = are_more(&params);
    let inside = skim_inside(alloc, start, params, body)?;
    let first = sooner(kept.first, inside.first);
    let Parts {
        pieces,
        found: inner,
    } = parts_of(alloc, inside.told)?;
    let kind = kind_of(form, declared);
    let extent = Extent { start, end };
    let found = found(extent, kind, atom_of(name), braced, !more, inner);
    let function = in_region(alloc, form, start, pieces, found)?;
    let told = with_function(alloc, kept.told, function)?;
    Ok(Kept { told, first })
}

/// A function expression, in the region of its name where it has one.
pub(crate) fn named_function(
    alloc: Global,
    func: NodeFunc<SkimExpr, SkimBody>,
) -> Result<Kept, AllocError>
    ensures { IfOk result (λ made. (i : Interpretation) → Means i made (named_means i func.name (function_means i false func))) }
{
    let begin = nothing();
    match func.name {
        None => skim_function(alloc, begin, false, func),
        Some(name) => {
            let inside = skim_function(alloc, begin, false, func)?;
            let around = nothing();
            region(alloc, around, Region::Lambda(name), inside)
        }
    }
}
