//! The parts over nodes that are no node.

ghost use Rattle.std.specs.Prelude.{◌≡◌, IfOk};
ghost use Rattle.script_grammar.specs.Interpretation.{Interpretation};
ghost use Rattle.parse_track.specs.Tells as tell;
ghost use Rattle.parse_skim_handler.specs.Meaning.{all_meant};
ghost use Rattle.parse_skim_handler.specs.Packed.{whole_stmt};
ghost use Rattle.parse_skim_handler.specs.Kept.{Adds, Means, args_mean, bind_means, binds_mean, block_means, clause_means, each_means};
ghost use Rattle.parse_skim_handler.specs.Kept.{handling_means, init_means, key_means, labelled_as, operand_means, part_means, tail_means};

use crate::forms::many_args;
use crate::kept::{Kept, Skim, declared, nothing, of_target, region, then_kept, with_error};
use crate::nodes::{SkimExpr, SkimStmt};
use parse_early_handler::keys::const_errors;
use parse_track::region::{Declare, Region};
use script_grammar::node::{
    NodeArgs, NodeBind, NodeClause, NodeEach, NodeInit, NodeKey, NodeOperand, NodeTail,
    NodeTemplatePart,
};
use script_grammar::token::Decl;
use script_grammar::tree::Ident;
use std::alloc::{AllocError, Global};

impl Skim for NodeArgs<SkimExpr> {
    ghost means = { args_mean };

    fn skim(self, alloc: Global, kept: Kept) -> Result<Kept, AllocError> {
        let NodeArgs { items, comma: _ } = self;
        let many = many_args(&items);
        let noted = with_error(kept, many);
        items.skim(alloc, noted)
    }
}

impl Skim for NodeOperand<SkimExpr> {
    ghost means = { operand_means };

    fn skim(self, alloc: Global, kept: Kept) -> Result<Kept, AllocError> {
        let NodeOperand {
            op: _,
            is_word: _,
            value,
        } = self;
        value.skim(alloc, kept)
    }
}

impl Skim for NodeTemplatePart<SkimExpr> {
    ghost means = { part_means };

    fn skim(self, alloc: Global, kept: Kept) -> Result<Kept, AllocError> {
        let NodeTemplatePart { value, after: _ } = self;
        value.skim(alloc, kept)
    }
}

impl Skim for NodeTail<SkimExpr> {
    ghost means = { tail_means };

    fn skim(self, alloc: Global, kept: Kept) -> Result<Kept, AllocError> {
        match self {
            NodeTail::Dot { atom: _ } => Ok(kept),
            NodeTail::Index(value) => value.skim(alloc, kept),
            NodeTail::Call(args) => args.skim(alloc, kept),
        }
    }
}

impl Skim for NodeKey<SkimExpr> {
    ghost means = { key_means };

    fn skim(self, alloc: Global, kept: Kept) -> Result<Kept, AllocError> {
        match self {
            NodeKey::Word(_) => Ok(kept),
            NodeKey::Str(_) => Ok(kept),
            NodeKey::Number { at: _, value: _ } => Ok(kept),
            NodeKey::Computed(value) => value.skim(alloc, kept),
        }
    }
}

/// How a declaration declares its names.
fn declared_as(decl: Decl) -> Declare
    ensures { result ≡ tell.declared_as decl }
{
    match decl {
        Decl::Var => Declare::Var,
        Decl::Let => Declare::Lexical,
        Decl::Const => Declare::Lexical,
    }
}

/// A name that is declared in this way, with its initializer.
fn skim_bind(
    alloc: Global,
    kept: Kept,
    how: Declare,
    bind: NodeBind<SkimExpr>,
) -> Result<Kept, AllocError>
    ensures { IfOk result (λ made. (i : Interpretation) → Adds i kept made (bind_means i how bind)) }
{
    let NodeBind { name, value } = bind;
    let named = declared(alloc, kept, how, name)?;
    value.skim(alloc, named)
}

/// Names that are declared in this way, with their initializers.
fn skim_all_binds(
    alloc: Global,
    kept: Kept,
    how: Declare,
    binds: Vec<NodeBind<SkimExpr>>,
) -> Result<Kept, AllocError>
    ensures { IfOk result (λ made. (i : Interpretation) → Adds i kept made (all_meant (bind_means i how) binds.items)) }
{
    let mut made = kept;
    for bind in binds {
        made = skim_bind(alloc, made, how, bind)?;
    }
    Ok(made)
}

/// The names of a declaration, with their initializers.
pub(crate) fn skim_binds(
    alloc: Global,
    kept: Kept,
    decl: Decl,
    binds: Vec<NodeBind<SkimExpr>>,
) -> Result<Kept, AllocError>
    ensures { IfOk result (λ made. (i : Interpretation) → Adds i kept made (binds_mean i decl binds.items)) }
{
    let bare = const_errors(decl, &binds);
    let noted = with_error(kept, bare);
    skim_all_binds(alloc, noted, declared_as(decl), binds)
}

impl Skim for NodeInit<SkimExpr> {
    ghost means = { init_means };

    fn skim(self, alloc: Global, kept: Kept) -> Result<Kept, AllocError> {
        match self {
            NodeInit::Nothing => Ok(kept),
            NodeInit::Value(value) => value.skim(alloc, kept),
            NodeInit::Binds { decl, binds } => skim_binds(alloc, kept, decl, binds),
        }
    }
}

impl Skim for NodeEach<SkimExpr> {
    ghost means = { each_means };

    fn skim(self, alloc: Global, kept: Kept) -> Result<Kept, AllocError> {
        match self {
            NodeEach::Target(value) => {
                let target = of_target(value);
                then_kept(alloc, kept, target)
            }
            NodeEach::Bind { decl, name } => declared(alloc, kept, declared_as(decl), name),
        }
    }
}

impl Skim for NodeClause<SkimExpr, SkimStmt> {
    ghost means = { clause_means };

    fn skim(self, alloc: Global, kept: Kept) -> Result<Kept, AllocError> {
        let NodeClause { test, items } = self;
        let tested = test.skim(alloc, kept)?;
        items.skim(alloc, tested)
    }
}

/// A statement after a label.
pub(crate) fn skim_labelled(alloc: Global, body: SkimStmt) -> Result<Kept, AllocError>
    ensures { IfOk result (λ made. (i : Interpretation) → Means i made (labelled_as i (whole_stmt body).labels_on body)) }
{
    let begin = nothing();
    let on = body.labels_on();
    if on {
        body.skim(alloc, begin)
    } else {
        let inside = body.skim(alloc, begin)?;
        let around = nothing();
        region(alloc, around, Region::Block, inside)
    }
}

/// A block of a statement, after what is kept.
pub(crate) fn skim_block(
    alloc: Global,
    kept: Kept,
    items: Vec<SkimStmt>,
) -> Result<Kept, AllocError>
    ensures { IfOk result (λ made. (i : Interpretation) → Adds i kept made (block_means i items.items)) }
{
    let inside = items.skim(alloc, nothing())?;
    region(alloc, kept, Region::Block, inside)
}

/// The block of a catch clause, and its parameter, after what is kept.
pub(crate) fn skim_handling(
    alloc: Global,
    kept: Kept,
    param: Option<Ident>,
    block: Vec<SkimStmt>,
) -> Result<Kept, AllocError>
    ensures { IfOk result (λ made. (i : Interpretation) → Adds i kept made (handling_means i param block.items)) }
{
    match param {
        None => skim_block(alloc, kept, block),
        Some(name) => {
            let named = declared(alloc, nothing(), Declare::Catch, name)?;
            let inside = skim_block(alloc, named, block)?;
            region(alloc, kept, Region::Catch, inside)
        }
    }
}
