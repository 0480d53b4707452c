//! The parts over nodes that are no node, and the first early error in them.

ghost use Rattle.std.specs.Prelude.{◌≡◌, Option, map};
ghost use Rattle.parse_track.specs.declared.region.Early.{Early};
ghost use Rattle.parse_early_handler.specs.Firsts.{are_more, args_first, binds_first, body_first, clause_first, each_first, end_in_property};
ghost use Rattle.parse_early_handler.specs.Firsts.{expr_first, first_of, function_first, init_first, is_more, is_property, key_first, maybe_first};
ghost use Rattle.parse_early_handler.specs.Firsts.{start_of_first, strict_first, tail_first, target_first};

use crate::early::{error_if, error_of, smaller, sooner};
use crate::keys::const_errors;
use crate::limits::{many_args, many_params};
use crate::nodes::{BodyErrors, ExprErrors, PropErrors, StmtErrors};
use parse_track::region::Early;
use script_grammar::node::{
    NodeArgs, NodeBind, NodeClause, NodeEach, NodeFunc, NodeFuncBody, NodeInit, NodeKey,
    NodeOperand, NodeParam, NodeTail, NodeTemplatePart,
};
use script_grammar::token::Decl;

/// A part of a script that is kept by the early errors in it.
pub trait EarlyErrors {
    // the first early error in it
    ghost first: { Self → Option Early };

    /// The first early error in it.
    fn first_early(&self) -> Option<Early>
        ensures { result ≡ first self.now };
}

impl EarlyErrors for ExprErrors {
    ghost first = { λ e. e.first };

    fn first_early(&self) -> Option<Early> {
        self.first
    }
}

impl EarlyErrors for PropErrors {
    ghost first = { λ p. p.first };

    fn first_early(&self) -> Option<Early> {
        self.first
    }
}

impl EarlyErrors for StmtErrors {
    ghost first = { λ s. s.first };

    fn first_early(&self) -> Option<Early> {
        self.first
    }
}

impl<T: EarlyErrors> EarlyErrors for Vec<T> {
    ghost first = { λ parts. first_of (map T.first parts.items) };

    fn first_early(&self) -> Option<Early> {
        let mut first = None;
        for part in self {
            let error = part.first_early();
            first = sooner(first, error);
        }
        first
    }
}

impl<T: EarlyErrors> EarlyErrors for Option<T> {
    ghost first = { maybe_first T.first };

    fn first_early(&self) -> Option<Early> {
        match self {
            None => None,
            Some(part) => part.first_early(),
        }
    }
}

impl EarlyErrors for NodeArgs<ExprErrors> {
    ghost first = { args_first };

    fn first_early(&self) -> Option<Early> {
        let many = many_args(&self.items);
        let items = self.items.first_early();
        sooner(many, items)
    }
}

impl EarlyErrors for NodeOperand<ExprErrors> {
    ghost first = { λ n. n.value.first };

    fn first_early(&self) -> Option<Early> {
        self.value.first
    }
}

impl EarlyErrors for NodeTemplatePart<ExprErrors> {
    ghost first = { λ n. n.value.first };

    fn first_early(&self) -> Option<Early> {
        self.value.first
    }
}

impl EarlyErrors for NodeTail<ExprErrors> {
    ghost first = { tail_first };

    fn first_early(&self) -> Option<Early> {
        match self {
            NodeTail::Dot { .. } => None,
            NodeTail::Index(value) => value.first,
            NodeTail::Call(args) => args.first_early(),
        }
    }
}

impl EarlyErrors for NodeKey<ExprErrors> {
    ghost first = { key_first };

    fn first_early(&self) -> Option<Early> {
        match self {
            NodeKey::Word(_) => None,
            NodeKey::Str(_) => None,
            NodeKey::Number { .. } => None,
            NodeKey::Computed(value) => value.first,
        }
    }
}

impl EarlyErrors for NodeParam<ExprErrors> {
    ghost first = { λ n. maybe_first expr_first n.value };

    fn first_early(&self) -> Option<Early> {
        self.value.first_early()
    }
}

impl EarlyErrors for NodeBind<ExprErrors> {
    ghost first = { λ n. maybe_first expr_first n.value };

    fn first_early(&self) -> Option<Early> {
        self.value.first_early()
    }
}

// Whether a parameter has an initializer or is a rest parameter.
fn is_more<E>(param: &NodeParam<E>) -> bool
    ensures { result ≡ is_more param.now }
{
    match &param.value {
        Some(_) => true,
        None => param.rest,
    }
}

/// Whether a parameter has an initializer or is a rest parameter.
pub fn are_more<E>(params: &[NodeParam<E>]) -> bool
    ensures { result ≡ are_more params.now }
{
    for param in params {
        if is_more(param) {
            return true;
        }
    }
    false
}

// The first early error of the body of a function; `more` says that the parameters are more than names.
fn body_first(body: &NodeFuncBody<ExprErrors, BodyErrors>, more: bool) -> Option<Early>
    ensures { result ≡ body_first more body.now }
{
    match body {
        NodeFuncBody::Braced(body) => {
            if more {
                sooner(error_of(14, body.strict), body.first)
            } else {
                body.first
            }
        }
        NodeFuncBody::Short(value) => value.first,
        NodeFuncBody::Passed => None,
    }
}

impl EarlyErrors for NodeFunc<ExprErrors, BodyErrors> {
    ghost first = { function_first };

    fn first_early(&self) -> Option<Early> {
        let many = many_params(&self.params);
        let params = self.params.first_early();
        let body = body_first(&self.body, are_more(&self.params));
        sooner(many, sooner(params, body))
    }
}

impl EarlyErrors for NodeInit<ExprErrors> {
    ghost first = { init_first };

    fn first_early(&self) -> Option<Early> {
        match self {
            NodeInit::Nothing => None,
            NodeInit::Value(value) => value.first,
            NodeInit::Binds { decl, binds } => binds_first(*decl, binds),
        }
    }
}

/// The first early error of a declaration.
pub fn binds_first(decl: Decl, binds: &Vec<NodeBind<ExprErrors>>) -> Option<Early>
    ensures { result ≡ binds_first decl binds.now.items }
{
    let bare = const_errors(decl, binds);
    let values = binds.first_early();
    sooner(bare, values)
}

/// The early error at an expression that is assigned to, and may not be (rule 8), or the first one in it.
pub fn target_first(target: ExprErrors) -> Option<Early>
    ensures { result ≡ target_first target }
{
    let wrong = error_if(!target.shape.is_target(), 8, target.start);
    sooner(wrong, target.first)
}

impl EarlyErrors for NodeEach<ExprErrors> {
    ghost first = { each_first };

    fn first_early(&self) -> Option<Early> {
        match self {
            NodeEach::Target(value) => target_first(*value),
            NodeEach::Bind { .. } => None,
        }
    }
}

impl EarlyErrors for NodeClause<ExprErrors, StmtErrors> {
    ghost first = { clause_first };

    fn first_early(&self) -> Option<Early> {
        let test = self.test.first_early();
        let items = self.items.first_early();
        sooner(test, items)
    }
}

// Whether a part of a chain is a property.
fn is_property<E>(tail: &NodeTail<E>) -> bool
    ensures { result ≡ is_property tail.now }
{
    match tail {
        NodeTail::Dot { .. } => true,
        NodeTail::Index(_) => true,
        NodeTail::Call(_) => false,
    }
}

/// Whether the last part of a chain is a property.
pub fn end_in_property<E>(tails: &[NodeTail<E>]) -> bool
    ensures { result ≡ end_in_property tails.now }
{
    match tails.last() {
        Some(tail) => is_property(tail),
        None => false,
    }
}

/// The offset of the first of some expressions, in bytes; 0 where there is none.
pub fn start_of_first(items: &[ExprErrors]) -> u32
    ensures { result ≡ start_of_first items.now }
{
    match items.first() {
        Some(first) => first.start,
        None => 0,
    }
}

/// The offset of the first directive `use strict` at the head of a body, in bytes.
pub fn first_strict(items: &[StmtErrors]) -> Option<u32>
    ensures { result ≡ strict_first items.now }
{
    let mut first = None;
    for item in items {
        if item.directive.ends() {
            return first;
        }
        let at = item.directive.strict_at();
        first = smaller(first, at);
    }
    first
}
