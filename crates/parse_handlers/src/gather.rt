//! Gathering the functions that the parts of a node hold.

ghost use Rattle.std.specs.Prelude.{◌≡◌, List, [], ◌++◌, IfOk, OnOk};
ghost use Rattle.std.specs.List.{flat_map};
ghost use Rattle.parse_handlers.specs.declared.found.FoundFunction.{FoundFunction};
ghost use Rattle.parse_handlers.specs.Held.{held, held_maybe, held_args, held_operand, held_part, held_tail, held_key, held_body};
ghost use Rattle.parse_handlers.specs.Held.{held_param, held_bind, held_init, held_each, held_clause};

use crate::found::{FoundFunction, SyntaxBody, SyntaxNode};
use script_grammar::node::{
    NodeArgs, NodeBind, NodeClause, NodeEach, NodeFuncBody, NodeInit, NodeKey, NodeOperand,
    NodeParam, NodeTail, NodeTemplatePart,
};
use std::alloc::AllocError;

/// What holds functions, by rising start.
pub trait Gather: Drop {
    ghost holds: { Self → List FoundFunction };

    /// Appends its functions to a list.
    fn gather(self, into: &mut Vec<FoundFunction>) -> Result<(), AllocError>
        ensures { OnOk result (into.new.items ≡ into.old.items ++ holds self) };
}

/// A node that holds what this one holds, and then what these hold.
pub fn with<T: Gather>(node: SyntaxNode, more: T) -> Result<SyntaxNode, AllocError>
    ensures { IfOk result (λ n. n.found.items ≡ node.found.items ++ T.holds more) }
{
    let SyntaxNode { mut found } = node;
    more.gather(&mut found)?;
    Ok(SyntaxNode { found })
}

impl Gather for SyntaxNode {
    ghost holds = { held };

    fn gather(self, into: &mut Vec<FoundFunction>) -> Result<(), AllocError> {
        let SyntaxNode { mut found } = self;
        into.append(&mut found)?;
        Ok(())
    }
}

impl<T: Gather> Gather for Vec<T> {
    ghost holds = { λ v. flat_map T.holds v.items };

    fn gather(self, into: &mut Vec<FoundFunction>) -> Result<(), AllocError> {
        for part in self {
            part.gather(into)?;
        }
        Ok(())
    }
}

impl<T: Gather> Gather for Option<T> {
    ghost holds = { held_maybe T.holds };

    fn gather(self, into: &mut Vec<FoundFunction>) -> Result<(), AllocError> {
        match self {
            None => Ok(()),
            Some(part) => part.gather(into),
        }
    }
}

impl Gather for NodeArgs<SyntaxNode> {
    ghost holds = { held_args };

    fn gather(self, into: &mut Vec<FoundFunction>) -> Result<(), AllocError> {
        let NodeArgs { items, comma: _ } = self;
        items.gather(into)
    }
}

impl Gather for NodeOperand<SyntaxNode> {
    ghost holds = { held_operand };

    fn gather(self, into: &mut Vec<FoundFunction>) -> Result<(), AllocError> {
        let NodeOperand {
            op: _,
            is_word: _,
            value,
        } = self;
        value.gather(into)
    }
}

impl Gather for NodeTemplatePart<SyntaxNode> {
    ghost holds = { held_part };

    fn gather(self, into: &mut Vec<FoundFunction>) -> Result<(), AllocError> {
        let NodeTemplatePart { value, after: _ } = self;
        value.gather(into)
    }
}

impl Gather for NodeTail<SyntaxNode> {
    ghost holds = { held_tail };

    fn gather(self, into: &mut Vec<FoundFunction>) -> Result<(), AllocError> {
        match self {
            NodeTail::Dot { atom: _ } => Ok(()),
            NodeTail::Index(value) => value.gather(into),
            NodeTail::Call(args) => args.gather(into),
        }
    }
}

impl Gather for NodeKey<SyntaxNode> {
    ghost holds = { held_key };

    fn gather(self, into: &mut Vec<FoundFunction>) -> Result<(), AllocError> {
        match self {
            NodeKey::Word(_) => Ok(()),
            NodeKey::Str(_) => Ok(()),
            NodeKey::Number { at: _, value: _ } => Ok(()),
            NodeKey::Computed(value) => value.gather(into),
        }
    }
}

impl Gather for NodeFuncBody<SyntaxNode, SyntaxBody> {
    ghost holds = { held_body };

    fn gather(self, into: &mut Vec<FoundFunction>) -> Result<(), AllocError> {
        match self {
            NodeFuncBody::Braced(_) => Ok(()),
            NodeFuncBody::Short(value) => value.gather(into),
            NodeFuncBody::Passed => Ok(()),
        }
    }
}

impl Gather for NodeParam<SyntaxNode> {
    ghost holds = { held_param };

    fn gather(self, into: &mut Vec<FoundFunction>) -> Result<(), AllocError> {
        let NodeParam {
            name: _,
            value,
            rest: _,
        } = self;
        value.gather(into)
    }
}

impl Gather for NodeBind<SyntaxNode> {
    ghost holds = { held_bind };

    fn gather(self, into: &mut Vec<FoundFunction>) -> Result<(), AllocError> {
        let NodeBind { name: _, value } = self;
        value.gather(into)
    }
}

impl Gather for NodeInit<SyntaxNode> {
    ghost holds = { held_init };

    fn gather(self, into: &mut Vec<FoundFunction>) -> Result<(), AllocError> {
        match self {
            NodeInit::Nothing => Ok(()),
            NodeInit::Value(value) => value.gather(into),
            NodeInit::Binds { decl: _, binds } => binds.gather(into),
        }
    }
}

impl Gather for NodeEach<SyntaxNode> {
    ghost holds = { held_each };

    fn gather(self, into: &mut Vec<FoundFunction>) -> Result<(), AllocError> {
        match self {
            NodeEach::Target(value) => value.gather(into),
            NodeEach::Bind { decl: _, name: _ } => Ok(()),
        }
    }
}

impl Gather for NodeClause<SyntaxNode, SyntaxNode> {
    ghost holds = { held_clause };

    fn gather(self, into: &mut Vec<FoundFunction>) -> Result<(), AllocError> {
        let NodeClause { test, items } = self;
        test.gather(into)?;
        items.gather(into)
    }
}
