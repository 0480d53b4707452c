//! Nodes of flat lists, of which one item is no list.

ghost use Rattle.std.specs.Prelude.{◌≡◌, ◌<◌, List};
ghost use Rattle.script_grammar.specs.Endings.{ending, last_ending, operands_ending};
ghost use Rattle.script_grammar.specs.Interpretation.{Interpretation};
ghost use Rattle.script_grammar.specs.Shows.{ShowAll, ShowTail, ShowOperand};
ghost use Rattle.script_grammar.specs.Tree as model;
ghost use Rattle.script_grammar.specs.TreeLists as part;
ghost use Rattle.script_grammar.specs.TreeLists.{exprs_of, operands_of};
ghost use Rattle.grammar_parser_specs.specs.Exprs as pure;
ghost use Rattle.parse_exprs.specs.Answers.{Makes};
ghost use Rattle.parse_exprs.specs.Means.{ShowRanked, ending_as};

use crate::part::{Ending, Items, Rank, Ranked};
use crate::place::ParseFault;
use crate::state::State;
use script_grammar::handler::Handler;
use script_grammar::node::{NodeOperand, NodeTail};

impl<H: Handler> State<H> {
    /// An item and others after it.
    pub fn make_comma(
        &mut self,
        first: Ranked<H::E>,
        rest: Items<H::E, Ending>,
    ) -> Result<Ranked<H::E>, ParseFault>
        ensures place { self.new.place ≡ self.old.place }
        ensures makes { (i : Interpretation) (t : model.Expr) (ts : List model.Expr) → ShowRanked (H.shows_expr i) first t
            → ShowAll (H.shows_expr i) rest.items.items ts → ending_as rest.last ≡ last_ending (ending t) (exprs_of ts)
            → Makes result (λ e. ShowRanked (H.shows_expr i) e (pure.comma_case t ts)) }
    {
        if rest.items.is_empty() {
            return Ok(first);
        }
        let mut items = rest.items;
        items.insert(0, first.node)?;
        let node = self.handler.make_comma(items)?;
        Ok(Ranked {
            node,
            rank: Rank::Other,
            ending: rest.last,
        })
    }

    /// What may begin a chain, and the tails after it.
    pub fn make_chain(
        &mut self,
        head: Ranked<H::E>,
        tails: Vec<NodeTail<H::E>>,
    ) -> Result<Ranked<H::E>, ParseFault>
        ensures place { self.new.place ≡ self.old.place }
        ensures makes { (i : Interpretation) (t : model.Expr) (ts : List model.Tail) → ShowRanked (H.shows_expr i) head t
            → ShowAll (ShowTail i (H.shows_expr i)) tails.items ts → Makes result (λ e. ShowRanked (H.shows_expr i) e (pure.chain_case t ts)) }
    {
        if tails.is_empty() {
            return Ok(head);
        }
        let node = self.handler.make_chain(head.node, tails)?;
        Ok(Ranked {
            node,
            rank: Rank::Left,
            ending: Ending::Operand,
        })
    }

    /// The first operand of a level, and the others.
    pub fn make_binary(
        &mut self,
        first: Ranked<H::E>,
        rest: Items<NodeOperand<H::E>, Ending>,
    ) -> Result<Ranked<H::E>, ParseFault>
        ensures place { self.new.place ≡ self.old.place }
        ensures makes { (i : Interpretation) (t : model.Expr) (os : List part.Operand) → ShowRanked (H.shows_expr i) first t
            → ShowAll (ShowOperand (H.shows_expr i)) rest.items.items os
            → ending_as rest.last ≡ operands_ending (ending t) (operands_of os)
            → Makes result (λ e. ShowRanked (H.shows_expr i) e (pure.binary_case t os)) }
    {
        if rest.items.is_empty() {
            return Ok(first);
        }
        let node = self.handler.make_binary(first.node, rest.items)?;
        Ok(Ranked {
            node,
            rank: Rank::Other,
            ending: rest.last,
        })
    }
}
