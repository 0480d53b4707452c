//! Parenthesized expressions.

ghost use Rattle.std.specs.Prelude.{◌≡◌, ◌<◌, ◌++◌, ◌∷◌, List, true, Some};
ghost use Rattle.script_grammar.specs.Interpretation.{Interpretation};
ghost use Rattle.script_grammar.specs.Shows.{ShowAll, NodeOf};
ghost use Rattle.script_grammar.specs.Tree as model;
ghost use Rattle.grammar_parser_specs.specs.Parser.{loop, when};
ghost use Rattle.grammar_parser_specs.specs.Exprs as pure;
ghost use Rattle.parse_exprs.specs.Source.{IsSource, front};
ghost use Rattle.parse_exprs.specs.Env.{env_at};
ghost use Rattle.parse_exprs.specs.Answers.{Reads, Makes};
ghost use Rattle.parse_exprs.specs.Means.{TurnOf, ItemsOf, ListOf, AtomOf};

use crate::part::{Items, Turned};
use crate::place::ParseFault;
use crate::source::Source;
use crate::state::State;
use script_grammar::handler::Handler;
use script_grammar::token::mark;

impl<H: Handler> State<H> {
    /// The list of this item and the others.
    fn with_first(first: H::E, rest: Vec<H::E>) -> Result<Vec<H::E>, ParseFault>
        ensures { Makes result (λ v. v.items ≡ first ∷ rest.items) }
    {
        let mut items = rest;
        items.insert(0, first)?;
        Ok(items)
    }

    #[cycle(exprs)]
    #[tactic(auto, unfolding(grammar_parser_specs::specs::Exprs::items_from))]
    pub(crate) fn items(&mut self, source: &Source, depth: u32) -> Result<Vec<H::E>, ParseFault>
        requires { IsSource source.now }
        ensures { (i : Interpretation) → Reads (ListOf (H.shows_expr i))
            (pure.items_from (env_at i depth)) source.now i self.old.place self.new.place result }
    {
        let first = self.assign(source, true, depth)?;
        let more = self.more(source, true, first.ending, depth)?;
        Self::with_first(first.node, more.items)
    }

    #[tactic(auto, unfolding(grammar_parser_specs::specs::Exprs::lead_end))]
    fn lead_end(
        &mut self,
        source: &Source,
        item: H::E,
    ) -> Result<Turned<H::E, Vec<H::E>>, ParseFault>
        requires { IsSource source.now }
        ensures { (i : Interpretation) → (t : model.Expr) → H.shows_expr i item t
            → Reads (TurnOf (NodeOf (H.shows_expr i)) (ListOf (H.shows_expr i))) (pure.lead_end t) source.now i self.old.place self.new.place result }
    {
        if self.place.is_mark(source, mark::COMMA) {
            self.place.step(source);
            return Ok(Turned::Next(item));
        }
        let mut items = Vec::new(self.alloc);
        items.push(item)?;
        Ok(Turned::Last(items))
    }

    #[tactic(auto, unfolding(grammar_parser_specs::specs::Exprs::doomed_rest))]
    fn doomed_rest(
        &mut self,
        source: &Source,
        depth: u32,
    ) -> Result<Turned<H::E, Vec<H::E>>, ParseFault>
        requires { IsSource source.now }
        ensures { (i : Interpretation) → Reads (TurnOf (NodeOf (H.shows_expr i)) (ListOf (H.shows_expr i)))
            (pure.doomed_rest (env_at i depth)) source.now i self.old.place self.new.place result }
    {
        self.rest_call(source, depth)?;
        Err(self.place.doomed(source))
    }

    #[cycle(exprs)]
    #[tactic(auto, unfolding(grammar_parser_specs::specs::Exprs::lead_turn, grammar_parser_specs::specs::Exprs::lead_item))]
    fn lead_turn(
        &mut self,
        source: &Source,
        depth: u32,
    ) -> Result<Turned<H::E, Vec<H::E>>, ParseFault>
        requires { IsSource source.now }
        ensures { (i : Interpretation) → Reads (TurnOf (NodeOf (H.shows_expr i)) (ListOf (H.shows_expr i)))
            (pure.lead_turn (env_at i depth)) source.now i self.old.place self.new.place result }
    {
        if self.place.is_mark(source, mark::CLOSE_PAREN) {
            return Err(self.place.doomed(source));
        }
        if self.place.is_mark(source, mark::ELLIPSIS) {
            return self.doomed_rest(source, depth);
        }
        if self.place.is_param_form(source) {
            let item = self.assign(source, true, depth)?;
            return self.lead_end(source, item.node);
        }
        let items = self.items(source, depth)?;
        Ok(Turned::Last(items))
    }

    #[cycle(exprs)]
    fn lead(&mut self, source: &Source, depth: u32) -> Result<Items<H::E, Vec<H::E>>, ParseFault>
        requires { IsSource source.now }
        ensures { (i : Interpretation) → Reads (ItemsOf (H.shows_expr i) (ListOf (H.shows_expr i)))
            (loop (pure.lead_turn (env_at i depth))) source.now i self.old.place self.new.place result }
    {
        let mut items = Vec::new(self.alloc);
        loop {
            match self.lead_turn(source, depth)? {
                Turned::Next(item) => items.push(item)?,
                Turned::Last(last) => return Ok(Items { items, last }),
            }
        }
    }

    /// The one list after the other.
    fn joined(front: Vec<H::E>, back: Vec<H::E>) -> Result<Vec<H::E>, ParseFault>
        ensures { Makes result (λ v. v.items ≡ front.items ++ back.items) }
    {
        let mut items = front;
        let mut rest = back;
        items.append(&mut rest)?;
        Ok(items)
    }

    #[cycle(exprs)]
    #[tactic(auto, unfolding(grammar_parser_specs::specs::Exprs::lead_items))]
    fn lead_items(&mut self, source: &Source, depth: u32) -> Result<Vec<H::E>, ParseFault>
        requires { IsSource source.now }
        ensures { (i : Interpretation) → Reads (ListOf (H.shows_expr i))
            (pure.lead_items (env_at i depth)) source.now i self.old.place self.new.place result }
    {
        let read = self.lead(source, depth)?;
        Self::joined(read.items, read.last)
    }

    /// One expression, or a list of several.
    fn make_list(&mut self, items: Vec<H::E>) -> Result<H::E, ParseFault>
        ensures place { self.new.place ≡ self.old.place }
        ensures makes { (i : Interpretation) (ts : List model.Expr) → ShowAll (H.shows_expr i) items.items ts
            → Makes result (λ e. H.shows_expr i e (pure.list_case ts)) }
    {
        let mut items = items;
        if items.len() == 1
            && let Some(item) = items.pop()
        {
            return Ok(item);
        }
        Ok(self.handler.make_comma(items)?)
    }

    #[cycle(exprs)]
    fn paren_items(
        &mut self,
        source: &Source,
        heads: bool,
        depth: u32,
    ) -> Result<Vec<H::E>, ParseFault>
        requires { IsSource source.now }
        ensures { (i : Interpretation) → Reads (ListOf (H.shows_expr i))
            (when heads (pure.lead_items (env_at i depth)) (pure.items_from (env_at i depth))) source.now i self.old.place self.new.place result }
    {
        if heads {
            return self.lead_items(source, depth);
        }
        self.items(source, depth)
    }

    /// A parenthesized expression, after the parenthesis; the flag says whether an arrow's parameters may stand there.
    #[cycle(exprs)]
    #[tactic(auto, unfolding(grammar_parser_specs::specs::Exprs::paren_of))]
    pub(crate) fn paren(
        &mut self,
        source: &Source,
        heads: bool,
        at: u32,
        depth: u32,
    ) -> Result<H::E, ParseFault>
        requires { IsSource source.now }
        ensures { (i : Interpretation) → Reads (AtomOf (H.shows_expr i))
            (pure.paren_of (env_at i depth) heads at) source.now i self.old.place self.new.place result }
    {
        let items = self.paren_items(source, heads, depth)?;
        self.place.expect(source, mark::CLOSE_PAREN)?;
        let inner = self.make_list(items)?;
        let node = self.handler.make_paren(at, inner)?;
        Ok(node)
    }
}
