//! Arguments, arrays and templates.

ghost use Rattle.std.specs.Prelude.{◌≡◌, ◌<◌, List, true, false, Option, Some, None};
ghost use Rattle.script_grammar.specs.Interpretation.{Interpretation, text_of};
ghost use Rattle.script_grammar.specs.Shows.{ShowAll, ShowMaybe, ShowPart, NodeOf, MaybeOf, ArgsOf, PartOf};
ghost use Rattle.script_grammar.specs.Tree as model;
ghost use Rattle.grammar_parser_specs.specs.Parser.{loop, led};
ghost use Rattle.grammar_parser_specs.specs.Exprs as pure;
ghost use Rattle.parse_exprs.specs.Source.{IsSource};
ghost use Rattle.parse_exprs.specs.Env.{env_at};
ghost use Rattle.parse_exprs.specs.Answers.{Reads, Makes};
ghost use Rattle.parse_exprs.specs.Means.{Itself, TurnOf, ItemsOf, AtomOf};

use crate::part::{Items, Turned};
use crate::place::ParseFault;
use crate::source::Source;
use crate::state::State;
use crate::{kinds, token};
use script_grammar::handler::Handler;
use script_grammar::node::{NodeArgs, NodeTemplatePart};
use script_grammar::token::mark;

impl<H: Handler> State<H> {
    #[cycle(exprs)]
    #[tactic(auto, unfolding(grammar_parser_specs::specs::Exprs::args_turn, grammar_parser_specs::specs::Exprs::args_next))]
    fn args_turn(&mut self, source: &Source, depth: u32) -> Result<Turned<H::E, bool>, ParseFault>
        requires { IsSource source.now }
        ensures { (i : Interpretation) → Reads (TurnOf (NodeOf (H.shows_expr i)) Itself)
            (pure.args_turn (env_at i depth)) source.now i self.old.place self.new.place result }
    {
        if !self.place.is_mark(source, mark::COMMA) {
            return Ok(Turned::Last(false));
        }
        self.place.step(source);
        if self.place.is_mark(source, mark::CLOSE_PAREN) {
            return Ok(Turned::Last(true));
        }
        let item = self.assign(source, true, depth)?;
        Ok(Turned::Next(item.node))
    }

    #[cycle(exprs)]
    fn args_led(
        &mut self,
        source: &Source,
        first: H::E,
        depth: u32,
    ) -> Result<Items<H::E, bool>, ParseFault>
        requires { IsSource source.now }
        ensures { (i : Interpretation) → (t : model.Expr) → H.shows_expr i first t
            → Reads (ItemsOf (H.shows_expr i) Itself) (led (pure.args_turn (env_at i depth)) t) source.now i self.old.place self.new.place result }
    {
        let mut items = Vec::new(self.alloc);
        items.push(first)?;
        loop {
            match self.args_turn(source, depth)? {
                Turned::Next(item) => items.push(item)?,
                Turned::Last(last) => return Ok(Items { items, last }),
            }
        }
    }

    /// Arguments, after the opening parenthesis.
    #[cycle(exprs)]
    #[tactic(auto, unfolding(grammar_parser_specs::specs::Exprs::args_of, grammar_parser_specs::specs::Exprs::more_args))]
    pub fn args(&mut self, source: &Source, depth: u32) -> Result<NodeArgs<H::E>, ParseFault>
        requires { IsSource source.now }
        ensures { (i : Interpretation) → Reads (ArgsOf (H.shows_expr i))
            (pure.args_of (env_at i depth)) source.now i self.old.place self.new.place result }
    {
        if self.place.is_mark(source, mark::CLOSE_PAREN) {
            self.place.step(source);
            return Ok(NodeArgs {
                items: Vec::new(self.alloc),
                comma: false,
            });
        }
        let first = self.assign(source, true, depth)?;
        let args = self.args_led(source, first.node, depth)?;
        self.place.expect(source, mark::CLOSE_PAREN)?;
        Ok(NodeArgs {
            items: args.items,
            comma: args.last,
        })
    }

    #[tactic(auto, unfolding(grammar_parser_specs::specs::Exprs::item_end))]
    fn item_end(
        &mut self,
        source: &Source,
        item: H::E,
    ) -> Result<Turned<Option<H::E>, Option<H::E>>, ParseFault>
        requires { IsSource source.now }
        ensures { (i : Interpretation) → (t : model.Expr) → H.shows_expr i item t
            → Reads (TurnOf (MaybeOf (H.shows_expr i)) (MaybeOf (H.shows_expr i)))
            (pure.item_end t) source.now i self.old.place self.new.place result }
    {
        if !self.place.is_mark(source, mark::COMMA) {
            return Ok(Turned::Last(Some(item)));
        }
        self.place.step(source);
        Ok(Turned::Next(Some(item)))
    }

    #[cycle(exprs)]
    #[tactic(auto, unfolding(grammar_parser_specs::specs::Exprs::item_turn))]
    fn item_turn(
        &mut self,
        source: &Source,
        depth: u32,
    ) -> Result<Turned<Option<H::E>, Option<H::E>>, ParseFault>
        requires { IsSource source.now }
        ensures { (i : Interpretation) → Reads (TurnOf (MaybeOf (H.shows_expr i)) (MaybeOf (H.shows_expr i)))
            (pure.item_turn (env_at i depth)) source.now i self.old.place self.new.place result }
    {
        if self.place.is_mark(source, mark::CLOSE_BRACKET) {
            return Ok(Turned::Last(None));
        }
        if self.place.is_mark(source, mark::COMMA) {
            self.place.step(source);
            return Ok(Turned::Next(None));
        }
        let item = self.assign(source, true, depth)?;
        self.item_end(source, item.node)
    }

    #[cycle(exprs)]
    fn array_items(
        &mut self,
        source: &Source,
        depth: u32,
    ) -> Result<Items<Option<H::E>, Option<H::E>>, ParseFault>
        requires { IsSource source.now }
        ensures { (i : Interpretation) → Reads (ItemsOf (ShowMaybe (H.shows_expr i)) (MaybeOf (H.shows_expr i)))
            (loop (pure.item_turn (env_at i depth))) source.now i self.old.place self.new.place result }
    {
        let mut items = Vec::new(self.alloc);
        loop {
            match self.item_turn(source, depth)? {
                Turned::Next(item) => items.push(item)?,
                Turned::Last(last) => return Ok(Items { items, last }),
            }
        }
    }

    /// An array of these items, of which one more may stand after the last comma.
    fn make_array(
        &mut self,
        at: u32,
        items: Vec<Option<H::E>>,
        last: Option<H::E>,
    ) -> Result<H::E, ParseFault>
        ensures place { self.new.place ≡ self.old.place }
        ensures makes { (i : Interpretation) (ts : List (Option model.Expr)) (o : Option model.Expr)
            → ShowAll (ShowMaybe (H.shows_expr i)) items.items ts → ShowMaybe (H.shows_expr i) last o
            → Makes result (λ e. H.shows_expr i e (pure.array_case at ts o)) }
    {
        let mut items = items;
        let comma = match last {
            Some(item) => {
                items.push(Some(item))?;
                false
            }
            None => !items.is_empty(),
        };
        Ok(self.handler.make_array(at, items, comma)?)
    }

    /// An array, after the bracket that opens it.
    #[cycle(exprs)]
    #[tactic(auto, unfolding(grammar_parser_specs::specs::Exprs::array_of))]
    pub(crate) fn array(&mut self, source: &Source, at: u32, depth: u32) -> Result<H::E, ParseFault>
        requires { IsSource source.now }
        ensures { (i : Interpretation) → Reads (AtomOf (H.shows_expr i))
            (pure.array_of (env_at i depth) at) source.now i self.old.place self.new.place result }
    {
        let read = self.array_items(source, depth)?;
        self.place.expect(source, mark::CLOSE_BRACKET)?;
        self.make_array(at, read.items, read.last)
    }

    #[tactic(auto, unfolding(grammar_parser_specs::specs::Exprs::part_end))]
    fn part_end(
        &mut self,
        source: &Source,
        value: H::E,
    ) -> Result<Turned<NodeTemplatePart<H::E>, NodeTemplatePart<H::E>>, ParseFault>
        requires { IsSource source.now }
        ensures { (i : Interpretation) → (t : model.Expr) → H.shows_expr i value t
            → Reads (TurnOf (PartOf i (H.shows_expr i)) (PartOf i (H.shows_expr i)))
            (pure.part_end t) source.now i self.old.place self.new.place result }
    {
        let token = self.place.token(source);
        if kinds::is_middle(token.kind) {
            self.place.step(source);
            return Ok(Turned::Next(NodeTemplatePart {
                value,
                after: token::atom(token),
            }));
        }
        if kinds::is_tail(token.kind) {
            self.place.step(source);
            return Ok(Turned::Last(NodeTemplatePart {
                value,
                after: token::atom(token),
            }));
        }
        Err(ParseFault::Unexpected {
            token: self.place.at,
        })
    }

    #[cycle(exprs)]
    #[tactic(auto, unfolding(grammar_parser_specs::specs::Exprs::part_turn))]
    fn part_turn(
        &mut self,
        source: &Source,
        depth: u32,
    ) -> Result<Turned<NodeTemplatePart<H::E>, NodeTemplatePart<H::E>>, ParseFault>
        requires { IsSource source.now }
        ensures { (i : Interpretation) → Reads (TurnOf (PartOf i (H.shows_expr i)) (PartOf i (H.shows_expr i)))
            (pure.part_turn (env_at i depth)) source.now i self.old.place self.new.place result }
    {
        let value = self.expr(source, true, depth)?;
        self.part_end(source, value.node)
    }

    #[cycle(exprs)]
    fn template_parts(
        &mut self,
        source: &Source,
        depth: u32,
    ) -> Result<Items<NodeTemplatePart<H::E>, NodeTemplatePart<H::E>>, ParseFault>
        requires { IsSource source.now }
        ensures { (i : Interpretation) → Reads (ItemsOf (ShowPart i (H.shows_expr i)) (PartOf i (H.shows_expr i)))
            (loop (pure.part_turn (env_at i depth))) source.now i self.old.place self.new.place result }
    {
        let mut items = Vec::new(self.alloc);
        loop {
            match self.part_turn(source, depth)? {
                Turned::Next(item) => items.push(item)?,
                Turned::Last(last) => return Ok(Items { items, last }),
            }
        }
    }

    /// A template, after its head.
    #[cycle(exprs)]
    #[tactic(auto, unfolding(grammar_parser_specs::specs::Exprs::template_of))]
    pub(crate) fn template(
        &mut self,
        source: &Source,
        at: u32,
        first: u32,
        depth: u32,
    ) -> Result<H::E, ParseFault>
        requires { IsSource source.now }
        ensures { (i : Interpretation) → Reads (AtomOf (H.shows_expr i))
            (pure.template_of (env_at i depth) at (text_of i first)) source.now i self.old.place self.new.place result }
    {
        let read = self.template_parts(source, depth)?;
        let mut parts = read.items;
        parts.push(read.last)?;
        let node = self.handler.make_template(at, first, parts)?;
        Ok(node)
    }
}
