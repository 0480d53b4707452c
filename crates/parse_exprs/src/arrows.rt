//! Arrows.

ghost use Rattle.std.specs.Prelude.{◌≡◌, ◌<◌, true, false, None, ℕ};
ghost use Rattle.script_grammar.specs.Interpretation.{Interpretation};
ghost use Rattle.script_grammar.specs.Lexeme.{lexeme_of};
ghost use Rattle.script_grammar.specs.Kinds as test;
ghost use Rattle.script_grammar.specs.Shows.{ShowParam, ParamOf};
ghost use Rattle.script_grammar.specs.TreeLists as part;
ghost use Rattle.grammar_parser_specs.specs.Parser.{loop, led};
ghost use Rattle.grammar_parser_specs.specs.Exprs as pure;
ghost use Rattle.grammar_parser_specs.specs.Exprs.{AnAssign};
ghost use Rattle.parse_exprs.specs.Source.{IsSource, HasAtom};
ghost use Rattle.parse_exprs.specs.Env.{env_at};
ghost use Rattle.parse_exprs.specs.Answers.{Reads, Makes};
ghost use Rattle.parse_exprs.specs.Means.{NameOf, TurnOf, ItemsOf, ParamsEndOf, ParamsOf, RankedOf, ArrowBodyOf};

use crate::part::{ArrowBody, Ending, Items, Params, ParamsEnd, Rank, Ranked, Turned};
use crate::place::ParseFault;
use crate::source::Source;
use crate::state::State;
use crate::{kinds, token};
use script_grammar::handler::Handler;
use script_grammar::node::{NodeFunc, NodeFuncBody, NodeParam};
use script_grammar::token::{FuncForm, Token, mark};
use script_grammar::tree::Ident;

impl<H: Handler> State<H> {
    #[tactic(auto, unfolding(grammar_parser_specs::specs::Exprs::arrow_rest))]
    pub(crate) fn arrow_rest(&mut self, source: &Source) -> Result<Ident, ParseFault>
        requires { IsSource source.now }
        ensures { (i : Interpretation) → Reads (NameOf i) (pure.arrow_rest) source.now i self.old.place self.new.place result }
    {
        if !self.place.is_mark(source, mark::ELLIPSIS) {
            return Err(ParseFault::Unexpected {
                token: self.place.at,
            });
        }
        self.place.step(source);
        self.place.name(source)
    }

    #[cycle(exprs)]
    #[tactic(auto, unfolding(grammar_parser_specs::specs::Exprs::arrow_first))]
    fn arrow_first(
        &mut self,
        source: &Source,
        depth: u32,
    ) -> Result<Turned<NodeParam<H::E>, ParamsEnd>, ParseFault>
        requires { IsSource source.now }
        ensures { (i : Interpretation) → Reads (TurnOf (ParamOf i (H.shows_expr i)) (ParamsEndOf i))
            (pure.arrow_first (env_at i depth)) source.now i self.old.place self.new.place result }
    {
        if self.place.is_mark(source, mark::ELLIPSIS) {
            let name = self.rest_call(source, depth)?;
            return Ok(Turned::Last(ParamsEnd::Rest(name)));
        }
        let param = self.param_call(source, depth)?;
        Ok(Turned::Next(param))
    }

    #[cycle(exprs)]
    #[tactic(auto, unfolding(grammar_parser_specs::specs::Exprs::arrow_turn, grammar_parser_specs::specs::Exprs::arrow_next))]
    fn arrow_turn(
        &mut self,
        source: &Source,
        depth: u32,
    ) -> Result<Turned<NodeParam<H::E>, ParamsEnd>, ParseFault>
        requires { IsSource source.now }
        ensures { (i : Interpretation) → Reads (TurnOf (ParamOf i (H.shows_expr i)) (ParamsEndOf i))
            (pure.arrow_turn (env_at i depth)) source.now i self.old.place self.new.place result }
    {
        if !self.place.is_mark(source, mark::COMMA) {
            return Ok(Turned::Last(ParamsEnd::Plain));
        }
        self.place.step(source);
        if self.place.is_mark(source, mark::CLOSE_PAREN) {
            return Ok(Turned::Last(ParamsEnd::Trailing));
        }
        self.arrow_first(source, depth)
    }

    #[cycle(exprs)]
    fn arrow_led(
        &mut self,
        source: &Source,
        first: NodeParam<H::E>,
        depth: u32,
    ) -> Result<Items<NodeParam<H::E>, ParamsEnd>, ParseFault>
        requires { IsSource source.now }
        ensures { (i : Interpretation) → (t : part.Param) → ShowParam i (H.shows_expr i) first t
            → Reads (ItemsOf (ShowParam i (H.shows_expr i)) (ParamsEndOf i))
            (led (pure.arrow_turn (env_at i depth)) t) source.now i self.old.place self.new.place result }
    {
        let mut items = Vec::new(self.alloc);
        items.push(first)?;
        loop {
            match self.arrow_turn(source, depth)? {
                Turned::Next(item) => items.push(item)?,
                Turned::Last(last) => return Ok(Items { items, last }),
            }
        }
    }

    #[cycle(exprs)]
    #[tactic(auto, unfolding(grammar_parser_specs::specs::Exprs::arrow_params))]
    fn arrow_params(
        &mut self,
        source: &Source,
        depth: u32,
    ) -> Result<Items<NodeParam<H::E>, ParamsEnd>, ParseFault>
        requires { IsSource source.now }
        ensures { (i : Interpretation) → Reads (ItemsOf (ShowParam i (H.shows_expr i)) (ParamsEndOf i))
            (pure.arrow_params (env_at i depth)) source.now i self.old.place self.new.place result }
    {
        if self.place.is_mark(source, mark::CLOSE_PAREN) {
            return Ok(Items {
                items: Vec::new(self.alloc),
                last: ParamsEnd::Plain,
            });
        }
        match self.arrow_first(source, depth)? {
            Turned::Next(first) => self.arrow_led(source, first, depth),
            Turned::Last(last) => Ok(Items {
                items: Vec::new(self.alloc),
                last,
            }),
        }
    }

    /// A single parameter without parentheses.
    pub fn bare(&self, token: Token) -> Result<Params<H::E>, ParseFault>
        requires name { test.is_name token.kind ≡ true }
        requires atom { HasAtom token }
        ensures { (i : Interpretation) (get set : ℕ) → Makes result
            (λ p. ParamsOf i (H.shows_expr i) p (λ h. pure.bare_head (lexeme_of get set i.texts token) ≡ h)) }
    {
        let mut params = Vec::new(self.alloc);
        params.push(NodeParam {
            name: token::ident(token),
            value: None,
            rest: false,
        })?;
        Ok(Params {
            start: token.start,
            params,
            comma: false,
            bare: true,
        })
    }

    #[cycle(exprs)]
    #[tactic(auto, unfolding(grammar_parser_specs::specs::Exprs::arrow_head, grammar_parser_specs::specs::Exprs::arrow_listed))]
    fn arrow_head(&mut self, source: &Source, depth: u32) -> Result<Params<H::E>, ParseFault>
        requires { IsSource source.now }
        ensures { (i : Interpretation) → Reads (ParamsOf i (H.shows_expr i))
            (pure.arrow_head (env_at i depth)) source.now i self.old.place self.new.place result }
    {
        let token = self.place.token(source);
        if kinds::is_name(token.kind) {
            self.place.step(source);
            return self.bare(token);
        }
        if kinds::is_mark(token.kind, mark::OPEN_PAREN) {
            self.place.step(source);
            let read = self.arrow_params(source, depth)?;
            self.place.expect(source, mark::CLOSE_PAREN)?;
            return Self::ended(token.start, read);
        }
        Err(ParseFault::Unexpected {
            token: self.place.at,
        })
    }

    #[cycle(exprs)]
    #[tactic(auto, unfolding(grammar_parser_specs::specs::Exprs::arrow_of))]
    pub(crate) fn arrow(
        &mut self,
        source: &Source,
        with_in: bool,
        depth: u32,
    ) -> Result<Ranked<H::E>, ParseFault>
        requires { IsSource source.now }
        ensures { (i : Interpretation) → Reads (RankedOf (H.shows_expr i))
            (pure.arrow_of (env_at i depth) with_in) source.now i self.old.place self.new.place result }
    {
        let head = self.arrow_head(source, depth)?;
        self.place.arrow_mark(source)?;
        let body = self.arrow_body(source, with_in, head.start, head.is_simple(), depth)?;
        let at = head.start;
        let func = NodeFunc {
            form: FuncForm::Arrow,
            start: head.start,
            end: body.end,
            name: None,
            params: head.params,
            comma: head.comma,
            bare: head.bare,
            body: body.body,
        };
        let node = self.handler.make_func(at, func)?;
        Ok(Ranked {
            node,
            rank: Rank::Other,
            ending: body.ending,
        })
    }

    /// A ConciseBody.
    #[cycle(exprs)]
    #[tactic(auto, unfolding(grammar_parser_specs::specs::Exprs::arrow_body))]
    pub fn arrow_body(
        &mut self,
        source: &Source,
        with_in: bool,
        start: u32,
        simple: bool,
        depth: u32,
    ) -> Result<ArrowBody<H::E, H::B>, ParseFault>
        requires { IsSource source.now }
        ensures { (i : Interpretation) → (h : pure.Head) → start ≡ h.start → simple ≡ pure.is_simple h.params
            → Reads (ArrowBodyOf i (H.shows_expr i) (H.shows_body i) start)
            (pure.arrow_body (env_at i depth) with_in h) source.now i self.old.place self.new.place result }
    {
        if self.place.is_mark(source, mark::OPEN_BRACE) {
            let end = self
                .place
                .pass_body(source, FuncForm::Arrow, simple, depth)?;
            return Ok(ArrowBody {
                body: NodeFuncBody::Passed,
                ending: Ending::BracedArrow,
                end,
            });
        }
        let value = self.assign(source, with_in, depth)?;
        let end = self.place.end_before(source);
        Ok(ArrowBody {
            body: NodeFuncBody::Short(value.node),
            ending: value.ending,
            end,
        })
    }
}
