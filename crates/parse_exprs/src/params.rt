//! Parameters of functions that are no arrows.

ghost use Rattle.std.specs.Prelude.{◌≡◌, ◌<◌, true, false, Option, Some, None};
ghost use Rattle.script_grammar.specs.Interpretation.{Interpretation};
ghost use Rattle.script_grammar.specs.Shows.{ShowAll, ShowParam, MaybeOf, ParamOf};
ghost use Rattle.script_grammar.specs.TreeLists as part;
ghost use Rattle.grammar_parser_specs.specs.Parser.{loop, led, Many};
ghost use Rattle.grammar_parser_specs.specs.Exprs as pure;
ghost use Rattle.parse_exprs.specs.Source.{IsSource};
ghost use Rattle.parse_exprs.specs.Env.{env_at};
ghost use Rattle.parse_exprs.specs.Answers.{Reads, Makes};
ghost use Rattle.parse_exprs.specs.Means.{TurnOf, ItemsOf, ParamsEndOf, ParamsOf};

use crate::part::{Items, Params, ParamsEnd, Turned};
use crate::place::ParseFault;
use crate::source::Source;
use crate::state::State;
use crate::token;
use script_grammar::handler::Handler;
use script_grammar::node::NodeParam;
use script_grammar::token::{FuncForm, mark};

impl<H: Handler> State<H> {
    #[cycle(exprs)]
    #[tactic(auto, unfolding(grammar_parser_specs::specs::Exprs::initializer_of))]
    fn initializer(&mut self, source: &Source, depth: u32) -> Result<Option<H::E>, ParseFault>
        requires { IsSource source.now }
        ensures { (i : Interpretation) → Reads (MaybeOf (H.shows_expr i))
            (pure.initializer_of (env_at i depth)) source.now i self.old.place self.new.place result }
    {
        if !self.place.is_mark(source, mark::ASSIGN) {
            return Ok(None);
        }
        self.place.step(source);
        let value = self.assign(source, true, depth)?;
        Ok(Some(value.node))
    }

    #[cycle(exprs)]
    #[tactic(auto, unfolding(grammar_parser_specs::specs::Exprs::param_of))]
    pub(crate) fn param(
        &mut self,
        source: &Source,
        depth: u32,
    ) -> Result<NodeParam<H::E>, ParseFault>
        requires { IsSource source.now }
        ensures { (i : Interpretation) → Reads (ParamOf i (H.shows_expr i))
            (pure.param_of (env_at i depth)) source.now i self.old.place self.new.place result }
    {
        let name = self.place.name(source)?;
        let value = self.initializer(source, depth)?;
        Ok(NodeParam {
            name,
            value,
            rest: false,
        })
    }

    #[cycle(exprs)]
    #[tactic(auto, unfolding(grammar_parser_specs::specs::Exprs::param_turn))]
    fn param_turn(
        &mut self,
        source: &Source,
        depth: u32,
    ) -> Result<Turned<NodeParam<H::E>, ParamsEnd>, ParseFault>
        requires { IsSource source.now }
        ensures { (i : Interpretation) → Reads (TurnOf (ParamOf i (H.shows_expr i)) (ParamsEndOf i))
            (pure.param_turn (env_at i depth)) source.now i self.old.place self.new.place result }
    {
        if self.place.is_mark(source, mark::ELLIPSIS) {
            self.place.step(source);
            let name = self.place.name(source)?;
            return Ok(Turned::Last(ParamsEnd::Rest(name)));
        }
        let param = self.param(source, depth)?;
        Ok(Turned::Next(param))
    }

    #[cycle(exprs)]
    #[tactic(auto, unfolding(grammar_parser_specs::specs::Exprs::params_turn, grammar_parser_specs::specs::Exprs::params_next))]
    fn params_turn(
        &mut self,
        source: &Source,
        depth: u32,
    ) -> Result<Turned<NodeParam<H::E>, ParamsEnd>, ParseFault>
        requires { IsSource source.now }
        ensures { (i : Interpretation) → Reads (TurnOf (ParamOf i (H.shows_expr i)) (ParamsEndOf i))
            (pure.params_turn (env_at i depth)) source.now i self.old.place self.new.place result }
    {
        if !self.place.is_mark(source, mark::COMMA) {
            return Ok(Turned::Last(ParamsEnd::Plain));
        }
        self.place.step(source);
        if self.place.is_mark(source, mark::CLOSE_PAREN) {
            return Ok(Turned::Last(ParamsEnd::Trailing));
        }
        self.param_turn(source, depth)
    }

    #[cycle(exprs)]
    fn params_led(
        &mut self,
        source: &Source,
        first: NodeParam<H::E>,
        depth: u32,
    ) -> Result<Items<NodeParam<H::E>, ParamsEnd>, ParseFault>
        requires { IsSource source.now }
        ensures { (i : Interpretation) → (t : part.Param) → ShowParam i (H.shows_expr i) first t
            → Reads (ItemsOf (ShowParam i (H.shows_expr i)) (ParamsEndOf i))
            (led (pure.params_turn (env_at i depth)) t) source.now i self.old.place self.new.place result }
    {
        let mut items = Vec::new(self.alloc);
        items.push(first)?;
        loop {
            match self.params_turn(source, depth)? {
                Turned::Next(item) => items.push(item)?,
                Turned::Last(last) => return Ok(Items { items, last }),
            }
        }
    }

    #[cycle(exprs)]
    #[tactic(auto, unfolding(grammar_parser_specs::specs::Exprs::more_params))]
    fn more_params(
        &mut self,
        source: &Source,
        depth: u32,
    ) -> Result<Items<NodeParam<H::E>, ParamsEnd>, ParseFault>
        requires { IsSource source.now }
        ensures { (i : Interpretation) → Reads (ItemsOf (ShowParam i (H.shows_expr i)) (ParamsEndOf i))
            (pure.more_params (env_at i depth)) source.now i self.old.place self.new.place result }
    {
        if self.place.is_mark(source, mark::CLOSE_PAREN) {
            return Ok(Items {
                items: Vec::new(self.alloc),
                last: ParamsEnd::Plain,
            });
        }
        match self.param_turn(source, depth)? {
            Turned::Next(first) => self.params_led(source, first, depth),
            Turned::Last(last) => Ok(Items {
                items: Vec::new(self.alloc),
                last,
            }),
        }
    }

    /// The parameters that were read, as they ended.
    pub fn ended(
        start: u32,
        read: Items<NodeParam<H::E>, ParamsEnd>,
    ) -> Result<Params<H::E>, ParseFault>
        ensures { (i : Interpretation) (m : Many part.Param pure.ParamsEnd)
            → ShowAll (ShowParam i (H.shows_expr i)) read.items.items m.items → ParamsEndOf i read.last (λ x. m.last ≡ x)
            → Makes result (λ p. ParamsOf i (H.shows_expr i) p (λ h. pure.head_case start m ≡ h)) }
    {
        let mut params = read.items;
        let comma = matches!(read.last, ParamsEnd::Trailing);
        if let ParamsEnd::Rest(name) = read.last {
            params.push(NodeParam {
                name,
                value: None,
                rest: true,
            })?;
        }
        Ok(Params {
            start,
            params,
            comma,
            bare: false,
        })
    }

    #[cycle(exprs)]
    #[tactic(auto, unfolding(grammar_parser_specs::specs::Exprs::listed_params))]
    fn listed_params(
        &mut self,
        source: &Source,
        start: u32,
        depth: u32,
    ) -> Result<Params<H::E>, ParseFault>
        requires { IsSource source.now }
        ensures { (i : Interpretation) → Reads (ParamsOf i (H.shows_expr i))
            (pure.listed_params (env_at i depth) start) source.now i self.old.place self.new.place result }
    {
        let read = self.more_params(source, depth)?;
        self.place.expect(source, mark::CLOSE_PAREN)?;
        Self::ended(start, read)
    }

    fn no_params(&mut self, source: &Source, start: u32) -> Result<Params<H::E>, ParseFault>
        requires { IsSource source.now }
        ensures { (i : Interpretation) → Reads (ParamsOf i (H.shows_expr i))
            (pure.no_params start) source.now i self.old.place self.new.place result }
    {
        self.place.expect(source, mark::CLOSE_PAREN)?;
        Ok(Params {
            start,
            params: Vec::new(self.alloc),
            comma: false,
            bare: false,
        })
    }

    #[cycle(exprs)]
    fn one_param(
        &mut self,
        source: &Source,
        start: u32,
        depth: u32,
    ) -> Result<Params<H::E>, ParseFault>
        requires { IsSource source.now }
        ensures { (i : Interpretation) → Reads (ParamsOf i (H.shows_expr i))
            (pure.one_param (env_at i depth) start) source.now i self.old.place self.new.place result }
    {
        let param = self.param(source, depth)?;
        self.place.expect(source, mark::CLOSE_PAREN)?;
        let mut params = Vec::new(self.alloc);
        params.push(param)?;
        Ok(Params {
            start,
            params,
            comma: false,
            bare: false,
        })
    }

    #[cycle(exprs)]
    #[tactic(auto, unfolding(grammar_parser_specs::specs::Exprs::params_head))]
    pub(crate) fn params_head(
        &mut self,
        source: &Source,
        form: FuncForm,
        depth: u32,
    ) -> Result<Params<H::E>, ParseFault>
        requires { IsSource source.now }
        ensures { (i : Interpretation) → Reads (ParamsOf i (H.shows_expr i))
            (pure.params_head (env_at i depth) form) source.now i self.old.place self.new.place result }
    {
        let start = self.place.token(source).start;
        if !self.place.is_mark(source, mark::OPEN_PAREN) {
            return Err(ParseFault::Unexpected {
                token: self.place.at,
            });
        }
        self.place.step(source);
        match form {
            FuncForm::Getter => self.no_params(source, start),
            FuncForm::Setter => self.one_param(source, start, depth),
            _ => self.listed_params(source, start, depth),
        }
    }
}
