//! Expressions, and the calls that count for the depth.

ghost use Rattle.std.specs.Prelude.{◌≡◌, ◌<◌, true};
ghost use Rattle.script_grammar.specs.Endings.{ending, last_ending};
ghost use Rattle.script_grammar.specs.Interpretation.{Interpretation};
ghost use Rattle.script_grammar.specs.Shows.{ParamOf};
ghost use Rattle.script_grammar.specs.Tree as model;
ghost use Rattle.script_grammar.specs.TreeLists.{exprs_of};
ghost use Rattle.grammar_parser_specs.specs.Parser.{loop};
ghost use Rattle.grammar_parser_specs.specs.Exprs as pure;
ghost use Rattle.grammar_parser_specs.specs.Exprs.{AnAssign, APrefix, ANew, AParam, ARest};
ghost use Rattle.parse_exprs.specs.Source.{IsSource};
ghost use Rattle.parse_exprs.specs.Env.{env_at};
ghost use Rattle.parse_exprs.specs.Answers.{Reads};
ghost use Rattle.parse_exprs.specs.Means.{Itself, NameOf, TurnOf, EndsOf, RankedOf, ending_as};
ghost use Rattle.parse_exprs.specs.Ranks.{rank_of};

use crate::kinds;
use crate::part::{Ending, Items, Rank, Ranked, Turned};
use crate::place::{DEPTH_LIMIT, ParseFault};
use crate::source::Source;
use crate::state::State;
use script_grammar::handler::Handler;
use script_grammar::node::NodeParam;
use script_grammar::token::{mark, word};
use script_grammar::tree::Ident;

impl<H: Handler> State<H> {
    /// An AssignmentExpression.
    #[cycle(exprs)]
    pub fn assign(
        &mut self,
        source: &Source,
        with_in: bool,
        depth: u32,
    ) -> Result<Ranked<H::E>, ParseFault>
        requires { IsSource source.now }
        ensures { (i : Interpretation) → Reads (RankedOf (H.shows_expr i))
            ((env_at i depth).sub (AnAssign with_in)) source.now i self.old.place self.new.place result }
    {
        if depth >= DEPTH_LIMIT {
            let kind = self.place.kind(source);
            return Err(self.place.no_room(kinds::begins_assign(kind)));
        }
        self.assign_in(source, with_in, depth + 1)
    }

    /// A prefix operator and its operand.
    #[cycle(exprs)]
    pub(crate) fn prefix(&mut self, source: &Source, depth: u32) -> Result<Ranked<H::E>, ParseFault>
        requires { IsSource source.now }
        ensures { (i : Interpretation) → Reads (RankedOf (H.shows_expr i))
            ((env_at i depth).sub (APrefix)) source.now i self.old.place self.new.place result }
    {
        if depth >= DEPTH_LIMIT {
            let kind = self.place.kind(source);
            return Err(
                self.place
                    .no_room(kinds::is_prefix(kind) || kinds::is_update(kind)),
            );
        }
        self.prefix_in(source, depth + 1)
    }

    /// `new` and what belongs to it.
    #[cycle(exprs)]
    pub(crate) fn new(&mut self, source: &Source, depth: u32) -> Result<Ranked<H::E>, ParseFault>
        requires { IsSource source.now }
        ensures { (i : Interpretation) → Reads (RankedOf (H.shows_expr i))
            ((env_at i depth).sub (ANew)) source.now i self.old.place self.new.place result }
    {
        if depth >= DEPTH_LIMIT {
            let kind = self.place.kind(source);
            return Err(self.place.no_room(kinds::is_word(kind, word::NEW)));
        }
        self.new_in(source, depth + 1)
    }

    /// A parameter in an arrow's parentheses.
    #[cycle(exprs)]
    #[tactic(auto, unfolding(grammar_parser_specs::specs::Exprs::arrow_param))]
    pub fn param_call(&mut self, source: &Source, depth: u32) -> Result<NodeParam<H::E>, ParseFault>
        requires { IsSource source.now }
        ensures { (i : Interpretation) → Reads (ParamOf i (H.shows_expr i))
            ((env_at i depth).sub (AParam)) source.now i self.old.place self.new.place result }
    {
        if depth >= DEPTH_LIMIT {
            let kind = self.place.kind(source);
            return Err(self.place.no_room(kinds::is_name(kind)));
        }
        self.param(source, depth + 1)
    }

    /// A rest parameter in an arrow's parentheses.
    pub fn rest_call(&mut self, source: &Source, depth: u32) -> Result<Ident, ParseFault>
        requires { IsSource source.now }
        ensures { (i : Interpretation) → Reads (NameOf i) ((env_at i depth).sub (ARest)) source.now i self.old.place self.new.place result }
    {
        if depth >= DEPTH_LIMIT {
            let kind = self.place.kind(source);
            return Err(self.place.no_room(kinds::is_mark(kind, mark::ELLIPSIS)));
        }
        self.arrow_rest(source)
    }

    #[cycle(exprs)]
    #[tactic(auto, unfolding(grammar_parser_specs::specs::Exprs::more_turn))]
    fn more_turn(
        &mut self,
        source: &Source,
        with_in: bool,
        depth: u32,
    ) -> Result<Turned<Ranked<H::E>, ()>, ParseFault>
        requires { IsSource source.now }
        ensures { (i : Interpretation) → Reads (TurnOf (RankedOf (H.shows_expr i)) Itself)
            (pure.more_turn (env_at i depth) with_in) source.now i self.old.place self.new.place result }
    {
        if !self.place.is_mark(source, mark::COMMA) {
            return Ok(Turned::Last(()));
        }
        self.place.step(source);
        let item = self.assign(source, with_in, depth)?;
        Ok(Turned::Next(item))
    }

    #[cycle(exprs)]
    pub(crate) fn more(
        &mut self,
        source: &Source,
        with_in: bool,
        ending: Ending,
        depth: u32,
    ) -> Result<Items<H::E, Ending>, ParseFault>
        requires { IsSource source.now }
        ensures { (i : Interpretation) → Reads (EndsOf (H.shows_expr i) (λ ts. last_ending (ending_as ending) (exprs_of ts)))
            (loop (pure.more_turn (env_at i depth) with_in)) source.now i self.old.place self.new.place result }
    {
        let mut items = Vec::new(self.alloc);
        let mut last = ending;
        loop {
            match self.more_turn(source, with_in, depth)? {
                Turned::Next(item) => {
                    last = item.ending;
                    items.push(item.node)?;
                }
                Turned::Last(()) => return Ok(Items { items, last }),
            }
        }
    }

    /// An Expression.
    #[cycle(exprs)]
    #[tactic(auto, unfolding(grammar_parser_specs::specs::Exprs::expr_of))]
    pub fn expr(
        &mut self,
        source: &Source,
        with_in: bool,
        depth: u32,
    ) -> Result<Ranked<H::E>, ParseFault>
        requires { IsSource source.now }
        ensures { (i : Interpretation) → Reads (RankedOf (H.shows_expr i))
            (pure.expr_of (env_at i depth) with_in) source.now i self.old.place self.new.place result }
    {
        let first = self.assign(source, with_in, depth)?;
        let more = self.more(source, with_in, first.ending, depth)?;
        self.make_comma(first, more)
    }

    /// Many are one token, which the token after it shows.
    #[cycle(exprs)]
    #[tactic(auto, unfolding(grammar_parser_specs::specs::Exprs::assign_of, grammar_parser_specs::specs::Exprs::plain_of, grammar_parser_specs::specs::Exprs::assign_tail))]
    fn assign_in(
        &mut self,
        source: &Source,
        with_in: bool,
        depth: u32,
    ) -> Result<Ranked<H::E>, ParseFault>
        requires { IsSource source.now }
        ensures { (i : Interpretation) → Reads (RankedOf (H.shows_expr i))
            (pure.assign_of (env_at i depth) with_in) source.now i self.old.place self.new.place result }
    {
        let token = self.place.token(source);
        if self.place.is_single(source, token) {
            self.place.step(source);
            return self.alone(token);
        }
        if self.place.is_arrow_head(source) {
            return self.arrow(source, with_in, depth);
        }
        let target = self.cond(source, with_in, true, depth)?;
        let kind = self.place.kind(source);
        if !kinds::is_assign_mark(kind) || !target.rank.may_be_assigned() {
            return Ok(target);
        }
        self.place.step(source);
        let value = self.assign(source, with_in, depth)?;
        let node = self
            .handler
            .make_assign(kinds::mark_of(kind), target.node, value.node)?;
        Ok(Ranked {
            node,
            rank: Rank::Other,
            ending: value.ending,
        })
    }
}
