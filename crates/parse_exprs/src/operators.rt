//! Operators.

ghost use Rattle.std.specs.Prelude.{◌≡◌, ◌≤◌, ◌<◌, true, false, Option, Some, None};
ghost use Rattle.script_grammar.specs.Endings.{ending, operands_ending};
ghost use Rattle.script_grammar.specs.Interpretation.{Interpretation};
ghost use Rattle.script_grammar.specs.Proper.{rank};
ghost use Rattle.script_grammar.specs.Shows.{ShowOperand};
ghost use Rattle.script_grammar.specs.Tree as model;
ghost use Rattle.script_grammar.specs.TreeLists.{operands_of};
ghost use Rattle.grammar_parser_specs.specs.Parser.{loop, bind, ret};
ghost use Rattle.grammar_parser_specs.specs.Exprs as pure;
ghost use Rattle.parse_exprs.specs.Source.{IsSource};
ghost use Rattle.parse_exprs.specs.Env.{env_at};
ghost use Rattle.parse_exprs.specs.Answers.{Reads};
ghost use Rattle.parse_exprs.specs.Levels.{up_to};
ghost use Rattle.parse_exprs.specs.Means.{Itself, TurnOf, RankedOf, EndedOf, MaybeEndedOf, EndsOf, OperandsOf, ending_as};
ghost use Rattle.parse_exprs.specs.Ranks.{rank_of};

use crate::part::{Ended, Ending, Items, Rank, Ranked, Turned};
use crate::place::ParseFault;
use crate::source::Source;
use crate::state::State;
use crate::{kinds, precedence};
use script_grammar::handler::Handler;
use script_grammar::node::NodeOperand;
use script_grammar::token::mark;

impl<H: Handler> State<H> {
    #[tactic(auto, unfolding(grammar_parser_specs::specs::Exprs::postfix_of))]
    fn postfix(
        &mut self,
        source: &Source,
        at: u32,
        first: Ranked<H::E>,
    ) -> Result<Ranked<H::E>, ParseFault>
        requires { IsSource source.now }
        ensures { (i : Interpretation) → (t : model.Expr) → H.shows_expr i first.node t → first.rank ≡ rank_of t
            → ending_as first.ending ≡ ending t → Reads (RankedOf (H.shows_expr i))
            (pure.postfix_of at t) source.now i self.old.place self.new.place result }
    {
        let token = self.place.token(source);
        if !kinds::is_update(token.kind) || token.after_line {
            return Ok(first);
        }
        self.place.step(source);
        let node = self
            .handler
            .make_update(at, kinds::mark_of(token.kind), false, first.node)?;
        Ok(Ranked {
            node,
            rank: Rank::Update,
            ending: Ending::Postfix,
        })
    }

    /// A UnaryExpression. Most are one token, which the token after it shows.
    #[cycle(exprs)]
    #[tactic(auto, unfolding(grammar_parser_specs::specs::Exprs::unary_of, grammar_parser_specs::specs::Exprs::update_of))]
    fn unary(
        &mut self,
        source: &Source,
        heads: bool,
        depth: u32,
    ) -> Result<Ranked<H::E>, ParseFault>
        requires { IsSource source.now }
        ensures { (i : Interpretation) → Reads (RankedOf (H.shows_expr i))
            (pure.unary_of (env_at i depth) heads) source.now i self.old.place self.new.place result }
    {
        let token = self.place.token(source);
        if self.place.is_alone(source, token) {
            self.place.step(source);
            return self.alone(token);
        }
        let kind = self.place.kind(source);
        if kinds::is_prefix(kind) || kinds::is_update(kind) {
            return self.prefix(source, depth);
        }
        let at = self.place.token(source).start;
        let first = self.left(source, heads, depth)?;
        self.postfix(source, at, first)
    }

    #[cycle(exprs)]
    #[tactic(auto, unfolding(grammar_parser_specs::specs::Exprs::prefix_of))]
    pub(crate) fn prefix_in(
        &mut self,
        source: &Source,
        depth: u32,
    ) -> Result<Ranked<H::E>, ParseFault>
        requires { IsSource source.now }
        ensures { (i : Interpretation) → Reads (RankedOf (H.shows_expr i))
            (pure.prefix_of (env_at i depth)) source.now i self.old.place self.new.place result }
    {
        let token = self.place.token(source);
        if kinds::is_prefix(token.kind) {
            self.place.step(source);
            let of = self.unary(source, false, depth)?;
            let is_word = kinds::is_word_kind(token.kind);
            let node = self
                .handler
                .make_unary(token.start, kinds::mark_of(token.kind), of.node, is_word)?;
            return Ok(Ranked {
                node,
                rank: Rank::Other,
                ending: of.ending,
            });
        }
        if kinds::is_update(token.kind) {
            self.place.step(source);
            let of = self.unary(source, false, depth)?;
            let node = self
                .handler
                .make_update(token.start, kinds::mark_of(token.kind), true, of.node)?;
            return Ok(Ranked {
                node,
                rank: Rank::Update,
                ending: of.ending,
            });
        }
        Err(ParseFault::Unexpected {
            token: self.place.at,
        })
    }

    #[cycle(exprs)]
    #[tactic(auto, unfolding(grammar_parser_specs::specs::Exprs::power_turn))]
    fn power_turn(
        &mut self,
        source: &Source,
        depth: u32,
    ) -> Result<Turned<Ended<NodeOperand<H::E>>, Option<Ended<NodeOperand<H::E>>>>, ParseFault>
        requires { IsSource source.now }
        ensures { (i : Interpretation) → Reads (TurnOf (EndedOf (H.shows_expr i)) (MaybeEndedOf (H.shows_expr i)))
            (pure.power_turn (env_at i depth)) source.now i self.old.place self.new.place result }
    {
        let kind = self.place.kind(source);
        if !kinds::is_mark(kind, mark::POWER) {
            return Ok(Turned::Last(None));
        }
        self.place.step(source);
        let of = self.unary(source, false, depth)?;
        let part = NodeOperand {
            op: kinds::mark_of(kind),
            is_word: kinds::is_word_kind(kind),
            value: of.node,
        };
        let operand = Ended {
            part,
            ending: of.ending,
        };
        if of.rank.may_be_raised() {
            return Ok(Turned::Next(operand));
        }
        Ok(Turned::Last(Some(operand)))
    }

    /// The operands of a chain of powers, after what ends so.
    #[cycle(exprs)]
    fn powers(
        &mut self,
        source: &Source,
        ending: Ending,
        depth: u32,
    ) -> Result<Items<NodeOperand<H::E>, Ending>, ParseFault>
        requires { IsSource source.now }
        ensures { (i : Interpretation) → Reads (OperandsOf (H.shows_expr i) (ending_as ending))
            (bind (loop (pure.power_turn (env_at i depth)))
            (λ m. ret (pure.with_last m.items m.last))) source.now i self.old.place self.new.place result }
    {
        let mut items = Vec::new(self.alloc);
        let mut last = ending;
        loop {
            match self.power_turn(source, depth)? {
                Turned::Next(item) => {
                    last = item.ending;
                    items.push(item.part)?;
                }
                Turned::Last(None) => return Ok(Items { items, last }),
                Turned::Last(Some(item)) => {
                    items.push(item.part)?;
                    return Ok(Items {
                        items,
                        last: item.ending,
                    });
                }
            }
        }
    }

    #[cycle(exprs)]
    #[tactic(auto, unfolding(grammar_parser_specs::specs::Exprs::power_of))]
    fn power(
        &mut self,
        source: &Source,
        heads: bool,
        depth: u32,
    ) -> Result<Ranked<H::E>, ParseFault>
        requires { IsSource source.now }
        ensures { (i : Interpretation) → Reads (RankedOf (H.shows_expr i))
            (pure.power_of (env_at i depth) heads) source.now i self.old.place self.new.place result }
    {
        let first = self.unary(source, heads, depth)?;
        if !self.place.is_mark(source, mark::POWER) {
            return Ok(first);
        }
        if !first.rank.may_be_raised() {
            return Ok(first);
        }
        let rest = self.powers(source, first.ending, depth)?;
        self.make_binary(first, rest)
    }

    #[cycle(exprs)]
    #[tactic(auto, unfolding(grammar_parser_specs::specs::Exprs::op_turn))]
    fn op_turn(
        &mut self,
        source: &Source,
        with_in: bool,
        of: u32,
        lower: u32,
        depth: u32,
    ) -> Result<Turned<Ended<NodeOperand<H::E>>, ()>, ParseFault>
        requires source { IsSource source.now }
        requires of { of < 12 }
        requires lower { lower ≤ 10 }
        ensures { (i : Interpretation) → Reads (TurnOf (EndedOf (H.shows_expr i)) Itself)
            (pure.op_turn with_in of (pure.level_of (env_at i depth) with_in lower false)) source.now i self.old.place self.new.place result }
    {
        let kind = self.place.kind(source);
        if !precedence::is_op(kind, with_in, of) {
            return Ok(Turned::Last(()));
        }
        self.place.step(source);
        let value = self.level(source, with_in, lower, false, depth)?;
        let part = NodeOperand {
            op: kinds::mark_of(kind),
            is_word: kinds::is_word_kind(kind),
            value: value.node,
        };
        Ok(Turned::Next(Ended {
            part,
            ending: value.ending,
        }))
    }

    #[cycle(exprs)]
    fn operands(
        &mut self,
        source: &Source,
        with_in: bool,
        of: u32,
        lower: u32,
        ending: Ending,
        depth: u32,
    ) -> Result<Items<NodeOperand<H::E>, Ending>, ParseFault>
        requires source { IsSource source.now }
        requires of { of < 12 }
        requires lower { lower ≤ 10 }
        ensures { (i : Interpretation) → Reads (EndsOf (ShowOperand (H.shows_expr i))
            (λ os. operands_ending (ending_as ending) (operands_of os))) (loop
            (pure.op_turn with_in of (pure.level_of (env_at i depth) with_in lower false))) source.now i self.old.place self.new.place result }
    {
        let mut items = Vec::new(self.alloc);
        let mut last = ending;
        loop {
            match self.op_turn(source, with_in, of, lower, depth)? {
                Turned::Next(item) => {
                    last = item.ending;
                    items.push(item.part)?;
                }
                Turned::Last(()) => return Ok(Items { items, last }),
            }
        }
    }

    /// The further operands of a level, after the first.
    #[cycle(exprs)]
    fn operands_from(
        &mut self,
        source: &Source,
        with_in: bool,
        of: u32,
        lower: u32,
        first: Ranked<H::E>,
        depth: u32,
    ) -> Result<Ranked<H::E>, ParseFault>
        requires source { IsSource source.now }
        requires of { of < 12 }
        requires lower { lower ≤ 10 }
        ensures { (i : Interpretation) → (t : model.Expr) → H.shows_expr i first.node t → first.rank ≡ rank_of t
            → ending_as first.ending ≡ ending t → Reads (RankedOf (H.shows_expr i))
            (pure.operands_from with_in of (pure.level_of (env_at i depth) with_in lower false) t) source.now i self.old.place self.new.place result }
    {
        let rest = self.operands(source, with_in, of, lower, first.ending, depth)?;
        self.make_binary(first, rest)
    }

    /// An expression up to a level of binary operators; up to that of `??`, a ShortCircuitExpression. The next token says
    /// which level reads on, and a level that would read nothing is not called.
    #[cycle(exprs)]
    fn level(
        &mut self,
        source: &Source,
        with_in: bool,
        of: u32,
        heads: bool,
        depth: u32,
    ) -> Result<Ranked<H::E>, ParseFault>
        requires source { IsSource source.now }
        requires of { of ≤ 11 }
        ensures { (i : Interpretation) → Reads (RankedOf (H.shows_expr i))
            (up_to (env_at i depth) with_in of heads) source.now i self.old.place self.new.place result }
    {
        let mut left = self.power(source, heads, depth)?;
        let mut read = precedence::EXPONENTIATION;
        loop {
            let next = precedence::level_with(self.place.kind(source), with_in);
            if !precedence::reads_on(read, next, of) {
                return Ok(left);
            }
            let lower = precedence::operand_level(next);
            left = self.operands_from(source, with_in, next, lower, left, depth)?;
            read = next;
        }
    }

    #[cycle(exprs)]
    #[tactic(auto, unfolding(grammar_parser_specs::specs::Exprs::cond_tail, grammar_parser_specs::specs::Exprs::branches_of))]
    fn cond_tail(
        &mut self,
        source: &Source,
        with_in: bool,
        first: Ranked<H::E>,
        depth: u32,
    ) -> Result<Ranked<H::E>, ParseFault>
        requires { IsSource source.now }
        ensures { (i : Interpretation) → (t : model.Expr) → H.shows_expr i first.node t → first.rank ≡ rank_of t
            → ending_as first.ending ≡ ending t → Reads (RankedOf (H.shows_expr i))
            (pure.cond_tail (env_at i depth) with_in t) source.now i self.old.place self.new.place result }
    {
        if !self.place.is_mark(source, mark::QUESTION) {
            return Ok(first);
        }
        self.place.step(source);
        let yes = self.assign(source, true, depth)?;
        self.place.expect(source, mark::COLON)?;
        let no = self.assign(source, with_in, depth)?;
        let node = self.handler.make_cond(first.node, yes.node, no.node)?;
        Ok(Ranked {
            node,
            rank: Rank::Other,
            ending: no.ending,
        })
    }

    /// A ConditionalExpression.
    #[cycle(exprs)]
    #[tactic(auto, unfolding(grammar_parser_specs::specs::Exprs::cond_of))]
    pub(crate) fn cond(
        &mut self,
        source: &Source,
        with_in: bool,
        heads: bool,
        depth: u32,
    ) -> Result<Ranked<H::E>, ParseFault>
        requires { IsSource source.now }
        ensures { (i : Interpretation) → Reads (RankedOf (H.shows_expr i))
            (pure.cond_of (env_at i depth) with_in heads) source.now i self.old.place self.new.place result }
    {
        let first = self.level(source, with_in, precedence::COALESCE, heads, depth)?;
        if !self.place.is_mark(source, mark::QUESTION) {
            return Ok(first);
        }
        self.cond_tail(source, with_in, first, depth)
    }
}
