//! Primaries, members, calls and `new`.

ghost use Rattle.std.specs.Prelude.{◌≡◌, ◌<◌, true, false, Option, Some, None, ℕ};
ghost use Rattle.script_grammar.specs.Endings.{ending};
ghost use Rattle.script_grammar.specs.Interpretation.{Interpretation};
ghost use Rattle.script_grammar.specs.Lexeme.{lexeme_of};
ghost use Rattle.script_grammar.specs.Proper.{rank};
ghost use Rattle.script_grammar.specs.Shows.{ShowMaybe, ShowArgs, ShowTail, TailOf};
ghost use Rattle.script_grammar.specs.Tree as model;
ghost use Rattle.script_grammar.specs.TreeLists as part;
ghost use Rattle.script_grammar.specs.TreeLists.{maybe_args_of};
ghost use Rattle.grammar_parser_specs.specs.Parser.{loop};
ghost use Rattle.grammar_parser_specs.specs.Exprs as pure;
ghost use Rattle.parse_exprs.specs.Source.{IsSource, HasAtom};
ghost use Rattle.parse_exprs.specs.Env.{env_at};
ghost use Rattle.parse_exprs.specs.Answers.{Reads, Makes};
ghost use Rattle.parse_exprs.specs.Means.{Itself, TurnOf, ItemsOf, RankedOf, AtomOf, MaybeArgsOf, ShowRanked, ending_as};
ghost use Rattle.parse_exprs.specs.Ranks.{rank_of};

use crate::part::{Ending, Items, Rank, Ranked, Turned};
use crate::place::ParseFault;
use crate::source::Source;
use crate::state::State;
use crate::{kinds, token};
use script_grammar::handler::Handler;
use script_grammar::node::{NodeArgs, NodeTail};
use script_grammar::token::{Kind, Token, mark, word};

impl<H: Handler> State<H> {
    /// The node of a word that is a PrimaryExpression.
    fn word_atom(&mut self, index: u8, at: u32) -> Result<H::E, ParseFault>
        ensures place { self.new.place ≡ self.old.place }
        ensures makes { (i : Interpretation) → Makes result (λ e. H.shows_expr i e (pure.word_atom index at)) }
    {
        match index {
            word::THIS => Ok(self.handler.make_this(at)?),
            word::NULL => Ok(self.handler.make_null(at)?),
            word::TRUE => Ok(self.handler.make_true(at)?),
            _ => Ok(self.handler.make_false(at)?),
        }
    }

    /// The node of a token that is a PrimaryExpression.
    fn atom(&mut self, token: Token) -> Result<H::E, ParseFault>
        requires is { pure.is_atom token.kind ≡ true }
        requires small { HasAtom token }
        ensures place { self.new.place ≡ self.old.place }
        ensures makes { (i : Interpretation) (get set : ℕ)
            → Makes result (λ e. H.shows_expr i e (pure.atom_case token.kind (lexeme_of get set i.texts token))) }
    {
        match token.kind {
            Kind::Name => Ok(self.handler.make_name(token::ident(token))?),
            Kind::Number => Ok(self.handler.make_number(token.start, token.value)?),
            Kind::Str => Ok(
                self.handler
                    .make_str(token.start, token.end, token::atom(token))?,
            ),
            Kind::Word(index) => self.word_atom(index, token.start),
            Kind::TemplateWhole => {
                Ok(
                    self.handler
                        .make_template(token.start, token::atom(token), Vec::new(self.alloc))?,
                )
            }
            _ => unreachable!(),
        }
    }

    /// The node of a token that is an operand.
    pub(crate) fn alone(&mut self, token: Token) -> Result<Ranked<H::E>, ParseFault>
        requires is { pure.is_atom token.kind ≡ true }
        requires small { HasAtom token }
        ensures place { self.new.place ≡ self.old.place }
        ensures makes { (i : Interpretation) (get set : ℕ)
            → Makes result (λ e. ShowRanked (H.shows_expr i) e (pure.atom_case token.kind (lexeme_of get set i.texts token))) }
    {
        let node = self.atom(token)?;
        Ok(Ranked {
            node,
            rank: Rank::Head,
            ending: Ending::Operand,
        })
    }

    /// A PrimaryExpression; the flag says whether an arrow's parameters may stand here.
    #[cycle(exprs)]
    #[tactic(auto, unfolding(grammar_parser_specs::specs::Exprs::prim_of))]
    fn prim(&mut self, source: &Source, heads: bool, depth: u32) -> Result<H::E, ParseFault>
        requires { IsSource source.now }
        ensures { (i : Interpretation) → Reads (AtomOf (H.shows_expr i))
            (pure.prim_of (env_at i depth) heads) source.now i self.old.place self.new.place result }
    {
        let token = self.place.token(source);
        if kinds::is_atom(token.kind) {
            self.place.step(source);
            return self.atom(token);
        }
        if kinds::is_mark(token.kind, mark::OPEN_PAREN) {
            self.place.step(source);
            return self.paren(source, heads, token.start, depth);
        }
        if kinds::is_word(token.kind, word::FUNCTION) {
            self.place.step(source);
            return self.func(source, token.start, depth);
        }
        if kinds::is_mark(token.kind, mark::OPEN_BRACKET) {
            self.place.step(source);
            return self.array(source, token.start, depth);
        }
        if kinds::is_mark(token.kind, mark::OPEN_BRACE) {
            self.place.step(source);
            return self.object(source, token.start, depth);
        }
        if kinds::is_head(token.kind) {
            self.place.step(source);
            return self.template(source, token.start, token::atom(token), depth);
        }
        Err(ParseFault::Unexpected {
            token: self.place.at,
        })
    }

    #[tactic(auto, unfolding(grammar_parser_specs::specs::Exprs::dot_of))]
    fn dot(&mut self, source: &Source) -> Result<NodeTail<H::E>, ParseFault>
        requires { IsSource source.now }
        ensures { (i : Interpretation) → Reads (TailOf i (H.shows_expr i)) (pure.dot_of) source.now i self.old.place self.new.place result }
    {
        let token = self.place.token(source);
        if !kinds::is_any_word(token.kind) {
            return Err(ParseFault::Unexpected {
                token: self.place.at,
            });
        }
        self.place.step(source);
        Ok(NodeTail::Dot {
            atom: token::atom(token),
        })
    }

    #[cycle(exprs)]
    #[tactic(auto, unfolding(grammar_parser_specs::specs::Exprs::member_turn, grammar_parser_specs::specs::Exprs::index_of))]
    fn member(
        &mut self,
        source: &Source,
        depth: u32,
    ) -> Result<Turned<NodeTail<H::E>, ()>, ParseFault>
        requires { IsSource source.now }
        ensures { (i : Interpretation) → Reads (TurnOf (TailOf i (H.shows_expr i)) Itself)
            (pure.member_turn (env_at i depth)) source.now i self.old.place self.new.place result }
    {
        if self.place.is_mark(source, mark::DOT) {
            self.place.step(source);
            let tail = self.dot(source)?;
            return Ok(Turned::Next(tail));
        }
        if self.place.is_mark(source, mark::OPEN_BRACKET) {
            self.place.step(source);
            let value = self.expr(source, true, depth)?;
            self.place.expect(source, mark::CLOSE_BRACKET)?;
            return Ok(Turned::Next(NodeTail::Index(value.node)));
        }
        Ok(Turned::Last(()))
    }

    #[cycle(exprs)]
    #[tactic(auto, unfolding(grammar_parser_specs::specs::Exprs::tail_turn, grammar_parser_specs::specs::Exprs::member_turn, grammar_parser_specs::specs::Exprs::call_of))]
    fn tail(
        &mut self,
        source: &Source,
        depth: u32,
    ) -> Result<Turned<NodeTail<H::E>, ()>, ParseFault>
        requires { IsSource source.now }
        ensures { (i : Interpretation) → Reads (TurnOf (TailOf i (H.shows_expr i)) Itself)
            (pure.tail_turn (env_at i depth)) source.now i self.old.place self.new.place result }
    {
        if self.place.is_mark(source, mark::OPEN_PAREN) {
            self.place.step(source);
            let args = self.args(source, depth)?;
            return Ok(Turned::Next(NodeTail::Call(args)));
        }
        self.member(source, depth)
    }

    #[cycle(exprs)]
    fn members(
        &mut self,
        source: &Source,
        depth: u32,
    ) -> Result<Items<NodeTail<H::E>, ()>, ParseFault>
        requires { IsSource source.now }
        ensures { (i : Interpretation) → Reads (ItemsOf (ShowTail i (H.shows_expr i)) Itself)
            (loop (pure.member_turn (env_at i depth))) source.now i self.old.place self.new.place result }
    {
        let mut items = Vec::new(self.alloc);
        loop {
            match self.member(source, depth)? {
                Turned::Next(item) => items.push(item)?,
                Turned::Last(last) => return Ok(Items { items, last }),
            }
        }
    }

    #[cycle(exprs)]
    fn tails(
        &mut self,
        source: &Source,
        depth: u32,
    ) -> Result<Items<NodeTail<H::E>, ()>, ParseFault>
        requires { IsSource source.now }
        ensures { (i : Interpretation) → Reads (ItemsOf (ShowTail i (H.shows_expr i)) Itself)
            (loop (pure.tail_turn (env_at i depth))) source.now i self.old.place self.new.place result }
    {
        let mut items = Vec::new(self.alloc);
        loop {
            match self.tail(source, depth)? {
                Turned::Next(item) => items.push(item)?,
                Turned::Last(last) => return Ok(Items { items, last }),
            }
        }
    }

    #[cycle(exprs)]
    #[tactic(auto, unfolding(grammar_parser_specs::specs::Exprs::new_or_prim))]
    fn new_or_prim(
        &mut self,
        source: &Source,
        heads: bool,
        depth: u32,
    ) -> Result<Ranked<H::E>, ParseFault>
        requires { IsSource source.now }
        ensures { (i : Interpretation) → Reads (RankedOf (H.shows_expr i))
            (pure.new_or_prim (env_at i depth) heads) source.now i self.old.place self.new.place result }
    {
        if self.place.is_word(source, word::NEW) {
            return self.new(source, depth);
        }
        let node = self.prim(source, heads, depth)?;
        Ok(Ranked {
            node,
            rank: Rank::Head,
            ending: Ending::Operand,
        })
    }

    #[cycle(exprs)]
    #[tactic(auto, unfolding(grammar_parser_specs::specs::Exprs::new_args))]
    fn new_args(
        &mut self,
        source: &Source,
        depth: u32,
    ) -> Result<Option<NodeArgs<H::E>>, ParseFault>
        requires { IsSource source.now }
        ensures { (i : Interpretation) → Reads (MaybeArgsOf (H.shows_expr i))
            (pure.new_args (env_at i depth)) source.now i self.old.place self.new.place result }
    {
        if !self.place.is_mark(source, mark::OPEN_PAREN) {
            return Ok(None);
        }
        self.place.step(source);
        let args = self.args(source, depth)?;
        Ok(Some(args))
    }

    /// `new` of this, with these arguments or none.
    fn make_new(
        &mut self,
        at: u32,
        callee: H::E,
        args: Option<NodeArgs<H::E>>,
    ) -> Result<Ranked<H::E>, ParseFault>
        ensures place { self.new.place ≡ self.old.place }
        ensures makes { (i : Interpretation) (t : model.Expr) (o : Option part.Args) → H.shows_expr i callee t
            → ShowMaybe (ShowArgs (H.shows_expr i)) args o → Makes result (λ e. ShowRanked (H.shows_expr i) e (model.New at t (maybe_args_of o))) }
    {
        let rank = if args.is_some() {
            Rank::Head
        } else {
            Rank::Left
        };
        let node = self.handler.make_new(at, callee, args)?;
        Ok(Ranked {
            node,
            rank,
            ending: Ending::Operand,
        })
    }

    #[cycle(exprs)]
    #[tactic(auto, unfolding(grammar_parser_specs::specs::Exprs::new_of, grammar_parser_specs::specs::Exprs::new_from))]
    pub(crate) fn new_in(&mut self, source: &Source, depth: u32) -> Result<Ranked<H::E>, ParseFault>
        requires { IsSource source.now }
        ensures { (i : Interpretation) → Reads (RankedOf (H.shows_expr i))
            (pure.new_of (env_at i depth)) source.now i self.old.place self.new.place result }
    {
        let at = self.place.token(source).start;
        if !self.place.is_word(source, word::NEW) {
            return Err(ParseFault::Unexpected {
                token: self.place.at,
            });
        }
        self.place.step(source);
        let head = self.new_or_prim(source, false, depth)?;
        if !head.rank.may_begin_chain() {
            return self.make_new(at, head.node, None);
        }
        let members = self.members(source, depth)?;
        let args = self.new_args(source, depth)?;
        let callee = self.make_chain(head, members.items)?;
        self.make_new(at, callee.node, args)
    }

    /// A LeftHandSideExpression.
    #[cycle(exprs)]
    #[tactic(auto, unfolding(grammar_parser_specs::specs::Exprs::left_of))]
    pub fn left(
        &mut self,
        source: &Source,
        heads: bool,
        depth: u32,
    ) -> Result<Ranked<H::E>, ParseFault>
        requires { IsSource source.now }
        ensures { (i : Interpretation) → Reads (RankedOf (H.shows_expr i))
            (pure.left_of (env_at i depth) heads) source.now i self.old.place self.new.place result }
    {
        let head = self.new_or_prim(source, heads, depth)?;
        if !head.rank.may_begin_chain() {
            return Ok(head);
        }
        let tails = self.tails(source, depth)?;
        self.make_chain(head, tails.items)
    }
}
