//! Object literals.

ghost use Rattle.std.specs.Prelude.{◌≡◌, ◌<◌, true, false, None};
ghost use Rattle.script_grammar.specs.declared.token.FuncForm.TheVariants as form;
ghost use Rattle.script_grammar.specs.Interpretation.{Interpretation, named};
ghost use Rattle.script_grammar.specs.Lexeme.{lexeme_of};
ghost use Rattle.script_grammar.specs.Kinds as test;
ghost use Rattle.script_grammar.specs.Shows.{ShowKey, NodeOf, KeyOf};
ghost use Rattle.script_grammar.specs.Tree as model;
ghost use Rattle.grammar_parser_specs.specs.Parser.{loop, led, bind, ret};
ghost use Rattle.grammar_parser_specs.specs.Exprs as pure;
ghost use Rattle.grammar_parser_specs.specs.Exprs.{AnAssign};
ghost use Rattle.parse_exprs.specs.Source.{IsSource, HasAtom};
ghost use Rattle.parse_exprs.specs.Env.{env_at};
ghost use Rattle.parse_exprs.specs.Answers.{Reads};
ghost use Rattle.parse_exprs.specs.Means.{Itself, TurnOf, ItemsOf, AtomOf};

use crate::part::{Items, Turned};
use crate::place::ParseFault;
use crate::source::Source;
use crate::state::State;
use crate::{kinds, token};
use script_grammar::handler::Handler;
use script_grammar::node::NodeKey;
use script_grammar::token::{FuncForm, Token, mark};
use script_grammar::tree::Ident;

impl<H: Handler> State<H> {
    #[cycle(exprs)]
    #[tactic(auto, unfolding(grammar_parser_specs::specs::Exprs::key_of, grammar_parser_specs::specs::Exprs::computed_of))]
    fn key(&mut self, source: &Source, depth: u32) -> Result<NodeKey<H::E>, ParseFault>
        requires { IsSource source.now }
        ensures { (i : Interpretation) → Reads (KeyOf i (H.shows_expr i))
            (pure.key_of (env_at i depth)) source.now i self.old.place self.new.place result }
    {
        let token = self.place.token(source);
        if kinds::is_any_word(token.kind) {
            self.place.step(source);
            return Ok(NodeKey::Word(token::ident(token)));
        }
        if kinds::is_str(token.kind) {
            self.place.step(source);
            return Ok(NodeKey::Str(token::ident(token)));
        }
        if kinds::is_number(token.kind) {
            self.place.step(source);
            return Ok(NodeKey::Number {
                at: token.start,
                value: token.value,
            });
        }
        if kinds::is_mark(token.kind, mark::OPEN_BRACKET) {
            self.place.step(source);
            let value = self.assign(source, true, depth)?;
            self.place.expect(source, mark::CLOSE_BRACKET)?;
            return Ok(NodeKey::Computed(value.node));
        }
        Err(ParseFault::Unexpected {
            token: self.place.at,
        })
    }

    /// After a key: a value or a method.
    #[cycle(exprs)]
    #[tactic(auto, unfolding(grammar_parser_specs::specs::Exprs::keyed_of))]
    fn keyed(&mut self, source: &Source, key: NodeKey<H::E>, depth: u32) -> Result<H::P, ParseFault>
        requires { IsSource source.now }
        ensures { (i : Interpretation) → (k : model.Key) → ShowKey i (H.shows_expr i) key k
            → Reads (NodeOf (H.shows_prop i)) (pure.keyed_of (env_at i depth) k) source.now i self.old.place self.new.place result }
    {
        if self.place.is_mark(source, mark::COLON) {
            self.place.step(source);
            let value = self.assign(source, true, depth)?;
            let pair = self.handler.make_pair(key, value.node)?;
            return Ok(pair);
        }
        if self.place.is_mark(source, mark::OPEN_PAREN) {
            let func = self.function(source, FuncForm::Method, None, depth)?;
            let method = self.handler.make_method(key, func)?;
            return Ok(method);
        }
        Err(ParseFault::Unexpected {
            token: self.place.at,
        })
    }

    /// After a name that is a key: a value, a method, or nothing.
    #[cycle(exprs)]
    #[tactic(auto, unfolding(grammar_parser_specs::specs::Exprs::short_of))]
    fn short(&mut self, source: &Source, name: Ident, depth: u32) -> Result<H::P, ParseFault>
        requires { IsSource source.now }
        ensures { (i : Interpretation) → Reads (NodeOf (H.shows_prop i))
            (pure.short_of (env_at i depth) (named i name)) source.now i self.old.place self.new.place result }
    {
        if self.place.is_mark(source, mark::COLON) || self.place.is_mark(source, mark::OPEN_PAREN) {
            return self.keyed(source, NodeKey::Word(name), depth);
        }
        let prop = self.handler.make_short(name)?;
        Ok(prop)
    }

    /// After the word `get`: a getter, or a property that has the word as its name.
    #[cycle(exprs)]
    #[tactic(auto, unfolding(grammar_parser_specs::specs::Exprs::accessor_of, grammar_parser_specs::specs::Exprs::getter_of))]
    fn getter(&mut self, source: &Source, name: Ident, depth: u32) -> Result<H::P, ParseFault>
        requires { IsSource source.now }
        ensures { (i : Interpretation) → Reads (NodeOf (H.shows_prop i))
            (pure.accessor_of (env_at i depth) (named i name) (pure.getter_of (env_at i depth))) source.now i self.old.place self.new.place result }
    {
        if kinds::ends_key(self.place.kind(source)) {
            return self.short(source, name, depth);
        }
        let key = self.key(source, depth)?;
        let func = self.function(source, FuncForm::Getter, None, depth)?;
        let prop = self.handler.make_get(key, func)?;
        Ok(prop)
    }

    /// After the word `set`: a setter, or a property that has the word as its name.
    #[cycle(exprs)]
    #[tactic(auto, unfolding(grammar_parser_specs::specs::Exprs::accessor_of, grammar_parser_specs::specs::Exprs::setter_of))]
    fn setter(&mut self, source: &Source, name: Ident, depth: u32) -> Result<H::P, ParseFault>
        requires { IsSource source.now }
        ensures { (i : Interpretation) → Reads (NodeOf (H.shows_prop i))
            (pure.accessor_of (env_at i depth) (named i name) (pure.setter_of (env_at i depth))) source.now i self.old.place self.new.place result }
    {
        if kinds::ends_key(self.place.kind(source)) {
            return self.short(source, name, depth);
        }
        let key = self.key(source, depth)?;
        let func = self.function(source, FuncForm::Setter, None, depth)?;
        let prop = self.handler.make_set(key, func)?;
        Ok(prop)
    }

    #[cycle(exprs)]
    #[tactic(auto, unfolding(grammar_parser_specs::specs::Exprs::prop_of))]
    fn prop(&mut self, source: &Source, depth: u32) -> Result<H::P, ParseFault>
        requires { IsSource source.now }
        ensures { (i : Interpretation) → Reads (NodeOf (H.shows_prop i))
            (pure.prop_of (env_at i depth)) source.now i self.old.place self.new.place result }
    {
        let token = self.place.token(source);
        if !kinds::is_name(token.kind) {
            let key = self.key(source, depth)?;
            return self.keyed(source, key, depth);
        }
        self.place.step(source);
        let name = token::ident(token);
        if source.is_get(token) {
            return self.getter(source, name, depth);
        }
        if source.is_set(token) {
            return self.setter(source, name, depth);
        }
        self.short(source, name, depth)
    }

    #[cycle(exprs)]
    #[tactic(auto, unfolding(grammar_parser_specs::specs::Exprs::props_turn, grammar_parser_specs::specs::Exprs::props_next))]
    fn props_turn(&mut self, source: &Source, depth: u32) -> Result<Turned<H::P, bool>, ParseFault>
        requires { IsSource source.now }
        ensures { (i : Interpretation) → Reads (TurnOf (NodeOf (H.shows_prop i)) Itself)
            (pure.props_turn (env_at i depth)) source.now i self.old.place self.new.place result }
    {
        if !self.place.is_mark(source, mark::COMMA) {
            return Ok(Turned::Last(false));
        }
        self.place.step(source);
        if self.place.is_mark(source, mark::CLOSE_BRACE) {
            return Ok(Turned::Last(true));
        }
        let prop = self.prop(source, depth)?;
        Ok(Turned::Next(prop))
    }

    #[cycle(exprs)]
    fn props_led(
        &mut self,
        source: &Source,
        first: H::P,
        depth: u32,
    ) -> Result<Items<H::P, bool>, ParseFault>
        requires { IsSource source.now }
        ensures { (i : Interpretation) → (t : model.Prop) → H.shows_prop i first t
            → Reads (ItemsOf (H.shows_prop i) Itself) (led (pure.props_turn (env_at i depth)) t) source.now i self.old.place self.new.place result }
    {
        let mut items = Vec::new(self.alloc);
        items.push(first)?;
        loop {
            match self.props_turn(source, depth)? {
                Turned::Next(item) => items.push(item)?,
                Turned::Last(last) => return Ok(Items { items, last }),
            }
        }
    }

    #[cycle(exprs)]
    #[tactic(auto, unfolding(grammar_parser_specs::specs::Exprs::more_props))]
    fn more_props(&mut self, source: &Source, depth: u32) -> Result<Items<H::P, bool>, ParseFault>
        requires { IsSource source.now }
        ensures { (i : Interpretation) → Reads (ItemsOf (H.shows_prop i) Itself)
            (pure.more_props (env_at i depth)) source.now i self.old.place self.new.place result }
    {
        if self.place.is_mark(source, mark::CLOSE_BRACE) {
            return Ok(Items {
                items: Vec::new(self.alloc),
                last: false,
            });
        }
        let first = self.prop(source, depth)?;
        self.props_led(source, first, depth)
    }

    /// An object literal, after the brace that opens it.
    #[cycle(exprs)]
    #[tactic(auto, unfolding(grammar_parser_specs::specs::Exprs::object_of))]
    pub(crate) fn object(
        &mut self,
        source: &Source,
        at: u32,
        depth: u32,
    ) -> Result<H::E, ParseFault>
        requires { IsSource source.now }
        ensures { (i : Interpretation) → Reads (AtomOf (H.shows_expr i))
            (pure.object_of (env_at i depth) at) source.now i self.old.place self.new.place result }
    {
        let props = self.more_props(source, depth)?;
        self.place.expect(source, mark::CLOSE_BRACE)?;
        let node = self.handler.make_object(at, props.items, props.last)?;
        Ok(node)
    }
}
