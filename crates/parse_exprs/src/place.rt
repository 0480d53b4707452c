//! Where a parser stands.

ghost use Rattle.std.specs.Prelude.{ℕ, List, if◌then◌else◌, ◌≡◌, ◌<◌, ◌≤◌, ◌^◌, length, true, false, Some};
ghost use Rattle.script_grammar.specs.Matching.{partner_of};
ghost use Rattle.script_grammar.specs.Interpretation.{Interpretation, named};
ghost use Rattle.script_grammar.specs.Lexeme.{lexeme_of};
ghost use Rattle.script_grammar.specs.Kinds as test;
ghost use Rattle.script_grammar.specs.declared.token.mark.TheConstants as marks;
ghost use Rattle.grammar_parser_specs.specs.Parser.{head_of, rest_of, Turn};
ghost use Rattle.grammar_parser_specs.specs.Exprs as pure;
ghost use Rattle.parse_exprs.specs.declared.place.ParseFault.TheVariants.{NoMemory as OutOfMemory, TooDeep as TooDeepAt, Unexpected as UnexpectedAt};
ghost use Rattle.parse_exprs.specs.Source.{IsSource, HasAtom, front};
ghost use Rattle.parse_exprs.specs.Alone.{ends_assign, extends_operand};
ghost use Rattle.parse_exprs.specs.Answers.{Reads, Refuses, records};
ghost use Rattle.parse_exprs.specs.Ends.{end_before, end_of};
ghost use Rattle.parse_exprs.specs.Env.{env_at};
ghost use Rattle.script_grammar.specs.Tree.{Expr};
ghost use Rattle.parse_exprs.specs.Means.{Itself, NameOf, MaybeNameOf, PassedOf};

use crate::source::Source;
use crate::{heads, kinds, token};
use script_grammar::compact::CompactToken;
use script_grammar::token::{FuncForm, Kind, Token, mark};
use script_grammar::tree::Ident;
use std::alloc::{AllocError, AllocFailed};

/// How deep a token may be.
pub const DEPTH_LIMIT: u32 = 400;

/// Why nothing was read.
#[derive(Clone, Copy, Debug, PartialEq, Eq)]
pub enum ParseFault {
    /// The tokens before this one begin a script, and those up to it begin none.
    Unexpected { token: u32 },
    /// This token is too deep.
    TooDeep { token: u32 },
    /// Memory ran out.
    NoMemory,
}

impl From<AllocError> for ParseFault {
    ghost from_gives = { λ _ e. e ≡ OutOfMemory };

    fn from(_fault: AllocError) -> ParseFault {
        ParseFault::NoMemory
    }
}

impl<T: Drop> From<AllocFailed<T>> for ParseFault {
    ghost from_gives = { λ _ e. e ≡ OutOfMemory };

    fn from(_fault: AllocFailed<T>) -> ParseFault {
        ParseFault::NoMemory
    }
}

/// A braced body that was passed over: its first token, the form of its function, how deep it is,
/// and whether no parameter has an initializer or a rest mark.
#[derive(Clone, Copy, Debug)]
pub struct Pending {
    pub token: u32,
    pub form: FuncForm,
    pub depth: u32,
    pub simple: bool,
}

/// The place of the present token, and the bodies that were passed over.
#[derive(Drop)]
pub struct Cursor {
    pub at: u32,
    pub pending: Vec<Pending>,
}

impl Cursor {
    /// The present token; after the last one, a token that ends all.
    pub fn token(&self, source: &Source) -> Token
        requires { IsSource source.now }
        ensures lexeme { (i : Interpretation) → lexeme_of source.now.get source.now.set i.texts result ≡ head_of (front source.now i self.now.at) }
        ensures atom { HasAtom result }
    {
        source.token(self.at as usize)
    }

    /// The kind of the present token.
    pub fn kind(&self, source: &Source) -> Kind
        requires { IsSource source.now }
        ensures { (i : Interpretation) → result ≡ (head_of (front source.now i self.now.at)).kind }
    {
        self.token(source).kind
    }

    /// Whether the present token is this mark.
    pub fn is_mark(&self, source: &Source, mark: u8) -> bool
        requires { IsSource source.now }
        ensures { (i : Interpretation) → result ≡ test.is_mark mark (head_of (front source.now i self.now.at)).kind }
    {
        kinds::is_mark(self.kind(source), mark)
    }

    /// Whether the present token is this word.
    pub fn is_word(&self, source: &Source, word: u8) -> bool
        requires { IsSource source.now }
        ensures { (i : Interpretation) → result ≡ test.is_word word (head_of (front source.now i self.now.at)).kind }
    {
        kinds::is_word(self.kind(source), word)
    }

    /// Whether the present token is a name.
    pub fn is_name(&self, source: &Source) -> bool
        requires { IsSource source.now }
        ensures { (i : Interpretation) → result ≡ test.is_name (head_of (front source.now i self.now.at)).kind }
    {
        kinds::is_name(self.kind(source))
    }

    /// Whether the present token is an arrow's mark on the line of what is before it.
    pub fn is_arrow(&self, source: &Source) -> bool
        requires { IsSource source.now }
        ensures { (i : Interpretation) → result ≡ pure.is_arrow (head_of (front source.now i self.now.at)) }
    {
        Self::arrow_at(source, self.at as usize)
    }

    /// Goes past the present token.
    #[tactic(auto, unfolding(crate::specs::Answers::records))]
    pub fn step(&mut self, source: &Source)
        requires { IsSource source.now }
        ensures at { (i : Interpretation) → front source.now i self.new.at ≡ rest_of (front source.now i self.old.at) }
        ensures records { (i : Interpretation) → records source.now i self.new ≡ records source.now i self.old }
    {
        if (self.at as usize) < source.tokens.len() {
            self.at += 1;
        }
    }

    /// Goes past this mark, which must stand here.
    #[tactic(auto, unfolding(grammar_parser_specs::specs::Exprs::expect))]
    pub fn expect(&mut self, source: &Source, mark: u8) -> Result<(), ParseFault>
        requires { IsSource source.now }
        ensures { (i : Interpretation) → Reads Itself (pure.expect mark) source.now i self.old self.new result }
    {
        if !self.is_mark(source, mark) {
            return Err(ParseFault::Unexpected { token: self.at });
        }
        self.step(source);
        Ok(())
    }

    /// Reads a name.
    #[tactic(auto, unfolding(grammar_parser_specs::specs::Exprs::name_of))]
    pub fn name(&mut self, source: &Source) -> Result<Ident, ParseFault>
        requires { IsSource source.now }
        ensures { (i : Interpretation) → Reads (NameOf i) pure.name_of source.now i self.old self.new result }
    {
        let token = self.token(source);
        if !kinds::is_name(token.kind) {
            return Err(ParseFault::Unexpected { token: self.at });
        }
        self.step(source);
        Ok(token::ident(token))
    }

    /// Reads a name, where one stands here.
    #[tactic(auto, unfolding(grammar_parser_specs::specs::Exprs::maybe_name))]
    pub fn maybe_name(&mut self, source: &Source) -> Result<Option<Ident>, ParseFault>
        requires { IsSource source.now }
        ensures { (i : Interpretation) → Reads (MaybeNameOf i) pure.maybe_name source.now i self.old self.new result }
    {
        let token = self.token(source);
        if !kinds::is_name(token.kind) {
            return Ok(None);
        }
        self.step(source);
        Ok(Some(token::ident(token)))
    }

    /// Goes past an arrow's mark, which must stand here on the line of what is before it.
    #[tactic(auto, unfolding(grammar_parser_specs::specs::Exprs::arrow_mark))]
    pub fn arrow_mark(&mut self, source: &Source) -> Result<(), ParseFault>
        requires { IsSource source.now }
        ensures { (i : Interpretation) → Reads Itself pure.arrow_mark source.now i self.old self.new result }
    {
        if !self.is_arrow(source) {
            return Err(ParseFault::Unexpected { token: self.at });
        }
        self.step(source);
        Ok(())
    }

    /// Why nothing is read where there is no room for depth, by whether something may begin here.
    pub fn no_room(&self, begins: bool) -> ParseFault
        ensures { result ≡ (if begins then TooDeepAt self.now.at else UnexpectedAt self.now.at) }
    {
        if begins {
            ParseFault::TooDeep { token: self.at }
        } else {
            ParseFault::Unexpected { token: self.at }
        }
    }

    /// Whether a name stands here, and `,`, `)` or `=` after it.
    pub fn is_param_form(&self, source: &Source) -> bool
        requires { IsSource source.now }
        ensures { (i : Interpretation) → result ≡ pure.is_param_form (head_of (front source.now i self.now.at))
            (head_of (rest_of (front source.now i self.now.at))) }
    {
        heads::is_param_form(source, self.at)
    }

    /// Whether this token, which stands here, is an operand, and the token after it does not extend it.
    pub fn is_alone(&self, source: &Source, token: Token) -> bool
        requires { IsSource source.now }
        ensures atom { result ≡ true → pure.is_atom token.kind ≡ true }
        ensures end { (i : Interpretation) → result ≡ true → extends_operand (head_of (rest_of (front source.now i self.now.at))).kind ≡ false }
    {
        if !kinds::is_atom(token.kind) {
            return false;
        }
        let behind = heads::kind_behind(source, self.at);
        !kinds::extends_operand(behind)
    }

    /// Whether this token, which stands here, is an AssignmentExpression, since the token after it ends one.
    pub fn is_single(&self, source: &Source, token: Token) -> bool
        requires { IsSource source.now }
        ensures atom { result ≡ true → pure.is_atom token.kind ≡ true }
        ensures end { (i : Interpretation) → result ≡ true → ends_assign (head_of (rest_of (front source.now i self.now.at))).kind ≡ true }
    {
        if !kinds::is_atom(token.kind) {
            return false;
        }
        let behind = heads::kind_behind(source, self.at);
        kinds::ends_assign(behind)
    }

    /// The fault at what is not a closing parenthesis and an arrow's mark, where only these can stand but no arrow is.
    #[tactic(auto, unfolding(grammar_parser_specs::specs::Exprs::expect))]
    pub fn doomed(&mut self, source: &Source) -> ParseFault
        requires { IsSource source.now }
        ensures { (i : Interpretation) → Refuses {A = Turn Expr (List Expr)} source.now i self.new result (records source.now i self.old)
            (pure.doomed (front source.now i self.old.at)) }
    {
        if self.is_mark(source, mark::CLOSE_PAREN) {
            self.step(source);
        }
        ParseFault::Unexpected { token: self.at }
    }

    /// Whether an arrow begins here: a name and the mark, or a parenthesis with an arrow's parameters.
    pub fn is_arrow_head(&self, source: &Source) -> bool
        requires { IsSource source.now }
        ensures { (i : Interpretation) → result ≡ pure.is_arrow_head (front source.now i self.now.at) }
    {
        if self.is_name(source) {
            return Self::arrow_at(source, self.at as usize + 1);
        }
        if !self.is_mark(source, mark::OPEN_PAREN) {
            return false;
        }
        match source.brackets.partner(self.at) {
            Some(close) => self.opens_arrow(source, close),
            None => false,
        }
    }

    /// Whether an arrow's parameters stand between the parenthesis here and its partner, and the mark after.
    fn opens_arrow(&self, source: &Source, close: u32) -> bool
        requires source { IsSource source.now }
        requires opens { (i : Interpretation) → test.is_mark marks.OPEN_PAREN (head_of (front source.now i self.now.at)).kind ≡ true }
        requires partner { partner_of source.now.brackets.now self.now.at ≡ Some close }
        requires before { self.now.at < close }
        ensures { (i : Interpretation) → result ≡ pure.arrow_opens (rest_of (front source.now i self.now.at)) }
    {
        if !Self::arrow_at(source, close as usize + 1) {
            return false;
        }
        heads::only_params(source, self.at, close)
    }

    /// Whether an arrow's mark stands at this token, on the line of what is before it.
    fn arrow_at(source: &Source, at: usize) -> bool
        requires { IsSource source.now }
        ensures { (i : Interpretation) → result ≡ pure.is_arrow (head_of (front source.now i at)) }
    {
        let token = source.token(at);
        kinds::is_mark(token.kind, mark::ARROW) && !token.after_line
    }

    /// Passes over a braced body, which is put on the pending list, and answers the offset where it ends.
    pub fn pass_body(
        &mut self,
        source: &Source,
        form: FuncForm,
        simple: bool,
        depth: u32,
    ) -> Result<u32, ParseFault>
        requires { IsSource source.now }
        ensures { (i : Interpretation) (start : ℕ) → Reads (PassedOf i start)
            ((env_at i depth).body form start simple) source.now i self.old self.new result }
    {
        if !self.is_mark(source, mark::OPEN_BRACE) {
            return Err(ParseFault::Unexpected { token: self.at });
        }
        self.pending.push(Pending {
            token: self.at,
            form,
            depth,
            simple,
        })?;
        let Some(close) = source.brackets.partner(self.at) else {
            return Err(ParseFault::Unexpected {
                token: source.brackets.stop(),
            });
        };
        self.at = close;
        let end = self.token(source).end;
        self.step(source);
        Ok(end)
    }

    /// The offset where the token before the present one ends, or 0 at the first token.
    pub fn end_before(&self, source: &Source) -> u32
        ensures { result ≡ end_before source.now.tokens.now self.now.at }
    {
        let mut at = self.at as usize;
        if at > source.tokens.len() {
            at = source.tokens.len();
        }
        end_of(source.tokens, at)
    }
}

/// The offset where the token of this number, counted from 1, ends; 0 of none.
fn end_of(tokens: &[CompactToken], count: usize) -> u32
    requires { count ≤ length tokens.now }
    ensures { result ≡ end_of tokens.now count }
{
    if count == 0 {
        0
    } else {
        tokens[count - 1].end()
    }
}
