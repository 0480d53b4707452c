//! Which brackets of a list of tokens match.

ghost use Rattle.std.specs.Prelude.{◌≡◌, ◌<◌, ◌^◌, ℕ, [], ◌∷◌, length, reverse, IfOk, OnOk};
ghost use Rattle.script_grammar.specs.Matching.{part_of, part_of_mark, kinds_of, is_same, partner_of, IsMatching};
ghost use Rattle.script_grammar.specs.BracketWalk.{Walked, After, Closes, GainsPartner, partner_in, told_partners};

use crate::compact::CompactToken;
use crate::token::{Kind, mark};
use std::alloc::{AllocError, Global};
use std::marker::Model;

/// A kind of bracket. `Template` is what `${` opens in a template.
#[derive(Clone, Copy, Debug, PartialEq, Eq)]
pub enum Bracket {
    Paren,
    Square,
    Brace,
    Template,
}

/// What a token does to brackets. `Middle` closes a `Template` and opens another.
#[derive(Clone, Copy, Debug, PartialEq, Eq)]
pub enum BracketPart {
    Opening(Bracket),
    Closing(Bracket),
    Middle,
    Other,
}

/// A token that opened a bracket.
#[derive(Clone, Copy)]
struct Open {
    token: u32,
    bracket: Bracket,
}

/// Stands in place of a partner where a token has none. No token has this number: a list has fewer tokens.
const NO_PARTNER: u32 = 4294967295;

/// The partners found so far, and the open tokens, the innermost last.
#[derive(Drop)]
struct Walk {
    /// As [`Brackets`] has them.
    partners: Vec<u32>,
    stack: Vec<Open>,
}

/// For each token of a list its partner, and the first token that closes a bracket which is not the innermost open one.
/// Takes 4 bytes of memory for each token up to the last that has a partner, and no more.
#[derive(Drop)]
pub struct Brackets {
    /// Each token's partner, or `NO_PARTNER`. The tokens after the end have none.
    partners: Vec<u32>,
    stop: u32,
}

impl Model for Brackets {
    ghost use Rattle.script_grammar.specs.Matching.{Matching};
    ghost use Rattle.script_grammar.specs.BracketWalk.{told_partners};

    ghost Value = { Matching };

    ghost view = { λ b. record { partners = told_partners b.partners.items; stop = b.stop } };
}

fn mark_part(index: u8) -> BracketPart
    ensures { result ≡ part_of_mark index }
{
    match index {
        mark::OPEN_PAREN => BracketPart::Opening(Bracket::Paren),
        mark::CLOSE_PAREN => BracketPart::Closing(Bracket::Paren),
        mark::OPEN_BRACKET => BracketPart::Opening(Bracket::Square),
        mark::CLOSE_BRACKET => BracketPart::Closing(Bracket::Square),
        mark::OPEN_BRACE => BracketPart::Opening(Bracket::Brace),
        mark::CLOSE_BRACE => BracketPart::Closing(Bracket::Brace),
        _ => BracketPart::Other,
    }
}

fn bracket_part(kind: Kind) -> BracketPart
    ensures { result ≡ part_of kind }
{
    match kind {
        Kind::Mark(index) => mark_part(index),
        Kind::TemplateHead => BracketPart::Opening(Bracket::Template),
        Kind::TemplateMiddle => BracketPart::Middle,
        Kind::TemplateTail => BracketPart::Closing(Bracket::Template),
        _ => BracketPart::Other,
    }
}

/// What a token does to brackets.
fn token_part(token: CompactToken) -> BracketPart
    ensures { result ≡ part_of token.kind }
{
    bracket_part(token.kind())
}

fn is_same(first: Bracket, second: Bracket) -> bool
    ensures { result ≡ is_same first second }
{
    match first {
        Bracket::Paren => matches!(second, Bracket::Paren),
        Bracket::Square => matches!(second, Bracket::Square),
        Bracket::Brace => matches!(second, Bracket::Brace),
        Bracket::Template => matches!(second, Bracket::Template),
    }
}

/// The partner of a token by such a list as [`Brackets`] has.
fn partner_in(partners: &[u32], token: u32) -> Option<u32>
    ensures { result ≡ partner_in partners.now token }
{
    match partners.get(token as usize) {
        Some(partner) if *partner != NO_PARTNER => Some(*partner),
        _ => None,
    }
}

impl Walk {
    fn new(alloc: Global) -> Walk
        ensures partners { result.partners.items ≡ [] }
        ensures stack { result.stack.items ≡ [] }
    {
        Walk {
            partners: Vec::new(alloc),
            stack: Vec::new(alloc),
        }
    }

    fn open(&mut self, token: u32, bracket: Bracket) -> Result<(), AllocError>
        ensures stack { OnOk result (reverse self.new.stack.items ≡ record { token = token; bracket = bracket } ∷ reverse self.old.stack.items) }
        ensures partners { self.new.partners ≡ self.old.partners }
    {
        self.stack.push(Open { token, bracket })?;
        Ok(())
    }

    fn close(&mut self, bracket: Bracket) -> Option<u32>
        ensures stack { Closes (reverse self.old.stack.items) (reverse self.new.stack.items) bracket result }
        ensures partners { self.new.partners ≡ self.old.partners }
    {
        let opener = self.stack.pop()?;
        if is_same(opener.bracket, bracket) {
            Some(opener.token)
        } else {
            None
        }
    }

    /// Makes the list of partners reach to this token.
    #[tactic(auto, using(crate::proofs::PartnerLists::reached_same))]
    fn reach(&mut self, token: u32) -> Result<(), AllocError>
        ensures partners { OnOk result ((t : ℕ) → partner_in self.new.partners.items t ≡ partner_in self.old.partners.items t) }
        ensures within { OnOk result (token < length self.new.partners.items) }
        ensures stack { self.new.stack ≡ self.old.stack }
    {
        if self.partners.len() <= token as usize {
            self.partners.resize(token as usize + 1, NO_PARTNER)?;
        }
        Ok(())
    }

    fn pair(&mut self, token: u32, partner: u32) -> Result<(), AllocError>
        requires number { partner < 4294967295 }
        ensures partners { OnOk result (GainsPartner self.old.partners.items self.new.partners.items token partner) }
        ensures stack { self.new.stack ≡ self.old.stack }
    {
        self.reach(token)?;
        self.partners[token as usize] = partner;
        Ok(())
    }

    fn take(&mut self, tokens: &[CompactToken], token: u32) -> Result<bool, AllocError>
        requires within { token < length tokens.now }
        requires few { length tokens.now < 2 ^ 32 }
        requires so_far { Walked (kinds_of tokens.now) token (partner_in self.old.partners.items) (reverse self.old.stack.items) }
        ensures { IfOk result (λ fits. After (kinds_of tokens.now) token fits self.new.partners.items (reverse self.new.stack.items)) }
    {
        match token_part(tokens[token as usize]) {
            BracketPart::Opening(bracket) => {
                self.open(token, bracket)?;
                Ok(true)
            }
            BracketPart::Closing(bracket) => {
                let Some(opener) = self.close(bracket) else {
                    return Ok(false);
                };
                self.pair(opener, token)?;
                self.pair(token, opener)?;
                Ok(true)
            }
            BracketPart::Middle => {
                let Some(opener) = self.close(Bracket::Template) else {
                    return Ok(false);
                };
                self.pair(opener, token)?;
                self.open(token, Bracket::Template)?;
                Ok(true)
            }
            BracketPart::Other => Ok(true),
        }
    }

    fn stop_at(self, stop: u32) -> Brackets
        ensures { result ≡ record { partners = told_partners self.partners.items; stop = stop } }
    {
        let Walk { partners, stack: _ } = self;
        Brackets { partners, stop }
    }
}

impl Brackets {
    /// Matches the brackets of a list of tokens as `scan` gives it.
    pub fn of(alloc: Global, tokens: &[CompactToken]) -> Result<Brackets, AllocError>
        requires some { 0 < length tokens.now }
        requires few { length tokens.now < 2 ^ 32 }
        ensures { IfOk result (λ b. IsMatching (kinds_of tokens.now) b) }
    {
        let last = (tokens.len() - 1) as u32;
        let mut walk = Walk::new(alloc);
        for token in 0..last {
            if !walk.take(tokens, token)? {
                return Ok(walk.stop_at(token));
            }
        }
        Ok(walk.stop_at(last))
    }

    /// The token that closes what this one opens, or else the one that opened what it closes. None where the token is no
    /// bracket, where it has no partner before the stop, and where there is no such token.
    #[tactic(auto, using(crate::proofs::PartnerLists::told_at))]
    pub fn partner(&self, token: u32) -> Option<u32>
        ensures { result ≡ partner_of self.now token }
    {
        partner_in(self.partners.as_slice(), token)
    }

    /// The first token that closes a bracket which is not the innermost open one, or else the last token.
    pub fn stop(&self) -> u32
        ensures { result ≡ self.now.stop }
    {
        self.stop
    }
}
