//! Where an arrow's parameters stand in parentheses.

ghost use Rattle.std.specs.Prelude.{◌≡◌, ◌<◌, ◌∷◌, [], suc, true, Some};
ghost use Rattle.script_grammar.specs.Interpretation.{Interpretation};
ghost use Rattle.script_grammar.specs.Kinds as test;
ghost use Rattle.script_grammar.specs.declared.token.mark.TheConstants as marks;
ghost use Rattle.script_grammar.specs.Matching.{partner_of};
ghost use Rattle.script_grammar.specs.Pieces.{paren};
ghost use Rattle.grammar_parser_specs.specs.Parser.{head_of, rest_of};
ghost use Rattle.grammar_parser_specs.specs.Exprs as pure;
ghost use Rattle.parse_exprs.specs.Source.{IsSource, front};
ghost use Rattle.parse_exprs.specs.Strides.{stride};

use crate::kinds;
use crate::source::Source;
use script_grammar::token::{Kind, mark};

/// The kind of this token.
fn kind_at(source: &Source, at: u32) -> Kind
    requires { IsSource source.now }
    ensures { (i : Interpretation) → result ≡ (head_of (front source.now i at)).kind }
{
    source.token(at as usize).kind
}

/// The kind of the token after this one.
pub(crate) fn kind_behind(source: &Source, at: u32) -> Kind
    requires { IsSource source.now }
    ensures { (i : Interpretation) → result ≡ (head_of (rest_of (front source.now i at))).kind }
{
    source.token(at as usize + 1).kind
}

/// Whether this token is a name, and `,`, `)` or `=` stands after it.
pub fn is_param_form(source: &Source, at: u32) -> bool
    requires { IsSource source.now }
    ensures { (i : Interpretation) → result ≡ pure.is_param_form (head_of (front source.now i at)) (head_of (rest_of (front source.now i at))) }
{
    let next = kind_behind(source, at);
    kinds::is_name(kind_at(source, at))
        && (kinds::is_mark(next, mark::COMMA)
            || kinds::is_mark(next, mark::CLOSE_PAREN)
            || kinds::is_mark(next, mark::ASSIGN))
}

/// Whether a parameter may begin with this token.
fn begins_param(source: &Source, at: u32) -> bool
    requires { IsSource source.now }
    ensures { (i : Interpretation) → result ≡ pure.begins_param (head_of (front source.now i at)) (head_of (rest_of (front source.now i at))) }
{
    kinds::is_mark(kind_at(source, at), mark::ELLIPSIS) || is_param_form(source, at)
}

/// The token that closes what this one opens, or else the next one.
fn stride(source: &Source, at: u32, close: u32) -> u32
    requires { at < close }
    ensures { result ≡ stride (partner_of source.now.brackets.now at) at }
{
    match source.brackets.partner(at) {
        Some(partner) if partner > at => partner,
        _ => at + 1,
    }
}

/// Whether each item between this parenthesis and its partner begins as a parameter does. Each bracket inside is gone over
/// in one step, so a token is looked at for the parenthesis that it stands in alone.
pub fn only_params(source: &Source, opening: u32, closing: u32) -> bool
    requires source { IsSource source.now }
    requires opens { (i : Interpretation) → test.is_mark marks.OPEN_PAREN (head_of (front source.now i opening)).kind ≡ true }
    requires partner { partner_of source.now.brackets.now opening ≡ Some closing }
    requires before { opening < closing }
    ensures { (i : Interpretation) → result ≡ pure.only_params true (paren ∷ []) (rest_of (front source.now i opening)) }
{
    let mut at = opening + 1;
    let mut starts = true;
    while at < closing {
        if starts && !begins_param(source, at) {
            return false;
        }
        starts = kinds::is_mark(kind_at(source, at), mark::COMMA);
        at = stride(source, at, closing);
    }
    true
}
