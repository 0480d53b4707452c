//! Whole scripts, and bodies and functions that are read by themselves.

ghost use Rattle.std.specs.Prelude.{◌≡◌, ℕ, List, Bool, true, false, None};
ghost use Rattle.script_grammar.specs.Interpretation.{Interpretation};
ghost use Rattle.script_grammar.specs.Shows.{NodeOf, FuncOf};
ghost use Rattle.script_grammar.specs.Tree as model;
ghost use Rattle.script_grammar.specs.declared.token.FuncForm.{FuncForm};
ghost use Rattle.grammar_parser_specs.specs.Exprs.{function_of};
ghost use Rattle.grammar_parser_specs.specs.Parser.{when};
ghost use Rattle.grammar_parser_specs.specs.Stmts as pure;
ghost use Rattle.parse_exprs.specs.Answers.{Reads};
ghost use Rattle.parse_exprs.specs.Env.{env_at};
ghost use Rattle.parse_exprs.specs.Means.{Itself};
ghost use Rattle.parse_exprs.specs.Source.{IsSource};
ghost use Rattle.parse_bodies.specs.Blocks.{stmts_at};
ghost use Rattle.parse_bodies.specs.Means.{BodyOf, ClosedOf};

use crate::arrows::arrow_alone;
use crate::part::BodyNode;
use crate::stmts::stmts_from;
use parse_exprs::kinds::{is_end, is_mark};
use parse_exprs::place::{Cursor, ParseFault};
use parse_exprs::source::Source;
use parse_exprs::state::State;
use script_grammar::handler::Handler;
use script_grammar::node::NodeFunc;
use script_grammar::token::{FuncForm, mark};

/// Goes past the brace that closes a body, and answers the offset where it ends.
#[tactic(auto, unfolding(grammar_parser_specs::specs::Stmts::close_body))]
fn close_body(place: &mut Cursor, source: &Source) -> Result<u32, ParseFault>
    requires { IsSource source.now }
    ensures { (i : Interpretation) (ss : List model.Stmt) → Reads (ClosedOf ss) (pure.close_body ss) source.now i place.old place.new result }
{
    let token = place.token(source);
    if !is_mark(token.kind, mark::CLOSE_BRACE) {
        return Err(ParseFault::Unexpected { token: place.at });
    }
    place.step(source);
    Ok(token.end)
}

/// A function's body in braces, which stands inside n nodes that count for the depth.
///
/// Bodies inside it are passed over.
#[tactic(auto, unfolding(grammar_parser_specs::specs::Stmts::reading))]
pub fn body<H: Handler>(
    state: &mut State<H>,
    source: &Source,
    depth: u32,
) -> Result<BodyNode<H::B>, ParseFault>
    requires { IsSource source.now }
    ensures { (i : Interpretation) (form : FuncForm) (start : ℕ) (simple : Bool)
        → Reads (BodyOf (H.shows_body i)) (pure.reading (stmts_at i depth) form start simple) source.now i state.old.place state.new.place result }
{
    state.place.expect(source, mark::OPEN_BRACE)?;
    let items = stmts_from(state, source, true, depth)?;
    let end = close_body(&mut state.place, source)?;
    let node = state.handler.body(items)?;
    Ok(BodyNode { node, end })
}

/// Asks that no token is left here.
#[tactic(auto, unfolding(grammar_parser_specs::specs::Stmts::end_of))]
fn expect_end(place: &Cursor, source: &Source) -> Result<(), ParseFault>
    requires { IsSource source.now }
    ensures { (i : Interpretation) → Reads Itself (pure.end_of tt) source.now i place.now place.now result }
{
    if !is_end(place.kind(source)) {
        return Err(ParseFault::Unexpected { token: place.at });
    }
    Ok(())
}

/// A script, up to the end of all. Bodies of functions are passed over.
#[tactic(auto, unfolding(grammar_parser_specs::specs::Stmts::script_of))]
pub fn script<H: Handler>(state: &mut State<H>, source: &Source) -> Result<H::B, ParseFault>
    requires { IsSource source.now }
    ensures { (i : Interpretation) → Reads (NodeOf (H.shows_body i))
        (pure.script_of (stmts_at i 0)) source.now i state.old.place state.new.place result }
{
    let items = stmts_from(state, source, false, 0)?;
    expect_end(&state.place, source)?;
    let node = state.handler.body(items)?;
    Ok(node)
}

/// Whether a function of this form is an arrow.
fn is_arrow(form: FuncForm) -> bool
    ensures { result ≡ pure.is_arrow_form form }
{
    matches!(form, FuncForm::Arrow)
}

/// A function, from its parameters on.
fn function<H: Handler>(
    state: &mut State<H>,
    source: &Source,
    form: FuncForm,
    depth: u32,
) -> Result<NodeFunc<H::E, H::B>, ParseFault>
    requires { IsSource source.now }
    ensures { (i : Interpretation) → Reads (FuncOf i (H.shows_expr i) (H.shows_body i))
        (when (pure.is_arrow_form form) (pure.arrow_alone (env_at i depth))
        (function_of (env_at i depth) form None)) source.now i state.old.place state.new.place result }
{
    if is_arrow(form) {
        return arrow_alone(state, source, depth);
    }
    state.function(source, form, None, depth)
}

/// A function, from its parameters up to the end of all. Its body is passed over, where it has braces.
#[tactic(auto, unfolding(grammar_parser_specs::specs::Stmts::alone_of))]
pub fn alone<H: Handler>(
    state: &mut State<H>,
    source: &Source,
    form: FuncForm,
    depth: u32,
) -> Result<NodeFunc<H::E, H::B>, ParseFault>
    requires { IsSource source.now }
    ensures { (i : Interpretation) → Reads (FuncOf i (H.shows_expr i) (H.shows_body i))
        (pure.alone_of (env_at i depth) form) source.now i state.old.place state.new.place result }
{
    let func = function(state, source, form, depth)?;
    expect_end(&state.place, source)?;
    Ok(func)
}
