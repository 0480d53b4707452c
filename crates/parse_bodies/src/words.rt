//! Statements that hold neither expressions nor statements, and the name of a label.

ghost use Rattle.script_grammar.specs.Interpretation.{Interpretation};
ghost use Rattle.script_grammar.specs.Tree.{Empty};
ghost use Rattle.grammar_parser_specs.specs.Parser.{ret};
ghost use Rattle.grammar_parser_specs.specs.Stmts as pure;
ghost use Rattle.parse_exprs.specs.Answers.{Reads};
ghost use Rattle.parse_exprs.specs.Means.{NameOf};
ghost use Rattle.parse_exprs.specs.Source.{IsSource};
ghost use Rattle.parse_exprs.specs.declared.source.Source.{Source};
ghost use Rattle.parse_bodies.specs.Blocks.{label_at};
ghost use Rattle.parse_bodies.specs.Means.{StmtOf};

use crate::ending::StmtEnding;
use crate::part::StmtNode;
use crate::pieces::{label_name, semi};
use parse_exprs::place::{DEPTH_LIMIT, ParseFault};
use parse_exprs::source::Source;
use parse_exprs::state::State;
use script_grammar::handler::Handler;
use script_grammar::tree::Ident;

/// `debugger`, after the word.
#[tactic(auto, unfolding(grammar_parser_specs::specs::Stmts::debugger_of))]
pub fn debugger<H: Handler>(
    state: &mut State<H>,
    source: &Source,
) -> Result<StmtNode<H::S>, ParseFault>
    requires { IsSource source.now }
    ensures { (i : Interpretation) → Reads (StmtOf (H.shows_stmt i)) pure.debugger_of source.now i state.old.place state.new.place result }
{
    let semi = semi(&mut state.place, source, StmtEnding::Keyword)?;
    let node = state.handler.make_debugger(semi)?;
    Ok(StmtNode {
        node,
        takes_else: false,
    })
}

/// `continue`, after the word that starts at this offset.
#[tactic(auto, unfolding(grammar_parser_specs::specs::Stmts::continue_of))]
pub fn continue_from<H: Handler>(
    state: &mut State<H>,
    source: &Source,
    at: u32,
) -> Result<StmtNode<H::S>, ParseFault>
    requires { IsSource source.now }
    ensures { (i : Interpretation) → Reads (StmtOf (H.shows_stmt i)) (pure.continue_of at) source.now i state.old.place state.new.place result }
{
    let label = label_name(&mut state.place, source)?;
    let semi = semi(&mut state.place, source, StmtEnding::Keyword)?;
    let node = state.handler.make_continue(at, label, semi)?;
    Ok(StmtNode {
        node,
        takes_else: false,
    })
}

/// `break`, after the word that starts at this offset.
#[tactic(auto, unfolding(grammar_parser_specs::specs::Stmts::break_of))]
pub fn break_from<H: Handler>(
    state: &mut State<H>,
    source: &Source,
    at: u32,
) -> Result<StmtNode<H::S>, ParseFault>
    requires { IsSource source.now }
    ensures { (i : Interpretation) → Reads (StmtOf (H.shows_stmt i)) (pure.break_of at) source.now i state.old.place state.new.place result }
{
    let label = label_name(&mut state.place, source)?;
    let semi = semi(&mut state.place, source, StmtEnding::Keyword)?;
    let node = state.handler.make_break(at, label, semi)?;
    Ok(StmtNode {
        node,
        takes_else: false,
    })
}

/// A label's name, which counts for the depth.
pub fn label<H: Handler>(
    state: &mut State<H>,
    source: &Source,
    depth: u32,
) -> Result<Ident, ParseFault>
    requires { IsSource source.now }
    ensures { (i : Interpretation) → Reads (NameOf i) (label_at i depth) source.now i state.old.place state.new.place result }
{
    if depth >= DEPTH_LIMIT {
        let begins = state.place.is_name(source);
        return Err(state.place.no_room(begins));
    }
    state.place.name(source)
}

/// The empty statement, after its semicolon.
pub fn empty<H: Handler>(state: &mut State<H>) -> Result<StmtNode<H::S>, ParseFault>
    ensures { (i : Interpretation) (source : Source) → Reads (StmtOf (H.shows_stmt i)) (ret Empty) source i state.old.place state.new.place result }
{
    let node = state.handler.make_empty()?;
    Ok(StmtNode {
        node,
        takes_else: false,
    })
}
