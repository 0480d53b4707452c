//! Expressions that are read alone.

ghost use Rattle.std.specs.Prelude.{◌<◌, ◌≤◌, length};
ghost use Rattle.script_grammar.specs.Fault.{depth_limit};
ghost use Rattle.script_grammar.specs.Interpretation.{Interpretation};
ghost use Rattle.parse_exprs.specs.Source.{IsSource};
ghost use Rattle.parse_parts.specs.Answers.{IsAssignment, IsExpression};
ghost use Rattle.parse_parts.specs.Pending.{IsGained, CompletesAssignment, CompletesExpression};

use parse_exprs::place::ParseFault;
use parse_exprs::source::Source;
use parse_exprs::state::State;
use script_grammar::handler::Handler;

/// Reads an AssignmentExpression from the present token on, with or without the operator `in`, inside n nodes that count
/// for the depth. The tokens that are read and the next one together begin no AssignmentExpression. Braced bodies in it are put on
/// the pending list.
pub fn assignment<H: Handler>(
    state: &mut State<H>,
    source: &Source,
    with_in: bool,
    depth: u32,
) -> Result<H::E, ParseFault>
    requires source { IsSource source.now }
    requires place { state.old.place.at < length source.now.tokens.now }
    requires depth { depth ≤ depth_limit }
    ensures answer { (i : Interpretation) → IsAssignment i (H.shows_expr i) source.now with_in depth state.old.place.at state.new.place.at result }
    ensures pending { IsGained source.now state.old.place state.new.place result }
    ensures completes { (i : Interpretation) → CompletesAssignment i
        (H.shows_expr i) source.now with_in depth state.old.place state.new.place result }
{
    let read = state.assign(source, with_in, depth)?;
    Ok(read.node)
}

/// Reads an Expression from the present token on, as `assignment` does.
pub fn expression<H: Handler>(
    state: &mut State<H>,
    source: &Source,
    with_in: bool,
    depth: u32,
) -> Result<H::E, ParseFault>
    requires source { IsSource source.now }
    requires place { state.old.place.at < length source.now.tokens.now }
    requires depth { depth ≤ depth_limit }
    ensures answer { (i : Interpretation) → IsExpression i (H.shows_expr i) source.now with_in depth state.old.place.at state.new.place.at result }
    ensures pending { IsGained source.now state.old.place state.new.place result }
    ensures completes { (i : Interpretation) → CompletesExpression i
        (H.shows_expr i) source.now with_in depth state.old.place state.new.place result }
{
    let read = state.expr(source, with_in, depth)?;
    Ok(read.node)
}
