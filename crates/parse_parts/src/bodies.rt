//! Braced bodies that are read alone.

ghost use Rattle.std.specs.Prelude.{◌<◌, ◌≤◌, length};
ghost use Rattle.script_grammar.specs.Fault.{depth_limit};
ghost use Rattle.script_grammar.specs.Interpretation.{Interpretation};
ghost use Rattle.parse_exprs.specs.Source.{IsSource};
ghost use Rattle.parse_parts.specs.Answers.{IsBraced};
ghost use Rattle.parse_parts.specs.Pending.{IsGained, CompletesBody};

use parse_bodies::part::BodyNode;
use parse_bodies::scripts;
use parse_exprs::place::ParseFault;
use parse_exprs::source::Source;
use parse_exprs::state::State;
use script_grammar::handler::Handler;

/// Reads a braced body from its `{` up to the brace that closes it, inside n nodes that count for the depth, and the
/// offset in bytes where that brace ends. Braced bodies inside it are put on the pending list.
pub fn body<H: Handler>(
    state: &mut State<H>,
    source: &Source,
    depth: u32,
) -> Result<BodyNode<H::B>, ParseFault>
    requires source { IsSource source.now }
    requires place { state.old.place.at < length source.now.tokens.now }
    requires depth { depth ≤ depth_limit }
    ensures answer { (i : Interpretation) → IsBraced i (H.shows_body i) source.now depth state.old.place.at state.new.place.at result }
    ensures pending { IsGained source.now state.old.place state.new.place result }
    ensures completes { (i : Interpretation) → CompletesBody i (H.shows_body i) source.now depth state.old.place state.new.place result }
{
    let read = scripts::body(state, source, depth)?;
    Ok(read)
}
