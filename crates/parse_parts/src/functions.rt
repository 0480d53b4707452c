//! Functions that are read alone.

ghost use Rattle.std.specs.Prelude.{◌≡◌, ◌<◌, ◌≤◌, [], length};
ghost use Rattle.script_grammar.specs.Fault.{depth_limit};
ghost use Rattle.script_grammar.specs.Interpretation.{Interpretation, maybe_named};
ghost use Rattle.parse_exprs.specs.Source.{IsSource};
ghost use Rattle.parse_bodies.specs.Whole.{lacks_memory};
ghost use Rattle.parse_parts.specs.Answers.{IsHeaded, IsAlone, IsOutermost};
ghost use Rattle.parse_parts.specs.Pending.{IsGained, CompletesHead, CompletesAlone};

use parse_bodies::scripts;
use parse_exprs::place::{ParseFault, Pending};
use parse_exprs::source::Source;
use parse_exprs::state::State;
use script_grammar::handler::Handler;
use script_grammar::node::{NodeFunc, NodeFuncBody};
use script_grammar::token::FuncForm;
use script_grammar::tree::Ident;

/// Reads a function that is no arrow, from its parameters on, inside n nodes that count for the depth. Its braced body is
/// passed over, and put on the pending list after those in its parameters.
pub fn head<H: Handler>(
    state: &mut State<H>,
    source: &Source,
    form: FuncForm,
    name: Option<Ident>,
    depth: u32,
) -> Result<NodeFunc<H::E, H::B>, ParseFault>
    requires source { IsSource source.now }
    requires place { state.old.place.at < length source.now.tokens.now }
    requires depth { depth ≤ depth_limit }
    requires no_script { form ≡ FuncForm.Script → ⊥ }
    requires no_arrow { form ≡ FuncForm.Arrow → ⊥ }
    ensures answer { (i : Interpretation) → IsHeaded i (H.shows_expr i) (H.shows_body i) source.now form
        (maybe_named i name) depth state.old.place.at state.new.place.at result }
    ensures pending { IsGained source.now state.old.place state.new.place result }
    ensures completes { (i : Interpretation) → CompletesHead i (H.shows_expr i) (H.shows_body i) source.now form
        (maybe_named i name) depth state.old.place state.new.place result }
{
    let read = state.function(source, form, name, depth)?;
    Ok(read)
}

/// The last of these bodies, where it stands in nothing.
fn outermost(bodies: &[Pending]) -> Option<Pending>
    ensures { IsOutermost bodies.now result }
{
    match bodies.last() {
        Some(last) if last.depth == 0 => Some(*last),
        _ => None,
    }
}

/// Whether memory ran out.
fn lacks_memory<T>(read: &Result<T, ParseFault>) -> bool
    ensures { result ≡ lacks_memory read.now }
{
    matches!(read, Err(ParseFault::NoMemory))
}

/// Reads the tokens from the present one up to the end of all as the parameters and the body of one function of this form, an
/// arrow's mark between them included. Its own body is read, and is not on the pending list then. The answer has no name.
pub fn alone<H: Handler>(
    state: &mut State<H>,
    source: &Source,
    form: FuncForm,
) -> Result<NodeFunc<H::E, H::B>, ParseFault>
    requires source { IsSource source.now }
    requires place { state.old.place.at < length source.now.tokens.now }
    requires none { state.old.place.pending.items ≡ [] }
    requires no_script { form ≡ FuncForm.Script → ⊥ }
    ensures answer { (i : Interpretation) → IsAlone i (H.shows_expr i) (H.shows_body i) source.now form state.old.place.at state.new.place.at result }
    ensures pending { IsGained source.now state.old.place state.new.place result }
    ensures completes { (i : Interpretation) → CompletesAlone i (H.shows_expr i)
        (H.shows_body i) source.now form state.old.place state.new.place result }
{
    let passed = scripts::alone(state, source, form, 0);
    if lacks_memory(&passed) {
        return Err(ParseFault::NoMemory);
    }
    let Some(own) = outermost(&state.place.pending) else {
        return passed;
    };
    state.place.pending.pop();
    state.place.at = own.token;
    let read = scripts::body(state, source, 0)?;
    let mut func = passed?;
    func.end = read.end;
    func.body = NodeFuncBody::Braced(read.node);
    Ok(func)
}
