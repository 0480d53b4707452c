//! A script read whole, with the bodies of all functions in it.

ghost use Rattle.std.specs.Prelude.{◌≡◌, []};
ghost use Rattle.script_grammar.specs.Interpretation.{Interpretation};
ghost use Rattle.grammar_parser_specs.specs.Stmts as pure;
ghost use Rattle.parse_exprs.specs.Answers.{Answers};
ghost use Rattle.parse_exprs.specs.Source.{IsSource, front};
ghost use Rattle.parse_bodies.specs.Blocks.{stmts_at};
ghost use Rattle.parse_bodies.specs.Means.{BodyOf};
ghost use Rattle.parse_bodies.specs.Whole.{IsWhole, lacks_memory};

use crate::part::BodyNode;
use crate::scripts::{body, script};
use parse_exprs::place::{ParseFault, Pending};
use parse_exprs::source::Source;
use parse_exprs::state::State;
use script_grammar::handler::Handler;

/// The statements of a script, and those of the braced bodies of the functions in it.
#[derive(Drop)]
pub struct Script<B> {
    pub top: B,
    /// One for each pending body, in their order.
    pub bodies: Vec<B>,
}

/// Whether memory ran out.
fn lacks_memory<B>(read: &Result<B, ParseFault>) -> bool
    ensures { result ≡ lacks_memory read.now }
{
    matches!(read, Err(ParseFault::NoMemory))
}

/// Reads a body that was passed over.
fn pending_body<H: Handler>(
    state: &mut State<H>,
    source: &Source,
    pending: Pending,
) -> Result<BodyNode<H::B>, ParseFault>
    requires source { IsSource source.now }
    requires none { state.old.place.pending.items ≡ [] }
    ensures { (i : Interpretation) → Answers (BodyOf (H.shows_body i)) source.now i state.new.place result []
        (pure.reading (stmts_at i pending.depth) pending.form 0 pending.simple (front source.now i pending.token)) }
{
    state.place.at = pending.token;
    body(state, source, pending.depth)
}

/// A script and the bodies of all functions in it, or the first fault of all. Each body is read after the one around it, and
/// before what stands after that; then all are pending, in this order.
pub fn whole<H: Handler>(state: &mut State<H>, source: &Source) -> Result<Script<H::B>, ParseFault>
    requires source { IsSource source.now }
    requires start { state.old.place.at ≡ 0 }
    requires none { state.old.place.pending.items ≡ [] }
    ensures { (i : Interpretation) → IsWhole i (H.shows_body i) source.now result }
{
    let mut top = script(state, source);
    let mut bodies = Vec::new(state.alloc);
    let mut read = Vec::new(state.alloc);
    let mut waiting = Vec::new(state.alloc);
    for _ in 0..usize::MAX {
        if lacks_memory(&top) {
            return Err(ParseFault::NoMemory);
        }
        state.place.pending.reverse();
        waiting.append(&mut state.place.pending)?;
        let Some(next) = waiting.pop() else {
            state.place.pending = read;
            return Ok(Script { top: top?, bodies });
        };
        read.push(next)?;
        match pending_body(state, source, next) {
            Ok(body) => bodies.push(body.node)?,
            Err(fault) => {
                top = Err(fault);
                waiting.clear();
            }
        }
    }
    unreachable!()
}
