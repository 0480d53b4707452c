//! What changes while a parser reads.

ghost use Rattle.std.specs.Prelude.{◌≡◌, []};

use crate::place::Cursor;
use script_grammar::handler::Handler;
use std::alloc::Global;

/// The place of a parser, its handler and its memory.
#[derive(Drop)]
pub struct State<H: Handler> {
    pub place: Cursor,
    pub handler: H,
    pub alloc: Global,
}

impl<H: Handler> State<H> {
    /// A parser at the first token, which has passed over no body.
    pub fn start(alloc: Global, handler: H) -> State<H>
        ensures at { result.place.at ≡ 0 }
        ensures pending { result.place.pending.items ≡ [] }
        ensures handler { result.handler ≡ handler }
    {
        State {
            place: Cursor {
                at: 0,
                pending: Vec::new(alloc),
            },
            handler,
            alloc,
        }
    }
}
