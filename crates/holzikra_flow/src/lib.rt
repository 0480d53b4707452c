//! Which environments a script's code has at each of its instructions, and so which binding each aliased operand is.
//!
//! Code names a binding that lives in an environment by hops and a slot (ECMA-262, clause 9.1, has environments). This crate
//! finds from a merged stencil alone with which environment each instruction runs: a function starts with the environment of
//! the `Lambda` that makes it, inside of which are those of its own scopes, and a push or a pop changes it along the code. It
//! stands on the data of stencils and on the table of opcodes, below what lists code and scopes for people.
//!
//! The main contract: where [`Environments::flow`] answers, its answer fits every step that code can make, along each
//! instruction, each jump and each try note (`IsFlow` of `specs/Flow.antt`). The answer is looked for by a work list, which sees
//! each reached instruction once, and then held against that relation; where it does not fit there is no answer.
//! [`Environments::binding`] goes from an environment and hops to the scope that owns it.
#![tactic(auto)]

mod bindings;
mod checking;
mod environments;
mod jumps;
mod search;
mod step;

pub use bindings::{Bound, place_of};
pub use environments::{Environment, Environments};
pub use jumps::{Arrival, Origin, arrivals};
