//! What a first pass keeps of bodies.

ghost use Rattle.std.specs.Prelude.{IfOk};
ghost use Rattle.compile_first_pass.specs.Skims.{AreSkimmed, IsApart, IsScriptApart};

use parse_bodies::whole::Script;
use parse_early_handler::BodyErrors;
use parse_function_list::FoundBody;
use parse_handlers::SyntaxBody;
use parse_skim_handler::{SkimBody, Skimming};
use parse_track_pieces::Piece;
use script_grammar::handler::Handler;
use std::alloc::{AllocError, Global};

/// What is kept of the statements of a script or of a function's body.
#[derive(Drop)]
pub struct Skimmed {
    /// What they tell a track.
    pub told: Piece,
    /// The functions directly in them.
    pub found: SyntaxBody,
    /// Their first early error of a rule that looks at no region.
    pub errors: BodyErrors,
}

/// A handler whose nodes of bodies have all that a first pass asks for.
pub trait Skims: Handler {
    /// Takes the node of a body apart.
    fn apart(body: Self::B) -> Skimmed
        ensures { IsApart Self.shows_body body result };
}

impl Skims for Skimming {
    fn apart(body: SkimBody) -> Skimmed {
        let SkimBody {
            told,
            found,
            errors,
        } = body;
        Skimmed {
            told,
            found,
            errors,
        }
    }
}

/// Bodies in the order of the source, taken apart.
#[derive(Drop)]
pub(crate) struct SkimmedBodies {
    pub told: Vec<Piece>,
    pub found: Vec<FoundBody>,
    pub errors: Vec<BodyErrors>,
}

/// A script and the bodies of its functions, taken apart.
#[derive(Drop)]
pub(crate) struct SkimmedScript {
    pub top: Skimmed,
    pub bodies: SkimmedBodies,
}

/// Takes the bodies apart.
fn skim_bodies<H: Skims>(alloc: Global, bodies: Vec<H::B>) -> Result<SkimmedBodies, AllocError>
    ensures { IfOk result (λ made. AreSkimmed H.shows_body bodies.items made.told.items made.found.items made.errors.items) }
{
    let count = bodies.len();
    let mut told = Vec::with_capacity(alloc, count)?;
    let mut found = Vec::with_capacity(alloc, count)?;
    let mut errors = Vec::with_capacity(alloc, count)?;
    for body in bodies {
        let skimmed = H::apart(body);
        told.push(skimmed.told)?;
        found.push(FoundBody {
            found: skimmed.found,
            strict: skimmed.errors.strict,
        })?;
        errors.push(skimmed.errors)?;
    }
    Ok(SkimmedBodies {
        told,
        found,
        errors,
    })
}

/// Takes a script apart.
pub(crate) fn skim<H: Skims>(
    alloc: Global,
    script: Script<H::B>,
) -> Result<SkimmedScript, AllocError>
    ensures { IfOk result (IsScriptApart H.shows_body script.top script.bodies.items) }
{
    let Script { top, bodies } = script;
    let top = H::apart(top);
    let bodies = skim_bodies::<H>(alloc, bodies)?;
    Ok(SkimmedScript { top, bodies })
}
