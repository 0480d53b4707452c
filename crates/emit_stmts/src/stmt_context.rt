//! Where a statement stands.
ghost use Rattle.std.specs.Prelude.{◌^◌, ◌<◌, ◌≤◌, ◌+◌, length, map};
ghost use Rattle.stencil_data.specs.StandsFor.{named_scope};
ghost use Rattle.scope_analysis.specs.Walked.{ScopesFit};
ghost use Rattle.emit_stmts.specs.OneProof.{ScopesFit-prop};

use crate::frames::Frame;
use emit_exprs::Site;
use stencil_data::ScopeData;

/// What is the same for all of a statement: where its expressions stand, the frames around it from the innermost one on,
/// the scopes of its function, whether that is a script, and how many scopes may be entered one in another in it.
#[derive(Clone, Copy)]
pub struct StmtContext<'a> {
    pub exprs: Site<'a>,
    pub frames: &'a [Frame],
    pub scopes: &'a [ScopeData],
    pub is_script: bool,
    pub room: usize,
    ghost few: { length scopes.now < 2 ^ 32 },
    ghost slots: { ScopesFit (map (named_scope exprs.texts.now) scopes.now) } by { ScopesFit-prop (map (named_scope exprs.texts.now) scopes.now) },
    ghost links: { length exprs.chain.now + room ≤ 65000 },
}
