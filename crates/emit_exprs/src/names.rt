// Code that reads, writes and prepares a name, by its place.
ghost use Rattle.std.specs.Prelude.{◌≡◌, ℕ, ◌^◌, ◌<◌, List, OnOk, slice_index_or, [], ◌∷◌};
ghost use Rattle.stencil_data.specs.Fits.{PlaceFits};
ghost use Rattle.bytecode_buf.specs.Emits.{Emits};
ghost use Rattle.bytecode_buf.specs.Command as command;
ghost use Rattle.emit_exprs.specs.Names as code;
ghost use Rattle.emit_exprs.specs.Whole.{whole};

use crate::steps::{aliased, counted, named, plain};
use bytecode_buf::{CodeBuf, Op};
use std::alloc::AllocError;
use stencil_data::{BindKind, Place};

/// How a binding in a slot is read and written.
#[derive(Clone, Copy)]
pub enum Access {
    /// As it is.
    Free,
    /// It is never written: a function expression's own name.
    Fixed,
    /// After a check that it is initialized: `let`.
    Checked,
    /// Read after that check, and never written: `const`.
    Constant,
}

pub fn access_of_kind(kind: BindKind) -> Access
    ensures { result ≡ code.access_of kind }
{
    match kind {
        BindKind::Let => Access::Checked,
        BindKind::Const => Access::Constant,
        BindKind::Callee => Access::Fixed,
        BindKind::Param => Access::Free,
        BindKind::Var => Access::Free,
        BindKind::Function => Access::Free,
        BindKind::Catch => Access::Free,
        BindKind::Arguments => Access::Free,
        BindKind::This => Access::Free,
    }
}

// The check of a slot of the frame, where a read is checked.
#[tactic(auto, using(crate::proofs::Singles::emits_nothing))]
fn check_frame(out: &mut CodeBuf, access: Access, slot: u32) -> Result<(), AllocError>
    requires { slot < 2 ^ 24 }
    ensures { OnOk result ((texts : List (List ℕ)) → Emits texts out.old out.new
        (whole (code.checked access (command.counted Op.CheckLexical slot)))) }
{
    match access {
        Access::Free => Ok(()),
        Access::Fixed => Ok(()),
        Access::Checked => Ok(counted(out, Op::CheckLexical, slot)?),
        Access::Constant => Ok(counted(out, Op::CheckLexical, slot)?),
    }
}

// The same of a slot of an environment.
#[tactic(auto, using(crate::proofs::Singles::emits_nothing))]
fn check_env(out: &mut CodeBuf, access: Access, hops: u32, slot: u32) -> Result<(), AllocError>
    requires hops { hops < 2 ^ 16 }
    requires slot { slot < 2 ^ 24 }
    ensures { OnOk result ((texts : List (List ℕ)) → Emits texts out.old out.new
        (whole (code.checked access (command.aliased Op.CheckAliasedLexical hops slot)))) }
{
    match access {
        Access::Free => Ok(()),
        Access::Fixed => Ok(()),
        Access::Checked => Ok(aliased(out, Op::CheckAliasedLexical, hops, slot)?),
        Access::Constant => Ok(aliased(out, Op::CheckAliasedLexical, hops, slot)?),
    }
}

pub fn read_frame(out: &mut CodeBuf, slot: u32, access: Access) -> Result<(), AllocError>
    requires { slot < 2 ^ 24 }
    ensures { OnOk result ((texts : List (List ℕ)) → Emits texts out.old out.new (whole (code.read_frame slot access))) }
{
    counted(out, Op::GetLocal, slot)?;
    check_frame(out, access, slot)?;
    Ok(())
}

pub fn read_env(out: &mut CodeBuf, hops: u32, slot: u32, access: Access) -> Result<(), AllocError>
    requires hops { hops < 2 ^ 16 }
    requires slot { slot < 2 ^ 24 }
    ensures { OnOk result ((texts : List (List ℕ)) → Emits texts out.old out.new (whole (code.read_env hops slot access))) }
{
    aliased(out, Op::GetAliasedVar, hops, slot)?;
    check_env(out, access, hops, slot)?;
    Ok(())
}

/// The value of the name with this atom, which lives at this place.
pub fn read_at(out: &mut CodeBuf, atom: u32, place: &Place) -> Result<(), AllocError>
    requires { PlaceFits place.now }
    ensures { OnOk result ((texts : List (List ℕ)) → Emits texts out.old out.new (whole (code.read (slice_index_or texts atom []) place.now))) }
{
    match *place {
        Place::Global => Ok(named(out, Op::GetGName, atom)?),
        Place::Arg(index) => Ok(counted(out, Op::GetArg, index)?),
        Place::Frame { slot, kind } => Ok(read_frame(out, slot, access_of_kind(kind))?),
        Place::Env { hops, slot, kind } => Ok(read_env(out, hops, slot, access_of_kind(kind))?),
        Place::Callee => Ok(plain(out, Op::Callee)?),
    }
}

/// What stands below the value when the name is written.
#[tactic(auto, using(crate::proofs::Singles::emits_nothing))]
pub fn base_at(out: &mut CodeBuf, atom: u32, place: &Place) -> Result<(), AllocError>
    ensures { OnOk result ((texts : List (List ℕ)) → Emits texts out.old out.new (whole (code.base (slice_index_or texts atom []) place.now))) }
{
    match *place {
        Place::Global => Ok(named(out, Op::BindGName, atom)?),
        Place::Arg(_) => Ok(()),
        Place::Frame { .. } => Ok(()),
        Place::Env { .. } => Ok(()),
        Place::Callee => Ok(()),
    }
}

// A write of a `let` in the frame: the check, and the set.
fn write_checked_frame(out: &mut CodeBuf, slot: u32) -> Result<(), AllocError>
    requires { slot < 2 ^ 24 }
    ensures { OnOk result ((texts : List (List ℕ)) → Emits texts out.old out.new
        (whole (code.after_check (code.read_frame slot Access.Checked) (command.counted Op.SetLocal slot)))) }
{
    read_frame(out, slot, Access::Checked)?;
    plain(out, Op::Pop)?;
    counted(out, Op::SetLocal, slot)?;
    Ok(())
}

// A write of a `const` in the frame: the check, and a throw.
fn write_constant_frame(out: &mut CodeBuf, atom: u32, slot: u32) -> Result<(), AllocError>
    requires { slot < 2 ^ 24 }
    ensures { OnOk result ((texts : List (List ℕ)) → Emits texts out.old out.new
        (whole (code.after_check (code.read_frame slot Access.Constant) (command.named Op.ThrowSetConst (slice_index_or texts atom []))))) }
{
    read_frame(out, slot, Access::Constant)?;
    plain(out, Op::Pop)?;
    named(out, Op::ThrowSetConst, atom)?;
    Ok(())
}

fn write_checked_env(out: &mut CodeBuf, hops: u32, slot: u32) -> Result<(), AllocError>
    requires hops { hops < 2 ^ 16 }
    requires slot { slot < 2 ^ 24 }
    ensures { OnOk result ((texts : List (List ℕ)) → Emits texts out.old out.new
        (whole (code.after_check (code.read_env hops slot Access.Checked) (command.aliased Op.SetAliasedVar hops slot)))) }
{
    read_env(out, hops, slot, Access::Checked)?;
    plain(out, Op::Pop)?;
    aliased(out, Op::SetAliasedVar, hops, slot)?;
    Ok(())
}

fn write_constant_env(out: &mut CodeBuf, atom: u32, hops: u32, slot: u32) -> Result<(), AllocError>
    requires hops { hops < 2 ^ 16 }
    requires slot { slot < 2 ^ 24 }
    ensures { OnOk result ((texts : List (List ℕ)) → Emits texts out.old out.new
        (whole (code.after_check (code.read_env hops slot Access.Constant) (command.named Op.ThrowSetConst (slice_index_or texts atom []))))) }
{
    read_env(out, hops, slot, Access::Constant)?;
    plain(out, Op::Pop)?;
    named(out, Op::ThrowSetConst, atom)?;
    Ok(())
}

fn write_frame(out: &mut CodeBuf, atom: u32, slot: u32, access: Access) -> Result<(), AllocError>
    requires { slot < 2 ^ 24 }
    ensures { OnOk result ((texts : List (List ℕ)) → Emits texts out.old out.new
        (whole (code.write_frame (slice_index_or texts atom []) slot access))) }
{
    match access {
        Access::Free => Ok(counted(out, Op::SetLocal, slot)?),
        Access::Fixed => Ok(named(out, Op::ThrowSetConst, atom)?),
        Access::Checked => Ok(write_checked_frame(out, slot)?),
        Access::Constant => Ok(write_constant_frame(out, atom, slot)?),
    }
}

fn write_env(
    out: &mut CodeBuf,
    atom: u32,
    hops: u32,
    slot: u32,
    access: Access,
) -> Result<(), AllocError>
    requires hops { hops < 2 ^ 16 }
    requires slot { slot < 2 ^ 24 }
    ensures { OnOk result ((texts : List (List ℕ)) → Emits texts out.old out.new
        (whole (code.write_env (slice_index_or texts atom []) hops slot access))) }
{
    match access {
        Access::Free => Ok(aliased(out, Op::SetAliasedVar, hops, slot)?),
        Access::Fixed => Ok(named(out, Op::ThrowSetConst, atom)?),
        Access::Checked => Ok(write_checked_env(out, hops, slot)?),
        Access::Constant => Ok(write_constant_env(out, atom, hops, slot)?),
    }
}

/// A write of the value on top of the stack to the name.
pub fn write_at(out: &mut CodeBuf, atom: u32, place: &Place) -> Result<(), AllocError>
    requires { PlaceFits place.now }
    ensures { OnOk result ((texts : List (List ℕ)) → Emits texts out.old out.new (whole (code.write (slice_index_or texts atom []) place.now))) }
{
    match *place {
        Place::Global => Ok(named(out, Op::StrictSetGName, atom)?),
        Place::Arg(index) => Ok(counted(out, Op::SetArg, index)?),
        Place::Frame { slot, kind } => Ok(write_frame(out, atom, slot, access_of_kind(kind))?),
        Place::Env { hops, slot, kind } => Ok(write_env(
            out,
            atom,
            hops,
            slot,
            access_of_kind(kind),
        )?),
        Place::Callee => Ok(named(out, Op::ThrowSetConst, atom)?),
    }
}

/// The first value of a lexical name or a catch parameter.
pub fn init_at(out: &mut CodeBuf, atom: u32, place: &Place) -> Result<(), AllocError>
    requires { PlaceFits place.now }
    ensures { OnOk result ((texts : List (List ℕ)) → Emits texts out.old out.new (whole (code.init (slice_index_or texts atom []) place.now))) }
{
    match *place {
        Place::Global => Ok(named(out, Op::InitGLexical, atom)?),
        Place::Arg(index) => Ok(counted(out, Op::SetArg, index)?),
        Place::Frame { slot, kind: _ } => Ok(counted(out, Op::InitLexical, slot)?),
        Place::Env {
            hops,
            slot,
            kind: _,
        } => Ok(aliased(out, Op::InitAliasedLexical, hops, slot)?),
        Place::Callee => Ok(named(out, Op::ThrowSetConst, atom)?),
    }
}
