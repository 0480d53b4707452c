// What is done with a value, or with the place that it came from.
ghost use Rattle.std.specs.Prelude.{◌≡◌, ℕ, List, OnOk, slice_index_or, [], ◌∷◌};
ghost use Rattle.bytecode_buf.specs.Command as command;
ghost use Rattle.bytecode_buf.specs.Emits.{Emits};
ghost use Rattle.emit_exprs.specs.Exprs as code;
ghost use Rattle.emit_exprs.specs.Whole.{whole};

use crate::steps::{named, plain};
use bytecode_buf::{CodeBuf, Op};
use std::alloc::AllocError;

/// How a value is used.
#[derive(Clone, Copy)]
pub enum Use {
    /// The value is wanted.
    Plainly,
    /// It is called: the value, and below it the one that it is called on.
    Called,
    /// The place is wanted, to read and write it.
    Reached,
    /// The place is deleted.
    Deleted,
}

/// In place of a value that was deleted and is no property: true.
pub fn pop_true(out: &mut CodeBuf) -> Result<(), AllocError>
    ensures { OnOk result ((texts : List (List ℕ)) → Emits texts out.old out.new (whole (command.plain Op.Pop ∷ command.plain Op.True ∷ []))) }
{
    plain(out, Op::Pop)?;
    plain(out, Op::True)?;
    Ok(())
}

/// What stands after a value that is no property.
#[tactic(auto, using(crate::proofs::Singles::emits_nothing))]
pub fn used_value(out: &mut CodeBuf, wanted: Use) -> Result<(), AllocError>
    ensures { OnOk result ((texts : List (List ℕ)) → Emits texts out.old out.new (code.used_value wanted)) }
{
    match wanted {
        Use::Plainly => Ok(()),
        Use::Called => Ok(plain(out, Op::Undefined)?),
        Use::Reached => Ok(()),
        Use::Deleted => Ok(pop_true(out)?),
    }
}

fn called_dot(out: &mut CodeBuf, atom: u32) -> Result<(), AllocError>
    ensures { OnOk result ((texts : List (List ℕ)) → Emits texts out.old out.new (code.used_dot Use.Called (slice_index_or texts atom []))) }
{
    plain(out, Op::Dup)?;
    named(out, Op::GetProp, atom)?;
    plain(out, Op::Swap)?;
    Ok(())
}

/// What stands after an object, at one of its properties.
#[tactic(auto, using(crate::proofs::Singles::emits_nothing))]
pub fn used_dot(out: &mut CodeBuf, wanted: Use, atom: u32) -> Result<(), AllocError>
    ensures { OnOk result ((texts : List (List ℕ)) → Emits texts out.old out.new (code.used_dot wanted (slice_index_or texts atom []))) }
{
    match wanted {
        Use::Plainly => Ok(named(out, Op::GetProp, atom)?),
        Use::Called => Ok(called_dot(out, atom)?),
        Use::Reached => Ok(()),
        Use::Deleted => Ok(named(out, Op::StrictDelProp, atom)?),
    }
}

/// What stands after an object, before the key of one of its properties.
#[tactic(auto, using(crate::proofs::Singles::emits_nothing))]
pub fn before_index(out: &mut CodeBuf, wanted: Use) -> Result<(), AllocError>
    ensures { OnOk result ((texts : List (List ℕ)) → Emits texts out.old out.new (code.before_index wanted)) }
{
    match wanted {
        Use::Plainly => Ok(()),
        Use::Called => Ok(plain(out, Op::Dup)?),
        Use::Reached => Ok(()),
        Use::Deleted => Ok(()),
    }
}

fn called_index(out: &mut CodeBuf) -> Result<(), AllocError>
    ensures { OnOk result ((texts : List (List ℕ)) → Emits texts out.old out.new (code.behind_index Use.Called)) }
{
    plain(out, Op::GetElem)?;
    plain(out, Op::Swap)?;
    Ok(())
}

/// What stands after that key.
#[tactic(auto, using(crate::proofs::Singles::emits_nothing))]
pub fn behind_index(out: &mut CodeBuf, wanted: Use) -> Result<(), AllocError>
    ensures { OnOk result ((texts : List (List ℕ)) → Emits texts out.old out.new (code.behind_index wanted)) }
{
    match wanted {
        Use::Plainly => Ok(plain(out, Op::GetElem)?),
        Use::Called => Ok(called_index(out)?),
        Use::Reached => Ok(()),
        Use::Deleted => Ok(plain(out, Op::StrictDelElem)?),
    }
}
