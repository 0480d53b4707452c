// Jumps whose target has no place yet.
ghost use Rattle.std.specs.Prelude.{◌≡◌, ◌+◌, ◌<◌, ◌≤◌, ◌^◌, ◌++◌, ◌∷◌, [], List, ℕ, true, length, OnOk};
ghost use Rattle.bytecode_buf.specs.Pieces.{same_aim};
ghost use Rattle.bytecode_buf.specs.Appends.{patched, kept, AllRoom};
ghost use Rattle.bytecode_buf.specs.Emits.{Lands, LandsHere, Waits, TurnsBack};
ghost use Rattle.bytecode_buf.specs.Width.{is_jump};

use crate::buffer::CodeBuf;
use crate::opcode::Op;
use std::alloc::AllocError;

/// What a jump waits for. The statement or expression that owns the place binds the aim there.
#[derive(Clone, Copy)]
pub enum Aim {
    /// The other branch of a choice.
    Otherwise,
    /// What follows the statement or expression.
    After,
    /// The clause of the innermost switch with this number.
    Clause(usize),
    /// Where a break goes that leaves the statement at this level of nesting.
    Break(usize),
    /// Where a continue goes that takes up the loop at this level of nesting.
    Continue(usize),
}

impl Aim {
    /// Whether both wait for the same place.
    pub fn is(self, other: Aim) -> bool
        ensures { result ≡ same_aim self other }
    {
        match self {
            Aim::Otherwise => matches!(other, Aim::Otherwise),
            Aim::After => matches!(other, Aim::After),
            Aim::Clause(number) => match other {
                Aim::Clause(wanted) => number == wanted,
                _ => false,
            },
            Aim::Break(level) => match other {
                Aim::Break(wanted) => level == wanted,
                _ => false,
            },
            Aim::Continue(level) => match other {
                Aim::Continue(wanted) => level == wanted,
                _ => false,
            },
        }
    }
}

/// A jump that waits: its offset, and what for.
#[derive(Clone, Copy)]
pub struct Wait {
    pub at: usize,
    pub aim: Aim,
}

/// Sends each jump of `inner` that waits for this aim to the end of the code, and hands the others on.
pub fn land(
    out: &mut CodeBuf,
    inner: &[Wait],
    aim: Aim,
    waits: &mut Vec<Wait>,
) -> Result<(), AllocError>
    requires { AllRoom (length out.old) inner.now }
    ensures bytes { OnOk result (out.new ≡ patched aim inner.now out.old) }
    ensures waits { OnOk result (waits.new.items ≡ waits.old.items ++ kept aim inner.now) }
    ensures lands { OnOk result (Lands aim out.old inner.now waits.old.items out.new waits.new.items) }
{
    let end = out.len();
    for wait in inner {
        if aim.is(wait.aim) {
            out.patch(wait.at, end);
        } else {
            waits.push(*wait)?;
        }
    }
    Ok(())
}

/// Puts a JumpTarget at the end of the code, to which each jump of `inner` goes that waits for this aim.
pub fn target(
    out: &mut CodeBuf,
    inner: &[Wait],
    aim: Aim,
    waits: &mut Vec<Wait>,
) -> Result<(), AllocError>
    requires { AllRoom (length out.old) inner.now }
    ensures lands { OnOk result (LandsHere aim out.old inner.now waits.old.items out.new waits.new.items) }
    ensures waits { OnOk result (waits.new.items ≡ waits.old.items ++ kept aim inner.now) }
{
    land(out, inner, aim, waits)?;
    out.put(Op::JumpTarget, 0, 0)?;
    Ok(())
}

/// Appends a jump that waits for this aim.
pub fn jump_to(out: &mut CodeBuf, op: Op, aim: Aim, waits: &mut Vec<Wait>) -> Result<(), AllocError>
    requires { is_jump op ≡ true }
    ensures jumps { OnOk result (Waits op aim out.old waits.old.items out.new waits.new.items) }
    ensures waits { OnOk result (waits.new.items ≡ waits.old.items ++ record { at = length out.old; aim = aim } ∷ []) }
{
    let at = out.jump(op)?;
    waits.push(Wait { at, aim })?;
    Ok(())
}

/// Appends a jump back to `start`.
pub fn turn(out: &mut CodeBuf, op: Op, start: usize) -> Result<(), AllocError>
    requires jump { is_jump op ≡ true }
    requires start { start < length out.old }
    ensures { OnOk result (TurnsBack op start out.old out.new) }
{
    let at = out.jump(op)?;
    out.patch(at, start);
    Ok(())
}
