//! What one instruction does with environments, and where it leads.

ghost use Rattle.std.specs.Prelude.{◌≡◌, ◌+◌, ◌%◌, ◌^◌};
ghost use Rattle.std.specs.Int.{cast_unsigned, w64};
ghost use Rattle.bytecode_buf.specs.Machine.{flow_of};
ghost use Rattle.holzikra_flow.specs.Flow.{change_of, goes_on};

use bytecode_buf::{Instr, Op};

/// What an instruction does with the environment with which it runs.
#[derive(Clone, Copy)]
pub(crate) enum Change {
    /// It leaves it.
    Keep,
    /// The environment of this scope of the function is put inside of it.
    Push(u64),
    /// The one outside of it takes its place.
    Pop,
}

/// Whether control may go on to the next instruction.
pub(crate) fn goes_on(op: Op) -> bool
    ensures { result ≡ goes_on (flow_of op) }
{
    !matches!(
        op,
        Op::Goto | Op::Default | Op::Return | Op::RetRval | Op::Throw
    )
}

/// The offset to which a jump at an offset goes.
pub(crate) fn target_of(at: usize, distance: i64) -> u64
    ensures { result ≡ (at + cast_unsigned w64 distance) % 2 ^ 64 }
{
    (at as u64).wrapping_add(distance.cast_unsigned())
}

/// What an instruction does with its environment.
pub(crate) fn change_of(instr: Instr) -> Change
    ensures { result ≡ change_of instr.op instr.a }
{
    match instr.op {
        Op::PushLexicalEnv => Change::Push(instr.a),
        Op::PushVarEnv => Change::Push(instr.a),
        Op::PopLexicalEnv => Change::Pop,
        _ => Change::Keep,
    }
}
