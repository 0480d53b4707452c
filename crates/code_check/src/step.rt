//! What one instruction does to the stack, and where it goes.

ghost use Rattle.std.specs.Prelude.{◌≡◌, ◌+◌, ◌%◌, ◌^◌, ◌<◌};
ghost use Rattle.std.specs.Int.{cast_unsigned, w64};
ghost use Rattle.bytecode_buf.specs.Machine as machine;
ghost use Rattle.bytecode_buf.specs.Layout.{Numbered, instr_at};
ghost use Rattle.bytecode_buf.specs.Width.{first_of};
ghost use Rattle.code_check.specs.Steps.{AmountFits, FitsWidth, GainsLittle, IsStepOf, goes_further, next_landing, target_landing};

use bytecode_buf::{Count, Instr, Op};

/// Where an instruction may go, and how many values it gives there.
#[derive(Clone, Copy)]
pub(crate) struct Landing {
    /// An offset, which may lie outside of the code.
    pub at: u64,
    pub given: u64,
}

/// What an instruction does.
#[derive(Clone, Copy)]
pub(crate) struct Step {
    /// How many values it takes.
    pub taken: u64,
    pub next: Option<Landing>,
    pub target: Option<Landing>,
}

/// Whether an instruction of this opcode may go to the next one.
fn goes_further(op: Op) -> bool
    ensures { result ≡ goes_further (machine.flow_of op) }
{
    !matches!(
        op,
        Op::Goto | Op::Default | Op::Return | Op::RetRval | Op::Throw
    )
}

/// How many values a count is, by the instruction's operand.
fn amount(count: Count, operand: u64) -> u64
    requires { AmountFits count operand }
    ensures { result ≡ machine.amount count operand }
{
    match count {
        Count::Fixed(number) => u64::from(number),
        Count::More(number) => operand + u64::from(number),
    }
}

/// The offset to which a jump at an offset goes.
fn target_of(at: usize, distance: i64) -> u64
    ensures { result ≡ (at + cast_unsigned w64 distance) % 2 ^ 64 }
{
    (at as u64).wrapping_add(distance.cast_unsigned())
}

/// How many values an instruction of this opcode gives where it goes to its target.
fn given_away(op: Op, given: u64) -> u64
    ensures { result ≡ machine.given_away_by op given }
{
    match op {
        Op::Case => 0,
        _ => given,
    }
}

/// The next instruction, where this one may go there.
fn next_landing(instr: Instr, given: u64) -> Option<Landing>
    ensures { result ≡ next_landing instr given }
{
    if goes_further(instr.op) {
        Some(Landing {
            at: instr.next as u64,
            given,
        })
    } else {
        None
    }
}

/// The target of the instruction at an offset, where it is a jump.
fn target_landing(at: usize, instr: Instr, given: u64) -> Option<Landing>
    ensures { result ≡ target_landing at instr given }
{
    if instr.op.is_jump() {
        Some(Landing {
            at: target_of(at, instr.to),
            given: given_away(instr.op, given),
        })
    } else {
        None
    }
}

/// What the instruction at an offset does.
pub(crate) fn step_of(at: usize, instr: Instr) -> Step
    requires { FitsWidth instr }
    ensures gains { GainsLittle result }
    ensures steps { (i : Numbered) → instr ≡ instr_at at i → i.a < 256 ^ first_of i.op → IsStepOf i at result }
{
    let row = instr.op.row();
    let given = amount(row.pushes, instr.a);
    Step {
        taken: amount(row.pops, instr.a),
        next: next_landing(instr, given),
        target: target_landing(at, instr, given),
    }
}
