//! Single instructions, by what stands after their opcode.
ghost use Rattle.std.specs.Prelude.{◌≡◌, ℕ, ◌^◌, ◌<◌, List, true, OnOk, slice_index_or, []};
ghost use Rattle.bytecode_buf.specs.declared.opcode.Shape.TheVariants as shape;
ghost use Rattle.bytecode_buf.specs.Width.{shape_of, first_of};
ghost use Rattle.bytecode_buf.specs.Command as command;
ghost use Rattle.bytecode_buf.specs.Pieces.{one};
ghost use Rattle.bytecode_buf.specs.Emits.{Emits};
ghost use Rattle.emit_exprs.specs.Steps.{is_counted};

use bytecode_buf::{CodeBuf, Op};
use std::alloc::AllocError;

/// An instruction without an operand.
pub fn plain(out: &mut CodeBuf, op: Op) -> Result<(), AllocError>
    requires { shape_of op ≡ shape.Nothing }
    ensures { OnOk result ((texts : List (List ℕ)) → Emits texts out.old out.new (one (command.plain op))) }
{
    out.put(op, 0, 0)?;
    Ok(())
}

/// An instruction whose operand is a number.
pub fn counted(out: &mut CodeBuf, op: Op, number: u32) -> Result<(), AllocError>
    requires counted { is_counted op ≡ true }
    requires fits { number < 256 ^ first_of op }
    ensures { OnOk result ((texts : List (List ℕ)) → Emits texts out.old out.new (one (command.counted op number))) }
{
    out.put(op, u64::from(number), 0)?;
    Ok(())
}

/// An instruction whose operand is a text, by its number.
pub fn named(out: &mut CodeBuf, op: Op, atom: u32) -> Result<(), AllocError>
    requires { shape_of op ≡ shape.Atom }
    ensures { OnOk result ((texts : List (List ℕ)) → Emits texts out.old out.new (one (command.named op (slice_index_or texts atom [])))) }
{
    out.put(op, u64::from(atom), 0)?;
    Ok(())
}

/// An instruction whose operand is a slot of an environment.
pub fn aliased(out: &mut CodeBuf, op: Op, hops: u32, slot: u32) -> Result<(), AllocError>
    requires aliased { shape_of op ≡ shape.Aliased }
    requires hops { hops < 2 ^ 16 }
    requires slot { slot < 2 ^ 24 }
    ensures { OnOk result ((texts : List (List ℕ)) → Emits texts out.old out.new (one (command.aliased op hops slot))) }
{
    out.put(op, u64::from(hops), u64::from(slot))?;
    Ok(())
}
