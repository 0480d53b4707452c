// What joins the operands of a binary list.
ghost use Rattle.std.specs.Prelude.{ℕ, List, length, map, OnOk};
ghost use Rattle.script_grammar.specs.Interpretation.{Interpretation};
ghost use Rattle.script_grammar.specs.TreeLists.{operands_of};
ghost use Rattle.script_grammar.specs.TreeOf.{operand_of};
ghost use Rattle.bytecode_buf.specs.Appends.{AllRoom};
ghost use Rattle.bytecode_buf.specs.Emits.{Emits};
ghost use Rattle.emit_exprs.specs.Exprs as code;
ghost use Rattle.emit_exprs.specs.Shortcuts.{Begins, Ends, Joins};

use crate::site::Site;
use crate::steps::plain;
use bytecode_buf::{Aim, CodeBuf, Op, Wait, jump_to, target};
use emit_operators::{Joining, Short, binary_op};
use script_grammar::tree::Operand;
use std::alloc::AllocError;

// A jump over the operand that follows, which keeps the value so far.
fn jump_short(out: &mut CodeBuf, short: Short, waits: &mut Vec<Wait>) -> Result<(), AllocError>
    ensures { OnOk result (Begins (Joining.Shortcut short) out.old waits.old.items out.new waits.new.items) }
{
    jump_to(out, short.op(), Aim::After, waits)?;
    plain(out, Op::Pop)?;
    Ok(())
}

/// What stands before an operand but the first.
#[tactic(auto, using(crate::proofs::Choices::begins_left, crate::proofs::Choices::begins_right))]
pub fn before_operand(
    out: &mut CodeBuf,
    how: Joining,
    waits: &mut Vec<Wait>,
) -> Result<(), AllocError>
    ensures { OnOk result (Begins how out.old waits.old.items out.new waits.new.items) }
{
    match how {
        Joining::FromLeft => Ok(()),
        Joining::FromRight => Ok(()),
        Joining::Shortcut(short) => Ok(jump_short(out, short, waits)?),
    }
}

/// What stands after an operand but the first.
#[tactic(auto, using(crate::proofs::Singles::emits_nothing))]
pub fn behind_operand(
    out: &mut CodeBuf,
    how: Joining,
    is_word: bool,
    sign: u8,
) -> Result<(), AllocError>
    ensures { OnOk result ((texts : List (List ℕ)) → Emits texts out.old out.new (code.behind_operand how is_word sign)) }
{
    match how {
        Joining::FromLeft => Ok(plain(out, binary_op(is_word, sign))?),
        Joining::FromRight => Ok(()),
        Joining::Shortcut(_) => Ok(()),
    }
}

// The operators of a list of `**`.
fn powers(out: &mut CodeBuf, rest: &[Operand]) -> Result<(), AllocError>
    ensures { OnOk result ((texts : List (List ℕ)) (i : Interpretation)
        → Emits texts out.old out.new (code.powers (operands_of (map (operand_of i) rest.now)))) }
{
    for _operand in rest {
        plain(out, Op::Pow)?;
    }
    Ok(())
}

// The end of a list of shortcuts, where all of them go.
fn end_shortcuts(out: &mut CodeBuf, site: &Site, waits: &[Wait]) -> Result<(), AllocError>
    requires { AllRoom (length out.old) waits.now }
    ensures { OnOk result (Ends site.now out.old waits.now out.new) }
{
    let mut outside = Vec::new(site.alloc);
    target(out, waits, Aim::After, &mut outside)?;
    Ok(())
}

/// What stands after all operands.
#[tactic(auto, using(crate::proofs::Choices::joins_left, crate::proofs::Choices::joins_right, crate::proofs::Choices::joins_short))]
pub fn join(
    out: &mut CodeBuf,
    site: &Site,
    how: Joining,
    rest: &[Operand],
    waits: &[Wait],
) -> Result<(), AllocError>
    requires { AllRoom (length out.old) waits.now }
    ensures { OnOk result (Joins site.now how rest.now out.old waits.now out.new) }
{
    match how {
        Joining::FromLeft => Ok(()),
        Joining::FromRight => Ok(powers(out, rest)?),
        Joining::Shortcut(_) => Ok(end_shortcuts(out, site, waits)?),
    }
}
