// Instructions whose operand is a count of the tree.
ghost use Rattle.std.specs.Prelude.{◌≡◌, ◌≤◌, ◌<◌, ◌+◌, ◌^◌, ◌++◌, [], ◌∷◌, OnOk};
ghost use Rattle.bytecode_buf.specs.Command as command;
ghost use Rattle.bytecode_buf.specs.Pieces.{one};
ghost use Rattle.emit_exprs.specs.Exprs as code;
ghost use Rattle.emit_exprs.specs.TreeCode.{Calls, Written};
ghost use Rattle.emit_exprs.specs.Whole.{whole};

use crate::site::Site;
use crate::steps::counted;
use crate::uses::{Use, used_value};
use bytecode_buf::{CodeBuf, Op};
use std::alloc::AllocError;

// The most arguments of a call.
const MOST_ARGS: u32 = 65_535;

// A count, or the most that its operand holds: no tree of a script has more.
fn count_within(count: usize, most: u32) -> u32
    ensures bound { result ≤ most }
    ensures same { count ≤ most → result ≡ count }
{
    if count <= most as usize {
        count as u32
    } else {
        most
    }
}

/// A call with n arguments.
pub fn call(out: &mut CodeBuf, site: &Site, count: usize, wanted: Use) -> Result<(), AllocError>
    ensures { OnOk result (Calls site.now out.old out.new count (one (command.counted Op.Call count) ++ code.used_value wanted)) }
{
    counted(out, Op::Call, count_within(count, MOST_ARGS))?;
    used_value(out, wanted)?;
    Ok(())
}

/// A `new` with n arguments.
pub fn construct(
    out: &mut CodeBuf,
    site: &Site,
    count: usize,
    wanted: Use,
) -> Result<(), AllocError>
    ensures { OnOk result (Calls site.now out.old out.new count
        (whole (command.counted Op.Pick (count + 1) ∷ command.counted Op.New count ∷ []) ++ code.used_value wanted)) }
{
    let args = count_within(count, MOST_ARGS);
    counted(out, Op::Pick, args + 1)?;
    counted(out, Op::New, args)?;
    used_value(out, wanted)?;
    Ok(())
}

/// An array with room for n items.
pub fn new_array(out: &mut CodeBuf, site: &Site, count: usize) -> Result<(), AllocError>
    ensures { OnOk result (Written site.now out.old out.new (λ bodies. count < 2 ^ 32) (λ bodies. one (command.counted Op.NewArray count))) }
{
    counted(out, Op::NewArray, count_within(count, u32::MAX))?;
    Ok(())
}

/// The value on top of the stack as an array's item with this index.
pub fn array_item(out: &mut CodeBuf, site: &Site, index: usize) -> Result<(), AllocError>
    ensures { OnOk result (Written site.now out.old out.new (λ bodies. index < 2 ^ 32) (λ bodies. one (command.counted Op.InitElemArray index))) }
{
    counted(out, Op::InitElemArray, count_within(index, u32::MAX))?;
    Ok(())
}
