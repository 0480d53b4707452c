//! Scripts before any of their functions is compiled.

ghost use Rattle.std.specs.Prelude.{◌≤◌, length, IfOk};
ghost use Rattle.compile_initial.specs.Initial.{IsInitialOf};

use compile_first_pass::{FirstPass, first_pass};
use compile_initial::{InitialStencil, initial};
use parse_skim_handler::Skimming;
use std::alloc::Global;
use std::test::Fail;

/// What the script of these bytes is before any of its functions is compiled.
pub(crate) fn initial_of(alloc: Global, bytes: &[u8]) -> Result<InitialStencil, Fail>
    requires { length bytes.now ≤ 16777215 }
    ensures { IfOk result (IsInitialOf bytes.now) }
{
    let pass = first_pass(alloc, Skimming::new(alloc), bytes)?;
    match pass {
        FirstPass::Script(script) => {
            let before = initial(alloc, script, bytes.len() as u32)?;
            Ok(before)
        }
        FirstPass::Refused(_) => Err(Fail::from("refused")),
    }
}
