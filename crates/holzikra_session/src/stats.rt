//! The command `stats`, for one text.

ghost use Rattle.std.specs.Prelude.{[], IfOk};
ghost use Rattle.holzikra_session.specs.Compiling.{AreCounts, AreCountsOf, IsInspected};

use crate::inspected::Inspected;
use crate::verdict::{Compiled, Judge};
use holzikra_scripts::{Row, row_of};
use std::alloc::{AllocError, Global};
use stencil_data::MergedStencil;

/// What is counted of a script.
fn row_for(alloc: Global, text: &[u8], stencil: &MergedStencil) -> Result<Row, AllocError>
    ensures { IfOk result (AreCountsOf stencil.now text.now) }
{
    let row = row_of(alloc, text, stencil)?;
    Ok(row)
}

/// What is counted of a text.
pub(crate) fn counts_of_text<J: Judge>(
    alloc: Global,
    judge: &J,
    text: &[u8],
) -> Result<Inspected<Row>, AllocError>
    ensures { IfOk result (IsInspected (J.judges judge.now) [] text.now (AreCounts (J.shows judge.now) [] text.now)) }
{
    let compiled = judge.compile(alloc, text, &[])?;
    match compiled {
        Compiled::Script(stencil, _) => {
            let row = row_for(alloc, text, &stencil)?;
            Ok(Inspected::Script(row))
        }
        Compiled::Refused(reason) => Ok(Inspected::Refused(reason)),
        Compiled::NoFunction(place) => Ok(Inspected::NoFunction(place)),
    }
}
