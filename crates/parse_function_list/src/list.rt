//! The functions of a script.

ghost use Rattle.std.specs.Prelude.{◌≡◌, IfOk};
ghost use Rattle.parse_track.specs.EarlyErrors.{error_of};
ghost use Rattle.parse_function_list.specs.Lists.{FindsLateError, ListsFunctions};

use crate::listing::Listing;
use parse_handlers::SyntaxBody;
use parse_track::region::Early;
use std::alloc::{AllocError, Global};
use stencil_data::{Extent, FuncKind};

/// The rule that a directive `use strict` breaks in the body of a function with an initializer or a rest parameter (ECMA-262,
/// 12th edition, 15.2.1).
const STRICT_RULE: u8 = 14;

/// A function of a script.
#[derive(Drop)]
pub struct ListedFunction {
    pub extent: Extent,
    pub kind: FuncKind,
    /// The atom of its name.
    pub name: Option<u32>,
    /// The extents of the functions directly in it, in the order of the source.
    pub inner: Vec<Extent>,
    /// The number of the function around it, from 1; 0 where it stands directly in the script.
    pub around: usize,
    /// Its place among the functions directly there, from 0.
    pub place: usize,
}

/// A body in braces: the functions directly in it, and the offset of the first directive `use strict` at its head, in bytes.
#[derive(Drop)]
pub struct FoundBody {
    pub found: SyntaxBody,
    pub strict: Option<u32>,
}

/// The functions of a script in order of number, the first of which is 1, and the first early error of a directive
/// `use strict` in the body of a function with an initializer or a rest parameter (rule 14).
#[derive(Drop)]
pub struct ScriptFunctions {
    pub functions: Vec<ListedFunction>,
    pub late: Option<Early>,
}

// The early error of such a directive.
fn early_of(strict: Option<u32>) -> Option<Early>
    ensures { result ≡ error_of 14 strict }
{
    match strict {
        None => None,
        Some(offset) => Some(Early {
            offset,
            rule: STRICT_RULE,
        }),
    }
}

/// The functions of a script: from what was found in its statements, and in the bodies in braces of its functions in the
/// order of the source, those inside a body after it and of one function those in its parameters before its own. The error
/// is that memory is out.
pub fn functions_of(
    alloc: Global,
    top: SyntaxBody,
    bodies: Vec<FoundBody>,
) -> Result<ScriptFunctions, AllocError>
    ensures functions { IfOk result (λ made. ListsFunctions top bodies.items made.functions.items) }
    ensures late { IfOk result (λ made. FindsLateError top bodies.items made.late) }
{
    let mut listing = Listing::new(alloc, bodies);
    let mut directly = Vec::new(alloc);
    listing.list_all(&top.found, 0, &mut directly)?;
    let Listing {
        alloc: _,
        functions,
        bodies: _,
        strict,
    } = listing;
    Ok(ScriptFunctions {
        functions,
        late: early_of(strict),
    })
}
