//! The commands `code` and `scopes`, for one text.

ghost use Rattle.std.specs.Prelude.{List, Some, length, IfOk};
ghost use Rattle.stencil_data.specs.Named.{NamedMerged};
ghost use Rattle.stencil_data.specs.StandsFor.{MergedStandsFor};
ghost use Rattle.bytecode_buf.specs.Command.{Listed};
ghost use Rattle.script_image.specs.Listed.{ShowsListed};
ghost use Rattle.holzikra_session.specs.Compiling.{AreScopes, IsCode, IsInspected, IsWritten};

use crate::inspected::Inspected;
use crate::verdict::{Compiled, Judge};
use holzikra_scripts::{
    Choice, drawn_scopes, graph_of_scopes, json_of_script, noted_code, plain_code, plain_scopes,
};
use holzikra_words::{CodeFormat, CodeOptions, ScopesFormat, ScopesOptions};
use script_image::Listing;
use std::alloc::{AllocError, Global};
use stencil_data::MergedStencil;

/// What is written of a script's code.
fn code_lines(
    alloc: Global,
    options: &CodeOptions,
    name: &str,
    text: &[u8],
    stencil: &MergedStencil,
    chosen: &Choice,
) -> Result<Vec<u8>, AllocError>
    ensures { IfOk result (λ out. (named : NamedMerged (List Listed)) → MergedStandsFor ShowsListed stencil.now named
        → IsCode options.now.format name.now (length text.now) (Some text.now) chosen.now named out.items) }
{
    match options.format {
        CodeFormat::Plain => {
            let lines = plain_code(alloc, name, stencil)?;
            Ok(lines)
        }
        CodeFormat::Human => {
            let lines = noted_code(alloc, name, text, stencil, options.source_lines, chosen)?;
            Ok(lines)
        }
        CodeFormat::Json => {
            let line = json_of_script(alloc, Listing::Code, name, text, stencil)?;
            Ok(line)
        }
    }
}

/// The listing of a text's code.
pub(crate) fn code_of<J: Judge>(
    alloc: Global,
    judge: &J,
    options: &CodeOptions,
    name: &str,
    text: &[u8],
) -> Result<Inspected<Vec<u8>>, AllocError>
    ensures { IfOk result (IsInspected (J.judges judge.now) options.now.functions.items text.now
        (λ out. IsWritten (J.shows judge.now) options.now.functions.items text.now
        (IsCode options.now.format name.now (length text.now) (Some text.now)) out.items)) }
{
    let compiled = judge.compile(alloc, text, &options.functions)?;
    match compiled {
        Compiled::Script(stencil, chosen) => {
            let lines = code_lines(alloc, options, name, text, &stencil, &chosen)?;
            Ok(Inspected::Script(lines))
        }
        Compiled::Refused(reason) => Ok(Inspected::Refused(reason)),
        Compiled::NoFunction(place) => Ok(Inspected::NoFunction(place)),
    }
}

/// What is written of a script's scopes.
fn scope_lines(
    alloc: Global,
    options: &ScopesOptions,
    name: &str,
    text: &[u8],
    stencil: &MergedStencil,
    chosen: &Choice,
) -> Result<Vec<u8>, AllocError>
    ensures { IfOk result (λ out. (named : NamedMerged (List Listed)) → MergedStandsFor ShowsListed stencil.now named
        → AreScopes options.now.format name.now (length text.now) (Some text.now) chosen.now named out.items) }
{
    match options.format {
        ScopesFormat::Plain => {
            let lines = plain_scopes(alloc, name, stencil)?;
            Ok(lines)
        }
        ScopesFormat::Json => {
            let line = json_of_script(alloc, Listing::Scopes, name, text, stencil)?;
            Ok(line)
        }
        ScopesFormat::Human => drawn_scopes(alloc, name, text, stencil, chosen),
        ScopesFormat::Dot => graph_of_scopes(alloc, name, stencil, chosen),
    }
}

/// The scopes of a text.
pub(crate) fn scopes_of<J: Judge>(
    alloc: Global,
    judge: &J,
    options: &ScopesOptions,
    name: &str,
    text: &[u8],
) -> Result<Inspected<Vec<u8>>, AllocError>
    ensures { IfOk result (IsInspected (J.judges judge.now) options.now.functions.items text.now
        (λ out. IsWritten (J.shows judge.now) options.now.functions.items text.now
        (AreScopes options.now.format name.now (length text.now) (Some text.now)) out.items)) }
{
    let compiled = judge.compile(alloc, text, &options.functions)?;
    match compiled {
        Compiled::Script(stencil, chosen) => {
            let lines = scope_lines(alloc, options, name, text, &stencil, &chosen)?;
            Ok(Inspected::Script(lines))
        }
        Compiled::Refused(reason) => Ok(Inspected::Refused(reason)),
        Compiled::NoFunction(place) => Ok(Inspected::NoFunction(place)),
    }
}
