//! A function of a script, read again from its extent alone.
//!
//! It stands on unit_text, script_scanner and parse_parts, which decode, scan and parse; on grammar_alone_laws, scan_laws and
//! parse_skip_laws, whose laws say that a function's extent has its tokens, that these are the function alone, and that so are
//! those which are left without what stands in bodies inside it; and on parse_handlers, which makes the tree. Lazy compiling,
//! which reads a function where its code is first wanted, stands on it.
//!
//! [`read_function`] looks at the bytes of the extent and at no others. It answers the tree of the function that the script has
//! there, but for its name, which stands in front of the extent; the bodies of functions inside it are passed over. Where the
//! braces of such a body are found, by the extent of its function, what stands between them is not even decoded: one space is
//! scanned in its place. A body without braces, of an arrow, is scanned, and so is what stands in it. Only want of memory
//! refuses: what was read once as a function of a script is read again.
#![tactic(auto)]

ghost use Rattle.std.specs.Prelude.{◌≡◌, ℕ, ◌+◌, ◌-◌, ◌≤◌, ◌<◌, ◌^◌, length, IfOk};
ghost use Rattle.scope_analysis.specs.FunctionTree.{HasBody};
ghost use Rattle.scope_analysis.specs.Functions.{Inner};
ghost use Rattle.scope_analysis.specs.Kept.{under};
ghost use Rattle.script_grammar.specs.declared.tree.Func.{out-Func};
ghost use Rattle.script_grammar.specs.Tree.{Stmts};
ghost use Rattle.script_grammar.specs.TreeOf.{func_of};
ghost use Rattle.parser_atoms.specs.Places.{AreWithoutEquals};
ghost use Rattle.script_scanner.specs.Stands.{Keeps, GainsOnly};
ghost use Rattle.script_scanner.specs.Tokens.{tokens};
ghost use Rattle.unit_text.specs.Points.{points};
ghost use Rattle.grammar_alone_laws.specs.Alone.{nameless};
ghost use Rattle.parse_function.specs.Extents.{IsExtentOf, IsFunctionExtent, own_statements, body_in};
ghost use Rattle.parse_function.specs.Words.{KnowsAccessors};

mod glued;
mod holes;
mod parsing;
mod points;
mod scanning;

use parse_exprs::place::ParseFault;
use parse_track::region::WellKnownAtoms;
use parser_atoms::Atoms;
use script_grammar::token::FuncForm;
use script_grammar::tree::Func;
use std::alloc::{AllocError, Global};
use stencil_data::{Extent, Text};

/// The function of this form that has this extent in the script that `file` is. `inside` are the extents of the functions
/// directly in it, in the order of the source. `known` has the atoms of `get` and `set`.
///
/// The tree has no name, and the bodies of functions inside it are passed over. Time is linear in the bytes of the extent
/// without those in braces of bodies directly in it; memory is that of these bytes, or of their points where not all are of ASCII,
/// of its tokens, its tree and its new texts. The atoms of the tree are indexes into the texts that are answered: those that were
/// handed in, and after them those of the function's tokens that were not among these.
pub fn read_function(
    alloc: Global,
    file: &[u8],
    extent: Extent,
    inside: &[Extent],
    form: FuncForm,
    known: WellKnownAtoms,
    mut atoms: Atoms,
) -> Result<(Func, Vec<Text>), AllocError>
    requires size { length file.now ≤ 16777215 }
    requires function { IsFunctionExtent file.now extent form inside.now }
    requires words { KnowsAccessors atoms known }
    requires room { extent.end - extent.start + length atoms < 2 ^ 32 - 1 }
    ensures tree { IfOk result (λ read. (items : Stmts) (inner : Inner) → IsExtentOf file.now extent form items inner
        → func_of (under read.1.items (own_statements items)) read.0 ≡ nameless inner.func) }
    ensures body { IfOk result (λ read. (bodies : ℕ → Stmts)
        → HasBody (under read.1.items bodies) read.0 (body_in (func_of (under read.1.items bodies) read.0))) }
    ensures start { IfOk result (λ read. (out-Func read.0).start ≡ extent.start) }
    ensures end { IfOk result (λ read. (out-Func read.0).end ≡ extent.end) }
    ensures gains { IfOk result (λ read. GainsOnly atoms read.1.items (tokens (points file.now) extent.start extent.end)) }
    ensures keeps { IfOk result (λ read. Keeps atoms read.1.items) }
    ensures apart { IfOk result (λ read. AreWithoutEquals read.1.items) }
    ensures few { IfOk result (λ read. length read.1.items < 2 ^ 32) }
{
    let holes = holes::holes_in(alloc, file, extent, inside)?;
    let tokens = scanning::tokens_without(alloc, file, extent, &holes, &mut atoms)?;
    let texts = atoms.into_texts();
    match parsing::function_of(alloc, &tokens, form, known) {
        Ok(func) => Ok((func, texts)),
        Err(ParseFault::NoMemory) => Err(AllocError),
        Err(ParseFault::Unexpected { .. }) => unreachable!(),
        Err(ParseFault::TooDeep { .. }) => unreachable!(),
    }
}
