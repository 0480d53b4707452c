//! A function that is read on its own, with what its record says of it, by texts of its own.

ghost use Rattle.std.specs.Prelude.{IfOk};
ghost use Rattle.lazy_compile.specs.Alone.{ReadsAlone};
ghost use Rattle.lazy_compile.specs.Delazified.{CanBeRead};
ghost use Rattle.lazy_compile.specs.Texts.{AreTextsOf};

use crate::forms::form_of;
use crate::own_texts::{own_closed, own_name};
use parse_function::read_function;
use parser_atoms::Atoms;
use script_grammar::tree::Func;
use std::alloc::{AllocError, Global};
use stencil_data::{ClosedName, Extent, LazyRecord, Text};
use track_atoms::known_words;

/// The tree of a function, its name, and its names that functions in it close over. Atoms are indexes into `texts`.
#[derive(Drop)]
pub(crate) struct FunctionAlone {
    pub func: Func,
    pub name: Option<u32>,
    pub closed: Vec<ClosedName>,
    pub texts: Vec<Text>,
}

/// Reads the function that has this record in the script that `file` is. `inside` are the extents of the functions directly in
/// it, and the atoms of the record are indexes into `texts`.
pub(crate) fn read_alone(
    alloc: Global,
    file: &[u8],
    lazy: &LazyRecord,
    inside: &[Extent],
    texts: &[Text],
) -> Result<FunctionAlone, AllocError>
    requires { CanBeRead file.now lazy.now inside.now texts.now }
    ensures read { IfOk result (ReadsAlone file.now lazy.now texts.now) }
    ensures texts { IfOk result (λ alone. AreTextsOf file.now texts.now alone.texts.items) }
{
    let mut atoms = Atoms::new(alloc);
    let known = known_words(alloc, &mut atoms)?;
    let name = own_name(alloc, &mut atoms, lazy.name, texts)?;
    let closed = own_closed(alloc, &mut atoms, &lazy.closed, texts)?;
    let form = form_of(lazy.kind);
    let (func, texts) = read_function(alloc, file, lazy.extent, inside, form, known, atoms)?;
    Ok(FunctionAlone {
        func,
        name,
        closed,
        texts,
    })
}
