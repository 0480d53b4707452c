//! What JSON says of scripts beside their stencil.

ghost use Rattle.std.specs.Prelude.{IfOk};
ghost use Rattle.stencil_data.specs.declared.stencils.Entry.TheVariants as entry;
ghost use Rattle.holzikra_scripts.specs.Notes.{AreNotes, IsFunctionNote, IsTopNote, TellsCode, TellsEntry, TellsPlaces, source_of};

use crate::source::KnownText;
use bytecode_buf::{Instr, Shape, decode_at};
use holzikra_depths::depth_of;
use holzikra_flow::Environments;
use holzikra_names::around_functions;
use holzikra_objects::{BindingNote, InstructionNote, ScriptNotes, Users};
use holzikra_scopes::Uses;
use script_image::Listing;
use std::alloc::{AllocError, Global};
use stencil_data::{
    ClosedName, Entry, Extent, FunctionStencil, LazyRecord, MergedStencil, ScopeData, Slot,
};

/// A binding that lives in an environment: its function, its scope and its name; and its place among those of `Uses`.
#[derive(Clone, Copy)]
struct Named {
    key: (u32, u32, u32),
    place: usize,
}

/// Who uses the names of a script that are closed over.
#[derive(Drop)]
struct Closing {
    uses: Uses,
    /// The bindings in order of function, scope and name.
    named: Vec<Named>,
}

impl Closing {
    fn of(alloc: Global, stencil: &MergedStencil) -> Result<Closing, AllocError> {
        let uses = Uses::of(alloc, stencil)?;
        let mut named = Vec::new(alloc);
        for (place, bound) in uses.bindings.iter().enumerate() {
            named.push(Named {
                key: (bound.function, bound.scope, bound.binding.atom),
                place,
            })?;
        }
        named.sort_by_key(|one| one.key)?;
        Ok(Closing { uses, named })
    }

    /// The place of the binding that a closed name of a function is.
    fn place_of(&self, function: u32, closed: ClosedName) -> Option<usize> {
        let key = (function, closed.scope, closed.atom);
        let first = self.named.partition_point(|one| one.key < key);
        match self.named.get(first) {
            Some(one) if one.key == key => Some(one.place),
            _ => None,
        }
    }

    /// The users of a closed name of a function.
    fn users_of(
        &self,
        alloc: Global,
        function: u32,
        closed: ClosedName,
    ) -> Result<Users, AllocError> {
        let mut numbers = Vec::new(alloc);
        if let Some(place) = self.place_of(function, closed) {
            for one in self.uses.of_binding(place) {
                numbers.push(one.user)?;
            }
        }
        Ok(Users { numbers })
    }

    /// The users of each closed name of a function.
    fn all_users(
        &self,
        alloc: Global,
        function: u32,
        names: &[ClosedName],
    ) -> Result<Vec<Users>, AllocError> {
        let mut users = Vec::new(alloc);
        for closed in names {
            users.push(self.users_of(alloc, function, *closed)?)?;
        }
        Ok(users)
    }
}

/// The binding that an instruction means, which runs with this environment.
fn binding_of(environments: &Environments, environment: u32, instr: Instr) -> Option<BindingNote> {
    match instr.op.row().shape {
        Shape::Aliased => {
            let bound = environments.binding(environment, instr.a, instr.b)?;
            Some(BindingNote {
                function: bound.function,
                scope: bound.scope,
                atom: bound.binding.atom,
            })
        }
        _ => None,
    }
}

/// What is said of the instruction at an offset, if one stands there.
fn note_at(
    environments: &Environments,
    code: &[u8],
    at: usize,
    environment: Option<u32>,
) -> InstructionNote {
    let binding = match (environment, decode_at(code, at)) {
        (Some(environment), Some(instr)) => binding_of(environments, environment, instr),
        _ => None,
    };
    InstructionNote {
        reached: environment.is_some(),
        binding,
    }
}

/// What is said of the instructions of a code; nothing where it is not known with which environments they run.
fn instruction_notes(
    alloc: Global,
    environments: &mut Environments,
    function: u32,
    part: &FunctionStencil,
) -> Result<Vec<InstructionNote>, AllocError> {
    let mut notes = Vec::new(alloc);
    let Some(reached) = environments.flow(alloc, function, part)? else {
        return Ok(notes);
    };
    for (at, environment) in reached.iter().enumerate() {
        notes.push(note_at(environments, &part.code, at, *environment))?;
    }
    Ok(notes)
}

/// Adds the names of a scope that live in its environment, so that functions close over them.
fn add_closed(
    names: &mut Vec<ClosedName>,
    number: u32,
    scope: &ScopeData,
) -> Result<(), AllocError> {
    for binding in &scope.bindings {
        if matches!(binding.slot, Slot::Env(_)) {
            names.push(ClosedName {
                scope: number,
                atom: binding.atom,
            })?;
        }
    }
    Ok(())
}

/// The names of the script itself that functions close over.
fn closed_of_top(alloc: Global, top: &FunctionStencil) -> Result<Vec<ClosedName>, AllocError> {
    let mut names = Vec::new(alloc);
    let mut number = 0u32;
    for scope in &top.scopes {
        add_closed(&mut names, number, scope)?;
        number = number.saturating_add(1);
    }
    Ok(names)
}

/// The functions that stand directly in the script, by what is around each; the script is the first.
fn inner_of_top(alloc: Global, around: &[u32]) -> Result<Vec<u32>, AllocError> {
    let mut inner = Vec::new(alloc);
    let mut number = 0u32;
    for outer in around {
        if number > 0 && *outer == 0 {
            inner.push(number)?;
        }
        number = number.saturating_add(1);
    }
    Ok(inner)
}

/// What is said of the functions around and in a function, and of its names.
#[derive(Drop)]
struct Standing {
    around: Option<u64>,
    inner: Vec<u32>,
    closed: Vec<ClosedName>,
    users: Vec<Users>,
}

/// What is known of a script while notes are made of it, function by function.
#[derive(Drop)]
struct Known<'a> {
    alloc: Global,
    source: &'a KnownText<'a>,
    stencil: &'a MergedStencil,
    listing: Listing,
    around: Vec<u32>,
    closing: Closing,
}

impl<'a> Known<'a> {
    /// What is said of the instructions of a code, where code is listed.
    fn instructions_of(
        &self,
        environments: &mut Environments,
        number: u32,
        part: &FunctionStencil,
    ) -> Result<Vec<InstructionNote>, AllocError> {
        match self.listing {
            Listing::Code => instruction_notes(self.alloc, environments, number, part),
            Listing::Scopes => Ok(Vec::new(self.alloc)),
        }
    }

    /// What is said of a function that is not compiled.
    fn lazy_note(&self, extent: Extent, standing: Standing) -> ScriptNotes
        ensures places { TellsPlaces (source_of self.now.source.now) extent result }
        ensures code { TellsEntry entry.Lazy result }
    {
        let Standing {
            around,
            inner,
            closed,
            users,
        } = standing;
        ScriptNotes {
            around,
            bytes: None,
            depth: None,
            start: self.source.spot_of(extent.start),
            end: self.source.spot_of(extent.end),
            inner,
            closed,
            users,
            instructions: Vec::new(self.alloc),
        }
    }

    /// What is said of the script or of the function of this number, which is compiled.
    fn compiled_note(
        &self,
        environments: &mut Environments,
        number: u32,
        extent: Extent,
        part: &FunctionStencil,
        standing: Standing,
    ) -> Result<ScriptNotes, AllocError>
        ensures places { IfOk result (λ note. TellsPlaces (source_of self.now.source.now) extent note) }
        ensures code { IfOk result (λ note. TellsCode part.now note) }
    {
        let depth = depth_of(self.alloc, part)?;
        let instructions = self.instructions_of(environments, number, part)?;
        let Standing {
            around,
            inner,
            closed,
            users,
        } = standing;
        Ok(ScriptNotes {
            around,
            bytes: Some(part.code.len() as u64),
            depth,
            start: self.source.spot_of(extent.start),
            end: self.source.spot_of(extent.end),
            inner,
            closed,
            users,
            instructions,
        })
    }

    /// What is said of the script itself.
    fn top_note(&self, environments: &mut Environments) -> Result<ScriptNotes, AllocError>
        ensures { IfOk result (λ note. IsTopNote (source_of self.now.source.now) self.now.stencil.now.top note) }
    {
        let stencil = self.stencil;
        let top = &stencil.top;
        let closed = closed_of_top(self.alloc, top)?;
        let standing = Standing {
            around: None,
            inner: inner_of_top(self.alloc, &self.around)?,
            users: self.closing.all_users(self.alloc, 0, &closed)?,
            closed,
        };
        let note = self.compiled_note(environments, 0, top.extent, top, standing)?;
        Ok(note)
    }

    /// What is said of the function of this number.
    fn function_note(
        &self,
        environments: &mut Environments,
        number: u32,
        lazy: &LazyRecord,
        entry: &Entry,
    ) -> Result<ScriptNotes, AllocError>
        ensures { IfOk result (λ note. IsFunctionNote (source_of self.now.source.now) lazy.now entry.now note) }
    {
        let standing = Standing {
            around: self
                .around
                .get(number as usize)
                .map(|around| u64::from(*around)),
            inner: Vec::new(self.alloc),
            closed: Vec::new(self.alloc),
            users: self.closing.all_users(self.alloc, number, &lazy.closed)?,
        };
        match entry {
            Entry::Lazy => Ok(self.lazy_note(lazy.extent, standing)),
            Entry::Compiled(part) => {
                let note = self.compiled_note(environments, number, lazy.extent, part, standing)?;
                Ok(note)
            }
        }
    }
}

/// What is said of the script itself and of each function, in order of number: of instructions where code is listed. It takes time in
/// proportion to the code, up to logarithms, and is an error only where memory runs out.
pub(crate) fn script_notes(
    alloc: Global,
    listing: Listing,
    stencil: &MergedStencil,
    source: &KnownText<'_>,
) -> Result<Vec<ScriptNotes>, AllocError>
    ensures { IfOk result (λ notes. AreNotes (source_of source.now) stencil.now notes.items) }
{
    let mut environments = Environments::of(alloc, stencil)?;
    let known = Known {
        alloc,
        source,
        stencil,
        listing,
        around: around_functions(alloc, stencil)?,
        closing: Closing::of(alloc, stencil)?,
    };
    let mut notes = Vec::new(alloc);
    notes.push(known.top_note(&mut environments)?)?;
    for index in 0..stencil.records.len().min(stencil.entries.len()) {
        let number = u32::try_from(index + 1).unwrap_or(u32::MAX);
        let lazy = &stencil.records[index];
        let entry = &stencil.entries[index];
        notes.push(known.function_note(&mut environments, number, lazy, entry)?)?;
    }
    Ok(notes)
}
