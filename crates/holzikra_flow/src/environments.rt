//! The environments that the code of a script makes, each with the one outside of it.

ghost use Rattle.std.specs.Prelude.{IfOk, IfSome};
ghost use Rattle.holzikra_flow.specs.Flow.{IsFlow};

use crate::bindings::{Bound, owned_bindings};
use crate::checking::is_flow;
use crate::search::search;
use bytecode_buf::{Op, decode_at};
use std::alloc::{AllocError, Global};
use stencil_data::{FuncKind, FunctionStencil, MergedStencil, ScopeKind};

/// An environment that running code makes.
#[derive(Clone, Copy)]
pub enum Environment {
    /// The script's, outside of which is none.
    Global,
    /// That of a scope of a function, inside of the environment with the number `outer`.
    Inner {
        function: u32,
        scope: u32,
        outer: u32,
    },
}

/// The environments of a script. The number of an environment is its place in `all`, in which the global one is the first.
#[derive(Drop)]
pub struct Environments {
    pub all: Vec<Environment>,
    /// For each function the environment in which it is made, where that is known. The script is function 0.
    pub around: Vec<Option<u32>>,
    /// The bindings that live in environments, by function, scope and slot.
    pub owned: Vec<Bound>,
}

/// Appends an environment and answers its number, if there are not too many.
pub(crate) fn put(
    all: &mut Vec<Environment>,
    environment: Environment,
) -> Result<Option<u32>, AllocError> {
    let number = u32::try_from(all.len()).ok();
    all.push(environment)?;
    Ok(number)
}

/// Which functions are made by a `Lambda` in the script's own code, whether or not it is reached. The script is function 0.
fn made_by_script(alloc: Global, merged: &MergedStencil) -> Result<Vec<bool>, AllocError> {
    let mut made = vec![in alloc; false; merged.records.len().saturating_add(1)]?;
    let code = merged.top.code.as_slice();
    let mut at = 0;
    for _ in 0..code.len() {
        let Some(instr) = decode_at(code, at) else {
            break;
        };
        if matches!(instr.op, Op::Lambda) && (instr.a as usize) < made.len() {
            made[instr.a as usize] = true;
        }
        at = instr.next;
    }
    Ok(made)
}

/// Which functions stand in another function. The script is function 0.
fn inner_functions(alloc: Global, merged: &MergedStencil) -> Result<Vec<bool>, AllocError> {
    let mut inner = vec![in alloc; false; merged.records.len().saturating_add(1)]?;
    for lazy in &merged.records {
        mark(&mut inner, &lazy.inner);
    }
    Ok(inner)
}

fn mark(marks: &mut [bool], numbers: &[u32]) {
    for number in numbers {
        if (*number as usize) < marks.len() {
            marks[*number as usize] = true;
        }
    }
}

impl Environments {
    /// Those of a script before any of its code is looked at: the global one, in which the script runs and in which the functions
    /// that are declared at its top are made.
    pub fn of(alloc: Global, merged: &MergedStencil) -> Result<Environments, AllocError> {
        let mut all = Vec::new(alloc);
        all.push(Environment::Global)?;
        let made = made_by_script(alloc, merged)?;
        let inner = inner_functions(alloc, merged)?;
        let mut around = Vec::new(alloc);
        around.push(Some(0))?;
        for (index, lazy) in merged.records.iter().enumerate() {
            let by_declaration = lazy.kind == FuncKind::Declared
                && made.get(index + 1) == Some(&false)
                && inner.get(index + 1) == Some(&false);
            around.push(if by_declaration { Some(0) } else { None })?;
        }
        Ok(Environments {
            all,
            around,
            owned: owned_bindings(alloc, merged)?,
        })
    }

    /// The environment with which a function's code starts: inside of the one around it are those of its own scopes that have one
    /// from the start.
    fn enter(
        &mut self,
        number: u32,
        part: &FunctionStencil,
        around: u32,
    ) -> Result<Option<u32>, AllocError> {
        let mut innermost = around;
        let mut index = 0u32;
        for scope in &part.scopes {
            let enters = matches!(
                scope.kind,
                ScopeKind::StrictNamedLambda | ScopeKind::Function
            );
            if enters && scope.env_slots > 0 {
                let own = Environment::Inner {
                    function: number,
                    scope: index,
                    outer: innermost,
                };
                match put(&mut self.all, own)? {
                    Some(next) => innermost = next,
                    None => return Ok(None),
                }
            }
            index = index.saturating_add(1);
        }
        Ok(Some(innermost))
    }

    /// Writes down in which environments the functions are made that a code makes.
    fn note_functions(&mut self, code: &[u8], reached: &[Option<u32>]) {
        for (at, environment) in reached.iter().enumerate() {
            if environment.is_none() {
                continue;
            }
            let Some(instr) = decode_at(code, at) else {
                continue;
            };
            if matches!(instr.op, Op::Lambda) && (instr.a as usize) < self.around.len() {
                self.around[instr.a as usize] = *environment;
            }
        }
    }

    /// For each offset of the code of the function of this number the environment with which the instruction there runs, `None`
    /// where no path through the code leads. The code of the function around it has to have been looked at before, so functions
    /// are looked at in order of number, the script as function 0 first.
    ///
    /// There is no answer where it is not known in which environment the function is made, or where two paths lead to one
    /// instruction with different environments, which code that was compiled here does not have. It is an error only where memory
    /// runs out. It takes time and memory in proportion to the code, and to the logarithm of the try notes at each instruction.
    pub fn flow(
        &mut self,
        alloc: Global,
        number: u32,
        part: &FunctionStencil,
    ) -> Result<Option<Vec<Option<u32>>>, AllocError>
        ensures { IfOk result (λ flow. IfSome flow (λ reached. IsFlow self.new.all.items number part.now.code part.now.notes reached.items)) }
    {
        let Some(Some(around)) = self.around.get(number as usize).copied() else {
            return Ok(None);
        };
        let Some(first) = self.enter(number, part, around)? else {
            return Ok(None);
        };
        let reached = search(alloc, &mut self.all, number, part, first)?;
        self.note_functions(&part.code, &reached);
        if is_flow(&self.all, number, &part.code, &part.notes, &reached) {
            Ok(Some(reached))
        } else {
            Ok(None)
        }
    }
}
