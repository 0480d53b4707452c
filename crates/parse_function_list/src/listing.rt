//! The walk: functions, one function, and the next body.

ghost use Rattle.std.specs.Prelude.{◌≡◌, ◌≤◌, List, [], ◌∷◌, ◌++◌, OnOk, length, reverse, None};
ghost use Rattle.parse_track.specs.EarlyErrors.{smaller};
ghost use Rattle.parse_function_list.specs.Listing.{Lists, ListsOne, ListsInside, ListsBody, head_of, met};
ghost use Rattle.parse_function_list.specs.Weight.{weight};

use crate::list::{FoundBody, ListedFunction};
use parse_handlers::{FoundFunction, SyntaxBody};
use std::alloc::{AllocError, Global};
use stencil_data::Extent;

/// A script whose functions are being listed.
#[derive(Drop)]
pub struct Listing {
    pub alloc: Global,
    /// The functions so far, in order of number.
    pub functions: Vec<ListedFunction>,
    /// The bodies that are still wanted, the next one last.
    pub bodies: Vec<FoundBody>,
    /// The smallest offset of a directive `use strict` in the body of a function with an initializer or a rest parameter.
    pub strict: Option<u32>,
}

// A function that stands there, with these functions directly in it.
fn listed(found: &FoundFunction, around: usize, place: usize, inner: Vec<Extent>) -> ListedFunction
    ensures { result ≡ head_of found.now around place inner }
{
    ListedFunction {
        extent: found.extent,
        kind: found.kind,
        name: found.name,
        inner,
        around,
        place,
    }
}

// The smaller of two offsets.
fn smaller(x: Option<u32>, y: Option<u32>) -> Option<u32>
    ensures { result ≡ smaller x y }
{
    match (x, y) {
        (None, y) => y,
        (x, None) => x,
        (Some(a), Some(b)) => Some(a.min(b)),
    }
}

// The smallest offset after a body of a function with such parameters, whose first directive stands there.
fn met(simple: bool, before: Option<u32>, strict: Option<u32>) -> Option<u32>
    ensures { result ≡ met simple before strict }
{
    if simple {
        before
    } else {
        smaller(before, strict)
    }
}

impl Listing {
    /// Nothing is listed yet; these are the bodies, in the order of the source.
    pub fn new(alloc: Global, bodies: Vec<FoundBody>) -> Listing
        ensures functions { result.functions.items ≡ [] }
        ensures bodies { result.bodies.items ≡ reverse bodies.items }
        ensures strict { result.strict ≡ None }
    {
        let mut bodies = bodies;
        bodies.reverse();
        Listing {
            alloc,
            functions: Vec::new(alloc),
            bodies,
            strict: None,
        }
    }

    /// Lists functions that stand directly in the one of number `around`, after those of these extents, and all functions in
    /// them.
    #[cycle(listing)]
    pub fn list_all(
        &mut self,
        found: &[FoundFunction],
        around: usize,
        directly: &mut Vec<Extent>,
    ) -> Result<(), AllocError>
        ensures longer { OnOk result (length self.old.functions.items ≤ length self.new.functions.items) }
        ensures lighter { OnOk result (weight self.new.bodies.items ≤ weight self.old.bodies.items) }
        ensures lists { OnOk result (Lists self.old self.new directly.old.items directly.new.items found.now around) }
    {
        for function in found {
            self.list_one(function, around, directly)?;
        }
        Ok(())
    }

    // One function, and all functions in it.
    #[cycle(listing)]
    fn list_one(
        &mut self,
        found: &FoundFunction,
        around: usize,
        directly: &mut Vec<Extent>,
    ) -> Result<(), AllocError>
        ensures longer { OnOk result (length self.old.functions.items ≤ length self.new.functions.items) }
        ensures lighter { OnOk result (weight self.new.bodies.items ≤ weight self.old.bodies.items) }
        ensures lists { OnOk result (ListsOne self.old self.new directly.old.items directly.new.items found.now around) }
    {
        let before = self.functions.len();
        let place = directly.len();
        directly.push((*found).extent)?;
        let unfilled = listed(found, around, place, Vec::new(self.alloc));
        self.functions.push(unfilled)?;
        let mut inner = Vec::new(self.alloc);
        self.list_inside(found, before + 1, &mut inner)?;
        self.functions[before] = listed(found, around, place, inner);
        Ok(())
    }

    // The functions in one, whose number is `around`: those outside its body in braces, then those in the next body.
    #[cycle(listing)]
    fn list_inside(
        &mut self,
        found: &FoundFunction,
        around: usize,
        directly: &mut Vec<Extent>,
    ) -> Result<(), AllocError>
        ensures longer { OnOk result (length self.old.functions.items ≤ length self.new.functions.items) }
        ensures lighter { OnOk result (weight self.new.bodies.items ≤ weight self.old.bodies.items) }
        ensures lists { OnOk result (ListsInside self.old self.new directly.old.items directly.new.items found.now around) }
    {
        self.list_all(&found.inner, around, directly)?;
        if found.braced {
            Ok(self.list_body(found.simple, around, directly)?)
        } else {
            Ok(())
        }
    }

    // The functions in the next of the bodies, which is that of a function with such parameters; none where none is left.
    #[cycle(listing)]
    fn list_body(
        &mut self,
        simple: bool,
        around: usize,
        directly: &mut Vec<Extent>,
    ) -> Result<(), AllocError>
        ensures longer { OnOk result (length self.old.functions.items ≤ length self.new.functions.items) }
        ensures lighter { OnOk result (weight self.new.bodies.items ≤ weight self.old.bodies.items) }
        ensures lists { OnOk result (ListsBody self.old self.new directly.old.items directly.new.items simple around) }
    {
        match self.bodies.pop() {
            Some(body) => {
                let FoundBody { found, strict } = body;
                self.strict = met(simple, self.strict, strict);
                Ok(self.list_all(&found.found, around, directly)?)
            }
            None => Ok(()),
        }
    }
}
