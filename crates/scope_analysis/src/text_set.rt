//! Sets of texts.

ghost use Rattle.std.specs.Prelude.{◌≡◌, ℕ, ◌<◌, Bool, false, not, ◌||◌, List, length, bytes_eq, OnOk, IfOk};
ghost use Rattle.stencil_data.specs.StandsFor.{text_at};
ghost use Rattle.scope_analysis.specs.DeclaredNames.{Text as ModelText};
ghost use Rattle.scope_analysis.specs.TextSets.{first_cell_of, has, HasPlace};

use crate::digests::digest;
use crate::later_texts::LaterTexts;
use crate::place::{same_units, units_of};
use std::alloc::{AllocError, Global};
use stencil_data::Text;

/// The texts of some atoms. Each has two cells, by its digest. It stands in the first one, by its atom, if that was free, else in the
/// second one, and else in a tree: where texts are chosen to have one digest, a look-up takes as long as in a tree of all, and else
/// mostly one step or two.
#[derive(Drop)]
pub struct TextSet<'a> {
    pub cells: Vec<Option<u32>>,
    pub later: LaterTexts<'a>,
}

// The cell to which the digest of a text leads.
fn first_cell(units: &[u16], count: usize) -> usize
    requires { 0 < count }
    ensures is { result ≡ first_cell_of units.now count }
    ensures within { result < count }
{
    (digest(units) % count as u64) as usize
}

impl<'a> TextSet<'a> {
    /// No texts. It is made for as many as `room`, and can take more.
    pub fn with_room(alloc: Global, room: usize) -> Result<TextSet<'a>, AllocError>
        ensures has { IfOk result (λ some. (texts : List ModelText) (q : ModelText)
            → has texts some.cells.items some.later.cells.items some.later.others q ≡ false) }
        ensures place { IfOk result (λ some. (texts : List ModelText)
            → HasPlace texts some.cells.items some.later.cells.items some.later.others) }
    {
        let cells = vec![in alloc; None; room.saturating_mul(2).saturating_add(1)]?;
        let later = LaterTexts::with_room(alloc, room)?;
        Ok(TextSet { cells, later })
    }

    /// Adds the text of an atom, and says whether it is new.
    pub fn insert(&mut self, texts: &'a [Text], atom: u32) -> Result<bool, AllocError>
        requires { HasPlace texts.now self.old.cells.items self.old.later.cells.items self.old.later.others }
        ensures added { IfOk result (λ fresh. fresh
            ≡ not (has texts.now self.old.cells.items self.old.later.cells.items self.old.later.others (text_at texts.now atom))) }
        ensures has { OnOk result ((q : ModelText) → has texts.now self.new.cells.items self.new.later.cells.items self.new.later.others q
            ≡ (bytes_eq (text_at texts.now atom) q || has texts.now self.old.cells.items self.old.later.cells.items self.old.later.others q)) }
        ensures place { OnOk result (HasPlace texts.now self.new.cells.items self.new.later.cells.items self.new.later.others) }
    {
        let units = units_of(texts, atom);
        let cell = first_cell(units, self.cells.len());
        match self.cells[cell] {
            None => {
                self.cells[cell] = Some(atom);
                Ok(true)
            }
            Some(first) => {
                if same_units(units_of(texts, first), units) {
                    return Ok(false);
                }
                let fresh = self.later.insert(texts, atom)?;
                Ok(fresh)
            }
        }
    }

    /// Whether the text of an atom is there.
    pub fn contains(&self, texts: &'a [Text], atom: u32) -> bool
        requires { HasPlace texts.now self.now.cells.items self.now.later.cells.items self.now.later.others }
        ensures { result
            ≡ has texts.now self.now.cells.items self.now.later.cells.items self.now.later.others (text_at texts.now atom) }
    {
        let units = units_of(texts, atom);
        match self.cells[first_cell(units, self.cells.len())] {
            None => false,
            Some(first) => {
                same_units(units_of(texts, first), units) || self.later.contains(texts, atom)
            }
        }
    }
}
