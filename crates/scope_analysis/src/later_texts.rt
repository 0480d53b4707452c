//! Texts whose first cell in a set another one has.

ghost use Rattle.std.specs.Prelude.{◌≡◌, ℕ, ◌<◌, Bool, false, not, ◌||◌, List, length, bytes_eq, OnOk, IfOk};
ghost use Rattle.stencil_data.specs.StandsFor.{text_at};
ghost use Rattle.scope_analysis.specs.DeclaredNames.{Text as ModelText, has_text};
ghost use Rattle.scope_analysis.specs.TextSets.{texts_in, second_cell_of, has_later, HasSecondPlace};

use crate::digests::digest;
use crate::place::{same_units, units_of};
use std::alloc::{AllocError, Global};
use std::collections::BTreeSet;
use stencil_data::Text;

/// The texts of some atoms. Of those whose digests lead to one cell the first stands there, by its atom, and the others in a tree.
#[derive(Drop)]
pub struct LaterTexts<'a> {
    pub cells: Vec<Option<u32>>,
    pub others: BTreeSet<&'a [u16]>,
}

// The cell to which the upper half of a text's digest leads.
fn second_cell(units: &[u16], count: usize) -> usize
    requires { 0 < count }
    ensures is { result ≡ second_cell_of units.now count }
    ensures within { result < count }
{
    (digest(units) / 4294967296 % count as u64) as usize
}

// Adds a text, and says whether it is new.
fn insert_text<'a>(seen: &mut BTreeSet<&'a [u16]>, text: &'a [u16]) -> Result<bool, AllocError>
    ensures added { IfOk result (λ fresh. fresh ≡ not (has_text (texts_in seen.old) text.now)) }
    ensures seen { OnOk result ((q : ModelText) → has_text (texts_in seen.new) q
        ≡ (bytes_eq text.now q || has_text (texts_in seen.old) q)) }
{
    let fresh = seen.insert(text)?;
    Ok(fresh)
}

fn contains_text<'a>(some: &BTreeSet<&'a [u16]>, text: &'a [u16]) -> bool
    ensures { result ≡ has_text (texts_in some.now) text.now }
{
    some.contains(&text)
}

impl<'a> LaterTexts<'a> {
    /// No texts. It is made for as many as `room`, and can take more.
    pub fn with_room(alloc: Global, room: usize) -> Result<LaterTexts<'a>, AllocError>
        ensures has { IfOk result (λ some. (texts : List ModelText) (q : ModelText) → has_later texts some.cells.items some.others q ≡ false) }
        ensures place { IfOk result (λ some. HasSecondPlace some.cells.items some.others) }
    {
        let cells = vec![in alloc; None; room.saturating_add(1)]?;
        let others = BTreeSet::new(alloc);
        Ok(LaterTexts { cells, others })
    }

    /// Adds the text of an atom, and says whether it is new.
    pub fn insert(&mut self, texts: &'a [Text], atom: u32) -> Result<bool, AllocError>
        requires { HasSecondPlace self.old.cells.items self.old.others }
        ensures added { IfOk result (λ fresh. fresh ≡ not (has_later texts.now self.old.cells.items self.old.others (text_at texts.now atom))) }
        ensures has { OnOk result ((q : ModelText) → has_later texts.now self.new.cells.items self.new.others q
            ≡ (bytes_eq (text_at texts.now atom) q || has_later texts.now self.old.cells.items self.old.others q)) }
        ensures place { OnOk result (HasSecondPlace self.new.cells.items self.new.others) }
    {
        let units = units_of(texts, atom);
        let cell = second_cell(units, self.cells.len());
        match self.cells[cell] {
            None => {
                self.cells[cell] = Some(atom);
                Ok(true)
            }
            Some(first) => {
                if same_units(units_of(texts, first), units) {
                    return Ok(false);
                }
                let fresh = insert_text(&mut self.others, units)?;
                Ok(fresh)
            }
        }
    }

    /// Whether the text of an atom is there.
    pub fn contains(&self, texts: &'a [Text], atom: u32) -> bool
        requires { HasSecondPlace self.now.cells.items self.now.others }
        ensures { result ≡ has_later texts.now self.now.cells.items self.now.others (text_at texts.now atom) }
    {
        let units = units_of(texts, atom);
        match self.cells[second_cell(units, self.cells.len())] {
            None => false,
            Some(first) => {
                same_units(units_of(texts, first), units) || contains_text(&self.others, units)
            }
        }
    }
}
