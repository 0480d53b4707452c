//! The changes between two scripts, as data.

ghost use Rattle.std.specs.Prelude.{◌≡◌, All, IfOk};
ghost use Rattle.holzikra_diff.specs.Changes.{IsChange, lines_of};

use holzikra_edits::{Edit, LineTable, edits_between};
use holzikra_pairs::{CodeLines, Numbers, Pairs, pairs_of, script_lines};
use std::alloc::{AllocError, Global};
use stencil_data::MergedStencil;

/// How many kept lines are named before and behind each change.
const CONTEXT: usize = 3;

/// What became of a function, or of the script itself, which is function 0.
#[derive(Drop)]
pub struct Change {
    /// Its number in the old script, if it is there.
    pub old: Option<usize>,
    /// Its number in the new script, if it is there.
    pub new: Option<usize>,
    /// What was done to the lines of its code.
    pub edits: Vec<Edit>,
}

/// The differences of two scripts.
#[derive(Drop)]
pub struct Difference {
    /// The lines of all code by number.
    pub table: LineTable,
    /// The lines of the code of each function of the old script, in order of number.
    pub old_lines: Vec<CodeLines>,
    /// The same of the new script.
    pub new_lines: Vec<CodeLines>,
    /// What became of each function: those of the new script in order of number, then those that are in the old script alone.
    pub changes: Vec<Change>,
}

/// How many functions changed, not counting the script itself.
#[derive(Clone, Copy)]
pub struct Counts {
    /// Whether the code of the script itself changed.
    pub script: bool,
    pub changed: usize,
    pub added: usize,
    pub removed: usize,
    pub same: usize,
}

impl Change {
    /// Whether no line was removed or added.
    pub(crate) fn is_empty(&self) -> bool {
        self.edits
            .iter()
            .all(|edit| matches!(edit, Edit::Keep(_) | Edit::Pass(_)))
    }

    /// Whether there is anything to tell of it.
    pub fn is_told(&self) -> bool {
        self.old.is_none() || self.new.is_none() || !self.is_empty()
    }
}

/// The lines of a function's code.
fn lines_in(functions: &[CodeLines], number: Option<usize>) -> &[usize]
    ensures { result.now ≡ lines_of functions.now number }
{
    match number {
        None => &[],
        Some(number) => match functions.get(number) {
            None => &[],
            Some(lines) => lines.numbers(),
        },
    }
}

/// What became of a function with these numbers.
fn change_of(
    alloc: Global,
    old_lines: &[CodeLines],
    new_lines: &[CodeLines],
    old: Option<usize>,
    new: Option<usize>,
) -> Result<Change, AllocError>
    ensures { IfOk result (IsChange old_lines.now new_lines.now) }
{
    let edits = edits_between(
        alloc,
        lines_in(old_lines, old),
        lines_in(new_lines, new),
        CONTEXT,
    )?;
    Ok(Change { old, new, edits })
}

/// What became of each function.
fn changes_of(
    alloc: Global,
    pairs: &Pairs,
    old_lines: &[CodeLines],
    new_lines: &[CodeLines],
) -> Result<Vec<Change>, AllocError>
    ensures { IfOk result (λ changes. All (IsChange old_lines.now new_lines.now) changes.items) }
{
    let mut changes = Vec::new(alloc);
    'paired: for (number, pair) in pairs.old_of.iter().enumerate() {
        let change = change_of(alloc, old_lines, new_lines, *pair, Some(number))?;
        changes.push(change)?;
    }
    'removed: for (number, pair) in pairs.new_of.iter().enumerate() {
        if pair.is_none() {
            let change = change_of(alloc, old_lines, new_lines, Some(number), None)?;
            changes.push(change)?;
        }
    }
    Ok(changes)
}

/// The differences of two scripts' code. It takes time in proportion to the code and its listing, up to the logarithm of looking
/// lines up, and is an error only where memory runs out.
pub fn difference_of(
    alloc: Global,
    old: &MergedStencil,
    new: &MergedStencil,
) -> Result<Difference, AllocError>
    ensures { IfOk result (λ difference. All (IsChange difference.old_lines.items difference.new_lines.items) difference.changes.items) }
{
    let pairs = pairs_of(alloc, old, new)?;
    let mut table = LineTable::new(alloc);
    let old_lines = script_lines(alloc, &mut table, old, Numbers::Pairs(&pairs.new_of))?;
    let new_lines = script_lines(alloc, &mut table, new, Numbers::Own)?;
    let changes = changes_of(alloc, &pairs, &old_lines, &new_lines)?;
    Ok(Difference {
        table,
        old_lines,
        new_lines,
        changes,
    })
}

impl Counts {
    fn count(&mut self, change: &Change) {
        match (change.old, change.new) {
            (Some(_), Some(0)) => self.script = !change.is_empty(),
            (None, _) => self.added = self.added.saturating_add(1),
            (_, None) => self.removed = self.removed.saturating_add(1),
            _ => {
                if change.is_empty() {
                    self.same = self.same.saturating_add(1);
                } else {
                    self.changed = self.changed.saturating_add(1);
                }
            }
        }
    }

    /// Whether anything differs.
    pub fn differs(&self) -> bool {
        self.script || self.changed > 0 || self.added > 0 || self.removed > 0
    }
}

impl Difference {
    /// How many functions changed.
    pub fn counts(&self) -> Counts {
        let mut counts = Counts {
            script: false,
            changed: 0,
            added: 0,
            removed: 0,
            same: 0,
        };
        for change in &self.changes {
            counts.count(change);
        }
        counts
    }
}
