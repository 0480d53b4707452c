//! Which functions of a script are meant by their numbers, names and places.

ghost use Rattle.std.specs.Prelude.{IfOk};
ghost use Rattle.holzikra_scripts.specs.Written.{IsChosenBy};

use crate::source::SourceText;
use holzikra_finding::{innermost_at, with_inner};
use holzikra_names::text_at;
use holzikra_words::{FunctionName, FunctionWord};
use std::alloc::{AllocError, Global};
use stencil_data::{LazyRecord, Text};

/// The functions that are chosen.
#[derive(Debug, Drop)]
pub enum Choice {
    /// All of them, and the script.
    All,
    /// Those of these numbers; 0 is the script itself.
    Numbers(Vec<u32>),
}

/// What some words come to.
#[derive(Debug, Drop)]
pub enum Chosen {
    /// These functions.
    These(Choice),
    /// The word of this place among them means no function.
    Nothing(usize),
}

/// The functions of a script, and the texts of their names.
#[derive(Clone, Copy)]
struct Functions<'a> {
    texts: &'a [Text],
    records: &'a [LazyRecord],
}

/// Whether the text of an atom is this name.
fn is_named(texts: &[Text], atom: u32, name: &str) -> bool {
    let mut units = name.encode_utf16();
    for unit in text_at(texts, atom) {
        if units.next() != Some(*unit) {
            return false;
        }
    }
    units.next().is_none()
}

impl<'a> Functions<'a> {
    /// Adds the numbers of all functions of this name.
    fn add_named(self, numbers: &mut Vec<u32>, name: &str) -> Result<(), AllocError> {
        let mut number = 0u32;
        for lazy in self.records {
            number = number.saturating_add(1);
            if let Some(atom) = lazy.name {
                if is_named(self.texts, atom, name) {
                    numbers.push(number)?;
                }
            }
        }
        Ok(())
    }

    /// The number of the innermost function around an offset; 0, that of the script, where none is.
    fn innermost_at(self, offset: usize) -> u32 {
        match innermost_at(self.records, offset) {
            None => 0,
            Some(place) => u32::try_from(place.saturating_add(1)).unwrap_or(u32::MAX),
        }
    }

    /// Adds the numbers that a name means.
    fn add_meant(
        self,
        alloc: Global,
        numbers: &mut Vec<u32>,
        name: &FunctionName,
        text: &[u8],
    ) -> Result<(), AllocError> {
        match name {
            FunctionName::Number(number) => {
                if *number as usize <= self.records.len() {
                    numbers.push(*number)?;
                }
            }
            FunctionName::Text(name) => self.add_named(numbers, name.as_str())?,
            FunctionName::Place(line, column) => {
                let source = SourceText::of(alloc, text)?;
                if let Some(offset) = source.offset_at(*line, *column) {
                    numbers.push(self.innermost_at(offset))?;
                }
            }
        }
        Ok(())
    }

    /// The numbers that a word means; none where it means no function.
    fn meant(
        self,
        alloc: Global,
        word: &FunctionWord,
        text: &[u8],
    ) -> Result<Vec<u32>, AllocError> {
        let mut numbers = Vec::new(alloc);
        self.add_meant(alloc, &mut numbers, &word.name, text)?;
        if word.inner && !numbers.is_empty() {
            return with_inner(alloc, self.records, &numbers);
        }
        Ok(numbers)
    }
}

/// The functions of a script that some words mean; all where there is no word. The texts are those of the names in the records. For each
/// word it takes time in proportion to the functions, and to the text where the word is a place; only memory can fail.
pub fn choice_of(
    alloc: Global,
    words: &[FunctionWord],
    texts: &[Text],
    records: &[LazyRecord],
    text: &[u8],
) -> Result<Chosen, AllocError>
    ensures { IfOk result (IsChosenBy words.now) }
{
    if words.is_empty() {
        return Ok(Chosen::These(Choice::All));
    }
    let functions = Functions { texts, records };
    let mut numbers = Vec::new(alloc);
    for (place, word) in words.iter().enumerate() {
        let meant = functions.meant(alloc, word, text)?;
        if meant.is_empty() {
            return Ok(Chosen::Nothing(place));
        }
        numbers.extend_from_slice(&meant)?;
    }
    Ok(Chosen::These(Choice::Numbers(numbers)))
}
