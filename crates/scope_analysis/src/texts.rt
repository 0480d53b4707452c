//! Names by their texts: each once, and without some.

ghost use Rattle.std.specs.Prelude.{◌≡◌, map, OnOk, IfOk};
ghost use Rattle.stencil_data.specs.StandsFor.{text_at};
ghost use Rattle.scope_analysis.specs.DeclaredNames.{Text as ModelText, has_text, texts_without};
ghost use Rattle.scope_analysis.specs.DeclaredNames as defined;
ghost use Rattle.scope_analysis.specs.TextSets.{has, HasPlace};

use crate::text_set::TextSet;
use std::alloc::{AllocError, Global};
use stencil_data::Text;

/// The names whose texts stand for the first time.
pub fn first_ones(alloc: Global, texts: &[Text], atoms: &[u32]) -> Result<Vec<u32>, AllocError>
    ensures { IfOk result (λ kept. map (text_at texts.now) kept.items ≡ defined.first_ones (map (text_at texts.now) atoms.now)) }
{
    let mut seen = TextSet::with_room(alloc, atoms.len())?;
    let mut kept = Vec::new(alloc);
    for atom in atoms {
        if seen.insert(texts, *atom)? {
            kept.push(*atom)?;
        }
    }
    Ok(kept)
}

// The texts of these names.
fn text_set<'a>(alloc: Global, texts: &'a [Text], atoms: &[u32]) -> Result<TextSet<'a>, AllocError>
    ensures has { IfOk result (λ some. (q : ModelText) → has texts.now some.cells.items some.later.cells.items some.later.others q
        ≡ has_text (map (text_at texts.now) atoms.now) q) }
    ensures place { IfOk result (λ some. HasPlace texts.now some.cells.items some.later.cells.items some.later.others) }
{
    let mut some = TextSet::with_room(alloc, atoms.len())?;
    for atom in atoms {
        some.insert(texts, *atom)?;
    }
    Ok(some)
}

/// The names whose texts are not among those of the first ones.
pub fn without(
    alloc: Global,
    texts: &[Text],
    gone: &[u32],
    atoms: &[u32],
) -> Result<Vec<u32>, AllocError>
    ensures { IfOk result (λ kept. map (text_at texts.now) kept.items
        ≡ texts_without (map (text_at texts.now) gone.now) (map (text_at texts.now) atoms.now)) }
{
    let some = text_set(alloc, texts, gone)?;
    let mut kept = Vec::new(alloc);
    for atom in atoms {
        if !some.contains(texts, *atom) {
            kept.push(*atom)?;
        }
    }
    Ok(kept)
}
