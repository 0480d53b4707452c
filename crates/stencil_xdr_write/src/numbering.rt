//! A sink that numbers the texts that items name, in the order in which they are named first.

ghost use Rattle.std.specs.Prelude.{◌≡◌, ◌^◌, ◌+◌, ◌-◌, ◌<◌, ◌↔◌, [], length, IsTrue, replicate, IfOk, OnOk, Some, None, slice_get, All};
ghost use Rattle.stencil_data.specs.StandsFor as stands;
ghost use Rattle.stencil_xdr_specs.specs.Widths as widths;
ghost use Rattle.stencil_xdr_write.specs.Named as named;
ghost use Rattle.stencil_xdr_write.specs.MoreNamed as more;
ghost use Rattle.stencil_xdr_write.specs.Numbers as numbers;

use crate::sink::Sink;
use parser_atoms::Atoms;
use std::alloc::{AllocError, Global};
use std::marker::Model;
use stencil_data::Text;

/// The texts of a stencil, and new numbers for those that were named, after them one for the atoms that are no text's:
/// contracts see the texts, the numbers and the texts that have one.
#[derive(Drop)]
pub(crate) struct Numbering<'a> {
    alloc: Global,
    texts: &'a [Text],
    table: Vec<Option<u32>>,
    atoms: Atoms,
}

impl<'a> Model for Numbering<'a> {
    ghost use Rattle.stencil_xdr_write.specs.Named.{NumberingView, HasRoom};

    ghost Value = { NumberingView };

    ghost view = { λ n. record { texts = n.texts.now; table = n.table.items; atoms = n.atoms } };

    ghost invariant = { λ n. HasRoom n.texts.now n.table.items n.atoms };
}

/// No number for a text. Its units are handed in since what they fit is known of numbers of the code alone.
fn no_number(units: &[u16]) -> Option<u32>
    ensures none { result ≡ None }
    ensures fit { widths.TextFits units.now }
{
    None
}

/// No number for each of the texts, and for the atoms that are no text's.
fn no_numbers(alloc: Global, texts: &[Text]) -> Result<Vec<Option<u32>>, AllocError>
    ensures none { IfOk result (λ table. table.items ≡ replicate (length texts.now + 1) None) }
    ensures fit { OnOk result (All widths.TextFits texts.now) }
{
    let mut table = Vec::with_capacity(alloc, texts.len().saturating_add(1))?;
    for text in texts {
        table.push(no_number(text.units()))?;
    }
    table.push(None)?;
    Ok(table)
}

/// The place of an atom's number where n texts have their places: after them all for an atom that is no text's.
pub(crate) fn place_of(count: usize, atom: u64) -> usize
    ensures { result ≡ numbers.place_of count atom }
{
    let place = atom as usize;
    if place < count { place } else { count }
}

/// The text of a place, the empty one after them all.
fn text_at(texts: &[Text], place: usize) -> &[u16]
    ensures { result.now ≡ stands.text_at texts.now place }
{
    match texts.get(place) {
        None => &[],
        Some(text) => text.units(),
    }
}

/// Whether there is no number yet at a place.
fn is_unnamed(table: &[Option<u32>], place: usize) -> bool
    ensures { IsTrue result ↔ (slice_get table.now place ≡ Some None) }
{
    match table.get(place) {
        None => false,
        Some(number) => number.is_none(),
    }
}

impl<'a> Numbering<'a> {
    /// No text was named.
    pub fn new(alloc: Global, texts: &'a [Text]) -> Result<Numbering<'a>, AllocError>
        requires { length texts.now < 2 ^ 32 - 1 }
        ensures none { IfOk result (λ n. named.IsNumbered texts.now [] n) }
        ensures fit { OnOk result (All widths.TextFits texts.now) }
    {
        let table = no_numbers(alloc, texts)?;
        Ok(Numbering {
            alloc,
            texts,
            table,
            atoms: Atoms::new(alloc),
        })
    }

    /// Numbers the text of a place that has no number.
    fn name(&mut self, place: usize) -> Result<(), AllocError>
        requires { slice_get self.old.table place ≡ Some None }
        ensures { OnOk result (named.Names self.old place self.new) }
    {
        let units = text_at(self.texts, place);
        let number = self.atoms.intern(self.alloc, units)?;
        self.table[place] = Some(number);
        Ok(())
    }

    /// The numbered texts and the numbers.
    pub fn into_numbers(self) -> (Vec<Text>, Vec<Option<u32>>)
        ensures texts { result.0.items ≡ self.entry.atoms }
        ensures table { result.1.items ≡ self.entry.table }
    {
        let Numbering {
            alloc: _,
            texts: _,
            table,
            atoms,
        } = self;
        (atoms.into_texts(), table)
    }
}

impl<'a> Sink for Numbering<'a> {
    ghost takes = { named.NumbersMore };

    ghost takes_none = { more.more_none };

    ghost takes_both = { more.more_both };

    fn bytes(&mut self, _bytes: &[u8]) -> Result<(), AllocError> {
        Ok(())
    }

    fn number(&mut self, _width: usize, _value: u64) -> Result<(), AllocError> {
        Ok(())
    }

    fn atom(&mut self, atom: u64) -> Result<(), AllocError> {
        let place = place_of(self.texts.len(), atom);
        let unnamed = is_unnamed(&self.table, place);
        if unnamed { self.name(place) } else { Ok(()) }
    }
}
