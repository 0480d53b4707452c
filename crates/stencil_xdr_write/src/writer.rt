//! A sink that writes items, atoms by their new numbers.

ghost use Rattle.std.specs.Prelude.{◌≡◌, ◌++◌, [], OnOk, unwrap_or};
ghost use Rattle.bytecode_buf.specs.Bytes.{le_bytes};
ghost use Rattle.stencil_xdr_write.specs.Numbers as numbers;
ghost use Rattle.stencil_xdr_write.specs.Writes as writes;

use crate::numbering::place_of;
use crate::sink::Sink;
use std::alloc::{AllocError, Global};
use std::marker::Model;

/// Appends the low bytes of a number, as many as the width says, the lowest first.
fn append_number(out: &mut Vec<u8>, width: usize, value: u64) -> Result<(), AllocError>
    ensures { OnOk result (out.new.items ≡ out.old.items ++ le_bytes width value) }
{
    let mut rest = value;
    for _ in 0..width {
        out.push((rest % 256) as u8)?;
        rest /= 256;
    }
    Ok(())
}

fn number_or(number: Option<u32>) -> u32
    ensures { result ≡ unwrap_or number 0 }
{
    number.unwrap_or(0)
}

/// The number that stands for an atom, 0 where there is none.
fn number_at(table: &[Option<u32>], atom: u64) -> u32
    ensures { result ≡ numbers.number_at table.now atom }
{
    match table.get(place_of(table.len().saturating_sub(1), atom)) {
        None => 0,
        Some(number) => number_or(*number),
    }
}

/// Bytes that were written, and the numbers by which atoms are written: contracts see both lists.
#[derive(Drop)]
pub(crate) struct Writer<'a> {
    table: &'a [Option<u32>],
    out: Vec<u8>,
}

impl<'a> Model for Writer<'a> {
    ghost use Rattle.stencil_xdr_write.specs.Writes.{WriterView};

    ghost Value = { WriterView };

    ghost view = { λ w. record { table = w.table.now; bytes = w.out.items } };
}

impl<'a> Writer<'a> {
    /// Nothing was written.
    pub fn new(alloc: Global, table: &'a [Option<u32>]) -> Writer<'a>
        ensures { result ≡ record { table = table.now; bytes = [] } }
    {
        Writer {
            table,
            out: Vec::new(alloc),
        }
    }

    /// The bytes.
    pub fn into_bytes(self) -> Vec<u8>
        ensures { result.items ≡ self.entry.bytes }
    {
        let Writer { table: _, out } = self;
        out
    }
}

impl<'a> Sink for Writer<'a> {
    ghost takes = { writes.Writes };

    ghost takes_none = { writes.writes_none };

    ghost takes_both = { writes.writes_both };

    fn bytes(&mut self, bytes: &[u8]) -> Result<(), AllocError> {
        self.out.extend_from_slice(bytes)?;
        Ok(())
    }

    fn number(&mut self, width: usize, value: u64) -> Result<(), AllocError> {
        append_number(&mut self.out, width, value)?;
        Ok(())
    }

    fn atom(&mut self, atom: u64) -> Result<(), AllocError> {
        let number = number_at(self.table, atom);
        append_number(&mut self.out, 4, number as u64)?;
        Ok(())
    }
}
