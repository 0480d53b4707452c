//! The lines of a function's code, as they are compared.

ghost use Rattle.std.specs.Prelude.{◌≡◌};

use crate::labels::{Labels, target_of};
use crate::plain::{Plain, from_name, name_alone};
use bytecode_buf::{Instr, Op, Shape, decode_at};
use holzikra_edits::LineTable;
use script_image::{append_decimal, code_text};
use std::alloc::{AllocError, Global};
use std::marker::Model;
use stencil_data::{Entry, FunctionStencil, MergedStencil, TryNote};

/// By which number a function is called that code makes.
#[derive(Clone, Copy)]
pub enum Numbers<'a> {
    /// By its own.
    Own,
    /// By that of its pair.
    Pairs(&'a [Option<usize>]),
}

/// The lines of a code, by their numbers in a table. A contract sees the list of these.
#[derive(Drop)]
pub struct CodeLines {
    numbers: Vec<usize>,
}

impl Model for CodeLines {
    ghost use Rattle.std.specs.Prelude.{ℕ, List};

    ghost Value = { List ℕ };

    ghost view = { λ lines. lines.numbers.items };
}

impl CodeLines {
    /// The numbers of the lines, in their order.
    pub fn numbers(&self) -> &[usize]
        ensures { result.now ≡ self.now }
    {
        self.numbers.as_slice()
    }
}

/// A line as far as it is put together.
#[derive(Drop)]
struct Line {
    bytes: Vec<u8>,
}

impl Line {
    fn put(&mut self, bytes: &[u8]) -> Result<(), AllocError> {
        self.bytes.extend_from_slice(bytes)?;
        Ok(())
    }

    /// Puts the label of an offset, if it is a target.
    fn put_label(&mut self, labels: &Labels, offset: u64) -> Result<(), AllocError> {
        match labels.number(offset) {
            None => self.put(b"?"),
            Some(number) => {
                self.put(b"L")?;
                append_decimal(&mut self.bytes, number as u64)
            }
        }
    }

    /// Puts the number of a function that is made.
    fn put_function(&mut self, numbers: Numbers<'_>, number: u64) -> Result<(), AllocError> {
        let pair = match numbers {
            Numbers::Own => None,
            Numbers::Pairs(pairs) => Some(pairs.get(number as usize).copied().flatten()),
        };
        match pair {
            None => append_decimal(&mut self.bytes, number),
            Some(Some(other)) => append_decimal(&mut self.bytes, other as u64),
            Some(None) => {
                append_decimal(&mut self.bytes, number)?;
                self.put(b" (removed)")
            }
        }
    }

    /// The number of the line among those of the table.
    fn number(self, alloc: Global, table: &mut LineTable) -> Result<usize, AllocError> {
        let mut units = Vec::with_capacity(alloc, self.bytes.len())?;
        for byte in &self.bytes {
            units.push(u16::from(*byte))?;
        }
        table.number_of(alloc, &units)
    }
}

/// What is known of the code that lines are made of.
#[derive(Clone, Copy)]
struct Known<'a> {
    labels: &'a Labels,
    numbers: Numbers<'a>,
}

impl Known<'_> {
    /// The line of an instruction at an offset, from that of the plain listing.
    fn instruction_line(
        self,
        alloc: Global,
        plain: &[u8],
        at: usize,
        instr: Instr,
    ) -> Result<Line, AllocError> {
        let mut line = Line {
            bytes: Vec::new(alloc),
        };
        if self.labels.number(at as u64).is_some() {
            line.put_label(self.labels, at as u64)?;
            line.put(b": ")?;
        }
        let named = from_name(plain);
        if let Shape::Jump = instr.op.row().shape {
            line.put(name_alone(named))?;
            line.put(b" ")?;
            line.put_label(self.labels, target_of(at, instr.to))?;
        } else if let Op::Lambda = instr.op {
            line.put(name_alone(named))?;
            line.put(b" ")?;
            line.put_function(self.numbers, instr.a)?;
        } else {
            line.put(named)?;
        }
        Ok(line)
    }

    /// The line of a try note.
    fn note_line(self, alloc: Global, note: TryNote) -> Result<Line, AllocError> {
        let mut line = Line {
            bytes: Vec::new(alloc),
        };
        line.put(b"catch ")?;
        line.put_label(self.labels, note.start)?;
        line.put(b"..")?;
        line.put_label(self.labels, note.end)?;
        line.put(b" depth ")?;
        append_decimal(&mut line.bytes, u64::from(note.depth))?;
        Ok(line)
    }
}

/// The lines of a code, by number, and what is left of the plain listing behind them.
fn code_numbers<'a>(
    alloc: Global,
    table: &mut LineTable,
    plain: Plain<'a>,
    part: &FunctionStencil,
    numbers: Numbers<'_>,
) -> Result<(CodeLines, Plain<'a>), AllocError> {
    let labels = Labels::of(alloc, part)?;
    let known = Known {
        labels: &labels,
        numbers,
    };
    let code = part.code.as_slice();
    let mut lines = Vec::new(alloc);
    let mut left = plain;
    let mut at = 0;
    for _ in 0..code.len() {
        let Some(instr) = decode_at(code, at) else {
            break;
        };
        let (text, rest) = left.split_line();
        left = rest;
        let line = known.instruction_line(alloc, text, at, instr)?;
        lines.push(line.number(alloc, table)?)?;
        at = instr.next;
    }
    for note in &part.notes {
        let (_, rest) = left.split_line();
        left = rest;
        let line = known.note_line(alloc, *note)?;
        lines.push(line.number(alloc, table)?)?;
    }
    Ok((CodeLines { numbers: lines }, left))
}

/// For each function of a script, by number, the lines of its code, by their numbers in the table, and none where it is not compiled.
/// The script itself is function 0.
///
/// It takes time in proportion to the code and to its listing, up to the logarithm of looking lines up, and is an error only where
/// memory runs out.
pub fn script_lines(
    alloc: Global,
    table: &mut LineTable,
    merged: &MergedStencil,
    numbers: Numbers<'_>,
) -> Result<Vec<CodeLines>, AllocError> {
    let mut text = Vec::new(alloc);
    code_text(&mut text, merged)?;
    let (_, plain) = Plain::of(&text).split_line();
    let mut all = Vec::new(alloc);
    let (lines, rest) = code_numbers(alloc, table, plain, &merged.top, numbers)?;
    let mut left = rest;
    all.push(lines)?;
    for entry in &merged.entries {
        let (_, rest) = left.split_line();
        left = rest;
        match entry {
            Entry::Lazy => all.push(CodeLines {
                numbers: Vec::new(alloc),
            })?,
            Entry::Compiled(part) => {
                let (lines, rest) = code_numbers(alloc, table, left, part, numbers)?;
                left = rest;
                all.push(lines)?;
            }
        }
    }
    Ok(all)
}
