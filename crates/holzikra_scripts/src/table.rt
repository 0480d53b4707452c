//! The table of the counts of scripts.

ghost use Rattle.std.specs.Prelude.{◌≡◌, ◌<◌, IfOk, IsPermutation};
ghost use Rattle.std.specs.List.Sorted.{IsSorted, IsStable};
ghost use Rattle.holzikra_scripts.specs.Rows.{falling, line_cmp};

use crate::counts::Row;
use holzikra_places::push_shown_text;
use holzikra_words::Column;
use std::alloc::{AllocError, Global};
use std::cmp::Ordering;
use std::mem;

/// How many columns of numbers the table has.
const COLUMNS: usize = 7;

/// What stands above the columns.
const HEADS: [&str; COLUMNS] = [
    "functions",
    "closed",
    "instructions",
    "code bytes",
    "depth",
    "nested",
    "source bytes",
];

/// A line of the table.
#[derive(Drop)]
struct Line {
    name: String,
    numbers: [u128; COLUMNS],
}

/// The counts of scripts, a line each, and of all together.
#[derive(Drop)]
pub struct Table {
    alloc: Global,
    lines: Vec<Line>,
    totals: [u128; COLUMNS],
}

/// The numbers of a row, in the order of the columns.
fn numbers_of(row: &Row) -> [u128; COLUMNS] {
    [
        row.counts.functions as u128,
        row.counts.closed,
        row.counts.instructions,
        row.counts.bytes,
        u128::from(row.depth),
        u128::from(row.counts.nested),
        row.source_bytes as u128,
    ]
}

/// How lines stand to each other whose greater number in this place comes first.
fn falling_cmp(one: &Line, other: &Line, place: usize) -> Ordering
    requires { place < 7 }
    ensures { result ≡ falling place one.now other.now }
{
    other.numbers[place].cmp(&one.numbers[place])
}

/// How lines stand to each other by a column: names rise, numbers fall.
fn column_cmp(one: &Line, other: &Line, column: Column) -> Ordering
    ensures { result ≡ line_cmp column one.now other.now }
{
    match column {
        Column::File => one.name.cmp(&other.name),
        Column::Functions => falling_cmp(one, other, 0),
        Column::Closed => falling_cmp(one, other, 1),
        Column::Instructions => falling_cmp(one, other, 2),
        Column::CodeBytes => falling_cmp(one, other, 3),
        Column::Depth => falling_cmp(one, other, 4),
        Column::Nested => falling_cmp(one, other, 5),
        Column::SourceBytes => falling_cmp(one, other, 6),
    }
}

/// The lines by a column; those that are equal there come as they came.
fn sorted_lines(lines: Vec<Line>, column: Column) -> Result<Vec<Line>, AllocError>
    ensures permutation { IfOk result (λ sorted. IsPermutation lines.items sorted.items) }
    ensures sorted { IfOk result (λ sorted. IsSorted (line_cmp column) sorted.items) }
    ensures stable { IfOk result (λ sorted. IsStable (line_cmp column) lines.items sorted.items) }
{
    let mut sorted = lines;
    sorted.sort_by(
        |one: &Line, other: &Line| -> Ordering
            ensures { result ≡ line_cmp column one.now other.now }
        { column_cmp(one, other, column) },
    )?;
    Ok(sorted)
}

/// Whether a column has the greatest number at the end, and not the sum.
fn has_greatest(column: usize) -> bool {
    column == 4 || column == 5
}

/// A number with a comma in front of each three digits from the end.
fn grouped(alloc: Global, number: u128) -> Result<String, AllocError> {
    let digits = format!(in alloc; "{number}")?;
    let mut left = digits.len();
    let mut text = String::new(alloc);
    for digit in digits.chars() {
        if left % 3 == 0 && left != digits.len() {
            text.push(',')?;
        }
        text.push(digit)?;
        left = left.saturating_sub(1);
    }
    Ok(text)
}

/// Appends a text and blanks in front of it, so that both are so wide.
fn push_right(into: &mut String, text: &str, width: usize) -> Result<(), AllocError> {
    for _ in text.len()..width {
        into.push(' ')?;
    }
    into.push_str(text)
}

/// Appends a text and blanks behind it, so that both are so wide.
fn push_left(into: &mut String, text: &str, width: usize) -> Result<(), AllocError> {
    into.push_str(text)?;
    for _ in text.chars().count()..width {
        into.push(' ')?;
    }
    Ok(())
}

impl Table {
    /// A table without lines.
    pub fn new(alloc: Global) -> Table {
        Table {
            alloc,
            lines: Vec::new(alloc),
            totals: [0; COLUMNS],
        }
    }

    /// One more line.
    pub fn add(&mut self, name: &str, row: &Row) -> Result<(), AllocError> {
        let mut shown = String::new(self.alloc);
        push_shown_text(&mut shown, name)?;
        let numbers = numbers_of(row);
        for column in 0..COLUMNS {
            let number = numbers[column];
            let total = self.totals[column];
            self.totals[column] = if has_greatest(column) {
                total.max(number)
            } else {
                total.saturating_add(number)
            };
        }
        self.lines.push(Line {
            name: shown,
            numbers,
        })?;
        Ok(())
    }

    /// Sorts the lines by a column.
    pub fn sort(&mut self, column: Column) -> Result<(), AllocError> {
        let lines = mem::replace(&mut self.lines, Vec::new(self.alloc));
        self.lines = sorted_lines(lines, column)?;
        Ok(())
    }

    /// How many lines there are.
    pub fn count(&self) -> usize {
        self.lines.len()
    }

    /// How wide the names are, and this one.
    fn name_width(&self, last: &str) -> usize {
        let mut width = last.chars().count().max(4);
        for line in &self.lines {
            width = width.max(line.name.chars().count());
        }
        width
    }

    /// How wide each column is. No number is above the last line's.
    fn widths(&self) -> Result<[usize; COLUMNS], AllocError> {
        let mut widths = [0; COLUMNS];
        for column in 0..COLUMNS {
            let total = grouped(self.alloc, self.totals[column])?;
            widths[column] = total.len().max(HEADS[column].len());
        }
        Ok(widths)
    }

    /// Appends a line of numbers.
    fn push_numbers(
        &self,
        into: &mut String,
        numbers: &[u128; COLUMNS],
        widths: &[usize; COLUMNS],
    ) -> Result<(), AllocError> {
        for column in 0..COLUMNS {
            let number = grouped(self.alloc, numbers[column])?;
            into.push_str("  ")?;
            push_right(into, number.as_str(), widths[column])?;
        }
        into.push('\n')
    }

    /// Appends the line above the columns.
    fn push_heads(&self, into: &mut String, widths: &[usize; COLUMNS]) -> Result<(), AllocError> {
        for column in 0..COLUMNS {
            into.push_str("  ")?;
            push_right(into, HEADS[column], widths[column])?;
        }
        into.push('\n')
    }

    /// The table, where it is named with a last line of this name for all together: of depths the greatest, else sums.
    pub fn text(&self, last: Option<&str>) -> Result<String, AllocError> {
        let width = self.name_width(last.unwrap_or(""));
        let widths = self.widths()?;
        let mut text = String::new(self.alloc);
        push_left(&mut text, "file", width)?;
        self.push_heads(&mut text, &widths)?;
        for line in &self.lines {
            push_left(&mut text, line.name.as_str(), width)?;
            self.push_numbers(&mut text, &line.numbers, &widths)?;
        }
        if let Some(last) = last {
            push_left(&mut text, last, width)?;
            self.push_numbers(&mut text, &self.totals, &widths)?;
        }
        Ok(text)
    }
}
