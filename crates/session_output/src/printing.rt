//! The pieces of a listing, each made by one of several workers.

ghost use Rattle.std.specs.Prelude.{◌≡◌, ◌≤◌, ◌<◌, length, IfOk};
ghost use Rattle.helper_tasks.specs.Jobs.{IsOrderOf};
ghost use Rattle.session_output.specs.Texts.{AllArePieces, AreTextsOf, CanBePrinted, IsTextAt};

use crate::text::ListedScript;
use helper_tasks::{Gate, Job, run_tasks};
use script_image::{Piece, piece_text};
use std::alloc::{AllocError, Global};
use std::sync::Wait;
use std::thread::Threads;

/// How many pieces are made before they are written.
pub(crate) const ROUND: usize = 128;

/// Pieces as tasks: the task of a number makes the text of the piece of that number.
#[derive(Drop)]
struct Printing<'a> {
    script: &'a ListedScript,
    pieces: &'a [Piece],
    count: u32,
}

/// What a worker has to itself: the numbers of the pieces that it made.
#[derive(Drop)]
struct Printer {
    printed: Vec<u32>,
}

impl<'a> Job for Printing<'a> {
    ghost use Rattle.session_output.specs.Texts.{CanBePrinted, IsTextAt};

    type Out = Vec<u8>;

    type Share = Printer;

    ghost tasks = { λ printing. printing.count };

    ghost gives = { λ printing number text. IsTextAt printing.script.now printing.pieces.now number text.items };

    ghost fits = { λ printing printer. CanBePrinted printing.script.now printing.pieces.now printing.count };

    ghost ran = { λ printer. printer.printed.items };

    fn run(&self, alloc: Global, task: u32, printer: &mut Printer) -> Result<Vec<u8>, AllocError> {
        let text = self.text(alloc, task)?;
        printer.printed.push(task)?;
        Ok(text)
    }
}

impl<'a> Printing<'a> {
    /// The text of the piece of this number.
    fn text(&self, alloc: Global, number: u32) -> Result<Vec<u8>, AllocError>
        requires number { number < self.now.count }
        requires can { CanBePrinted self.now.script.now self.now.pieces.now self.now.count }
        ensures { IfOk result (λ text. IsTextAt self.now.script.now self.now.pieces.now number text.items) }
    {
        let piece = self.pieces[number as usize];
        let text = piece_text(alloc, self.script.listing, &self.script.stencil, piece)?;
        Ok(text)
    }
}

/// The numbers below n.
fn numbers(alloc: Global, count: u32) -> Result<Vec<u32>, AllocError>
    ensures { IfOk result (λ numbers. IsOrderOf count numbers.items) }
{
    let mut numbers = Vec::new(alloc);
    for number in 0..count {
        numbers.push(number)?;
    }
    Ok(numbers)
}

/// n workers, none of which has made a piece.
fn printers(alloc: Global, count: u32) -> Result<Vec<Printer>, AllocError>
    ensures { IfOk result (λ printers. length printers.items ≡ count) }
{
    let mut printers = Vec::new(alloc);
    for _ in 0..count {
        let printed = Vec::new(alloc);
        printers.push(Printer { printed })?;
    }
    Ok(printers)
}

/// The texts of these pieces, each made by one of so many workers.
pub(crate) fn texts_of<R: Threads + Wait + Sync, G: Gate>(
    rt: &R,
    alloc: Global,
    script: &ListedScript,
    pieces: &[Piece],
    workers: u32,
    gate: &G,
) -> Result<Vec<Vec<u8>>, AllocError>
    requires pieces { AllArePieces script.now pieces.now }
    requires few { length pieces.now ≤ 128 }
    requires workers { (1 ≤ workers) × (workers ≤ 16) }
    ensures { IfOk result (λ texts. AreTextsOf script.now pieces.now texts.items) }
{
    let count = pieces.len() as u32;
    let order = numbers(alloc, count)?;
    let workers = printers(alloc, workers.min(count).max(1))?;
    let printing = Printing {
        script,
        pieces,
        count,
    };
    let (texts, _) = run_tasks(rt, alloc, &order, workers, &printing, gate)?;
    Ok(texts)
}
