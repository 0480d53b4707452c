//! What is printed for all files of a command.

ghost use Rattle.std.specs.Prelude.{◌≡◌, ◌≤◌, ◌*◌, length, IfOk};
ghost use Rattle.session_outside.specs.Loops.{HaveAtMost};
ghost use Rattle.session_specs.specs.Answer.{most_bytes};
ghost use Rattle.session_words.specs.Asked as asked;
ghost use Rattle.session_specs.specs.Compiled as compiled;
ghost use Rattle.compile_session.specs.Compiled.{IsCompiledBy};
ghost use Rattle.compile_session.specs.Files.{AnswersAll, CountsWork};
ghost use Rattle.compile_session.specs.Showing.{compiled_in};
ghost use Rattle.compile_session.specs.Workers.{CanBeAnswered, SettleFiles};

use crate::answer::{CommandAnswer, WholeAnswer};
use crate::file_order::file_order;
use crate::shown::{ShownFiles, shown_answers};
use crate::workers::file_answers;
use helper_tasks::Gate;
use session_words::{Command, FileJob};
use std::alloc::{AllocError, Global};
use std::sync::Wait;
use std::thread::Threads;

/// Whether the command shows the scripts of its files.
fn shows_scripts(command: Command) -> bool
    ensures { result ≡ compiled.shows_scripts command }
{
    match command {
        Command::Code | Command::Scopes | Command::Save => true,
        Command::Check | Command::Load | Command::Verify => false,
    }
}

/// What is printed for each of the first `count` files of a command, of which these bytes were read. Workers are handed the files in
/// the order that the command asks for.
fn file_by_file<R: Threads + Wait + Sync, G: Gate>(
    rt: &R,
    alloc: Global,
    job: &FileJob,
    reads: &[Option<Vec<u8>>],
    count: u32,
    gate: &G,
) -> Result<ShownFiles, AllocError>
    requires can { CanBeAnswered job.now reads.now count }
    requires workers { (1 ≤ job.now.workers) × (job.now.workers ≤ 16) }
    requires few { count ≤ 64 }
    ensures settles { IfOk result (λ files. SettleFiles (asked.job job.now) reads.now count files.answers.items) }
    ensures most { IfOk result (λ files. files.compiled ≤ job.now.workers * compiled_in files.answers.items) }
{
    let order = file_order(alloc, job.order, reads, count)?;
    if shows_scripts(job.command) {
        let shown = shown_answers(rt, alloc, job, reads, count, &order, gate)?;
        return Ok(shown);
    }
    let answers = file_answers(rt, alloc, job, reads, count, &order, gate)?;
    Ok(ShownFiles {
        answers,
        compiled: 0,
    })
}

/// What is printed for the files of a command, one after another, of which these bytes were read, whether one of them is
/// refused, and how many functions were compiled for them. Workers answer the files, each by itself and in whatever order.
pub(crate) fn answers_of<R: Threads + Wait + Sync, G: Gate>(
    rt: &R,
    alloc: Global,
    job: &FileJob,
    reads: &[Option<Vec<u8>>],
    gate: &G,
) -> Result<CommandAnswer, AllocError>
    requires within { HaveAtMost most_bytes reads.now }
    requires files { length job.now.files.items ≤ 64 }
    requires workers { (1 ≤ job.now.workers) × (job.now.workers ≤ 16) }
    ensures settles { IfOk result (λ given. AnswersAll (asked.job job.now) reads.now given.answer) }
    ensures counts { IfOk result (λ given. CountsWork (asked.Files (asked.job job.now)) reads.now given.answer.compiled) }
    ensures compiled { IfOk result (λ given. IsCompiledBy job.now.workers given.answer.compiled given.compiled) }
{
    let count = job.files.len().min(reads.len()) as u32;
    let files = file_by_file(rt, alloc, job, reads, count, gate)?;
    let mut refused = false;
    let mut compiled = 0;
    for answer in &files.answers {
        refused = refused || answer.refused;
        compiled += answer.compiled;
    }
    let answer = WholeAnswer {
        files: files.answers,
        refused,
        compiled,
    };
    Ok(CommandAnswer {
        answer,
        compiled: files.compiled,
    })
}
