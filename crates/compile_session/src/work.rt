//! What the words of a command ask for, and what is printed for it.

ghost use Rattle.std.specs.Prelude.{◌≡◌, ◌≤◌, map, IfOk};
ghost use Rattle.std.specs.String.{string_bytes};
ghost use Rattle.session_outside.specs.Loops.{HaveAtMost};
ghost use Rattle.session_specs.specs.Answer.{most_bytes};
ghost use Rattle.session_words.specs.Asked.{asked};
ghost use Rattle.compile_session.specs.Work as definition;
ghost use Rattle.compile_session.specs.Work.{IsWorkOf};
ghost use Rattle.compile_session.specs.Compiled.{IsCompiledBy};
ghost use Rattle.compile_session.specs.Compiled as compiled;
ghost use Rattle.compile_session.specs.Files.{AnswersWork, CountsWork, IsBounded};

use crate::answer::CommandAnswer;
use crate::churn::churn_answer;
use crate::files::answers_of;
use crate::status::Status;
use crate::trial::trial_answer;
use helper_tasks::Gate;
use session_words::{Options, WordsFault, read_words};
use std::alloc::{AllocError, Global};
use std::sync::Wait;
use std::thread::Threads;

/// What the words ask for.
pub(crate) fn work_of(alloc: Global, words: &[String]) -> Result<Options, Status>
    ensures { IsWorkOf (map string_bytes words.now) result }
{
    match read_words(alloc, words) {
        Ok(work) => Ok(work),
        Err(WordsFault::BadWords) => Err(Status::BadWords),
        Err(WordsFault::NoMemory) => Err(Status::NoMemory),
    }
}

/// The names of the files that are read for it.
pub(crate) fn files_of(work: &Options) -> &[String]
    ensures { map string_bytes result.now ≡ definition.files_of (asked work.now) }
{
    match work {
        Options::Files(job) => &job.files,
        Options::Trial { .. } | Options::Churn { .. } => &[],
    }
}

/// How many workers it asks for.
pub(crate) fn workers_of(work: &Options) -> u32
    requires { IsBounded (asked work.now) }
    ensures { (1 ≤ result) × (result ≤ 16) }
{
    match work {
        Options::Files(job) => job.workers,
        Options::Trial {
            number: _,
            size: _,
            workers,
        } => *workers,
        Options::Churn {
            number: _,
            size: _,
            workers,
        } => *workers,
    }
}

/// What is printed for it, where these bytes were read of its files, and whether one of them is refused.
pub(crate) fn answer_to<R: Threads + Wait + Sync, G: Gate>(
    rt: &R,
    alloc: Global,
    work: &Options,
    reads: &[Option<Vec<u8>>],
    gate: &G,
) -> Result<CommandAnswer, AllocError>
    requires within { HaveAtMost most_bytes reads.now }
    requires bounded { IsBounded (asked work.now) }
    ensures settles { IfOk result (λ given. AnswersWork (asked work.now) reads.now given.answer) }
    ensures counts { IfOk result (λ given. CountsWork (asked work.now) reads.now given.answer.compiled) }
    ensures compiled { IfOk result (λ given. IsCompiledBy (compiled.workers_of (asked work.now)) given.answer.compiled given.compiled) }
{
    match work {
        Options::Files(job) => {
            let answer = answers_of(rt, alloc, job, reads, gate)?;
            Ok(answer)
        }
        Options::Trial {
            number,
            size,
            workers,
        } => {
            let answer = trial_answer(rt, alloc, *number, *size, *workers, gate)?;
            Ok(answer)
        }
        Options::Churn {
            number,
            size,
            workers,
        } => {
            let answer = churn_answer(rt, alloc, *number, *size, *workers, gate)?;
            let compiled = answer.compiled;
            Ok(CommandAnswer { answer, compiled })
        }
    }
}
