//! The files of a command that shows scripts, of which each function is compiled by one of several workers.

ghost use Rattle.std.specs.Prelude.{◌≡◌, ◌≢◌, ℕ, ◌≤◌, ◌<◌, ◌*◌, ◌^◌, true, length, IfOk, Some, None};
ghost use Rattle.helper_tasks.specs.Jobs.{IsOrderOf};
ghost use Rattle.session_words.specs.Asked as asked;
ghost use Rattle.session_specs.specs.Compiled.{shows_scripts};
ghost use Rattle.stencil_board.specs.Files.{file_at};
ghost use Rattle.session_requests.specs.Hands.{Fits};
ghost use Rattle.session_requests.specs.Works.{AreWorks, IsWorkOf, shown_of, work_at};
ghost use Rattle.compile_session.specs.Orders.{AreBegunIn};
ghost use Rattle.compile_session.specs.Showing.{AreAsked, AreAskedBy, CanBeShown, IsAskedOf, ShowsFile, ShowsScript, compiled_in, picked_file};
ghost use Rattle.compile_session.specs.Showing.{picked_files};
ghost use Rattle.compile_session.specs.Starts.{AreStarts, IsStart};
ghost use Rattle.compile_session.specs.Workers.{CanBeAnswered, SettleFiles};

use crate::answer::{FileAnswer, refused};
use crate::listing::wanted_of;
use crate::printing::shown_text;
use crate::start::FileStart;
use crate::starts::file_starts;
use helper_tasks::{Gate, Job, run_tasks};
use session_requests::{
    Hand, Request, ScriptWork, compiled_by, hands_for, request_all, requests_of, shown_in,
};
use session_words::FileJob;
use std::alloc::{AllocError, Global};
use std::marker::Brand;
use std::sync::Wait;
use std::thread::Threads;
use stencil_board::Sources;

/// What is printed for files, and how many functions workers compiled for that, each as often as it was compiled.
#[derive(Drop)]
pub(crate) struct ShownFiles {
    pub answers: Vec<FileAnswer>,
    pub compiled: u64,
}

/// The files of a command as tasks: the task of a number gives what is printed for the file of that number.
#[derive(Drop)]
struct FilesToShow<'a, N: Sources> {
    job: &'a FileJob,
    reads: &'a [Option<Vec<u8>>],
    starts: &'a [FileStart],
    works: &'a [Option<ScriptWork<'a, N>>],
    count: u32,
}

impl<'a, N: Sources + Send + Sync> Job for FilesToShow<'a, N> {
    ghost use Rattle.session_words.specs.Asked as asked;
    ghost use Rattle.session_requests.specs.Hands.{Fits};
    ghost use Rattle.compile_session.specs.Showing.{CanBeShown, ShowsFile};

    type Out = FileAnswer;

    type Share = Hand<N>;

    ghost tasks = { λ files. files.count };

    ghost gives = { λ files number answer. ShowsFile (asked.job files.job.now) files.reads.now files.works.now number answer };

    ghost fits = { λ files hand. CanBeShown N.files files.job.now files.reads.now files.starts.now files.works.now files.count
        × Fits files.works.now hand };

    ghost ran = { λ hand. hand.ran };

    fn run(&self, alloc: Global, task: u32, hand: &mut Hand<N>) -> Result<FileAnswer, AllocError> {
        let answer = self.answer(alloc, task, hand)?;
        hand.note_task(task)?;
        Ok(answer)
    }
}

impl<'a, N: Sources> FilesToShow<'a, N> {
    /// What is printed for the file of this number.
    fn answer(
        &self,
        alloc: Global,
        number: u32,
        hand: &mut Hand<N>,
    ) -> Result<FileAnswer, AllocError>
        requires number { number < self.now.count }
        requires can { CanBeShown N.files self.now.job.now self.now.reads.now self.now.starts.now self.now.works.now self.now.count }
        requires fits { Fits self.now.works.now hand.old }
        ensures shows { IfOk result (ShowsFile (asked.job self.now.job.now) self.now.reads.now self.now.works.now number) }
        ensures fits { Fits self.now.works.now hand.new }
        ensures ran { hand.new.ran ≡ hand.old.ran }
    {
        let name = self.job.files[number as usize].as_str();
        match &self.starts[number as usize] {
            FileStart::Script(_) => {
                let answer = self.script_answer(alloc, name, number, hand)?;
                Ok(answer)
            }
            FileStart::Refused(why) => {
                let answer = refused(alloc, name, *why)?;
                Ok(answer)
            }
        }
    }

    /// What is printed for the file of this number, which is a script.
    fn script_answer(
        &self,
        alloc: Global,
        name: &str,
        number: u32,
        hand: &mut Hand<N>,
    ) -> Result<FileAnswer, AllocError>
        requires number { number < self.now.count }
        requires can { CanBeShown N.files self.now.job.now self.now.reads.now self.now.starts.now self.now.works.now self.now.count }
        requires fits { Fits self.now.works.now hand.old }
        requires script { work_at self.now.works.now number ≢ None }
        ensures shows { IfOk result (ShowsScript self.now.job.now.command (work_at self.now.works.now number) name.now) }
        ensures fits { Fits self.now.works.now hand.new }
        ensures ran { hand.new.ran ≡ hand.old.ran }
    {
        let stencil = hand.merged(alloc, self.works, number)?;
        let text = shown_text(alloc, self.job.command, name, stencil)?;
        Ok(FileAnswer {
            text,
            refused: false,
            compiled: shown_at(self.works, number),
        })
    }
}

/// How many functions of the file of this number are shown.
fn shown_at<N: Sources>(works: &[Option<ScriptWork<'_, N>>], number: u32) -> u64
    requires { number < length works.now }
    ensures { result ≡ shown_of (work_at works.now number) }
{
    shown_in(&works[number as usize])
}

/// The functions of files can be asked for where these are scripts.
fn works_of<'a, N: Sources>(
    alloc: Global,
    reads: &'a [Option<Vec<u8>>],
    starts: &'a [FileStart],
    count: u32,
) -> Result<Vec<Option<ScriptWork<'a, N>>>, AllocError>
    requires picked { N.files ≡ picked_files reads.now starts.now }
    requires started { (want : asked.Wanted) × AreStarts want reads.now count starts.now }
    requires read { count ≤ length reads.now }
    ensures asked { IfOk result (λ works. AreAsked reads.now starts.now works.items) }
    ensures works { IfOk result (λ works. AreWorks N.files works.items) }
{
    let mut works = Vec::new(alloc);
    for number in 0..count {
        let read = &reads[number as usize];
        let start = &starts[number as usize];
        let work = work_of(alloc, number, read, start)?;
        works.push(work)?;
    }
    Ok(works)
}

/// The same of one file.
fn work_of<'a, N: Sources>(
    alloc: Global,
    number: u32,
    read: &'a Option<Vec<u8>>,
    start: &'a FileStart,
) -> Result<Option<ScriptWork<'a, N>>, AllocError>
    requires picked { file_at N.files number ≡ picked_file read.now start.now }
    requires started { (want : asked.Wanted) × IsStart want read.now start.now }
    ensures asked { IfOk result (IsAskedOf read.now start.now) }
    ensures work { IfOk result (IsWorkOf N.files) }
{
    let FileStart::Script(script) = start else {
        return Ok(None);
    };
    let Some(bytes) = read else {
        return Ok(None);
    };
    let work = ScriptWork::new(alloc, number, bytes, &script.initial, &script.shown)?;
    Ok(Some(work))
}

/// How many workers have something to do, where there are so many tasks: no more than there may be.
fn useful_workers(workers: u32, tasks: usize) -> u32
    requires { 1 ≤ workers }
    ensures { (1 ≤ result) × (result ≤ workers) }
{
    if tasks < workers as usize {
        (tasks as u32).max(1)
    } else {
        workers
    }
}

/// What is printed for each of the first `count` files of a command, after their first passes. The functions that are wanted are
/// asked for, in the order that the command asks for; then each file is printed.
fn answers_after<R: Threads + Wait + Sync, G: Gate, N: Sources + Send + Sync>(
    rt: &R,
    alloc: Global,
    job: &FileJob,
    reads: &[Option<Vec<u8>>],
    starts: &[FileStart],
    order: &[u32],
    count: u32,
    gate: &G,
) -> Result<ShownFiles, AllocError>
    requires picked { N.files ≡ picked_files reads.now starts.now }
    requires can { CanBeAnswered job.now reads.now count }
    requires started { AreStarts (asked.wanted job.now.want) reads.now count starts.now }
    requires order { IsOrderOf count order.now }
    requires begun { AreBegunIn job.now.order reads.now count order.now }
    requires shows { shows_scripts job.now.command ≡ true }
    requires workers { (1 ≤ job.now.workers) × (job.now.workers ≤ 16) }
    requires few { count ≤ 64 }
    ensures settles { IfOk result (λ shown. SettleFiles (asked.job job.now) reads.now count shown.answers.items) }
    ensures most { IfOk result (λ shown. shown.compiled ≤ job.now.workers * compiled_in shown.answers.items) }
{
    let works = works_of::<N>(alloc, reads, starts, count)?;
    let requests = requests_of(alloc, &works, order, wanted_of(&job.want), job.order)?;
    let files = FilesToShow {
        job,
        reads,
        starts,
        works: &works,
        count,
    };
    answers_by(rt, alloc, &files, &requests, order, gate)
}

/// What is printed for these files, once these requests were made, which are all that the command asks of them, and in its order.
/// Each part is done by as many workers as the command asks for, and no more than there are tasks.
fn answers_by<R: Threads + Wait + Sync, G: Gate, N: Sources + Send + Sync>(
    rt: &R,
    alloc: Global,
    files: &FilesToShow<'_, N>,
    requests: &[Request],
    order: &[u32],
    gate: &G,
) -> Result<ShownFiles, AllocError>
    requires can { CanBeShown N.files files.now.job.now files.now.reads.now files.now.starts.now files.now.works.now files.now.count }
    requires order { IsOrderOf files.now.count order.now }
    requires begun { AreBegunIn files.now.job.now.order files.now.reads.now files.now.count order.now }
    requires asked { AreAskedBy files.now.job.now files.now.works.now order.now requests.now }
    requires workers { (1 ≤ files.now.job.now.workers) × (files.now.job.now.workers ≤ 16) }
    requires few { files.now.count ≤ 64 }
    ensures settles { IfOk result (λ shown. SettleFiles (asked.job files.now.job.now) files.now.reads.now files.now.count shown.answers.items) }
    ensures most { IfOk result (λ shown. shown.compiled ≤ files.now.job.now.workers * compiled_in shown.answers.items) }
{
    let tasks = requests.len().max(files.count as usize);
    let workers = useful_workers(files.job.workers, tasks);
    let hands = hands_for(alloc, files.works, workers)?;
    let hands = request_all(rt, alloc, files.works, requests, hands, gate)?;
    let (answers, hands) = run_tasks(rt, alloc, order, hands, files, gate)?;
    Ok(ShownFiles {
        answers,
        compiled: compiled_by(&hands),
    })
}

/// What is printed for each of the first `count` files of a command, of which these bytes were read. Workers are handed the files in
/// this order, which is the command's.
pub(crate) fn shown_answers<R: Threads + Wait + Sync, G: Gate>(
    rt: &R,
    alloc: Global,
    job: &FileJob,
    reads: &[Option<Vec<u8>>],
    count: u32,
    order: &[u32],
    gate: &G,
) -> Result<ShownFiles, AllocError>
    requires can { CanBeAnswered job.now reads.now count }
    requires order { IsOrderOf count order.now }
    requires begun { AreBegunIn job.now.order reads.now count order.now }
    requires shows { shows_scripts job.now.command ≡ true }
    requires workers { (1 ≤ job.now.workers) × (job.now.workers ≤ 16) }
    requires few { count ≤ 64 }
    ensures settles { IfOk result (λ shown. SettleFiles (asked.job job.now) reads.now count shown.answers.items) }
    ensures most { IfOk result (λ shown. shown.compiled ≤ job.now.workers * compiled_in shown.answers.items) }
{
    let starts = file_starts(rt, alloc, job, reads, count, order, gate)?;
    answers_after::<R, G, Brand>(rt, alloc, job, reads, &starts, order, count, gate)
}
