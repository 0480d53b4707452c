//! The commands that go through files: each is read, answered and let go.

use crate::answer::answer_text;
use crate::complaint::complain;
use crate::images::{answer_image, list_image};
use crate::inspected::Inspected;
use crate::listings::{code_of, scopes_of};
use crate::reading::{image_of, input_image};
use crate::refusal::{Said, Showing, answer_refused};
use crate::screen::{Screen, Surroundings};
use crate::stats::counts_of_text;
use crate::status::{Status, Tally};
use crate::task::Task;
use crate::verdict::{Judge, Reason};
use crate::{human, json, sarif};
use holzikra_colours::Answer;
use holzikra_scripts::{Row, Table, row_line};
use holzikra_walk::{Found, Walk};
use holzikra_words::{
    CheckOptions, FileOptions, Format, LoadOptions, StatsFormat, StatsOptions, VerifyOptions,
};
use serde_json::Value;
use std::io::{BufWriter, ErrorKind, Read, Write};
use std::rt::{Files, Runtime};
use std::{fs, io, mem};

/// The bytes of a file that are read: one more than a text may have.
const MOST_READ: u64 = 16_777_216;

/// The bytes of a file, or the first of those of one that is too long.
pub(crate) fn bytes_of<R: Files + AllocGlobal>(rt: &R, path: &str) -> io::Result<Vec<u8>> {
    let mut bytes = Vec::new(rt.alloc());
    fs::open(rt, path)?.take(MOST_READ).read_to_end(&mut bytes)?;
    Ok(bytes)
}

/// The bytes of standard input, or the first of those.
pub(crate) fn input_bytes<R: Input + AllocGlobal>(rt: &R) -> io::Result<Vec<u8>> {
    let mut bytes = Vec::new(rt.alloc());
    rt.reader().take(MOST_READ).read_to_end(&mut bytes)?;
    Ok(bytes)
}

/// A command that goes on.
#[derive(Drop)]
struct Progress<'a, W: Write + Drop> {
    task: Task<'a>,
    screen: Screen<W>,
    tally: Tally,
    said: Said,
    /// The counts of `stats`.
    table: Table,
    /// What a log of SARIF says of files that cannot be read.
    faults: Vec<Value>,
}

impl<'a, W: Write + Drop> Progress<'a, W> {
    /// Says that something cannot be read, or is not there. Want of memory ends the command.
    fn fault<R: Runtime + AllocGlobal>(
        &mut self,
        rt: &R,
        name: &str,
        error: io::Error,
    ) -> io::Result<()> {
        if error.kind() == ErrorKind::OutOfMemory {
            return Err(error);
        }
        self.tally.fail();
        let why = format!(in rt.alloc(); "{error}")?;
        self.screen.wipe(rt)?;
        complain(rt, name, why.as_str())?;
        self.unreadable(rt, name, why.as_str())
    }

    /// Answers for what cannot be read, where the form of the answers has something for that.
    fn unreadable<R: Runtime + AllocGlobal>(
        &mut self,
        rt: &R,
        name: &str,
        why: &str,
    ) -> io::Result<()> {
        match self.task.format() {
            Format::Json => {
                let line = json::unreadable_line(rt.alloc(), name, why)?;
                self.screen.write(rt, Answer::Refusals, line.into_bytes())
            }
            Format::Sarif => {
                let fault = sarif::fault_notification(rt.alloc(), name, why)?;
                self.faults.push(fault)?;
                Ok(())
            }
            Format::Human | Format::Github => Ok(()),
        }
    }

    /// Says that a script has no function that a word means.
    fn no_function<R: Runtime + AllocGlobal>(
        &mut self,
        rt: &R,
        name: &str,
        place: usize,
    ) -> io::Result<()> {
        self.tally.fail();
        let word = self.task.function_word(rt.alloc(), place)?;
        let why = format!(in rt.alloc(); "no function {word}")?;
        self.screen.wipe(rt)?;
        complain(rt, name, why.as_str())
    }

    /// Answers for a text that is refused.
    fn refused<R: Runtime + AllocGlobal>(
        &mut self,
        rt: &R,
        name: &str,
        text: &[u8],
        reason: Reason,
    ) -> io::Result<()> {
        let showing = Showing::all(self.task.format());
        let lines = answer_refused(
            rt.alloc(),
            showing,
            name,
            text,
            reason,
            &mut self.tally,
            &mut self.said,
        )?;
        self.screen.write(rt, Answer::Refusals, lines.into_bytes())
    }

    /// Answers for a text with what `check` says of it.
    fn check<R: Runtime + AllocGlobal, J: Judge>(
        &mut self,
        rt: &R,
        judge: &J,
        options: &CheckOptions,
        name: &str,
        text: &[u8],
    ) -> io::Result<()> {
        let lines = answer_text(
            rt.alloc(),
            judge,
            options,
            name,
            text,
            &mut self.tally,
            &mut self.said,
        )?;
        self.screen.write(rt, Answer::Refusals, lines.into_bytes())
    }

    /// Answers for a text with a listing or a drawing.
    fn list<R: Runtime + AllocGlobal>(
        &mut self,
        rt: &R,
        answer: Answer,
        name: &str,
        text: &[u8],
        inspected: Inspected<Vec<u8>>,
    ) -> io::Result<()> {
        match inspected {
            Inspected::Script(lines) => {
                self.tally.count_script();
                self.screen.write(rt, answer, lines)
            }
            Inspected::Refused(reason) => self.refused(rt, name, text, reason),
            Inspected::NoFunction(place) => self.no_function(rt, name, place),
        }
    }

    /// Answers for a text with its counts.
    fn count<R: Runtime + AllocGlobal>(
        &mut self,
        rt: &R,
        options: &StatsOptions,
        name: &str,
        text: &[u8],
        inspected: Inspected<Row>,
    ) -> io::Result<()> {
        match inspected {
            Inspected::Script(row) => {
                self.tally.count_script();
                match options.format {
                    StatsFormat::Human => self.table.add(name, &row)?,
                    StatsFormat::Json => {
                        let line = row_line(rt.alloc(), name, &row)?;
                        self.screen.write(rt, Answer::Table, line.into_bytes())?;
                    }
                }
                Ok(())
            }
            Inspected::Refused(reason) => self.refused(rt, name, text, reason),
            Inspected::NoFunction(place) => self.no_function(rt, name, place),
        }
    }

    /// Answers for an image with its listing.
    fn load<R: Runtime + AllocGlobal>(
        &mut self,
        rt: &R,
        options: &LoadOptions,
        name: &str,
        image: &[u8],
    ) -> io::Result<()> {
        let lines = list_image(rt.alloc(), options.format, name, image, &mut self.tally)?;
        self.screen.write(rt, Answer::Listing, lines)
    }

    /// Answers for an image with the verdict on its code.
    fn verify<R: Runtime + AllocGlobal, J: Judge>(
        &mut self,
        rt: &R,
        judge: &J,
        options: &VerifyOptions,
        name: &str,
        image: &[u8],
    ) -> io::Result<()> {
        let line = answer_image(rt.alloc(), judge, options, name, image, &mut self.tally)?;
        self.screen.write(rt, Answer::Images, line.into_bytes())
    }

    /// Does for the bytes of a file what the task is.
    fn text<R: Runtime + AllocGlobal, J: Judge>(
        &mut self,
        rt: &R,
        judge: &J,
        name: &str,
        text: &[u8],
    ) -> io::Result<()> {
        match self.task {
            Task::Check(options) => self.check(rt, judge, options, name, text),
            Task::Code(options) => {
                let listing = code_of(rt.alloc(), judge, options, name, text)?;
                self.list(rt, Answer::Listing, name, text, listing)
            }
            Task::Scopes(options) => {
                let drawing = scopes_of(rt.alloc(), judge, options, name, text)?;
                self.list(rt, Answer::Tree, name, text, drawing)
            }
            Task::Stats(options) => {
                let row = counts_of_text(rt.alloc(), judge, text)?;
                self.count(rt, options, name, text, row)
            }
            Task::Load(options) => self.load(rt, options, name, text),
            Task::Verify(options) => self.verify(rt, judge, options, name, text),
        }
    }

    /// Answers for what was read.
    fn read<R: Runtime + AllocGlobal, J: Judge>(
        &mut self,
        rt: &R,
        judge: &J,
        name: &str,
        read: io::Result<Vec<u8>>,
    ) -> io::Result<()> {
        match read {
            Err(error) => self.fault(rt, name, error),
            Ok(text) => self.text(rt, judge, name, &text),
        }
    }

    /// Answers for what the walk found.
    fn answer<R: Runtime + AllocGlobal, J: Judge>(
        &mut self,
        rt: &R,
        judge: &J,
        found: Found,
    ) -> io::Result<()> {
        match found {
            Found::Fault(name, error) => self.fault(rt, name.as_str(), error),
            Found::Input => {
                let files = self.task.files();
                let read = if self.task.takes_images() {
                    input_image(rt)
                } else {
                    input_bytes(rt)
                };
                self.read(rt, judge, files.stdin_name.as_str(), read)
            }
            Found::File(name) => {
                let read = if self.task.takes_images() {
                    image_of(rt, name.as_str())
                } else {
                    bytes_of(rt, name.as_str())
                };
                self.read(rt, judge, name.as_str(), read)
            }
        }
    }

    /// Shows how far the command is, if it is time.
    fn go_on<R: Runtime>(&mut self, rt: &R) -> io::Result<()> {
        let refused = self.tally.errors.saturating_add(self.tally.outside);
        self.screen.go_on(rt, self.task.word(), refused)
    }

    /// Writes what comes in front of all files.
    fn start<R: Runtime + AllocGlobal>(&mut self, rt: &R) -> io::Result<()> {
        match self.task.format() {
            Format::Sarif => {
                let head = String::from_str(rt.alloc(), sarif::HEAD)?;
                self.screen.write(rt, Answer::Refusals, head.into_bytes())
            }
            Format::Human | Format::Json | Format::Github => Ok(()),
        }
    }

    /// Writes the counts of what `check` found.
    fn finish_check<R: Runtime + AllocGlobal>(
        &mut self,
        rt: &R,
        options: &CheckOptions,
    ) -> io::Result<()> {
        if options.format == Format::Sarif {
            let faults = mem::replace(&mut self.faults, Vec::new(rt.alloc()));
            let lines = sarif::tail(rt.alloc(), faults)?;
            self.screen.write(rt, Answer::Refusals, lines.into_bytes())?;
        }
        if options.look.quiet {
            return Ok(());
        }
        let line = human::summary(rt.alloc(), &self.tally, &self.said)?;
        match options.format {
            Format::Human => self.screen.write(rt, Answer::Refusals, line.into_bytes()),
            Format::Json | Format::Github | Format::Sarif => eprint!(rt; "{line}"),
        }
    }

    /// Writes the table of `stats`.
    fn finish_stats<R: Runtime + AllocGlobal>(
        &mut self,
        rt: &R,
        options: &StatsOptions,
    ) -> io::Result<()> {
        match options.format {
            StatsFormat::Json => Ok(()),
            StatsFormat::Human => {
                if let Some(column) = options.sort {
                    self.table.sort(column)?;
                }
                let quiet = options.look.quiet;
                let lines = human::table(rt.alloc(), &self.table, &self.tally, quiet)?;
                self.screen.write(rt, Answer::Table, lines.into_bytes())
            }
        }
    }

    /// Writes what comes behind all files.
    fn finish<R: Runtime + AllocGlobal>(&mut self, rt: &R) -> io::Result<Status> {
        self.screen.wipe(rt)?;
        match self.task {
            Task::Check(options) => self.finish_check(rt, options)?,
            Task::Stats(options) => self.finish_stats(rt, options)?,
            Task::Code(_) | Task::Scopes(_) | Task::Load(_) | Task::Verify(_) => (),
        }
        self.screen.finish()?;
        Ok(self.tally.status())
    }

    /// Answers for all that the walk finds among these files.
    fn answer_all<R: Runtime + AllocGlobal, J: Judge>(
        &mut self,
        rt: &R,
        judge: &J,
        walk: &mut Walk,
        files: &FileOptions,
    ) -> io::Result<Status> {
        self.start(rt)?;
        for _ in 0..u64::MAX {
            let Some(found) = walk.next(rt, files)? else {
                break;
            };
            self.answer(rt, judge, found)?;
            self.go_on(rt)?;
        }
        self.finish(rt)
    }
}

/// Does the task for all files that it names, and writes the answers to standard output. The error is want of memory, or that standard
/// output takes no more.
pub(crate) fn answer_files<R: Runtime + AllocGlobal, J: Judge>(
    rt: &R,
    judge: &J,
    task: Task<'_>,
    around: Surroundings,
) -> io::Result<Status> {
    let files = task.files();
    let mut walk = Walk::new(rt, files)?;
    let out = BufWriter::new(rt.alloc(), io::writer(rt))?;
    let mut progress = Progress {
        task,
        screen: Screen::of(out, task, around),
        tally: Tally::new(),
        said: Said::new(rt.alloc()),
        table: Table::new(rt.alloc()),
        faults: Vec::new(rt.alloc()),
    };
    progress.answer_all(rt, judge, &mut walk, files)
}
