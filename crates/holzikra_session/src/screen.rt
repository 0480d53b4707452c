//! What a person sees of a command: its answers, in colours where they are wanted, and on a terminal how far it is.

ghost use Rattle.std.specs.Prelude.{◌≡◌, true, false, IfOk};
ghost use Rattle.holzikra_colours.specs.Colours.{without_colours};
ghost use Rattle.holzikra_session.specs.Looks.{IsForPeople, has_colours};

use crate::task::Task;
use crate::ticker::Ticker;
use holzikra_colours::{Answer, coloured};
use holzikra_words::{
    CodeFormat, Colors, Format, LoadFormat, Look, ScopesFormat, StatsFormat, VerifyFormat,
};
use std::alloc::{AllocError, Global};
use std::env::VarError;
use std::io::Write;
use std::rt::{Env, Runtime};
use std::{env, io};

/// Which outputs of the program are terminals.
#[derive(Debug, Clone, Copy, PartialEq, Eq)]
pub struct Terminals {
    /// Standard output.
    pub answers: bool,
    /// Standard error.
    pub errors: bool,
}

/// Where the program runs.
#[derive(Clone, Copy, PartialEq, Eq)]
pub(crate) struct Surroundings {
    pub(crate) terminals: Terminals,
    /// The user wants no colours (`NO_COLOR`).
    pub(crate) no_color: bool,
    /// The terminal shows text alone (`TERM`).
    pub(crate) dumb: bool,
}

/// Whether a variable of the environment has a value, or one that is no text.
fn is_set<R: Env + AllocGlobal>(rt: &R, name: &str) -> bool {
    match env::var(rt, name) {
        Ok(value) => !value.is_empty(),
        Err(error) => error == VarError::NotUnicode,
    }
}

/// Whether a variable of the environment has this value.
fn has_value<R: Env + AllocGlobal>(rt: &R, name: &str, value: &str) -> bool {
    match env::var(rt, name) {
        Ok(found) => found.as_str() == value,
        Err(_) => false,
    }
}

impl Surroundings {
    /// Those of a program with these terminals.
    pub(crate) fn of<R: Env + AllocGlobal>(rt: &R, terminals: Terminals) -> Surroundings {
        Surroundings {
            terminals,
            no_color: is_set(rt, "NO_COLOR"),
            dumb: has_value(rt, "TERM", "dumb"),
        }
    }

    /// Whether answers for people have colours where the words ask for this.
    pub(crate) fn colors(self, choice: Colors) -> bool
        ensures { result ≡ has_colours choice self }
    {
        match choice {
            Colors::Always => true,
            Colors::Never => false,
            Colors::Auto => self.terminals.answers && !self.no_color && !self.dumb,
        }
    }

    /// Whether it is shown how far a command is.
    fn shows_progress(self, quiet: bool) -> bool {
        self.terminals.errors && !self.dumb && !quiet
    }

    /// What shows how far a command is.
    pub(crate) fn ticker(self, quiet: bool) -> Ticker {
        Ticker::new(self.shows_progress(quiet))
    }
}

impl<'a> Task<'a> {
    /// How what is printed is to look.
    fn look(self) -> Look {
        match self {
            Task::Check(options) => options.look,
            Task::Code(options) => options.look,
            Task::Scopes(options) => options.look,
            Task::Stats(options) => options.look,
            Task::Load(options) => options.look,
            Task::Verify(options) => options.look,
        }
    }

    /// Whether the answers are for people, and not for programs.
    fn is_for_people(self) -> bool
        ensures { result ≡ true → IsForPeople self.entry }
    {
        match self {
            Task::Check(options) => options.format == Format::Human,
            Task::Code(options) => options.format == CodeFormat::Human,
            Task::Scopes(options) => options.format == ScopesFormat::Human,
            Task::Stats(options) => options.format == StatsFormat::Human,
            Task::Load(options) => options.format == LoadFormat::Human,
            Task::Verify(options) => options.format == VerifyFormat::Human,
        }
    }

    /// Whether the answers have colours.
    fn colors(self, around: Surroundings) -> bool
        ensures { result ≡ true → IsForPeople self.entry }
    {
        self.is_for_people() && around.colors(self.look().colors)
    }
}

/// The lines of an answer as they are printed.
pub(crate) fn printed(
    alloc: Global,
    colors: bool,
    answer: Answer,
    lines: Vec<u8>,
) -> Result<Vec<u8>, AllocError>
    ensures plain { colors ≡ false → IfOk result (λ out. out.items ≡ lines.items) }
    ensures same { IfOk result (λ out. without_colours out.items ≡ without_colours lines.items) }
{
    if colors {
        let out = coloured(alloc, answer, &lines)?;
        Ok(out)
    } else {
        Ok(lines)
    }
}

/// Prints an answer.
pub(crate) fn print_answer<R: Runtime + AllocGlobal>(
    rt: &R,
    colors: bool,
    answer: Answer,
    lines: Vec<u8>,
) -> io::Result<()> {
    let out = printed(rt.alloc(), colors, answer, lines)?;
    io::writer(rt).write_all(&out)
}

/// Where the answers of a command go that goes on, and whether it is shown how far it is.
#[derive(Drop)]
pub(crate) struct Screen<W: Write + Drop> {
    out: W,
    colors: bool,
    ticker: Ticker,
}

impl<W: Write + Drop> Screen<W> {
    /// That of a task.
    pub(crate) fn of(out: W, task: Task<'_>, around: Surroundings) -> Screen<W> {
        Screen {
            out,
            colors: task.colors(around),
            ticker: around.ticker(task.look().quiet),
        }
    }

    /// Writes lines of an answer.
    pub(crate) fn write<R: Runtime + AllocGlobal>(
        &mut self,
        rt: &R,
        answer: Answer,
        lines: Vec<u8>,
    ) -> io::Result<()> {
        if lines.is_empty() {
            return Ok(());
        }
        self.ticker.wipe(rt)?;
        let out = printed(rt.alloc(), self.colors, answer, lines)?;
        self.out.write_all(&out)
    }

    /// Takes off the terminal how far the command is, so that something else can be said.
    pub(crate) fn wipe<R: Runtime>(&mut self, rt: &R) -> io::Result<()> {
        self.ticker.wipe(rt)
    }

    /// One more file was answered, and so many are refused by now: shows how far this command is, if it is time.
    pub(crate) fn go_on<R: Runtime>(
        &mut self,
        rt: &R,
        command: &str,
        refused: u64,
    ) -> io::Result<()> {
        if self.ticker.is_due(rt) {
            self.out.flush()?;
            self.ticker.show(rt, command, refused)?;
        }
        Ok(())
    }

    /// Nothing more comes.
    pub(crate) fn finish(&mut self) -> io::Result<()> {
        self.out.flush()
    }
}
