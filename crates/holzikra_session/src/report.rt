//! The command `report`.

use crate::complaint::complain;
use crate::files::{bytes_of, input_bytes};
use crate::refusal::{Said, Showing, answer_refused, code_of};
use crate::screen::Surroundings;
use crate::status::{Status, Tally};
use crate::task::shown_function;
use crate::ticker::Ticker;
use crate::verdict::{Compiled, Judge, Reason};
use crate::writing::write_to;
use holzikra_page::{Refusal, append_end, append_refused, append_start};
use holzikra_places::push_shown_text;
use holzikra_refusals::entry_of;
use holzikra_scripts::{Choice, append_page_script};
use holzikra_walk::{Found, Walk};
use holzikra_words::{Format, FunctionWord, ReportOptions};
use std::alloc::{AllocError, Global};
use std::io;
use std::io::ErrorKind;
use std::rt::Runtime;
use stencil_data::MergedStencil;

/// A page as far as it is put together.
#[derive(Drop)]
struct Report {
    page: Vec<u8>,
    /// How many files are on it.
    count: usize,
    tally: Tally,
    said: Said,
    ticker: Ticker,
}

impl Report {
    /// A page with nothing on it.
    fn new(alloc: Global, ticker: Ticker) -> Report {
        Report {
            page: Vec::new(alloc),
            count: 0,
            tally: Tally::new(),
            said: Said::new(alloc),
            ticker,
        }
    }

    /// Says that something cannot be read. Want of memory ends the command.
    fn fault<R: Runtime + AllocGlobal>(
        &mut self,
        rt: &R,
        name: &str,
        error: io::Error,
    ) -> io::Result<()> {
        if error.kind() == ErrorKind::OutOfMemory {
            return Err(error);
        }
        self.tally.fail();
        let why = format!(in rt.alloc(); "{error}")?;
        self.ticker.wipe(rt)?;
        complain(rt, name, why.as_str())
    }

    /// Puts a text that is refused on the page.
    fn refused<R: Runtime + AllocGlobal>(
        &mut self,
        rt: &R,
        name: &str,
        text: &[u8],
        reason: Reason,
    ) -> io::Result<()> {
        let alloc = rt.alloc();
        let showing = Showing::all(Format::Human);
        let clauses = entry_of(code_of(reason, text)).clauses;
        let lines = answer_refused(
            alloc,
            showing,
            name,
            text,
            reason,
            &mut self.tally,
            &mut self.said,
        )?;
        let mut shown = String::new(alloc);
        push_shown_text(&mut shown, name)?;
        let refusal = Refusal {
            name: shown.as_str(),
            text,
            words: lines.as_bytes(),
            clauses,
            line: reason.spot().map(|spot| spot.place.line),
        };
        append_refused(alloc, &mut self.page, self.count, refusal)?;
        self.count = self.count.saturating_add(1);
        Ok(())
    }

    /// Says that a script has no such function.
    fn no_function<R: Runtime + AllocGlobal>(
        &mut self,
        rt: &R,
        name: &str,
        word: Option<&FunctionWord>,
    ) -> io::Result<()> {
        self.tally.fail();
        if let Some(word) = word {
            let function = shown_function(rt.alloc(), &word.name)?;
            let why = format!(in rt.alloc(); "no function {function}")?;
            self.ticker.wipe(rt)?;
            complain(rt, name, why.as_str())?;
        }
        Ok(())
    }

    /// Puts a script on the page.
    fn script(
        &mut self,
        alloc: Global,
        name: &str,
        text: &[u8],
        stencil: &MergedStencil,
        chosen: &Choice,
    ) -> Result<(), AllocError> {
        self.tally.count_script();
        append_page_script(
            alloc,
            &mut self.page,
            self.count,
            name,
            text,
            stencil,
            chosen,
        )?;
        self.count = self.count.saturating_add(1);
        Ok(())
    }

    /// Puts a text on the page.
    fn text<R: Runtime + AllocGlobal, J: Judge>(
        &mut self,
        rt: &R,
        judge: &J,
        options: &ReportOptions,
        name: &str,
        text: &[u8],
    ) -> io::Result<()> {
        let compiled = judge.compile(rt.alloc(), text, &options.functions)?;
        match compiled {
            Compiled::Script(stencil, chosen) => {
                self.script(rt.alloc(), name, text, &stencil, &chosen)?;
                Ok(())
            }
            Compiled::Refused(reason) => self.refused(rt, name, text, reason),
            Compiled::NoFunction(place) => {
                self.no_function(rt, name, options.functions.get(place))
            }
        }
    }

    /// Puts on the page what was read.
    fn read<R: Runtime + AllocGlobal, J: Judge>(
        &mut self,
        rt: &R,
        judge: &J,
        options: &ReportOptions,
        name: &str,
        read: io::Result<Vec<u8>>,
    ) -> io::Result<()> {
        match read {
            Err(error) => self.fault(rt, name, error),
            Ok(text) => self.text(rt, judge, options, name, &text),
        }
    }

    /// Shows how far the command is, if it is time.
    fn go_on<R: Runtime>(&mut self, rt: &R) -> io::Result<()> {
        if self.ticker.is_due(rt) {
            let refused = self.tally.errors.saturating_add(self.tally.outside);
            self.ticker.show(rt, "report", refused)?;
        }
        Ok(())
    }

    /// Puts on the page what the walk found.
    fn found<R: Runtime + AllocGlobal, J: Judge>(
        &mut self,
        rt: &R,
        judge: &J,
        options: &ReportOptions,
        found: Found,
    ) -> io::Result<()> {
        match found {
            Found::Fault(name, error) => self.fault(rt, name.as_str(), error),
            Found::Input => {
                let read = input_bytes(rt);
                self.read(rt, judge, options, options.files.stdin_name.as_str(), read)
            }
            Found::File(name) => {
                let read = bytes_of(rt, name.as_str());
                self.read(rt, judge, options, name.as_str(), read)
            }
        }
    }

    /// Puts on the page all that the walk finds.
    fn fill<R: Runtime + AllocGlobal, J: Judge>(
        &mut self,
        rt: &R,
        judge: &J,
        options: &ReportOptions,
        walk: &mut Walk,
    ) -> io::Result<()> {
        append_start(&mut self.page)?;
        for _ in 0..u64::MAX {
            let Some(found) = walk.next(rt, &options.files)? else {
                break;
            };
            self.found(rt, judge, options, found)?;
            self.go_on(rt)?;
        }
        self.ticker.wipe(rt)?;
        append_end(&mut self.page)?;
        Ok(())
    }

    /// Writes the page to the file of this name, or says why it cannot be written.
    fn write<R: Runtime + AllocGlobal>(&mut self, rt: &R, name: &str) -> io::Result<()> {
        match write_to(rt, name, &self.page) {
            Ok(()) => Ok(()),
            Err(error) => self.fault(rt, name, error),
        }
    }
}

/// Writes a page about files. The error is want of memory, or that standard output or standard error takes no more.
pub(crate) fn report_files<R: Runtime + AllocGlobal, J: Judge>(
    rt: &R,
    judge: &J,
    options: &ReportOptions,
    around: Surroundings,
) -> io::Result<Status> {
    let mut walk = Walk::new(rt, &options.files)?;
    let mut report = Report::new(rt.alloc(), around.ticker(options.quiet));
    report.fill(rt, judge, options, &mut walk)?;
    report.write(rt, options.page.as_str())?;
    Ok(report.tally.status())
}
