//! How far a command is, as a terminal shows it on standard error.

use std::io;
use std::rt::Runtime;
use std::time::{Duration, Instant};

/// How long nothing is shown at first, and how long each thing that is shown stays, in thousandths of a second.
const PAUSE_MILLIS: u64 = 200;

/// How far a command is.
#[derive(Clone, Copy)]
pub(crate) struct Ticker {
    /// Whether it is shown at all.
    active: bool,
    /// Whether something is shown now.
    shown: bool,
    /// Files that were answered.
    files: u64,
    /// When something was shown last, or the first file was answered.
    last: Option<Instant>,
}

impl Ticker {
    /// That of a command that begins.
    pub(crate) fn new(active: bool) -> Ticker {
        Ticker {
            active,
            shown: false,
            files: 0,
            last: None,
        }
    }

    /// Whether it is some time since something was shown. A clock that gives no time is passed over.
    fn has_paused<R: Runtime>(&mut self, rt: &R) -> bool {
        let Ok(now) = Instant::now(rt) else {
            return false;
        };
        match self.last {
            Some(last) if now.duration_since(last) < Duration::from_millis(PAUSE_MILLIS) => false,
            Some(_) => {
                self.last = Some(now);
                true
            }
            None => {
                self.last = Some(now);
                false
            }
        }
    }

    /// One more file was answered. Whether it is time to show how far the command is.
    pub(crate) fn is_due<R: Runtime>(&mut self, rt: &R) -> bool {
        self.files = self.files.saturating_add(1);
        self.active && self.has_paused(rt)
    }

    /// Shows how far the command is, in the place of what was shown before.
    pub(crate) fn show<R: Runtime>(
        &mut self,
        rt: &R,
        command: &str,
        refused: u64,
    ) -> io::Result<()> {
        let files = self.files;
        self.shown = true;
        eprint!(rt; "\r\x1b[K{command}: {files} files, {refused} refused")
    }

    /// Takes away what is shown.
    pub(crate) fn wipe<R: Runtime>(&mut self, rt: &R) -> io::Result<()> {
        if self.shown {
            self.shown = false;
            eprint!(rt; "\r\x1b[K")?;
        }
        Ok(())
    }
}
