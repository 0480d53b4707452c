//! What was seen of all files, and what the program ends with.

ghost use Rattle.std.specs.Prelude.{◌≡◌, true, false};
ghost use Rattle.holzikra_session.specs.Images.{IsImageCounted};
ghost use Rattle.holzikra_session.specs.Statuses.{IsCounted, number_of, status_of};

use crate::verdict::{Verdict, Verified};
use holzikra_words::Unsupported;

/// What the program ends with.
#[derive(Debug, Clone, Copy, PartialEq, Eq)]
pub enum Status {
    /// Nothing is refused, and nothing differs.
    Fine,
    /// Something is refused, or differs, and everything was looked at.
    Refused,
    /// Wrong words, or something cannot be read or written.
    Trouble,
    /// Memory is wanting.
    NoMemory,
}

impl Status {
    /// The number that the process ends with.
    pub fn number(self) -> u8
        ensures { result ≡ number_of self }
    {
        match self {
            Status::Fine => 0,
            Status::Refused => 1,
            Status::Trouble => 2,
            Status::NoMemory => 3,
        }
    }
}

/// What was seen so far.
#[derive(Clone, Copy)]
pub(crate) struct Tally {
    /// Files that are scripts without errors.
    pub(crate) scripts: u64,
    /// Files that are refused, but for those of the next count.
    pub(crate) errors: u64,
    /// Files that are refused for what looks like a form outside the profile.
    pub(crate) outside: u64,
    /// Whether some refusal counts, or some image does that is none or has code that is not sound.
    pub(crate) refused: bool,
    /// Whether something could not be read.
    pub(crate) failed: bool,
}

impl Tally {
    pub(crate) fn new() -> Tally
        ensures refused { result.refused ≡ false }
        ensures failed { result.failed ≡ false }
    {
        Tally {
            scripts: 0,
            errors: 0,
            outside: 0,
            refused: false,
            failed: false,
        }
    }

    /// Counts a file with this verdict; `outside` says whether its refusal looks like a form outside the profile.
    pub(crate) fn count(&mut self, verdict: Verdict, outside: bool, choice: Unsupported)
        ensures { IsCounted choice verdict self.old self.new }
    {
        match verdict {
            Verdict::Script(_) => self.count_script(),
            Verdict::Refused(_) => {
                if outside {
                    self.outside = self.outside.saturating_add(1);
                    self.refused = self.refused || choice == Unsupported::Error;
                } else {
                    self.errors = self.errors.saturating_add(1);
                    self.refused = true;
                }
            }
        }
    }

    /// Counts a file that is a script.
    pub(crate) fn count_script(&mut self)
        ensures refused { self.new.refused ≡ self.old.refused }
        ensures failed { self.new.failed ≡ self.old.failed }
    {
        self.scripts = self.scripts.saturating_add(1);
    }

    /// Counts a file that is this, taken as an image.
    pub(crate) fn count_image(&mut self, found: Verified)
        ensures { IsImageCounted found self.old self.new }
    {
        match found {
            Verified::Sound { .. } => self.count_script(),
            Verified::Unsound { .. } | Verified::NoImage => self.refused = true,
        }
    }

    /// Something could not be read.
    pub(crate) fn fail(&mut self)
        ensures failed { self.new.failed ≡ true }
        ensures refused { self.new.refused ≡ self.old.refused }
    {
        self.failed = true;
    }

    /// What the program ends with.
    pub(crate) fn status(&self) -> Status
        ensures { result ≡ status_of self.now.refused self.now.failed }
    {
        if self.failed {
            Status::Trouble
        } else if self.refused {
            Status::Refused
        } else {
            Status::Fine
        }
    }
}
