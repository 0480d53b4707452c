//! How a command ends.

ghost use Rattle.std.specs.Prelude.{◌≡◌};

/// The status of a command; the program ends with its number.
#[derive(Clone, Copy, Debug, PartialEq, Eq)]
pub enum Status {
    /// The words are good, no file is refused and all was written.
    Done = 0,
    /// Some file is refused, and all was written.
    Refused = 1,
    /// The words have none of the forms; nothing was read or written.
    BadWords = 2,
    /// The shelf failed; nothing was written.
    ReadFault = 3,
    /// The sink failed; what was written is a front of the output.
    WriteFault = 4,
    /// Memory was wanting; what was written is a front of the output.
    NoMemory = 5,
}

impl Status {
    ghost use Rattle.compile_session.specs.Statuses.{number_of};

    /// The number with which the program ends, 0 to 5.
    pub fn number(self) -> u8
        ensures { result ≡ number_of self }
    {
        self as u8
    }
}
