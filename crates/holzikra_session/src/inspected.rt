//! What a command over compiled scripts has for a text.

use crate::verdict::Reason;

/// What a command over compiled scripts has for a text.
#[derive(Drop)]
pub(crate) enum Inspected<T> {
    /// What it writes of the script, or counts of it.
    Script(T),
    /// The text is refused.
    Refused(Reason),
    /// The word of this place among those for functions means none.
    NoFunction(usize),
}
