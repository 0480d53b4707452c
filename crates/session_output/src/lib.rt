//! What a command prints: texts whose listings are made piece by piece by several workers, and written as they are made.
//!
//! It stands on script_image, which cuts the listing of a script into pieces and makes the text of one, on helper_tasks, by whose
//! workers pieces are made side by side, and on session_outside, whose sinks take what is written.
//!
//! An [`OutputText`] stands for a list of bytes, of which those of a listing need not be in memory at once. The main contract is
//! that of [`write_text`]: the sink has taken all bytes of the text, or, after a refusal, a front of them, whatever the number of
//! workers. What is held back are the pieces of one round.
#![tactic(auto)]

mod printing;
mod text;
mod writing;

pub use text::{ListedScript, OutputText};
pub use writing::write_text;
