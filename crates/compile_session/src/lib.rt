//! One command of the program, from its words to the bytes that the sink takes.
//!
//! It stands on `session_words`, which reads the words of every command, on `session_outside`, which reads files and writes output, on
//! `helper_tasks`, by whose workers files are worked on side by side, and on `compile_first_pass`, which reads the script of a
//! file without trees, by the handler that it is given here. Commands that show scripts stand on `compile_initial`, which
//! makes of it what the script is before any of its functions is compiled, on `session_requests`, which asks for those functions that
//! are wanted by all workers and merges them, and on `stencil_xdr_write`, which writes its image; those over images on `session_images`,
//! that over generated texts on `session_trial`, and that which compiles functions
//! again and again on `session_churn`. What is printed is handed to `session_output`, which lists scripts as it writes them. The answer is
//! that of the definitions of `session_specs`. Only the program stands on it.
//!
//! `work` says what words ask for. `source`, `start`, `listing` and `printing` are the steps of the way of one file of source text,
//! `image` is that of an image, `file_order`, `starts`, `shown`, `workers`, `files` and `writing` those of all files of a command, and
//! `generated`, `trial` and `churn` those of generated texts, each with the definition that it meets in specs/.
//!
//! The main contract is that of `run`: where all was done, the sink has taken the bytes of the definition's answer to the words
//! and the files, and no others, whatever the number of workers and their schedule; each status comes exactly with its cause.
#![tactic(auto)]

mod answer;
mod churn;
mod command;
mod file;
mod file_order;
mod files;
mod generated;
mod image;
mod lines;
mod listing;
mod printing;
mod refusal;
mod shown;
mod source;
mod start;
mod starts;
mod status;
mod trial;
mod work;
mod workers;
mod writing;

pub use command::run;
pub use compile_tally::{Sheet, Tally, Ticks};
pub use helper_tasks::{Gate, MeetGate, OpenGate};
pub use session_outside::{
    FileShelf, FirmShelf, FirmSink, MapShelf, OutSink, Shelf, ShelfRefusal, Sink, SinkRefusal,
    VecSink,
};
pub use session_words::{Command, FileJob, Options, Order, Want, WordsFault, read_words};
pub use status::Status;
