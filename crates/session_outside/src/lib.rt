//! The outside of the program: where files come from, and where output goes.
//!
//! It stands on no crate of this project; the command stands on it, and so does whoever runs one over
//! files in memory. `Shelf` and `Sink` are traits whose contracts say what each call gives, takes and
//! counts. Files in memory and sinks in memory tell their bytes; real files and standard output do not.
//!
//! The main contracts are those of the loops: `read_file` and `read_files` give all bytes of a name, or of
//! many, or say that they are too many, `write_bytes` gives the sink all bytes or, after a refusal, a front of them; each
//! fault of the outside is counted once.
#![tactic(auto)]

mod calls;
mod host;
mod memory_shelf;
mod memory_sink;
mod reading;
mod shelf;
mod sink;
mod writing;

pub use host::{FileShelf, OutSink};
pub use memory_shelf::{FirmShelf, MapShelf};
pub use memory_sink::{FirmSink, VecSink};
pub use reading::{read_file, read_files};
pub use shelf::{Shelf, ShelfRefusal};
pub use sink::{Sink, SinkRefusal};
pub use writing::write_bytes;
