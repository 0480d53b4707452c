//! What commands count on the tally: each function that is shown compiled, at least once, and at most once for each worker.

use crate::commands::{ROOM, file, words_of};
use compile_session::{FirmShelf, FirmSink, OpenGate, Sheet, Status, run};
use std::alloc::{AllocError, Global};
use std::sync::Wait;
use std::test::Fail;
use std::thread::Threads;

/// A function in a function in a function.
const NESTED: &[u8] = b"function f(x) { return function () { return () => x; }; }";

/// Two functions, of which none is in the other.
const BESIDE: &[u8] = b"function g() {} var h = () => 1;";

/// Commands over the file `a.js` with the first text and `b.js` with the second, each with its status and how many functions it counts at least and
/// at most.
const COMMANDS: [(&str, Status, u64, u64); 17] = [
    ("code --workers 1 a.js", Status::Done, 3, 3),
    ("code --workers 1 --want 3 a.js", Status::Done, 3, 3),
    ("code --workers 1 --want 1 a.js", Status::Done, 1, 1),
    ("scopes --workers 1 --want 2 a.js", Status::Done, 2, 2),
    ("save --workers 1 --want 3 a.js", Status::Done, 3, 3),
    ("code --workers 1 --want none a.js", Status::Done, 0, 0),
    ("code --workers 4 --want none a.js", Status::Done, 0, 0),
    ("check --want 3 a.js", Status::Done, 0, 0),
    ("code --workers 1 --want 4 a.js", Status::Refused, 0, 0),
    ("code --workers 1 a.js b.js", Status::Done, 5, 5),
    (
        "code --workers 1 --order reverse a.js b.js",
        Status::Done,
        5,
        5,
    ),
    ("code --workers 1 --want 2 a.js b.js", Status::Done, 3, 3),
    ("code --workers 1 --want 3 a.js b.js", Status::Refused, 3, 3),
    ("code --workers 4 a.js b.js", Status::Done, 5, 20),
    ("code --workers 16 --want 3 a.js", Status::Done, 3, 48),
    ("trial 1 2 --workers 1", Status::Done, 2, 2),
    ("trial 1 2 --workers 4", Status::Done, 2, 8),
];

/// The status of a command over the two files, and how many functions it counts.
fn counts<R: Threads + Wait + Sync>(
    rt: &R,
    alloc: Global,
    line: &str,
) -> Result<(Status, u64), AllocError> {
    let words = words_of(alloc, line)?;
    let mut files = Vec::new(alloc);
    files.push(file(alloc, "a.js", NESTED)?)?;
    files.push(file(alloc, "b.js", BESIDE)?)?;
    let mut shelf = FirmShelf::new(alloc, files);
    let mut sink = FirmSink::new(alloc);
    let mut tally = Sheet::new(ROOM);
    let status = run(
        rt, alloc, &words, &mut shelf, &mut sink, &OpenGate, &mut tally,
    );
    Ok((status, tally.count()))
}

#[test]
fn counts_functions_that_are_shown_compiled(rt: HostRuntime) -> Result<(), Fail> {
    for (line, ended, least, most) in COMMANDS {
        let (status, count) = counts(&rt, rt.alloc(), line)?;
        assert!(rt;
            status == ended && least <= count && count <= most,
            "{line}"
        );
    }
    Ok(())
}
