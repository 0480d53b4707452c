//! Commands by several workers, some of whom meet at a gate.

ghost use Rattle.std.specs.Prelude.{◌+◌, ◌^◌, ◌<◌};

use crate::commands::{ROOM, file, words_of};
use compile_session::{FirmShelf, FirmSink, MeetGate, Sheet, Status, run};
use std::alloc::{AllocError, Global};
use std::sync::Wait;
use std::test::Fail;
use std::thread::Threads;

/// How often a worker looks whether others have come, before it goes on.
const LOOKS: u64 = 100_000_000;

/// Files of the names `f0.js`, `f1.js` and so on, n, each with this text.
fn files_of(
    alloc: Global,
    count: usize,
    text: &[u8],
) -> Result<Vec<(String, Vec<u8>)>, AllocError> {
    let mut files = Vec::new(alloc);
    for number in 0..count {
        let name = format!(in alloc; "f{number}.js")?;
        files.push(file(alloc, name.as_str(), text)?)?;
    }
    Ok(files)
}

/// The words of `code` by this many workers, over files of these names.
fn words_over(
    alloc: Global,
    workers: u32,
    files: &[(String, Vec<u8>)],
) -> Result<Vec<String>, AllocError> {
    let line = format!(in alloc; "code --workers {workers}")?;
    let mut words = words_of(alloc, line.as_str())?;
    for (name, _) in files {
        words.push(name.clone()?)?;
    }
    Ok(words)
}

/// Whether as many workers as this meet at the gate, after so many calls, over n files with this text, and the command is done.
fn meet<R: Threads + Wait + Sync>(
    rt: &R,
    alloc: Global,
    after: u32,
    workers: u32,
    count: usize,
    text: &[u8],
) -> Result<bool, AllocError>
    requires { after + workers < 2 ^ 32 }
{
    let gate = MeetGate::new(after, workers, LOOKS);
    let files = files_of(alloc, count, text)?;
    let words = words_over(alloc, workers, &files)?;
    let mut shelf = FirmShelf::new(alloc, files);
    let mut sink = FirmSink::new(alloc);
    let mut tally = Sheet::new(ROOM);
    let status = run(rt, alloc, &words, &mut shelf, &mut sink, &gate, &mut tally);
    Ok(status == Status::Done && gate.met())
}

#[test]
fn two_workers_meet_in_each_part(rt: HostRuntime) -> Result<(), Fail> {
    for part in 0..3 {
        assert!(rt; meet(&rt, rt.alloc(), 64 * part, 2, 64, b"function f(){}")?);
    }
    Ok(())
}

/// A script of n functions, none of which is in another.
fn functions(alloc: Global, count: usize) -> Result<Vec<u8>, AllocError> {
    let mut text = Vec::new(alloc);
    for _ in 0..count {
        text.extend_from_slice(b"function f(x) { return x; }\n")?;
    }
    Ok(text)
}

// Over one file of 64 functions, after its first pass.
#[test]
fn workers_meet_at_the_functions_of_one_file(rt: HostRuntime) -> Result<(), Fail> {
    let text = functions(rt.alloc(), 64)?;
    assert!(rt; meet(&rt, rt.alloc(), 1, 2, 1, &text)?);
    assert!(rt; meet(&rt, rt.alloc(), 1, 4, 1, &text)?);
    Ok(())
}
