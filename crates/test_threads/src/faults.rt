//! Reads and writes that fail, each in turn.

ghost use Rattle.std.specs.Prelude.{◌-◌, ◌^◌, ◌<◌};

use crate::commands::{ROOM, file, words_of};
use compile_session::{
    FirmShelf, FirmSink, MapShelf, OpenGate, Sheet, Shelf, Sink, Status, VecSink, run,
};
use std::alloc::{AllocError, Global};
use std::sync::Wait;
use std::test::Fail;
use std::thread::Threads;

const SUM: &[u8] = b"1 + 2;";

const SUM_LISTING: &[u8] = b"file a.js
script 0 top 0..6
  00000 GlobalOrEvalDeclInstantiation 0
  00005 One
  00006 Int8 2
  00008 Add
  00009 SetRval
  00010 RetRval
";

/// The sum as a file of this name.
fn sum(alloc: Global, name: &str) -> Result<Vec<(String, Vec<u8>)>, AllocError> {
    let mut files = Vec::new(alloc);
    files.push(file(alloc, name, SUM)?)?;
    Ok(files)
}

/// The status of `code a.js` over a shelf and a sink.
fn status_of<R: Threads + Wait + Sync, L: Shelf, K: Sink>(
    rt: &R,
    alloc: Global,
    shelf: &mut L,
    sink: &mut K,
) -> Result<Status, AllocError>
    requires shelf { L.faults shelf.old < 2 ^ 64 - 1 }
    requires sink { K.faults sink.old < 2 ^ 64 - 1 }
{
    let words = words_of(alloc, "code a.js")?;
    let mut tally = Sheet::new(ROOM);
    Ok(run(rt, alloc, &words, shelf, sink, &OpenGate, &mut tally))
}

/// The status over a shelf whose call of this number fails, and whether nothing was written.
fn failing_read<R: Threads + Wait + Sync>(
    rt: &R,
    alloc: Global,
    name: &str,
    call: u64,
) -> Result<(Status, bool), AllocError> {
    let mut fail = Vec::new(alloc);
    fail.push(call)?;
    let mut shelf = MapShelf::new(alloc, sum(alloc, name)?, fail);
    let mut sink = FirmSink::new(alloc);
    let status = status_of(rt, alloc, &mut shelf, &mut sink)?;
    Ok((status, sink.bytes().is_empty()))
}

/// The file that there is, the call of the shelf that fails, and how the command ends. The shelf is called three times for one file.
const READS: [(&str, u64, Status); 5] = [
    ("a.js", 0, Status::ReadFault),
    ("a.js", 1, Status::ReadFault),
    ("a.js", 2, Status::ReadFault),
    ("a.js", 3, Status::Done),
    ("b.js", 3, Status::ReadFault),
];

#[test]
fn fails_with_each_read(rt: HostRuntime) -> Result<(), Fail> {
    for (name, call, ended) in READS {
        let (status, nothing) = failing_read(&rt, rt.alloc(), name, call)?;
        assert!(rt; status == ended && nothing == (ended == Status::ReadFault));
    }
    Ok(())
}

/// The status over a sink that takes a byte at a time and whose call of this number fails, and whether
/// just the bytes before it were written.
fn failing_write<R: Threads + Wait + Sync>(
    rt: &R,
    alloc: Global,
    call: usize,
) -> Result<(Status, bool), AllocError> {
    let mut fail = Vec::new(alloc);
    fail.push(call as u64)?;
    let mut shelf = FirmShelf::new(alloc, sum(alloc, "a.js")?);
    let mut sink = VecSink::new(alloc, 1, fail);
    let status = status_of(rt, alloc, &mut shelf, &mut sink)?;
    let front = SUM_LISTING.iter().take(call);
    let same = sink.bytes().len() == SUM_LISTING.len().min(call)
        && sink
            .bytes()
            .iter()
            .zip(front)
            .all(|(taken, wanted)| *taken == *wanted);
    Ok((status, same))
}

#[test]
fn fails_with_each_write(rt: HostRuntime) -> Result<(), Fail> {
    let all = SUM_LISTING.len();
    for call in 0..all {
        let (status, same) = failing_write(&rt, rt.alloc(), call)?;
        assert!(rt; status == Status::WriteFault && same);
    }
    let (status, same) = failing_write(&rt, rt.alloc(), all)?;
    assert!(rt; status == Status::Done && same);
    Ok(())
}
