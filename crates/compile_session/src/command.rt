//! One command, from its words to the bytes that the sink takes.

ghost use Rattle.std.specs.Prelude.{◌≡◌, ◌≢◌, ℕ, ◌+◌, ◌-◌, ◌*◌, ◌^◌, ◌<◌, ◌≤◌, ◌++◌, ◌⊎◌, Bool, true, List, Some, None, map};
ghost use Rattle.std.specs.String.{string_bytes};
ghost use Rattle.session_outside.specs.Shelf.{TurnsToFront};
ghost use Rattle.session_outside.specs.Sink.{Gains, GainsFront};
ghost use Rattle.session_outside.specs.Loops.{opened_within};
ghost use Rattle.session_words.specs.Words.{asked_of};
ghost use Rattle.session_specs.specs.Answer.{IsAnswer, most_bytes};
ghost use Rattle.session_specs.specs.Compiled.{words_compile_none};
ghost use Rattle.compile_tally.specs.Tally.{Rises};
ghost use Rattle.compile_session.specs.Alike.{AskAlike};
ghost use Rattle.compile_session.specs.Compiled.{MayCompile};
ghost use Rattle.compile_session.specs.Work.{names_of};
ghost use Rattle.compile_session.specs.Files.{IsBefore, IsWhole, status_of};

use crate::file::MOST_BYTES;
use crate::status::Status;
use crate::work::{answer_to, files_of, work_of, workers_of};
use crate::writing::write_answers;
use compile_tally::Tally;
use helper_tasks::Gate;
use session_outside::{Shelf, ShelfRefusal, Sink, SinkRefusal, read_files};
use std::alloc::Global;
use std::sync::Wait;
use std::thread::Threads;

/// Runs the command of these words: reads its files from the shelf, and gives the sink what is printed for them. The functions that
/// were compiled for that are counted on the tally, each as often as a worker compiled it.
pub fn run<R: Threads + Wait + Sync, L: Shelf, K: Sink, G: Gate, T: Tally>(
    rt: &R,
    alloc: Global,
    words: &[String],
    shelf: &mut L,
    sink: &mut K,
    gate: &G,
    tally: &mut T,
) -> Status
    requires room { 2 ^ 40 ≤ T.room tally.old }
    requires shelf { L.faults shelf.old < 2 ^ 64 - 1 }
    requires sink { K.faults sink.old < 2 ^ 64 - 1 }

    // What the sink has taken where all was done: the answer to the words, where the files hold what the shelf tells. There is no
    // other answer, to these words or to others that ask for the same with another number of workers or another order.
    ensures answer { (held : List ℕ → List ℕ) → L.held shelf.old ≡ Some held → IsWhole result →
        (out : List ℕ) × (refused : Bool) × IsAnswer (map string_bytes words.now) held out refused × (result ≡ status_of refused)
        × Gains (K.taken sink.old) (K.taken sink.new) out }
    ensures only { (held : List ℕ → List ℕ) → L.held shelf.old ≡ Some held → IsWhole result → (out : List ℕ) (refused : Bool) →
        IsAnswer (map string_bytes words.now) held out refused → (result ≡ status_of refused) × Gains (K.taken sink.old) (K.taken sink.new) out }
    ensures alike { (held : List ℕ → List ℕ) → L.held shelf.old ≡ Some held → IsWhole result → (others : List (List ℕ)) →
        AskAlike (map string_bytes words.now) others → (out : List ℕ) (refused : Bool) →
        IsAnswer others held out refused → (result ≡ status_of refused) × Gains (K.taken sink.old) (K.taken sink.new) out }
    ensures front { (held : List ℕ → List ℕ) → L.held shelf.old ≡ Some held → (out : List ℕ) (refused : Bool) →
        IsAnswer (map string_bytes words.now) held out refused → GainsFront (K.taken sink.old) (K.taken sink.new) out }
    ensures nothing { IsBefore result → K.taken sink.new ≡ K.taken sink.old }

    // When each status comes.
    ensures bad_words { result ≡ Status.BadWords → asked_of (map string_bytes words.now) ≡ None }
    ensures bad_words_only { asked_of (map string_bytes words.now) ≡ None → (result ≡ Status.BadWords) ⊎ (result ≡ Status.NoMemory) }
    ensures read_fault { result ≡ Status.ReadFault → L.faults shelf.old < L.faults shelf.new }
    ensures read_fault_only { L.faults shelf.old < L.faults shelf.new → result ≡ Status.ReadFault }
    ensures write_fault { result ≡ Status.WriteFault → K.faults sink.old < K.faults sink.new }
    ensures write_fault_only { K.faults sink.old < K.faults sink.new → result ≡ Status.WriteFault }
    ensures complete { asked_of (map string_bytes words.now) ≢ None → L.faults shelf.new ≡ L.faults shelf.old →
        K.faults sink.new ≡ K.faults sink.old → IsWhole result ⊎ (result ≡ Status.NoMemory) }

    // The names that the shelf was turned to: whatever the status is, some from the first on, none after the first with which the
    // files are too long; where all was done, all of these. And what stays.
    ensures names { TurnsToFront (L.turned shelf.old) (L.turned shelf.new) (names_of (asked_of (map string_bytes words.now))) }
    ensures opened { (held : List ℕ → List ℕ) → L.held shelf.old ≡ Some held →
        TurnsToFront (L.turned shelf.old) (L.turned shelf.new) (opened_within most_bytes held 0 (names_of (asked_of (map string_bytes words.now)))) }
    ensures all_names { (held : List ℕ → List ℕ) → L.held shelf.old ≡ Some held → IsWhole result →
        L.turned shelf.new ≡ L.turned shelf.old ++ opened_within most_bytes held 0 (names_of (asked_of (map string_bytes words.now))) }
    ensures unread { result ≡ Status.BadWords → L.turned shelf.new ≡ L.turned shelf.old }
    ensures same { L.held shelf.new ≡ L.held shelf.old }

    // What is counted on the tally, whatever the status is: out of the room, and for each worker no more functions than the answer
    // shows compiled; but of `churn`, which compiles functions again and again, no more is said than that the count rises out of the
    // room. None where none is for these words, whatever the files hold.
    ensures sum { T.count tally.new + T.room tally.new ≡ T.count tally.old + T.room tally.old }
    ensures rising { T.count tally.old ≤ T.count tally.new }
    ensures lazy { (held : List ℕ → List ℕ) → L.held shelf.old ≡ Some held → (workers compiled : ℕ) →
        MayCompile (map string_bytes words.now) held workers compiled → T.count tally.new ≤ T.count tally.old + workers * compiled }
    ensures idle { words_compile_none (asked_of (map string_bytes words.now)) ≡ true → T.count tally.new ≡ T.count tally.old }
{
    let work = match work_of(alloc, words) {
        Ok(work) => work,
        Err(Status::BadWords) => return Status::BadWords,
        Err(_) => return Status::NoMemory,
    };
    let reads = match read_files(alloc, shelf, files_of(&work), MOST_BYTES) {
        Ok(reads) => reads,
        Err(ShelfRefusal::Failed) => return Status::ReadFault,
        Err(ShelfRefusal::NoMemory) => return Status::NoMemory,
    };
    let given = match answer_to(rt, alloc, &work, &reads, gate) {
        Ok(given) => given,
        Err(_) => return Status::NoMemory,
    };
    count_compiled(tally, given.compiled);
    let answer = given.answer;
    match write_answers(rt, alloc, sink, &answer.files, workers_of(&work), gate) {
        Ok(()) => status_of(answer.refused),
        Err(SinkRefusal::Failed) => Status::WriteFault,
        Err(SinkRefusal::NoMemory) => Status::NoMemory,
    }
}

/// Counts n functions at once: a tally of that room is lent, and is never given back.
fn count_compiled<T: Tally>(tally: &mut T, amount: u64)
    requires room { amount ≤ T.room tally.old }
    ensures { Rises (T.count tally.old) (T.room tally.old) (T.count tally.new) (T.room tally.new) amount }
{
    let _lent = tally.lend(amount);
}

fn status_of(refused: bool) -> Status
    ensures { result ≡ status_of refused }
{
    if refused {
        Status::Refused
    } else {
        Status::Done
    }
}
