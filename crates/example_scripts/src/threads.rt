//! A script that one thread reads, and four others that ask for different functions of it meanwhile.
//!
//! Each thread has a pass of its own at the board of the script ([`asked_by`]), and hands what it gets over to a second board of the same
//! script ([`hand_over`]), as another page of an engine would have one. The first thread reads the next script meanwhile, and lets the
//! passes meet one after another, as the threads end ([`asked_beside`]). What two passes know of a function is one result, and it is
//! what compiling the whole script has of it. docs/embedding.md leads through the example.
ghost use Rattle.std.specs.Prelude.{◌≡◌, length, IfOk};
ghost use Rattle.std.specs.Arc.{arc_value};
ghost use Rattle.std.specs.Thread.{IsSend, IsSync};
ghost use Rattle.stencil.specs.Scripts.{IsFunctionOf, IsLazyOf};
ghost use Rattle.stencil_board.specs.Files.{IsFilled, file_at};
ghost use Rattle.stencil_board.specs.Passes.{AgreesWith, BelongsTo, IsBoard, IsNumberOf};

use anyhow::Result;
use compile_tally::Sheet;
use std::alloc::{AllocError, Global};
use std::io::Print;
use std::marker::Brand;
use std::sync::Arc;
use std::thread;
use std::thread::Threads;
use stencil::{Answer, Function, Lazy, check};
use stencil_board::{Board, Filled, Pass, Sources};

const TEXT: &[u8] = b"
function pair(first, second) {
    let swap = () => pair(second, first);
    let each = (act) => { act(first); act(second); };
    let map = (change) => {
        let apply = (value) => change(value);
        return pair(apply(first), apply(second));
    };
    return (visit) => visit(swap, each, map);
}
function shape(name) {
    let area = () => 0;
    function named() { return () => name; }
    return (visit) => visit(area, named);
}
pair(1, 2)((swap, each, map) => map((x) => x + 1));
";

const NEXT: &[u8] = b"let later = (work) => () => work(pair, shape);";

const THREADS: usize = 4;

/// A function that a thread asked for.
#[derive(Drop)]
struct Asked {
    thread: usize,
    number: u32,
    made: Arc<Function>,
}

/// The functions that threads asked for, and a pass at the board.
#[derive(Drop)]
struct Seat<N: Sources> {
    asked: Vec<Asked>,
    pass: Pass<N>,
}

/// What a thread hands back: its seat, or that memory was wanting.
#[derive(Drop)]
struct Handed<N: Sources> {
    seat: Result<Seat<N>, AllocError>,
}

/// What the threads hand back together, and what the next script comes to.
#[derive(Drop)]
struct Together<N: Sources> {
    seat: Seat<N>,
    next: Answer<usize>,
}

/// Asks for a function. It is compiled, and before it those around it, where nobody has done so yet.
fn ask<N: Sources>(
    alloc: Global,
    board: &Board<'_, N>,
    pass: &mut Pass<N>,
    number: u32,
    count: u32,
) -> Result<Arc<Function>, AllocError>
    requires board { IsBoard N.files board.now }
    requires file { board.now.file ≡ 0 }
    requires belongs { BelongsTo pass.old board.now }
    requires number { IsNumberOf board.now number }
    requires count { count ≡ length board.now.cells }
    ensures belongs { BelongsTo pass.new board.now }
    ensures is { IfOk result (λ made. IsFunctionOf board.now.bytes number (arc_value made)) }
    ensures filled { IfOk result (λ made. IsFilled (file_at N.files 0) number (arc_value made)) }
{
    let mut sheet = Sheet::new(u64::from(count));
    let made = board.request(alloc, pass, number, &mut sheet)?;
    Ok(made)
}

/// Gives a board what was asked for at another board of the same script: it need not be compiled there.
fn hand_over<N: Sources>(
    alloc: Global,
    board: &Board<'_, N>,
    pass: &mut Pass<N>,
    number: u32,
    made: &Arc<Function>,
) -> Result<(), AllocError>
    requires belongs { BelongsTo pass.old board.now }
    requires number { IsNumberOf board.now number }
    requires filled { IsFilled (file_at N.files 0) number (arc_value made.now) }
    ensures belongs { BelongsTo pass.new board.now }
{
    let other = Arc::try_clone(made)?;
    let _stands = board.publish(alloc, pass, number, Filled::new(0, number, other))?;
    Ok(())
}

/// Asks for every fourth function of a script, as one thread of four, and hands each over to the second board.
fn asked_by<N: Sources>(
    alloc: Global,
    board: &Board<'_, N>,
    second: &Board<'_, N>,
    count: u32,
    thread: usize,
) -> Result<Seat<N>, AllocError>
    requires board { IsBoard N.files board.now }
    requires file { board.now.file ≡ 0 }
    requires count { count ≡ length board.now.cells }
    requires second { length second.now.cells ≡ length board.now.cells }
    ensures belongs { IfOk result (λ seat. BelongsTo seat.pass board.now) }
{
    let mut pass = board.pass(alloc)?;
    let mut there = second.pass(alloc)?;
    let mut asked = Vec::new(alloc);
    for number in 1..=count {
        if number as usize % THREADS == thread {
            let made = ask(alloc, board, &mut pass, number, count)?;
            hand_over(alloc, second, &mut there, number, &made)?;
            asked.push(Asked {
                thread,
                number,
                made,
            })?;
        }
    }
    Ok(Seat { asked, pass })
}

/// One seat of two whose passes have met: what they know of a function is one result.
fn meet<N: Sources>(board: &Board<'_, N>, one: Seat<N>, two: Seat<N>) -> Result<Seat<N>, AllocError>
    requires one { BelongsTo one.pass board.now }
    requires two { BelongsTo two.pass board.now }
    ensures belongs { IfOk result (λ seat. BelongsTo seat.pass board.now) }
    ensures agree { AgreesWith one.pass two.pass }
{
    let Seat {
        mut asked,
        mut pass,
    } = one;
    let Seat {
        asked: mut more,
        pass: mut other,
    } = two;
    board.meet(&mut pass, &mut other);
    asked.append(&mut more)?;
    Ok(Seat { asked, pass })
}

/// Has this many threads ask while this one reads the next script, and lets their passes meet one after another, as they end.
#[cycle(beside)]
fn asked_beside<R: Threads, N: Sources + Send + Sync>(
    rt: &R,
    alloc: Global,
    board: &Board<'_, N>,
    second: &Board<'_, N>,
    count: u32,
    threads: usize,
) -> Result<Together<N>, AllocError>
    requires board { IsBoard N.files board.now }
    requires file { board.now.file ≡ 0 }
    requires count { count ≡ length board.now.cells }
    requires second { length second.now.cells ≡ length board.now.cells }
    ensures belongs { IfOk result (λ all. BelongsTo all.seat.pass board.now) }
{
    if threads == 0 {
        let pass = board.pass(alloc)?;
        let asked = Vec::new(alloc);
        let next = check(alloc, NEXT)?;
        return Ok(Together {
            seat: Seat { asked, pass },
            next,
        });
    }
    let thread = threads - 1;
    let ask = move || -> Handed<N>
        requires { IsBoard N.files board.now × (board.now.file ≡ 0) × (count ≡ length board.now.cells)
            × (length second.now.cells ≡ length board.now.cells) }
        ensures { IfOk result.seat (λ seat. BelongsTo seat.pass board.entry.now) }
    {
        let seat = asked_by(alloc, board, second, count, thread);
        Handed { seat }
    };
    let others = move || -> Result<Together<N>, AllocError>
        requires { IsSend N.row × IsSync N.row × IsBoard N.files board.now × (board.now.file ≡ 0)
            × (count ≡ length board.now.cells) × (length second.now.cells ≡ length board.now.cells) }
        ensures { IfOk result (λ all. BelongsTo all.seat.pass board.entry.now) }
    { asked_beside(rt, alloc, board, second, count, thread) };
    let (handed, together) = thread::join(rt, ask, others);
    let own = handed.seat?;
    let Together { seat, next } = together?;
    let seat = meet(board, seat, own)?;
    Ok(Together { seat, next })
}

/// Whether a function has the same code and texts as another.
fn is_same(one: &Function, two: &Function) -> bool {
    one.stencil.code == two.stencil.code && one.texts == two.texts
}

/// How many functions a pass knows as compiling them alone has them.
fn known_as_alone<N: Sources>(
    alloc: Global,
    board: &Board<'_, N>,
    pass: &mut Pass<N>,
    text: &[u8],
    script: &Lazy,
) -> Result<u32, AllocError>
    requires opened { IsLazyOf text.now script.now }
    requires belongs { BelongsTo pass.old board.now }
    requires cells { length board.now.cells ≡ length script.now.initial.parts.records }
{
    let mut alike = 0;
    for number in 1..=script.functions() {
        let alone = script.function(alloc, text, number)?;
        if let Some(known) = board.known(pass, number) {
            if is_same(known, &alone) {
                alike += 1;
            }
        }
    }
    Ok(alike)
}

/// Prints the functions that were asked for.
fn print_asked(rt: &impl Print, asked: &[Asked]) -> Result<()> {
    for function in asked {
        println!(rt;
            "thread {}: function {} has {} bytes of code",
            function.thread,
            function.number,
            function.made.stencil.code.len()
        )?;
    }
    Ok(())
}

/// Prints how many functions the next script has.
fn print_next(rt: &impl Print, next: Answer<usize>) -> Result<()> {
    match next {
        Answer::Script(functions) => {
            println!(rt; "meanwhile the first thread read the next script: {functions} functions")?;
        }
        Answer::Refused(why) => println!(rt; "the next is no script: {why:?}")?,
    }
    Ok(())
}

/// Has the functions of a script compiled by four threads while this one reads the next script, and prints what they hand back.
fn compile_shared<R: Threads + Print, N: Sources + Send + Sync>(
    rt: &R,
    alloc: Global,
    text: &[u8],
    script: &Lazy,
) -> Result<()>
    requires picked { file_at N.files 0 ≡ record { bytes = text.now; texts = script.now.initial.parts.texts } }
    requires opened { IsLazyOf text.now script.now }
{
    let count = script.functions();
    let board = Board::<N>::new(alloc, 0, text, &script.initial)?;
    let second = Board::<N>::new(alloc, 0, text, &script.initial)?;
    let Together { seat, next } = asked_beside(rt, alloc, &board, &second, count, THREADS)?;
    let Seat { asked, mut pass } = seat;
    print_asked(rt, &asked)?;
    print_next(rt, next)?;
    let known = known_as_alone(alloc, &board, &mut pass, text, script)?;
    println!(rt; "{known} of {count} functions are as compiling them alone has them")?;
    let mut there = second.pass(alloc)?;
    let over = known_as_alone(alloc, &second, &mut there, text, script)?;
    println!(rt; "{over} of {count} functions were handed over")?;
    Ok(())
}

/// The same, where the one file of the boards is picked.
fn compile_picked<R: Threads + Print>(
    rt: &R,
    alloc: Global,
    text: &[u8],
    script: &Lazy,
) -> Result<()>
    requires { IsLazyOf text.now script.now }
{
    compile_shared::<R, Brand>(rt, alloc, text, script)
}

/// Shows what the threads hand back.
pub(crate) fn show<R: Threads + Print>(rt: &R, alloc: Global) -> Result<()> {
    let answer = Lazy::open(alloc, TEXT)?;
    match answer {
        Answer::Script(script) => compile_picked(rt, alloc, TEXT, &script)?,
        Answer::Refused(why) => println!(rt; "no script: {why:?}")?,
    }
    Ok(())
}
