//! What is asked of the files of a command.

ghost use Rattle.std.specs.Prelude.{◌≡◌, ◌-◌, ◌<◌, ◌^◌, Some, length, map, IfOk, OnOk};
ghost use Rattle.std.specs.List.{All, range_with_len};
ghost use Rattle.compile_wanted.specs.Numbers.{to_show};
ghost use Rattle.session_orders.specs.Orders.{AreInOrder};
ghost use Rattle.session_requests.specs.Requests.{AreAllAsked, AreAskedOf, AreWanted, GainsAsked};
ghost use Rattle.session_requests.specs.Requests as asking;
ghost use Rattle.session_requests.specs.Works.{AreWorks, IsWorkOf};

use crate::work::ScriptWork;
use compile_initial::InitialStencil;
use compile_wanted::Wanted;
use session_orders::{Sizes, put_in_order};
use session_words::Order;
use std::alloc::{AllocError, Global};
use stencil_board::Sources;

/// That a function is asked for: the number of its file, from 0, and its own, from 1.
#[derive(Clone, Copy, Debug)]
pub struct Request {
    pub file: u32,
    pub number: u32,
}

/// The functions of a script, each as large as it has bytes.
#[derive(Clone, Copy)]
struct FunctionSizes<'a> {
    initial: &'a InitialStencil,
}

impl Sizes for FunctionSizes<'_> {
    ghost use Rattle.session_requests.specs.Requests as asking;

    ghost size = { λ functions number. asking.length_of functions.initial.now.parts.records number };

    fn size(&self, number: u32) -> usize {
        length_of(self.initial, number)
    }
}

/// How many bytes the function of this number has; 0 where there is none.
fn length_of(initial: &InitialStencil, number: u32) -> usize
    ensures { result ≡ asking.length_of initial.now.parts.records number }
{
    match initial
        .parts
        .records
        .get((number as usize).saturating_sub(1))
    {
        Some(lazy) => lazy.extent.end.saturating_sub(lazy.extent.start) as usize,
        None => 0,
    }
}

/// The numbers from 1 to n.
fn all_numbers(alloc: Global, count: u32) -> Result<Vec<u32>, AllocError>
    requires { count < 2 ^ 32 - 1 }
    ensures { IfOk result (λ numbers. numbers.items ≡ range_with_len 1 count) }
{
    let mut numbers = Vec::new(alloc);
    for number in 0..count {
        numbers.push(number + 1)?;
    }
    Ok(numbers)
}

/// The numbers that are wanted of n functions, rising.
fn wanted_numbers(alloc: Global, wanted: Wanted<'_>, count: u32) -> Result<Vec<u32>, AllocError>
    requires { count < 2 ^ 32 - 1 }
    ensures { IfOk result (λ numbers. AreWanted (to_show wanted.entry) count numbers.items) }
{
    match wanted {
        Wanted::All => {
            let numbers = all_numbers(alloc, count)?;
            Ok(numbers)
        }
        Wanted::Numbers(numbers) => {
            let mut rising = Vec::from_slice(alloc, numbers)?;
            rising.sort()?;
            Ok(rising)
        }
    }
}

/// Requests for the functions of these numbers of a file.
fn requests_to(alloc: Global, file: u32, numbers: &[u32]) -> Result<Vec<Request>, AllocError>
    ensures { IfOk result (λ requests. requests.items ≡ map (asking.request_of file) numbers.now) }
{
    numbers
        .iter()
        .map(|number| Request {
            file,
            number: *number,
        })
        .collect(alloc)
}

/// Appends what is asked of a script.
fn append_asked<N: Sources>(
    alloc: Global,
    requests: &mut Vec<Request>,
    file: u32,
    work: &ScriptWork<'_, N>,
    wanted: Wanted<'_>,
    order: Order,
) -> Result<(), AllocError>
    requires { length work.now.board.initial.parts.records < 2 ^ 32 - 1 }
    ensures { OnOk result (GainsAsked order (to_show wanted.entry) file (Some work.now) requests.old.items requests.new.items) }
{
    let initial = work.board.initial();
    let mut numbers = wanted_numbers(alloc, wanted, initial.parts.records.len() as u32)?;
    put_in_order(&mut numbers, order, &FunctionSizes { initial })?;
    let mut own = requests_to(alloc, file, &numbers)?;
    requests.append(&mut own)
}

/// Appends what is asked of a file, which may be no script.
fn append_asked_of<N: Sources>(
    alloc: Global,
    requests: &mut Vec<Request>,
    file: u32,
    work: &Option<ScriptWork<'_, N>>,
    wanted: Wanted<'_>,
    order: Order,
) -> Result<(), AllocError>
    requires { IsWorkOf N.files work.now }
    ensures { OnOk result (GainsAsked order (to_show wanted.entry) file work.now requests.old.items requests.new.items) }
{
    match work {
        Some(script) => append_asked(alloc, requests, file, script, wanted, order),
        None => Ok(()),
    }
}

/// What is asked of files, where these of their functions are wanted: file by file as the files stand here, and in each file by
/// this order.
pub fn requests_of<N: Sources>(
    alloc: Global,
    works: &[Option<ScriptWork<'_, N>>],
    files: &[u32],
    wanted: Wanted<'_>,
    order: Order,
) -> Result<Vec<Request>, AllocError>
    requires works { AreWorks N.files works.now }
    requires files { All (λ file. file < length works.now) files.now }
    ensures asked { IfOk result (λ requests. AreAllAsked order (to_show wanted.entry) works.now files.now requests.items) }
{
    let mut requests = Vec::new(alloc);
    for file in files {
        append_asked_of(
            alloc,
            &mut requests,
            *file,
            &works[*file as usize],
            wanted,
            order,
        )?;
    }
    Ok(requests)
}
