//! A worker, with a seat at every file that is a script.

ghost use Rattle.std.specs.Prelude.{◌≡◌, ◌≢◌, ◌<◌, ◌≤◌, ◌*◌, ◌^◌, ◌++◌, ◌∷◌, [], length, List, Option, IfOk, OnOk, None};
ghost use Rattle.std.specs.List.{All};
ghost use Rattle.bytecode_buf.specs.InRange.{TextsSmall};
ghost use Rattle.session_requests.specs.Hands.{FitAll, Fits, FitsFile, compiled_total, count_of, count_total};
ghost use Rattle.session_requests.specs.Views.{WorkView};
ghost use Rattle.session_requests.specs.Works.{AreWorks, IsMergedOf, IsWorkOf, shown_total, work_at};

use crate::requests::Request;
use crate::seat::Seat;
use crate::work::ScriptWork;
use std::alloc::{AllocError, Global};
use std::marker::Model;
use stencil_board::Sources;
use stencil_data::MergedStencil;

/// What a worker has to itself: its seats, and the numbers of the tasks that it ran.
#[derive(Drop)]
pub struct Hand<N: Sources> {
    /// One for each file; none where the file is no script.
    seats: Vec<Option<Seat<N>>>,
    ran: Vec<u32>,
}

impl<N: Sources> Model for Hand<N> {
    ghost use Rattle.session_requests.specs.Views.{HandView};

    ghost Value = { HandView };

    ghost view = { λ h. record { seats = h.seats.items; ran = h.ran.items } };
}

impl<N: Sources> Hand<N> {
    /// A worker that knows nothing of these files yet.
    fn new(alloc: Global, works: &[Option<ScriptWork<'_, N>>]) -> Result<Hand<N>, AllocError>
        requires { AreWorks N.files works.now }
        ensures { IfOk result (Fits works.now) }
    {
        let mut seats = Vec::new(alloc);
        for work in works {
            let seat = seat_at(alloc, work)?;
            seats.push(seat)?;
        }
        let ran = Vec::new(alloc);
        Ok(Hand { seats, ran })
    }

    /// Makes a request. A function that is not shown is not asked for.
    pub(crate) fn request(
        &mut self,
        alloc: Global,
        works: &[Option<ScriptWork<'_, N>>],
        request: Request,
    ) -> Result<(), AllocError>
        requires works { AreWorks N.files works.now }
        requires fits { Fits works.now self.old }
        ensures fits { Fits works.now self.new }
        ensures ran { self.new.ran ≡ self.old.ran }
    {
        let file = request.file as usize;
        if file >= works.len() {
            return Ok(());
        }
        request_at(alloc, &works[file], &mut self.seats[file], request.number)
    }

    /// The script that this file is, with the functions that are shown.
    pub fn merged(
        &mut self,
        alloc: Global,
        works: &[Option<ScriptWork<'_, N>>],
        file: u32,
    ) -> Result<MergedStencil, AllocError>
        requires works { AreWorks N.files works.now }
        requires fits { Fits works.now self.old }
        requires file { file < length works.now }
        requires script { work_at works.now file ≢ None }
        ensures merged { IfOk result (IsMergedOf (work_at works.now file)) }
        ensures few { IfOk result (λ merged. length merged.texts < 2 ^ 31) }
        ensures small { IfOk result (λ merged. TextsSmall merged.texts) }
        ensures fits { Fits works.now self.new }
        ensures ran { self.new.ran ≡ self.old.ran }
    {
        let file = file as usize;
        merged_at(alloc, &works[file], &mut self.seats[file])
    }

    /// Notes that the task of this number was run.
    pub fn note_task(&mut self, task: u32) -> Result<(), AllocError>
        ensures seats { self.new.seats ≡ self.old.seats }
        ensures ran { OnOk result (self.new.ran ≡ self.old.ran ++ task ∷ []) }
    {
        self.ran.push(task)?;
        Ok(())
    }

    /// How many functions it compiled.
    fn compiled(&self) -> u64
        requires { count_total self.now.seats < 2 ^ 64 }
        ensures { result ≡ count_total self.now.seats }
    {
        let mut count = 0;
        for seat in &self.seats {
            count += compiled_at(seat);
        }
        count
    }
}

/// A seat at a file, where it is a script.
fn seat_at<N: Sources>(
    alloc: Global,
    work: &Option<ScriptWork<'_, N>>,
) -> Result<Option<Seat<N>>, AllocError>
    requires { IsWorkOf N.files work.now }
    ensures { IfOk result (FitsFile work.now) }
{
    match work {
        Some(script) => {
            let seat = Seat::new(alloc, script)?;
            Ok(Some(seat))
        }
        None => Ok(None),
    }
}

/// Asks for a function of a file, where it is a script and shows that function.
fn request_at<N: Sources>(
    alloc: Global,
    work: &Option<ScriptWork<'_, N>>,
    place: &mut Option<Seat<N>>,
    number: u32,
) -> Result<(), AllocError>
    requires work { IsWorkOf N.files work.now }
    requires fits { FitsFile work.now place.old }
    ensures { FitsFile work.now place.new }
{
    let Some(script) = work else {
        return Ok(());
    };
    if !script.shows(number) {
        return Ok(());
    }
    let Some(mut seat) = place.take() else {
        return Ok(());
    };
    let asked = seat.request(alloc, script, number);
    *place = Some(seat);
    asked
}

/// The script that a file is, with the functions that are shown.
fn merged_at<N: Sources>(
    alloc: Global,
    work: &Option<ScriptWork<'_, N>>,
    place: &mut Option<Seat<N>>,
) -> Result<MergedStencil, AllocError>
    requires work { IsWorkOf N.files work.now }
    requires fits { FitsFile work.now place.old }
    requires script { work.now ≢ None }
    ensures merged { IfOk result (IsMergedOf work.now) }
    ensures few { IfOk result (λ merged. length merged.texts < 2 ^ 31) }
    ensures small { IfOk result (λ merged. TextsSmall merged.texts) }
    ensures fits { FitsFile work.now place.new }
{
    let Some(script) = work else {
        unreachable!();
    };
    let Some(mut seat) = place.take() else {
        unreachable!();
    };
    let merged = seat.merged(alloc, script);
    *place = Some(seat);
    merged
}

/// How many functions were compiled at a seat.
fn compiled_at<N: Sources>(place: &Option<Seat<N>>) -> u64
    ensures { result ≡ count_of place.now }
{
    match place {
        Some(seat) => seat.compiled(),
        None => 0,
    }
}

/// As many workers as these, none of which knows anything of the files yet.
pub fn hands_for<N: Sources>(
    alloc: Global,
    works: &[Option<ScriptWork<'_, N>>],
    count: u32,
) -> Result<Vec<Hand<N>>, AllocError>
    requires { AreWorks N.files works.now }
    ensures count { IfOk result (λ hands. length hands.items ≡ count) }
    ensures fit { IfOk result (λ hands. All (Fits works.now) hands.items) }
{
    let mut hands = Vec::new(alloc);
    for _ in 0..count {
        let hand = Hand::new(alloc, works)?;
        hands.push(hand)?;
    }
    Ok(hands)
}

/// How many functions these workers compiled together, each as often as it was compiled.
pub fn compiled_by<N: Sources>(hands: &[Hand<N>]) -> u64
    requires { (works : List (Option WorkView)) × All (Fits works) hands.now × (length hands.now * shown_total works < 2 ^ 64) }
    ensures { (works : List (Option WorkView)) → All (Fits works) hands.now → result ≤ length hands.now * shown_total works }
{
    let mut count = 0;
    for hand in hands {
        count += hand.compiled();
    }
    count
}
