// A worker's own deque, and the looks that other workers have at it.
ghost use Rattle.std.specs.Prelude.{◌≡◌, ◌<◌, [], IfOk, MatchOption, MatchResult};
ghost use Rattle.crossbeam_deque.specs.Steals.{MatchSteal};
ghost use Rattle.helper_tasks.specs.Rule.{dealt, TookAll};
ghost use Rattle.helper_tasks.specs.Handles.{End, end_at, pushed, took, less, joined};

use crate::rule::{Dealt, Fair, Numbering, OnePart, Pushes, Steals, Takes, Together};
use crossbeam_deque::{Pass, Steal, Stealer, Worker};
use std::alloc::{AllocError, Global};
use std::marker::Model;
use std::sync::Wait;

// The slots of a deque at the start: a worker takes up to 8 tasks from the injector.
const SLOTS: usize = 8;

/// The deque of one worker, which pushes and pops.
#[derive(Drop)]
pub struct Own<N: Numbering> {
    deque: Worker<u32, Global, Dealt, Fair<N>>,
}

impl<N: Numbering> Model for Own<N> {
    ghost use Rattle.crossbeam_deque.specs.Handles.{worker_deque, worker_view};
    ghost use Rattle.helper_tasks.specs.Handles.{End, end_at};

    ghost Value = { End };

    ghost view = { λ o. end_at (worker_deque o.deque) (worker_view o.deque) };
}

impl<N: Numbering> Own<N> {
    /// An empty deque.
    pub fn new(alloc: Global) -> Result<Own<N>, AllocError>
        ensures { IfOk result (λ o. o.dealt ≡ dealt 64 [] []) }
    {
        Ok(Own {
            deque: Worker::fifo_as(alloc, SLOTS)?,
        })
    }

    /// A look at this deque, for a worker that may steal from it.
    pub fn look(&mut self) -> Result<Look<N>, AllocError>
        requires { 1 < self.old.dealt.parts }
        ensures look { IfOk result (λ l. (l ≡ end_at self.old.deque (dealt 1 [] [])) × (self.new ≡ end_at self.old.deque (less self.old.dealt))) }
    {
        let stealer = self.deque.stealer()?;
        Ok(Look {
            stealer,
            pass: self.deque.another::<OnePart>(),
        })
    }

    /// Pushes a task, or hands it back where there is no memory for it.
    pub fn push(&mut self, task: u32) -> Result<(), u32>
        requires part { 0 < self.old.dealt.parts }
        requires task { task < N.bound }
        ensures { MatchResult result (λ _. self.new ≡ end_at self.old.deque (pushed self.old.dealt task)) (λ t. (t ≡ task) × (self.new ≡ self.old)) }
    {
        self.deque.push_as::<Pushes>(task)
    }

    /// Takes the task that was pushed first.
    pub fn pop(&mut self) -> Option<u32>
        requires { 0 < self.old.dealt.parts }
        ensures { MatchOption result ((self.new ≡ self.old) × TookAll self.old.dealt)
            (λ x. (x < N.bound) × (self.new ≡ end_at self.old.deque (took self.old.dealt x))) }
    {
        self.deque.pop_as::<Takes<N>>()
    }

    /// Takes back a look at this deque.
    pub fn absorb(&mut self, look: Look<N>)
        requires deque { look.deque ≡ self.old.deque }
        requires part { 0 < self.old.dealt.parts }
        ensures { self.new ≡ end_at self.old.deque (joined self.old.dealt look.dealt) }
    {
        let Look { stealer: _, pass } = look;
        self.deque.absorb::<Together>(pass);
    }
}

/// A look at a worker's deque, by which another worker steals.
#[derive(Drop)]
pub struct Look<N: Numbering> {
    stealer: Stealer<u32, Global, Dealt, Fair<N>>,
    pass: Pass<u32, Dealt>,
}

impl<N: Numbering> Model for Look<N> {
    ghost use Rattle.crossbeam_deque.specs.Handles.{IsPassOf, stealer_deque};
    ghost use Rattle.helper_tasks.specs.Handles.{End, end_at};

    ghost Value = { End };

    ghost view = { λ l. end_at (stealer_deque l.stealer) l.pass.me.view.client };

    ghost invariant = { λ l. IsPassOf (stealer_deque l.stealer) l.pass };
}

impl<N: Numbering> Look<N> {
    // One attempt.
    fn try_steal(&mut self) -> Steal<u32>
        requires { 0 < self.old.dealt.parts }
        ensures { MatchSteal result (self.new ≡ self.old) (self.new ≡ self.old)
            (λ x. (x < N.bound) × (self.new ≡ end_at self.old.deque (took self.old.dealt x))) }
    {
        self.stealer.steal_as::<Steals<N>>(&mut self.pass)
    }

    /// Steals a task, where there is one. A lost race is tried again.
    pub fn steal(&mut self, rt: &impl Wait) -> Option<u32>
        requires { 0 < self.old.dealt.parts }
        ensures { MatchOption result (self.new ≡ self.old) (λ x. (x < N.bound) × (self.new ≡ end_at self.old.deque (took self.old.dealt x))) }
    {
        for _ in rt.forever() {
            match self.try_steal() {
                Steal::Success(task) => return Some(task),
                Steal::Empty => return None,
                Steal::Retry => {}
            }
        }
        unreachable!()
    }
}
