// The injector, to which all tasks are pushed, and the reach that a worker has into it.
ghost use Rattle.std.specs.Prelude.{◌≡◌, ◌<◌, [], IfOk, MatchOption, MatchResult};
ghost use Rattle.crossbeam_deque.specs.Steals.{MatchSteal};
ghost use Rattle.helper_tasks.specs.Rule.{dealt, TookAll};
ghost use Rattle.helper_tasks.specs.Handles.{Reach, reach_at, pushed, took, less, joined};

use crate::rule::{Dealt, Fair, Numbering, OnePart, Pushes, Takes, Together};
use crossbeam_deque::{Injector, InjectorPass, Steal};
use std::alloc::{AllocError, Global};
use std::marker::Model;
use std::sync::Wait;

/// The queue from which the workers fetch tasks.
#[derive(Drop)]
pub struct Queue<N: Numbering> {
    tasks: Injector<u32, Global, Dealt, Fair<N>>,
}

impl<N: Numbering> Model for Queue<N> {
    ghost use Rattle.helper_tasks.specs.Handles.{Place};

    ghost Value = { Place };

    ghost view = { λ q. (q.tasks.queue.web, q.tasks.queue.heap) };
}

/// What one worker may do to the queue.
#[derive(Drop)]
pub struct Fetcher {
    pass: InjectorPass<u32, Dealt>,
}

impl Model for Fetcher {
    ghost use Rattle.std.specs.Prelude.{◌≡◌, None};
    ghost use Rattle.helper_tasks.specs.Handles.{Reach, reach_at};

    ghost Value = { Reach };

    ghost view = { λ f. reach_at (f.pass.web, f.pass.heap) f.pass.me.view.client };

    ghost invariant = { λ f. (f.pass.me.hand ≡ None) × (f.pass.me.spare ≡ None) };
}

impl<N: Numbering> Queue<N> {
    /// An empty queue, and the fetcher that has all parts.
    pub fn new(alloc: Global) -> Result<(Queue<N>, Fetcher), AllocError>
        ensures { IfOk result (λ q. q.1 ≡ reach_at q.0 (dealt 64 [] [])) }
    {
        let (tasks, pass) = Injector::new_as(alloc)?;
        Ok((Queue { tasks }, Fetcher { pass }))
    }

    /// A fetcher for one more worker.
    pub fn another(&self, fetcher: &mut Fetcher) -> Fetcher
        requires queue { fetcher.old.injector ≡ self.now }
        requires parts { 1 < fetcher.old.dealt.parts }
        ensures left { fetcher.new ≡ reach_at self.now (less fetcher.old.dealt) }
        ensures new { result ≡ reach_at self.now (dealt 1 [] []) }
    {
        Fetcher {
            pass: self.tasks.another::<OnePart>(&mut fetcher.pass),
        }
    }

    /// Pushes a task, or hands it back where there is no memory for it.
    pub fn push(&self, rt: &impl Wait, fetcher: &mut Fetcher, task: u32) -> Result<(), u32>
        requires queue { fetcher.old.injector ≡ self.now }
        requires part { 0 < fetcher.old.dealt.parts }
        requires task { task < N.bound }
        ensures { MatchResult result (λ _. fetcher.new ≡ reach_at self.now (pushed fetcher.old.dealt task))
            (λ t. (t ≡ task) × (fetcher.new ≡ fetcher.old)) }
    {
        self.tasks.push_as::<Pushes, _>(rt, &mut fetcher.pass, task)
    }

    // One attempt.
    fn try_fetch(&self, rt: &impl Wait, fetcher: &mut Fetcher) -> Steal<u32>
        requires queue { fetcher.old.injector ≡ self.now }
        requires part { 0 < fetcher.old.dealt.parts }
        ensures { MatchSteal result ((fetcher.new ≡ fetcher.old) × TookAll fetcher.old.dealt) (fetcher.new ≡ fetcher.old)
            (λ x. (x < N.bound) × (fetcher.new ≡ reach_at self.now (took fetcher.old.dealt x))) }
    {
        self.tasks.steal_as::<Takes<N>, _>(rt, &mut fetcher.pass)
    }

    /// Takes the task that was pushed first. A lost race is tried again.
    pub fn fetch(&self, rt: &impl Wait, fetcher: &mut Fetcher) -> Option<u32>
        requires queue { fetcher.old.injector ≡ self.now }
        requires part { 0 < fetcher.old.dealt.parts }
        ensures { MatchOption result ((fetcher.new ≡ fetcher.old) × TookAll fetcher.old.dealt)
            (λ x. (x < N.bound) × (fetcher.new ≡ reach_at self.now (took fetcher.old.dealt x))) }
    {
        for _ in rt.forever() {
            match self.try_fetch(rt, fetcher) {
                Steal::Success(task) => return Some(task),
                Steal::Empty => return None,
                Steal::Retry => {}
            }
        }
        unreachable!()
    }

    /// Takes back a worker's fetcher.
    pub fn absorb(&self, fetcher: &mut Fetcher, other: Fetcher)
        requires queue { (fetcher.old.injector ≡ self.now) × (other.injector ≡ self.now) }
        requires part { 0 < fetcher.old.dealt.parts }
        ensures { fetcher.new ≡ reach_at self.now (joined fetcher.old.dealt other.dealt) }
    {
        let Fetcher { pass } = other;
        self.tasks.absorb::<Together>(&mut fetcher.pass, pass);
    }
}
