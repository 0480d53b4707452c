// What is done once all workers have ended: their looks go back, and what may be left in a deque or the injector is run.
ghost use Rattle.std.specs.Prelude.{◌≡◌, ℕ, ◌+◌, ◌-◌, ◌<◌, ◌≤◌, List, [], ◌++◌, IfOk, length, map};
ghost use Rattle.helper_tasks.specs.Count.{times, total, Each};
ghost use Rattle.helper_tasks.specs.Rule.{dealt, TookAll};
ghost use Rattle.helper_tasks.specs.Handles.{reach_at};
ghost use Rattle.helper_tasks.specs.Hands.{places};
ghost use Rattle.helper_tasks.specs.Desks.{InOrder, Lists, Ready};
ghost use Rattle.helper_tasks.specs.Crew.{Looking, Dismissible, Drained, Paired, deque_of, desk_of, fetcher_of, came_to, left_by, fetched};
ghost use Rattle.helper_tasks.specs.Crew.{popped, ran_at, all_took_in};

use crate::deque::{Look, Own};
use crate::gate::Gate;
use crate::handles::Handles;
use crate::helper::{Helper, WorkerDesk};
use crate::injector::Fetcher;
use crate::job::Job;
use crate::rule::Numbering;
use crate::workplace::Workplace;
use std::alloc::{AllocError, Global};
use std::mem;
use std::sync::Wait;

// Gives each worker the look at its deque back.
fn bring_back<S: Drop, O: Drop, N: Numbering>(helpers: &mut [Helper<S, O, N>], looks: Vec<Look<N>>)
    requires deques { places looks.items ≡ map deque_of helpers.old }
    requires parts { Each (λ h. 0 < h.handles.own.dealt.parts) helpers.old }
    ensures { helpers.new ≡ all_took_in helpers.old looks.items }
{
    let mut at = 0;
    for look in looks {
        helpers[at].handles.own.absorb(look);
        at += 1;
    }
}

// Gives all looks back, so that each worker has all parts of its deque again.
fn return_looks<S: Drop, O: Drop, N: Numbering>(alloc: Global, helpers: &mut [Helper<S, O, N>])
    requires count { length helpers.old ≤ 16 }
    requires looking { Each (Looking (map deque_of helpers.old) (64 - length helpers.old)) helpers.old }
    ensures parts { Each (λ h. h.handles.own.dealt.parts ≡ 64) helpers.new }
    ensures looks { Each (λ h. h.handles.looks.items ≡ []) helpers.new }
    ensures came { (x : ℕ) → total (came_to x) helpers.new ≡ total (came_to x) helpers.old }
    ensures left { (x : ℕ) → total (left_by x) helpers.new ≡ total (left_by x) helpers.old }
    ensures desks { map desk_of helpers.new ≡ map desk_of helpers.old }
    ensures fetchers { map fetcher_of helpers.new ≡ map fetcher_of helpers.old }
{
    for at in 0..helpers.len() {
        let looks = mem::replace(&mut helpers[at].handles.looks, Vec::new(alloc));
        bring_back(helpers, looks);
    }
}

impl<'a, J: Job, G: Gate, N: Numbering> Workplace<'a, J, G, N> {
    // Runs what is left in a deque.
    fn drain(
        &self,
        rt: &impl Wait,
        own: &mut Own<N>,
        desk: &mut WorkerDesk<J::Share, J::Out>,
    ) -> Result<(), AllocError>
        requires numbered { N.bound ≡ J.tasks self.now.job.now }
        requires part { 0 < own.old.dealt.parts }
        requires desk { InOrder (J.fits self.now.job.now) (J.gives self.now.job.now) desk.old }
        ensures drained { IfOk result (λ _. Drained (J.fits self.now.job.now)
            (J.gives self.now.job.now) J.ran desk.old desk.new own.old.dealt own.new.dealt) }
        ensures empty { IfOk result (λ _. TookAll own.new.dealt) }
    {
        for _ in rt.forever() {
            let Some(task) = own.pop() else {
                return Ok(());
            };
            self.run(desk, task)?;
        }
        unreachable!()
    }

    // Runs what is left in the injector.
    fn drain_queue(
        &self,
        rt: &impl Wait,
        all: &mut Fetcher,
        desk: &mut WorkerDesk<J::Share, J::Out>,
    ) -> Result<(), AllocError>
        requires numbered { N.bound ≡ J.tasks self.now.job.now }
        requires queue { all.old.injector ≡ self.now.queue.now }
        requires part { 0 < all.old.dealt.parts }
        requires desk { InOrder (J.fits self.now.job.now) (J.gives self.now.job.now) desk.old }
        ensures drained { IfOk result (λ _. Drained (J.fits self.now.job.now)
            (J.gives self.now.job.now) J.ran desk.old desk.new all.old.dealt all.new.dealt) }
        ensures empty { IfOk result (λ _. TookAll all.new.dealt) }
    {
        for _ in rt.forever() {
            let Some(task) = self.queue.fetch(rt, all) else {
                return Ok(());
            };
            self.run(desk, task)?;
        }
        unreachable!()
    }

    // Empties each worker's deque, and takes its part of the injector back.
    fn dismiss(
        &self,
        rt: &impl Wait,
        helpers: Vec<Helper<J::Share, J::Out, N>>,
        all: &mut Fetcher,
    ) -> Result<Vec<WorkerDesk<J::Share, J::Out>>, AllocError>
        requires numbered { N.bound ≡ J.tasks self.now.job.now }
        requires queue { all.old.injector ≡ self.now.queue.now }
        requires part { 0 < all.old.dealt.parts }
        requires helpers { Each (Dismissible (J.fits self.now.job.now) (J.gives self.now.job.now) self.now.queue.now) helpers.items }
        ensures count { IfOk result (λ v. length v.items ≡ length helpers.items) }
        ensures all { IfOk result (λ _. (all.new.injector ≡ self.now.queue.now)
            × (all.new.dealt.parts ≡ all.old.dealt.parts + length helpers.items) × (all.new.dealt.pushed ≡ all.old.dealt.pushed)) }
        ensures fetched { IfOk result (λ _. (x : ℕ) → times x all.new.dealt.taken ≡ times x all.old.dealt.taken + total (fetched x) helpers.items) }
        ensures desks { IfOk result (λ v. Each (InOrder (J.fits self.now.job.now) (J.gives self.now.job.now)) v.items) }
        ensures lists { IfOk result (λ v. (starts : List (List ℕ)) → Paired (Lists J.ran) starts (map desk_of helpers.items)
            → Paired (Lists J.ran) starts v.items) }
        ensures ran { IfOk result (λ v. (x : ℕ) → total (ran_at x) v.items + total (popped x) helpers.items ≡ total (left_by x) helpers.items) }
    {
        let mut desks = Vec::new(self.alloc);
        for helper in helpers {
            let Helper {
                handles,
                mut desk,
                ..
            } = helper;
            let Handles {
                mut own,
                fetcher,
                ..
            } = handles;
            self.drain(rt, &mut own, &mut desk)?;
            self.queue.absorb(all, fetcher);
            desks.push(desk)?;
        }
        Ok(desks)
    }

    /// What the workers' desks have, once all looks came back and nothing is left in a deque or the injector.
    pub fn settle(
        &self,
        rt: &impl Wait,
        mut helpers: Vec<Helper<J::Share, J::Out, N>>,
        mut all: Fetcher,
    ) -> Result<Vec<WorkerDesk<J::Share, J::Out>>, AllocError>
        requires numbered { N.bound ≡ J.tasks self.now.job.now }
        requires count { (0 < length helpers.items) × (length helpers.items ≤ 16) }
        requires all { all ≡ reach_at self.now.queue.now (dealt (64 - length helpers.items) all.dealt.pushed []) }
        requires looking { Each (Looking (map deque_of helpers.items) (64 - length helpers.items)) helpers.items }
        requires ready { Each (Ready (J.fits self.now.job.now) (J.gives self.now.job.now) self.now.queue.now) helpers.items }
        ensures desks { IfOk result (λ v. Each (InOrder (J.fits self.now.job.now) (J.gives self.now.job.now)) v.items) }
        ensures lists { IfOk result (λ v. (starts : List (List ℕ)) → Paired (Lists J.ran) starts (map desk_of helpers.items)
            → Paired (Lists J.ran) starts v.items) }
        ensures ran { IfOk result (λ v. (x : ℕ) → total (ran_at x) v.items + total (came_to x) helpers.items
            ≡ total (left_by x) helpers.items + times x all.dealt.pushed) }
    {
        return_looks(self.alloc, &mut helpers);
        let mut desks = self.dismiss(rt, helpers, &mut all)?;
        self.drain_queue(rt, &mut all, &mut desks[0])?;
        Ok(desks)
    }
}
