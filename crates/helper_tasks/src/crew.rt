// The workers of one call: how they are made, and how they start.
ghost use Rattle.std.specs.Prelude.{◌≡◌, ℕ, ◌+◌, ◌-◌, ◌<◌, ◌≤◌, [], ◌++◌, IfOk, length, map, take, drop, All};
ghost use Rattle.helper_tasks.specs.Count.{times, total, Each};
ghost use Rattle.helper_tasks.specs.Rule.{dealt};
ghost use Rattle.helper_tasks.specs.Handles.{reach_at};
ghost use Rattle.helper_tasks.specs.Crew.{Fresh, Hired, aspect, deque_of, new_look, gave_part, alone};

use crate::deque::Look;
use crate::helper::Helper;
use crate::injector::{Fetcher, Queue};
use crate::rule::Numbering;
use std::alloc::{AllocError, Global};
use std::sync::Wait;

// Pushes the tasks in this order, up to the first that the queue refuses, and answers how many it pushed.
fn push_all<N: Numbering>(
    rt: &impl Wait,
    queue: &Queue<N>,
    all: &mut Fetcher,
    order: &[u32],
) -> usize
    requires tasks { Each (λ (x : ℕ). x < N.bound) order.now }
    requires all { all.old ≡ reach_at queue.now (dealt 64 [] []) }
    ensures count { result ≤ length order.now }
    ensures pushed { all.new ≡ reach_at queue.now (dealt 64 (take result order.now) []) }
{
    for (at, task) in order.iter().enumerate() {
        if queue.push(rt, all, *task).is_err() {
            return at;
        }
    }
    order.len()
}

// A worker for each share. The tasks of the order from `pushed` on are the first worker's alone.
fn hire<S: Drop, O: Drop, N: Numbering>(
    alloc: Global,
    shares: Vec<S>,
    queue: &Queue<N>,
    all: &mut Fetcher,
    order: &[u32],
    pushed: usize,
) -> Result<Vec<Helper<S, O, N>>, AllocError>
    requires shares { (0 < length shares.items) × (length shares.items ≤ 16) }
    requires pushed { pushed ≤ length order.now }
    requires all { all.old ≡ reach_at queue.now (dealt 64 (take pushed order.now) []) }
    ensures all { IfOk result (λ v. all.new ≡ reach_at queue.now (dealt (64 - length v.items) (take pushed order.now) [])) }
    ensures hired { IfOk result (λ v. Each (Hired queue.now (length shares.items) order.now) v.items) }
    ensures shares { IfOk result (λ v. map (λ h. h.desk.share) v.items ≡ shares.items) }
    ensures rest { IfOk result (λ v. (x : ℕ) → total (alone order.now x) v.items ≡ times x (drop pushed order.now)) }
{
    let mut helpers = Vec::new(alloc);
    let mut number = 0;
    let mut rest = pushed;
    for share in shares {
        let fetcher = queue.another(all);
        helpers.push(Helper::new(alloc, number, share, fetcher, rest)?)?;
        number += 1;
        rest = order.len();
    }
    Ok(helpers)
}

// A look at each worker's deque.
fn look_at_all<S, O, N: Numbering>(
    alloc: Global,
    helpers: &mut [Helper<S, O, N>],
) -> Result<Vec<Look<N>>, AllocError>
    requires { Each (λ h. 1 < h.handles.own.dealt.parts) helpers.old }
    ensures looks { IfOk result (λ v. v.items ≡ map (λ h. new_look (deque_of h)) helpers.old) }
    ensures helpers { IfOk result (λ _. helpers.new ≡ map gave_part helpers.old) }
{
    let mut looks = Vec::new(alloc);
    for helper in helpers.iter_mut() {
        looks.push(helper.handles.own.look()?)?;
    }
    Ok(looks)
}

// Gives each worker a look at each deque.
fn give_looks<S: Drop, O: Drop, N: Numbering>(
    alloc: Global,
    helpers: &mut [Helper<S, O, N>],
) -> Result<(), AllocError>
    requires own { Each (λ h. h.handles.own.dealt ≡ dealt 64 [] []) helpers.old }
    requires count { length helpers.old ≤ 16 }
    ensures same { IfOk result (λ _. map aspect helpers.new ≡ map aspect helpers.old) }
    ensures own { IfOk result (λ _. Each (λ h. h.handles.own.dealt ≡ dealt (64 - length helpers.old) [] []) helpers.new) }
    ensures looks { IfOk result (λ _. Each (λ h. h.handles.looks.items ≡ map (λ g. new_look (deque_of g)) helpers.old) helpers.new) }
{
    for at in 0..helpers.len() {
        let looks = look_at_all(alloc, helpers)?;
        helpers[at].handles.looks = looks;
    }
    Ok(())
}

/// Pushes the tasks, and makes the workers of a call: one for each share, with a look at each deque.
pub fn staff<S: Drop, O: Drop, N: Numbering>(
    rt: &impl Wait,
    alloc: Global,
    order: &[u32],
    shares: Vec<S>,
    queue: &Queue<N>,
    all: &mut Fetcher,
) -> Result<Vec<Helper<S, O, N>>, AllocError>
    requires tasks { Each (λ (x : ℕ). x < N.bound) order.now }
    requires shares { (0 < length shares.items) × (length shares.items ≤ 16) }
    requires all { all.old ≡ reach_at queue.now (dealt 64 [] []) }
    ensures all { IfOk result (λ v. all.new ≡ reach_at queue.now (dealt (64 - length v.items) all.new.dealt.pushed [])) }
    ensures tasks { IfOk result (λ v. (x : ℕ) → times x all.new.dealt.pushed + total (alone order.now x) v.items ≡ times x order.now) }
    ensures shares { IfOk result (λ v. map (λ h. h.desk.share) v.items ≡ shares.items) }
    ensures fresh { IfOk result (λ v. Each (Fresh (map deque_of v.items) queue.now (length v.items) order.now) v.items) }
{
    let pushed = push_all(rt, queue, all, order);
    let mut helpers = hire(alloc, shares, queue, all, order, pushed)?;
    give_looks(alloc, &mut helpers)?;
    Ok(helpers)
}
