// The rule of the injector and of each deque: no task is lost and none is doubled.
use crossbeam_deque::protocol::{Join, Outcome, Protocol, Split};
use std::collections::LinkedList;
use std::marker::{Brand, PhantomData};

// What a handle has: its parts of the right to know the whole, what it pushed and what it took. No value of it is made.
pub struct Dealt {
    pub parts: u64,
    pub pushed: LinkedList<u32>,
    pub taken: LinkedList<u32>,
}

/// How many tasks there are. Each call of `run_tasks` picks it.
pub trait Numbering {
    ghost use Rattle.std.specs.Prelude.{ℕ};

    ghost bound: { ℕ };
}

impl Numbering for Brand {
    ghost bound = { 0 };
}

/// The rule: what was pushed is what stands there and what was taken, each as often, and all below the bound.
pub struct Fair<N: Numbering> {
    of: PhantomData<N>,
}

impl<N: Numbering> Protocol<u32, Dealt> for Fair<N> {
    ghost use Rattle.std.specs.Prelude.{[]};
    ghost use Rattle.helper_tasks.specs.Rule.{Balanced, dealt};

    ghost holds = { Balanced N.bound };

    ghost first = { dealt 64 [] [] };

    ghost guest = { dealt 64 [] [] };
}

/// A handle gives one of its parts to a new one.
pub struct OnePart;

impl Split<Dealt> for OnePart {
    ghost use Rattle.std.specs.Prelude.{[], ◌-◌};
    ghost use Rattle.helper_tasks.specs.Rule.{dealt};

    ghost left = { λ v. dealt (v.parts - 1) v.pushed v.taken };

    ghost right = { λ v. dealt 1 [] [] };
}

/// A handle takes in all that another has.
pub struct Together;

impl Join<Dealt> for Together {
    ghost use Rattle.std.specs.Prelude.{[], ◌+◌, ◌++◌};
    ghost use Rattle.helper_tasks.specs.Rule.{dealt};

    ghost both = { λ v w. dealt (v.parts + w.parts) (v.pushed ++ w.pushed) (v.taken ++ w.taken) };

    ghost spent = { dealt 0 [] [] };
}

/// A push.
pub struct Pushes;

impl Outcome<u32, Dealt> for Pushes {
    ghost use Rattle.std.specs.Prelude.{◌≡◌, ◌++◌};
    ghost use Rattle.helper_tasks.specs.Rule.{dealt};

    ghost then = { λ v xs w. w ≡ dealt v.parts (v.pushed ++ xs) v.taken };
}

/// A pop or a steal, which tells who has all parts of an end.
pub struct Takes<N: Numbering> {
    of: PhantomData<N>,
}

impl<N: Numbering> Outcome<u32, Dealt> for Takes<N> {
    ghost use Rattle.std.specs.Prelude.{◌≡◌, ◌++◌, ◌<◌};
    ghost use Rattle.helper_tasks.specs.Rule.{dealt, TookAll};
    ghost use Rattle.helper_tasks.specs.Count.{Each};

    ghost then = { λ v xs w. (w ≡ dealt v.parts v.pushed (v.taken ++ xs)) × Each (λ x. x < N.bound) xs };

    ghost empty = { TookAll };
}

/// A steal from another worker's deque, which tells nothing where it finds nothing.
pub struct Steals<N: Numbering> {
    of: PhantomData<N>,
}

impl<N: Numbering> Outcome<u32, Dealt> for Steals<N> {
    ghost use Rattle.std.specs.Prelude.{◌≡◌, ◌++◌, ◌<◌};
    ghost use Rattle.helper_tasks.specs.Rule.{dealt};
    ghost use Rattle.helper_tasks.specs.Count.{Each};

    ghost then = { λ v xs w. (w ≡ dealt v.parts v.pushed (v.taken ++ xs)) × Each (λ x. x < N.bound) xs };
}
