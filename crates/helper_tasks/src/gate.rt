// Where a worker stands between the run of a task and its result.
ghost use Rattle.std.specs.Prelude.{◌≡◌, ◌+◌, ◌<◌, ◌^◌};
ghost use Rattle.helper_tasks.specs.Meeting.{Meeting};

use std::hint::spin_loop;
use std::marker::Model;
use std::sync::OnceLock;
use std::sync::atomic::{AtomicU64, Ordering};

/// A worker calls `hold` with a task's number once it has run the task, before it hands in the result.
pub trait Gate: Sync {
    /// Returns, sooner or later.
    fn hold(&self, task: u32);
}

/// Lets every task pass.
#[derive(Clone, Copy)]
pub struct OpenGate;

impl Gate for OpenGate {
    fn hold(&self, _task: u32) {}
}

/// Lets the first `pass` calls through. Each later call is an arrival: it returns once `needed` calls have arrived, or
/// after `turns` looks. With it a test sees whether tasks run beside each other.
#[derive(Drop)]
pub struct MeetGate {
    pass: u32,
    needed: u32,
    turns: u64,
    calls: AtomicU64,
    // Whether the calls met. It is written once: by the call that arrives last of those needed, or by the first that runs
    // out of looks.
    met: OnceLock<bool>,
}

impl Model for MeetGate {
    ghost use Rattle.helper_tasks.specs.Meeting.{Meeting};
    ghost use Rattle.std.specs.Prelude.{◌+◌, ◌<◌, ◌^◌};

    ghost Value = { Meeting };

    ghost view = { λ g. record { pass = g.pass; needed = g.needed; turns = g.turns } };

    ghost invariant = { λ g. g.pass + g.needed < 2 ^ 32 };
}

impl MeetGate {
    /// A gate at which no call has been made. Where no call is needed, the calls have met.
    pub fn new(pass: u32, needed: u32, turns: u64) -> MeetGate
        requires { pass + needed < 2 ^ 32 }
        ensures { result ≡ record { pass = pass; needed = needed; turns = turns } }
    {
        let met = OnceLock::new();
        if needed == 0 {
            let _ = met.try_set(true);
        }
        MeetGate {
            pass,
            needed,
            turns,
            calls: AtomicU64::new(0),
            met,
        }
    }

    /// Whether as many calls as were needed arrived before any call ran out of looks.
    pub fn met(&self) -> bool {
        self.met.get() == Some(&true)
    }

    // How many calls there are once all that are needed have arrived.
    fn quorum(&self) -> u64 {
        u64::from(self.pass + self.needed)
    }

    // Looks until all have arrived. False where the looks run out.
    fn sees_all(&self) -> bool {
        let quorum = self.quorum();
        for _ in 0..self.turns {
            if self.calls.load(Ordering::SeqCst) >= quorum {
                return true;
            }
            spin_loop();
        }
        false
    }
}

impl Gate for MeetGate {
    fn hold(&self, _task: u32) {
        let earlier = self.calls.fetch_add(1, Ordering::SeqCst);
        if earlier < u64::from(self.pass) {
            return;
        }
        if earlier.wrapping_add(1) == self.quorum() {
            let _ = self.met.try_set(true);
        }
        if !self.sees_all() {
            let _ = self.met.try_set(false);
        }
    }
}
