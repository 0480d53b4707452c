// A job: numbered tasks, and what each of them gives.
ghost use Rattle.std.specs.Prelude.{◌≡◌, ℕ, ◌<◌, List, [], ◌∷◌, ◌++◌, IfOk};

use std::alloc::{AllocError, Global};

/// Work that splits into tasks, which several workers run, each with a share of its own.
pub trait Job: Sync {
    /// What a task gives.
    type Out: Send + Drop;

    /// What a worker has to itself while it runs tasks.
    type Share: Send + Drop;

    // How many tasks the job has.
    ghost tasks: { Self → ℕ };

    // Whether a task gives this out.
    ghost gives: { Self → ℕ → Self.Out → Type 0 };

    // Whether a share fits the job.
    ghost fits: { Self → Self.Share → Type 0 };

    // The tasks that were run with a share, the first one first.
    ghost ran: { Self.Share → List ℕ };

    /// Runs one task. Where there is no memory for it, the share still fits.
    fn run(
        &self,
        alloc: Global,
        task: u32,
        share: &mut Self::Share,
    ) -> Result<Self::Out, AllocError>
        requires task { task < tasks self.now }
        requires share { fits self.now share.old }
        ensures gives { IfOk result (λ out. gives self.now task out) }
        ensures share { fits self.now share.new }
        ensures ran { IfOk result (λ _. ran share.new ≡ ran share.old ++ task ∷ []) };
}
