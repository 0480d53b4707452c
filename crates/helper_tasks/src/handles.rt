// What one worker uses to get tasks: its own deque, a look at each deque, and a fetcher of the injector.
ghost use Rattle.std.specs.Prelude.{◌≡◌, ◌<◌, [], ◌∷◌, length, MatchOption, MatchResult};
ghost use Rattle.helper_tasks.specs.Hands.{Equipped, Moved};

use crate::deque::{Look, Own};
use crate::injector::{Fetcher, Queue};
use crate::rule::Numbering;
use std::sync::Wait;

/// The handles of one worker.
#[derive(Drop)]
pub struct Handles<N: Numbering> {
    /// The worker's number, which is its deque's place among the looks.
    pub number: usize,
    pub own: Own<N>,
    /// A look at each worker's deque, in the order of their numbers.
    pub looks: Vec<Look<N>>,
    pub fetcher: Fetcher,
}

impl<N: Numbering> Handles<N> {
    /// Takes a task from the worker's own deque.
    pub fn pop(&mut self) -> Option<u32>
        requires { Equipped self.old }
        ensures { MatchOption result (Moved self.old self.new [] []) (λ x. (x < N.bound) × Moved self.old self.new [] (x ∷ [])) }
    {
        self.own.pop()
    }

    /// Pushes a task to the worker's own deque, or hands it back where there is no memory for it.
    pub fn push(&mut self, task: u32) -> Result<(), u32>
        requires equipped { Equipped self.old }
        requires task { task < N.bound }
        ensures { MatchResult result (λ _. Moved self.old self.new (task ∷ []) []) (λ t. (t ≡ task) × (self.new ≡ self.old)) }
    {
        self.own.push(task)
    }

    /// Takes a task from the injector.
    pub fn fetch(&mut self, rt: &impl Wait, queue: &Queue<N>) -> Option<u32>
        requires equipped { Equipped self.old }
        requires queue { self.old.fetcher.injector ≡ queue.now }
        ensures { MatchOption result (Moved self.old self.new [] []) (λ x. (x < N.bound) × Moved self.old self.new [] (x ∷ [])) }
    {
        queue.fetch(rt, &mut self.fetcher)
    }

    // Steals a task from one deque.
    fn steal_at(&mut self, rt: &impl Wait, at: usize) -> Option<u32>
        requires equipped { Equipped self.old }
        requires at { at < length self.old.looks.items }
        ensures { MatchOption result (Moved self.old self.new [] []) (λ x. (x < N.bound) × Moved self.old self.new [] (x ∷ [])) }
    {
        let look = &mut self.looks[at];
        look.steal(rt)
    }

    /// Steals one task from another worker's deque. It tries each once, the next worker's first.
    pub fn steal(&mut self, rt: &impl Wait) -> Option<u32>
        requires { Equipped self.old }
        ensures { MatchOption result (Moved self.old self.new [] []) (λ x. (x < N.bound) × Moved self.old self.new [] (x ∷ [])) }
    {
        let workers = self.looks.len();
        for step in 1..workers {
            let at = (self.number + step) % workers;
            let stolen = self.steal_at(rt, at);
            if stolen.is_some() {
                return stolen;
            }
        }
        None
    }
}
