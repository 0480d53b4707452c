//! The sink: where the bytes of the output go.

ghost use Rattle.std.specs.Prelude.{◌≡◌, ℕ, ◌-◌, ◌^◌, ◌<◌, ◌≤◌, List, length, take, Option, IfOk, OnErr};
ghost use Rattle.session_outside.specs.Sink.{CountsSink, Gains};

/// Why a sink refuses.
#[derive(Clone, Copy, Debug, PartialEq, Eq)]
pub enum SinkRefusal {
    /// The outside failed. The count of faults rose.
    Failed,
    /// Memory was wanting.
    NoMemory,
}

/// A place that takes bytes.
///
/// Where a sink tells it, `taken` is what it has taken so far; `faults` is a count that never falls.
pub trait Sink {
    ghost taken: { Self → Option (List ℕ) };

    ghost faults: { Self → ℕ };

    /// Takes bytes of the front of `piece` and answers how many, at least 1. A refused call takes
    /// nothing.
    fn write(&mut self, piece: &[u8]) -> Result<usize, SinkRefusal>
        requires counted { faults self.old < 2 ^ 64 - 1 }
        requires some { 0 < length piece.now }
        ensures count { CountsSink (faults self.old) (faults self.new) result }
        ensures at_least { IfOk result (λ n. 0 < n) }
        ensures within { IfOk result (λ n. n ≤ length piece.now) }
        ensures took { IfOk result (λ n. Gains (taken self.old) (taken self.new) (take n piece.now)) }
        ensures refused { OnErr result (taken self.new ≡ taken self.old) };
}
