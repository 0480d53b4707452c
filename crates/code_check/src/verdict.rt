//! What is said of code.

/// Whether code never takes from an empty stack and never leaves its instructions, in any number of steps.
#[derive(Debug, Clone, Copy, PartialEq, Eq)]
pub enum Verdict {
    /// It never does. The stack never has more than `depth` values, and at times it has n.
    Sound { depth: u64 },
    /// It does, or an offset would need two depths.
    Unsound,
}
