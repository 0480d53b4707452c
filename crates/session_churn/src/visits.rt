//! What the visits of one round found, and their sums.

ghost use Rattle.std.specs.Prelude.{◌≡◌, ◌≤◌, ◌^◌, All, length, map, sum};
ghost use Rattle.session_churn.specs.Visits.{IsFew, size_of};

/// What one visit of a function found.
#[derive(Clone, Copy, Debug)]
pub struct Visit {
    /// How many instructions the function has.
    pub instructions: usize,
    /// How many functions were compiled for the visit: this one and those around it, or those of them that were not there.
    pub compiled: u64,
}

/// What all visits of a round found together.
#[derive(Clone, Copy, Debug)]
pub struct RoundSum {
    pub instructions: u128,
    pub compiled: u64,
}

/// What these visits found together.
pub(crate) fn found_by(visits: &[Visit]) -> RoundSum
    requires few { length visits.now ≤ 2 ^ 19 }
    requires each { All IsFew visits.now }
    ensures instructions { result.instructions ≡ sum (map size_of visits.now) }
    ensures size { result.instructions ≤ 2 ^ 83 }
    ensures compiled { result.compiled ≤ 2 ^ 38 }
{
    let mut found = RoundSum {
        instructions: 0,
        compiled: 0,
    };
    for visit in visits {
        found.instructions += visit.instructions as u128;
        found.compiled += visit.compiled;
    }
    found
}
