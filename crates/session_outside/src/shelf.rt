//! The shelf: where the bytes of named files come from.

ghost use Rattle.std.specs.Prelude.{◌≡◌, ℕ, ◌-◌, ◌^◌, ◌<◌, ◌≤◌, Bool, true, List, length, Option, IfOk};
ghost use Rattle.session_outside.specs.Shelf.{CountsShelf, AddsName, Opens, LeavesAfterTurn, StaysOpen, LeavesAfterRead};

/// Why a shelf refuses.
#[derive(Clone, Copy, Debug, PartialEq, Eq)]
pub enum ShelfRefusal {
    /// The outside failed, or the name is not there. The count of faults rose.
    Failed,
    /// Memory was wanting.
    NoMemory,
}

/// Files by name, read one at a time from the front.
///
/// Where a shelf tells its bytes, `held` says what each name holds and `left` what is still to be read
/// of the name that it was turned to last. `faults` is a count that never falls, `turned` the list of
/// the names that it was turned to, and `is_open` says whether it can be read.
pub trait Shelf {
    ghost held: { Self → Option (List ℕ → List ℕ) };

    ghost left: { Self → Option (List ℕ) };

    ghost faults: { Self → ℕ };

    ghost turned: { Self → List (List ℕ) };

    ghost is_open: { Self → Bool };

    /// Makes `name` the one that is read, from its beginning. A name that is not there is a fault.
    fn turn_to(&mut self, name: &str) -> Result<(), ShelfRefusal>
        requires { faults self.old < 2 ^ 64 - 1 }
        ensures count { CountsShelf (faults self.old) (faults self.new) result }
        ensures names { AddsName (turned self.old) (turned self.new) name.now result }
        ensures same { held self.new ≡ held self.old }
        ensures opens { Opens (is_open self.old) (is_open self.new) result }
        ensures leaves { LeavesAfterTurn (held self.old) (left self.old) (left self.new) name.now result };

    /// Puts bytes at the front of `into` and answers how many: 0 only at the end, where the shelf
    /// closes. It needs an open shelf and a buffer that is not empty.
    fn read(&mut self, into: &mut [u8]) -> Result<usize, ShelfRefusal>
        requires counted { faults self.old < 2 ^ 64 - 1 }
        requires opened { is_open self.old ≡ true }
        requires room { 0 < length into.old }
        ensures count { CountsShelf (faults self.old) (faults self.new) result }
        ensures names { turned self.new ≡ turned self.old }
        ensures same { held self.new ≡ held self.old }
        ensures within { IfOk result (λ n. n ≤ length into.new) }
        ensures stays { StaysOpen (is_open self.old) (is_open self.new) result }
        ensures leaves { LeavesAfterRead (left self.old) (left self.new) into.new result };
}
