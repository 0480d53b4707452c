//! What work is counted on.

ghost use Rattle.std.specs.Prelude.{◌≡◌, ℕ, ◌+◌, ◌<◌, ◌≤◌};
ghost use Rattle.compile_tally.specs.Tally.{Rises};

/// A count with a room. Their sum never changes: the count rises out of the room. No call takes memory.
pub trait Ticks {
    ghost count: { Self → ℕ };

    ghost room: { Self → ℕ };

    /// Counts one.
    fn tick(&mut self)
        requires { 0 < room self.old }
        ensures { Rises (count self.old) (room self.old) (count self.new) (room self.new) 1 };
}

/// A count of whose room a part can be lent. No call takes memory.
pub trait Tally: Ticks + Send + Sized + Drop {
    /// Lends a tally of this room, which counts here as a whole until it is taken back.
    fn lend(&mut self, amount: u64) -> Self
        requires { amount ≤ Self.room self.old }
        ensures here { Rises (Self.count self.old) (Self.room self.old) (Self.count self.new) (Self.room self.new) amount }
        ensures lent_count { Self.count result ≡ 0 }
        ensures lent_room { Self.room result ≡ amount };

    /// Takes a tally back: its room was not used.
    fn take_back(&mut self, other: Self)
        requires { Self.room other ≤ Self.count self.old }
        ensures { Rises (Self.count self.new) (Self.room self.new) (Self.count self.old) (Self.room self.old) (Self.room other) };
}
