//! The tally in memory.

ghost use Rattle.std.specs.Prelude.{◌≡◌, ◌+◌, ◌^◌, ◌<◌};

use crate::tally::{Tally, Ticks};

/// The tally in memory.
#[derive(Debug, Drop)]
pub struct Sheet {
    count: u64,
    room: u64,
    ghost sum_fits: { count + room < 2 ^ 64 },
}

impl Sheet {
    /// The tally of count 0 and this room.
    pub fn new(room: u64) -> Self
        ensures count { ⟦<Sheet as Ticks>⟧.count result ≡ 0 }
        ensures room { ⟦<Sheet as Ticks>⟧.room result ≡ room }
    {
        Sheet { count: 0, room }
    }

    /// The count.
    pub fn count(&self) -> u64
        ensures { result ≡ ⟦<Sheet as Ticks>⟧.count self.now }
    {
        self.count
    }
}

impl Ticks for Sheet {
    ghost count = { λ s. s.count };

    ghost room = { λ s. s.room };

    fn tick(&mut self) {
        self.room -= 1;
        self.count += 1;
    }
}

impl Tally for Sheet {
    fn lend(&mut self, amount: u64) -> Self {
        self.room -= amount;
        self.count += amount;
        Sheet {
            count: 0,
            room: amount,
        }
    }

    fn take_back(&mut self, other: Self) {
        self.count -= other.room;
        self.room += other.room;
    }
}
