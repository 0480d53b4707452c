// A gate that holds some calls for a while.
use helper_tasks::Gate;
use std::hint::spin_loop;
use std::sync::atomic::{AtomicU64, Ordering};

/// Holds each call for up to 4,095 turns, many for a few and few for many. How long depends on the number of the schedule, the task and how
/// many calls came before.
#[derive(Drop)]
pub struct DelayGate {
    schedule: u32,
    calls: AtomicU64,
}

impl DelayGate {
    /// The gate of the schedule of this number.
    pub fn new(schedule: u32) -> DelayGate {
        DelayGate {
            schedule,
            calls: AtomicU64::new(0),
        }
    }
}

impl Gate for DelayGate {
    fn hold(&self, task: u32) {
        let earlier = self.calls.fetch_add(1, Ordering::SeqCst);
        let chance = mixed(mixed(u64::from(self.schedule)) ^ mixed(earlier) ^ u64::from(task));
        for _ in 0..turns(chance) {
            spin_loop();
        }
    }
}

// Below 2^k, where k is below 13 and as likely as any other.
fn turns(chance: u64) -> u64 {
    let few = chance % 13;
    let mut most = 1u64;
    for _ in 0..few {
        most = most.wrapping_mul(2);
    }
    if most == 0 {
        return 0;
    }
    (chance / 13) % most
}

/// A number whose bits depend on all bits of this one.
pub fn mixed(number: u64) -> u64 {
    let once = (number ^ (number >> 30)).wrapping_mul(0xBF58_476D_1CE4_E5B9);
    let twice = (once ^ (once >> 27)).wrapping_mul(0x94D0_49BB_1331_11EB);
    (twice ^ (twice >> 31)).wrapping_add(0x9E37_79B9_7F4A_7C15)
}
