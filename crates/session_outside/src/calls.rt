//! Calls that are told to fail by their number.

ghost use Rattle.std.specs.Prelude.{◌≡◌, ◌+◌, ◌-◌, ◌^◌, ◌↔◌, min, IsTrue, Contains};

/// Whether this call's number is listed; the next call's number is one more, up to 2^64 - 1.
pub(crate) fn is_call_told(fail: &[u64], calls: &mut u64) -> bool
    ensures told { IsTrue result ↔ Contains fail.now calls.old }
    ensures counted { calls.new ≡ min (calls.old + 1) (2 ^ 64 - 1) }
{
    let number = *calls;
    *calls = number.saturating_add(1);
    fail.contains(&number)
}
