//! Writing bytes whole.

ghost use Rattle.std.specs.Prelude.{◌≡◌, ℕ, ◌-◌, ◌^◌, ◌<◌, ◌≤◌, List, length, drop};
ghost use Rattle.session_outside.specs.Sink.{CountsSink, GainsAllOrFront};

use crate::sink::{Sink, SinkRefusal};

/// What stands after the first `count` bytes.
fn bytes_behind(bytes: &[u8], count: usize) -> &[u8]
    requires { count ≤ length bytes.now }
    ensures { result.now ≡ drop count bytes.now }
{
    &bytes[count..]
}

/// Gives the sink all these bytes. After a refusal it has taken a front of them.
pub fn write_bytes<K: Sink>(sink: &mut K, bytes: &[u8]) -> Result<(), SinkRefusal>
    requires { K.faults sink.old < 2 ^ 64 - 1 }
    ensures count { CountsSink (K.faults sink.old) (K.faults sink.new) result }
    ensures took { GainsAllOrFront (K.taken sink.old) (K.taken sink.new) bytes.now result }
{
    let mut done = 0;
    while done < bytes.len() {
        match sink.write(bytes_behind(bytes, done)) {
            Ok(count) => done += count,
            Err(SinkRefusal::Failed) => return Err(SinkRefusal::Failed),
            Err(SinkRefusal::NoMemory) => return Err(SinkRefusal::NoMemory),
        }
    }
    Ok(())
}
