//! How fast a generated script is scanned.
use crate::reading::tokens_of;
use anyhow::{Result, bail};
use std::alloc::{AllocError, Global};
use std::rt::Clock;
use std::time::{Duration, Instant};

/// A piece of a script, of a kilobyte or so.
const PIECE: &str = "// One function of many, as a page has them.
function distanceBetween(first, second) {
    const across = first.x - second.x, down = first.y - second.y;
    if (across === 0 && down === 0) { return 0; }
    return Math.sqrt(across * across + down * down);
}
/* Names, words, numbers,
   strings and templates. */
var palette = ['#ff8800', \"#123456\", 'line\\n', \"caf\\u00e9\"], limit = 0x1F_FF, count = 1_000_000;
for (let index = 0; index < palette.length; index++) {
    const label = `${index}: ${palette[index]} of ${palette.length}`;
    handlers[index] = (event) => { console.log(label, event.target ?? null); };
    total += index % 2 === 0 ? count >>> 3 : ~limit | index << 2;
}
switch (typeof palette) { case 'object': break; default: throw new Error('no palette'); }
";

/// How often the piece stands in the script.
const PIECES: u32 = 4096;

fn generated(alloc: Global) -> Result<String, AllocError> {
    let mut script = String::new(alloc);
    for _ in 0..PIECES {
        script.push_str(PIECE)?;
    }
    Ok(script)
}

fn print_rate(rt: &impl Print, what: &str, bytes: usize, time: Duration) -> Result<()> {
    let micros = time.as_micros().max(1);
    let rate = bytes as u128 / micros;
    println!(rt; "{what}: {rate} MB/s")?;
    Ok(())
}

/// Generates a script, scans it, and prints the rate.
pub fn print_rates(rt: &(impl Print + Clock), alloc: Global) -> Result<()> {
    let script = generated(alloc)?;
    let bytes = script.len();
    if bytes > 16_777_215 {
        bail!("too long a script");
    }
    let start = Instant::now(rt)?;
    let (tokens, _) = tokens_of(alloc, script.as_bytes())?;
    print_rate(rt, "scan", bytes, start.elapsed(rt)?)?;
    let count = tokens.len();
    println!(rt; "{bytes} bytes, {count} tokens")?;
    Ok(())
}
