//! Example: a program that checks scripts, compiles them whole and function by function, keeps them as images, and has threads share functions.
//!
//! It stands on the library `stencil`, and for threads on the board below it; docs/embedding.md leads through its five modules, each of which shows
//! one use of the library.
#![tactic(auto)]

mod check;
mod code;
mod image;
mod lazy;
mod threads;

use anyhow::Result;

fn main(rt: HostRuntime) -> Result<()> {
    check::show(&rt, rt.alloc())?;
    code::show(&rt, rt.alloc())?;
    lazy::show(&rt, rt.alloc())?;
    image::show(&rt, rt.alloc())?;
    threads::show(&rt, rt.alloc())
}
