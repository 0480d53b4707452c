//! A script of which functions are compiled one by one, each when it is first called.
//!
//! Only what [`called`] is asked for is compiled, and it is what compiling the whole script would have given.

ghost use Rattle.std.specs.Prelude.{IfOk};
ghost use Rattle.stencil.specs.Scripts.{HasNumber, IsFunctionOf, IsLazyOf};

use anyhow::Result;
use std::alloc::{AllocError, Global};
use std::io::Print;
use stencil::{Answer, Function, Lazy};

/// The function of this number, compiled because it is called.
fn called(alloc: Global, text: &[u8], script: &Lazy, number: u32) -> Result<Function, AllocError>
    requires opened { IsLazyOf text.now script.now }
    requires number { HasNumber script.now number }
    ensures { IfOk result (IsFunctionOf text.now number) }
{
    script.function(alloc, text, number)
}

/// Prints where each function stands, and the size of the code of the last one, which is then compiled.
fn print_functions(rt: &impl Print, alloc: Global, text: &[u8], script: &Lazy) -> Result<()>
    requires { IsLazyOf text.now script.now }
{
    let count = script.functions();
    for number in 1..=count {
        let around = script.around(number);
        println!(rt; "function {number} stands in {around}")?;
    }
    if count > 0 {
        let last = called(alloc, text, script, count)?;
        println!(rt;
            "function {count}: {} bytes of code",
            last.stencil.code.len()
        )?;
    }
    Ok(())
}

/// A script of three functions, each in the one before.
pub(crate) fn show(rt: &impl Print, alloc: Global) -> Result<()> {
    let text = b"function f(x) { return () => () => x }";
    let answer = Lazy::open(alloc, text)?;
    match answer {
        Answer::Script(script) => print_functions(rt, alloc, text, &script)?,
        Answer::Refused(why) => println!(rt; "no script: {why:?}")?,
    }
    Ok(())
}
