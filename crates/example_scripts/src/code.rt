//! A script compiled, its instructions, and how deep its stack gets.
//!
//! [`deepest_stack`] shows what a contract is good for: what is compiled is sound, so the arm for unsound code is never reached, and
//! the prover accepts that it says so.

use anyhow::Result;
use std::alloc::{AllocError, Global};
use std::io::Print;
use stencil::{Answer, Op, Soundness, Stencil, Wanted, compile, instructions, verify};

/// How many values are on the stack of some code of a script at most; none where the text is refused.
fn deepest_stack(alloc: Global, text: &[u8]) -> Result<Option<u64>, AllocError> {
    let answer = compile(alloc, text, Wanted::All)?;
    let Answer::Script(stencil) = answer else {
        return Ok(None);
    };
    match verify(alloc, &stencil)? {
        Soundness::Sound { depth } => Ok(Some(depth)),
        Soundness::Unsound { .. } => unreachable!(),
    }
}

/// The text that an instruction names.
fn name_of(alloc: Global, stencil: &Stencil, atom: u64) -> Result<String, AllocError> {
    match stencil.texts.get(atom as usize) {
        None => Ok(String::new(alloc)),
        Some(text) => String::from_utf16_lossy(alloc, text.units()),
    }
}

/// Prints which names a script's own code asks for, and which calls it makes.
fn print_code(rt: &impl Print, alloc: Global, stencil: &Stencil) -> Result<()> {
    for (at, instr) in instructions(&stencil.top.code) {
        match instr.op {
            Op::GetGName => println!(rt;
                "{at}: the value of {}",
                name_of(alloc, stencil, instr.a)?
            )?,
            Op::GetProp => println!(rt;
                "{at}: its property {}",
                name_of(alloc, stencil, instr.a)?
            )?,
            Op::Call => println!(rt; "{at}: a call of {} arguments", instr.a)?,
            _ => {}
        }
    }
    Ok(())
}

/// A script of one call.
pub(crate) fn show(rt: &impl Print, alloc: Global) -> Result<()> {
    let text = b"console.log(name, 1 + 2)";
    let answer = compile(alloc, text, Wanted::All)?;
    if let Answer::Script(stencil) = answer {
        print_code(rt, alloc, &stencil)?;
    }
    if let Some(depth) = deepest_stack(alloc, text)? {
        println!(rt; "at most {depth} values on the stack")?;
    }
    Ok(())
}
