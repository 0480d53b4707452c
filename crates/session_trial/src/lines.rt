//! The four kinds of lines.

ghost use Rattle.std.specs.Prelude.{◌≡◌, ◌++◌, OnOk};
ghost use Rattle.std.specs.Fmt.{decimal};
ghost use Rattle.session_trial.specs.Generated as definition;

use std::alloc::{AllocError, Global};

/// Appends a line in which the same digits stand twice.
fn append_around(
    out: &mut Vec<u8>,
    digits: &[u8],
    front: &[u8],
    between: &[u8],
    back: &[u8],
) -> Result<(), AllocError>
    ensures { OnOk result (out.new.items ≡ out.old.items ++ (front.now ++ digits.now ++ between.now ++ digits.now ++ back.now)) }
{
    out.extend_from_slice(front)?;
    out.extend_from_slice(digits)?;
    out.extend_from_slice(between)?;
    out.extend_from_slice(digits)?;
    out.extend_from_slice(back)?;
    Ok(())
}

/// Appends a declared function that adds.
fn append_function(out: &mut Vec<u8>, digits: &[u8]) -> Result<(), AllocError>
    ensures { OnOk result (out.new.items ≡ out.old.items ++ definition.function_line digits.now) }
{
    let between = b"(a, b) { return a + b * ";
    append_around(out, digits, b"function f", between, b"; }\n")
}

/// Appends a variable with a function that makes counters.
fn append_counter(out: &mut Vec<u8>, digits: &[u8]) -> Result<(), AllocError>
    ensures { OnOk result (out.new.items ≡ out.old.items ++ definition.counter_line digits.now) }
{
    let between = b" = function () { var c = ";
    append_around(out, digits, b"var v", between, b"; return () => c++; };\n")
}

/// Appends a declared function with a loop.
fn append_loop(out: &mut Vec<u8>, digits: &[u8]) -> Result<(), AllocError>
    ensures { OnOk result (out.new.items ≡ out.old.items ++ definition.loop_line digits.now) }
{
    let between = b"(n) { for (let j = 0; j < n; j++) { if (j > ";
    append_around(out, digits, b"function g", between, b") break; } }\n")
}

/// Appends a variable with an object that has a getter.
fn append_object(out: &mut Vec<u8>, digits: &[u8]) -> Result<(), AllocError>
    ensures { OnOk result (out.new.items ≡ out.old.items ++ definition.object_line digits.now) }
{
    let between = b" = { get x() { return this.y; }, y: ";
    append_around(out, digits, b"var o", between, b" };\n")
}

/// Appends the line of this number, of the kind that this state of the sequence decides.
pub(crate) fn append_line(
    alloc: Global,
    out: &mut Vec<u8>,
    state: u32,
    number: u32,
) -> Result<(), AllocError>
    ensures { OnOk result (out.new.items ≡ out.old.items ++ definition.line_of (definition.kind_of state) (decimal number)) }
{
    let digits = number.to_string(alloc)?;
    let digits = digits.as_bytes();
    match state / 65536 % 4 {
        0 => append_function(out, digits),
        1 => append_counter(out, digits),
        2 => append_loop(out, digits),
        _ => append_object(out, digits),
    }
}
