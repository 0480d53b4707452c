//! Small texts.

use session_trial::generated_text;
use std::test::Fail;

#[test]
fn two_functions(rt: HostRuntime) -> Result<(), Fail> {
    let text = generated_text(rt.alloc(), 1, 2)?;
    let wanted =
        b"function f0(a, b) { return a + b * 0; }\nfunction f1(a, b) { return a + b * 1; }\n";
    assert_eq!(rt; text.as_slice(), wanted.as_slice());
    Ok(())
}

// All four kinds stand among the first lines of this number.
#[test]
fn all_kinds(rt: HostRuntime) -> Result<(), Fail> {
    let text = generated_text(rt.alloc(), 7, 12)?;
    let mut kinds = [false; 4];
    for line in text.as_slice().split(|byte| *byte == b'\n') {
        kinds[0] = kinds[0] || line.starts_with(b"function f");
        kinds[1] = kinds[1] || line.starts_with(b"var v");
        kinds[2] = kinds[2] || line.starts_with(b"function g");
        kinds[3] = kinds[3] || line.starts_with(b"var o");
    }
    assert_eq!(rt; kinds, [true; 4]);
    Ok(())
}

#[test]
fn nothing(rt: HostRuntime) -> Result<(), Fail> {
    let text = generated_text(rt.alloc(), 7, 0)?;
    assert!(rt; text.is_empty());
    Ok(())
}
