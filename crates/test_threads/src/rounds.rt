//! A small script whose functions are compiled again and again.

use crate::scripts::initial_of;
use helper_tasks::OpenGate;
use session_churn::{churn, visit_in_rounds};
use std::test::Fail;

const PAIR: &[u8] =
    b"function f0(a, b) { return a + b * 0; }\nfunction f1(a, b) { return a + b * 1; }\n";

// Three functions, each in the one before, and another one.
const NESTED: &[u8] = b"function f(x) { return () => () => x }\nfunction g(y) { return y; }\n";

#[test]
fn counts_a_script_whole(rt: HostRuntime) -> Result<(), Fail> {
    let alloc = rt.alloc();
    let before = initial_of(alloc, PAIR)?;
    assert_eq!(rt; before.parts.records.len(), 2);
    let churned = churn(&rt, alloc, PAIR, &before, 1, &OpenGate)?;
    // Both are compiled in the first round; in each later one the first again, which was discarded.
    assert!(rt; churned.instructions == 16 && churned.compiled == 4);
    Ok(())
}

#[test]
fn counts_a_script_without_functions(rt: HostRuntime) -> Result<(), Fail> {
    let alloc = rt.alloc();
    let before = initial_of(alloc, b"1 + 2;")?;
    assert_eq!(rt; before.parts.records.len(), 0);
    let churned = churn(&rt, alloc, b"1 + 2;", &before, 16, &OpenGate)?;
    assert!(rt; churned.instructions == 6 && churned.compiled == 0);
    Ok(())
}

#[test]
fn counts_after_many_rounds(rt: HostRuntime) -> Result<(), Fail> {
    let alloc = rt.alloc();
    let before = initial_of(alloc, PAIR)?;
    assert_eq!(rt; before.parts.records.len(), 2);
    let three = visit_in_rounds(&rt, alloc, PAIR, &before, 1, &OpenGate, 3)?;
    let many = visit_in_rounds(&rt, alloc, PAIR, &before, 1, &OpenGate, 1000)?;
    assert!(rt; many.instructions == three.instructions && many.compiled == 1001);
    Ok(())
}

#[test]
fn counts_the_same_by_four_workers_in_many_rounds(rt: HostRuntime) -> Result<(), Fail> {
    let alloc = rt.alloc();
    let before = initial_of(alloc, NESTED)?;
    assert_eq!(rt; before.parts.records.len(), 4);
    let one = visit_in_rounds(&rt, alloc, NESTED, &before, 1, &OpenGate, 1)?;
    let many = visit_in_rounds(&rt, alloc, NESTED, &before, 4, &OpenGate, 2000)?;
    assert!(rt; many.instructions == one.instructions);
    Ok(())
}
