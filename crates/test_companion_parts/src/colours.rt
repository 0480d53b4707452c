//! Which parts of answers have a colour: put down by hand.

use holzikra_colours::{Answer, coloured};
use std::alloc::{AllocError, Global};

/// An answer in colours, each escape of it shown as `!`.
fn shown(alloc: Global, answer: Answer, text: &str) -> Result<String, AllocError> {
    let out = coloured(alloc, answer, text.as_bytes())?;
    let mut shown = String::new(alloc);
    for byte in &out {
        let c = if *byte == 27 { '!' } else { char::from(*byte) };
        shown.push(c)?;
    }
    Ok(shown)
}

/// Answers, and how they are shown. What has escapes of its own is left as it is.
const ANSWERS: [(Answer, &str, &str); 10] = [
    (
        Answer::Refusals,
        "a.js:1:5: error: x: error: y [U1]\n  1 | x: error: y\n    |   ^\n",
        "a.js:1:5: ![31merror:![00m x: error: y [U1]\n  1 | x: error: y\n    |   ![31m^![00m\n",
    ),
    (
        Answer::Refusals,
        "a.js:1:9: unsupported: class [P5]\na.js:1:1: note: here\n1000 |   ^ : note: \n",
        "a.js:1:9: ![33munsupported:![00m class [P5]\na.js:1:1: ![36mnote:![00m here\n1000 |   ^ : note: \n",
    ),
    (
        Answer::Refusals,
        "a.js:1:1: error: \x1b [U1]\n",
        "a.js:1:1: error: ! [U1]\n",
    ),
    (Answer::Refusals, "", ""),
    (
        Answer::Listing,
        "file a.js\nscript 0 top 0..9  ; script\n# 1 | f()\n  00000 Pop\n",
        "![01mfile a.js![00m\nscript 0 top 0..9 ![02m ; script![00m\n![02m# 1 | f()![00m\n  00000 Pop\n",
    ),
    (
        Answer::Tree,
        "script  1:1 to 2:1\n`-- function 1 f  1:2 to 1:9\n    |-- var a (env 0)\n    `-- Function\n",
        "script![02m  1:1 to 2:1![00m\n`-- function 1 f![02m  1:2 to 1:9![00m\n    |-- var a![02m (env 0)![00m\n    `-- Function\n",
    ),
    (
        Answer::Table,
        "file  depth\nfile      2\n",
        "![01mfile  depth![00m\nfile      2\n",
    ),
    (
        Answer::Difference,
        "--- a\n+++ b\n@@ f\n   Pop\n-  Inc\n+  Dec\n",
        "![01m--- a![00m\n![01m+++ b![00m\n![36m@@ f![00m\n   Pop\n![31m-  Inc![00m\n![32m+  Dec![00m\n",
    ),
    (
        Answer::Images,
        "a: sound, depth 1\nb: script 0: unsound\nc: no image\n",
        "a: ![32msound![00m, depth 1\nb: script 0: ![31munsound![00m\nc: ![31mno image![00m\n",
    ),
    (
        Answer::Codes,
        "E4: a name\n\nThe block\nP12  number\n",
        "![01mE4![00m: a name\n\nThe block\n![01mP12![00m  number\n",
    ),
];

#[test]
fn answers_have_their_colours(rt: HostRuntime) -> Result<(), AllocError> {
    for (answer, text, wanted) in ANSWERS {
        assert!(rt;
            shown(rt.alloc(), answer, text)?.as_str() == wanted,
            "{text}"
        );
    }
    Ok(())
}
