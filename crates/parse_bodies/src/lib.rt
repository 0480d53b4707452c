//! The parser of statements, function bodies and scripts, over tokens and for every handler.
//!
//! It stands on parse_exprs, which reads the expressions and the heads of functions, and is stated as it is: each function
//! answers what the function of the same name of grammar_parser_specs answers. One clause says so, as of `expect_word`:
//!
//! `(i : Interpretation) → Reads Itself (pure.expect_word word) source.now i place.old place.new result`
//!
//! A part that reads expressions or statements is stated over `block_at i depth` (specs/Blocks.antt), the parser of what
//! stands inside n nodes that count for the depth.
//!
//! All functions that lead back to `stmts::stmt` are one cycle, `stmts`. They end, since `stmt` reads what it holds one deeper,
//! up to `DEPTH_LIMIT`, and the others call one another only downwards (proofs/+stmts/Invariants.antt has their ranks).
//!
//! `scripts` reads a script, a body that was passed over before, and a function alone. `whole::whole` reads a script with all
//! bodies in it: its clause is in the words of the grammar (specs/Whole.antt).
#![tactic(auto)]

pub mod arrows;
pub mod bindings;
pub mod ending;
pub mod kinds;
pub mod loops;
pub mod part;
pub mod pieces;
pub mod position;
pub mod scripts;
pub mod stmts;
pub mod switch;
pub mod values;
pub mod whole;
pub mod words;
