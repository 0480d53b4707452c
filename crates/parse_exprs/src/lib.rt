//! The parser of expressions and functions, over tokens and for every handler.
//!
//! It stands on grammar_parser_specs, which has the same parser as functions on lists of lexemes: each function here answers what the
//! function of the same name there answers. So a function is stated by one clause, as of `expect`:
//!
//! `(i : Interpretation) → Reads Itself (pure.expect mark) source.now i self.old self.new result`
//!
//! Whatever atoms and passed bodies stand for, the result is what `pure.expect mark` answers on the lexemes from the place
//! `self.old` on, with the bodies that were recorded before, and where the code stands then is `self.new` (specs/Answers.antt).
//! The first argument says what a result stands for (specs/Means.antt); a node stands for a tree, `NodeOf (H.shows_expr i)`.
//! A part that reads expressions is stated so over `env_at i depth` (specs/Env.antt), the parser inside n nodes that
//! count for the depth.
//!
//! A loop is a function of a turn and a loop over it, whose five goals `proofs/Loops.antt` answers. The exits by `?` and most
//! others need no answer. What is left are exits that make something of what several parts read, which the lemmas of
//! `proofs/Steps.antt` put together, as `then _ a.2 (made _ b)`, and exits with another part of which something is asked:
//! `proofs/Onward.antt`. A call that counts for the depth is one of `proofs/Calls.antt`.
//!
//! `assign` and `expr` read an AssignmentExpression and an Expression, `function` the parameters and the body of a function.
//! All functions that lead back to `assign` are one cycle: each call in it goes to a part of a lower rank, or to one that stands
//! a node deeper, and at the limit of depth nothing is read (proofs/state/State/+exprs/Invariants.antt).
#![tactic(auto)]

pub mod arrows;
pub mod chains;
pub mod exprs;
pub mod functions;
pub mod heads;
pub mod kinds;
pub mod lists;
pub mod nodes;
pub mod objects;
pub mod operators;
pub mod params;
pub mod parens;
pub mod part;
pub mod place;
pub mod precedence;
pub mod source;
pub mod state;
pub mod token;
