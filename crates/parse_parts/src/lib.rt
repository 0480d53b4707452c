//! The parsers of the parts of a script, stated in the words of the grammar.
//!
//! It stands on parse_exprs and parse_bodies, whose functions are stated by what the same parser on lists of lexemes answers.
//! Each call here reads one part from the present token on: an AssignmentExpression, an Expression, a function from its
//! parameters on, a braced body, or one function that is the whole text. After Ok the tokens between the two places are such a
//! part with no token too deep, and the node stands for its tree; the place stands at a token of the text. Otherwise the fault
//! is the first fault of such a part of these tokens. Nothing is said where memory ran out. So a caller that reads one part
//! alone, as a tool that evaluates an expression, needs no more than these clauses (specs/Answers.antt, specs/Parts.antt).
//!
//! Braced bodies of functions inside a part are passed over and put on the pending list: they are looked at as tokens whose
//! brackets match. Of a function that is read alone, and of a body, the own statements are read. What was on the list stays in
//! front; after it come the bodies that were passed over, each once, in the order of the source, after Ok and up to the token
//! of a fault. After Ok they complete the part: where each of them is a braced body by the grammar, the tokens that were taken
//! are the part with all bodies in it read, and its own bodies are these (specs/Pending.antt).
#![tactic(auto)]

pub mod bodies;
pub mod exprs;
pub mod functions;
