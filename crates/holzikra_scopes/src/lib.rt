//! Drawings of a script's functions and scopes, and of who closes over what: a tree of lines, and a graph in the language DOT.
//!
//! It stands on the environments of code (holzikra_flow) and on the words for functions (holzikra_names), below the program for
//! people. Which function uses which binding is read from the instructions that are reached, each with the environment with which
//! it runs.
//!
//! Proved is that both calls are safe and end on every merged stencil, also on one that comes from an image and that no script
//! has; what they draw is only tested.
#![tactic(auto)]

mod graph;
mod layout;
mod tree;
mod uses;

pub use graph::{Edge, edges_of, is_hidden, scope_graph};
pub use tree::scope_tree;
pub use uses::{Use, Uses};
