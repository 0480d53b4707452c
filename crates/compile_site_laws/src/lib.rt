//! All functions of a script as they are compiled, from a list of them by their numbers: definitions and lemmas alone.
//!
//! A lazy first pass gives the functions of a script with no tree: of each its extent, kind and name, and where it stands, by
//! the number of the function around it and its place there (parse_function_list). A function that is compiled wants the chain
//! of the scopes around it, which the function around it hands down. The laws here say that the functions of such a list are
//! those that compiling the whole script comes to, in the same order; that each gets the chain at its place among those that
//! the function of that number hands down; and that each stands well enough to be compiled alone.
#![tactic(auto)]
