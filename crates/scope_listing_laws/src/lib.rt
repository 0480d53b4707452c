//! The functions that a parser's handler finds are those that the scopes know: definitions and lemmas alone.
//!
//! Two crates list the functions directly in a part of a script. parse_handlers lists what its handler `Syntax` finds while a
//! script is read: extent, kind and name of each, and in it the functions outside its body in braces, since such a body is
//! read later. scope_analysis lists the trees, each with the scopes around it. The law here says that both lists are of the
//! same functions, in the same order (`proofs/Laws.antt`), and that the braced bodies of a part, which come in the order of
//! the source, are those of these functions. So who has the nodes of `Syntax`, of a script and of its bodies, has the
//! functions of the script.
#![tactic(auto)]
