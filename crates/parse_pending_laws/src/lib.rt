//! The bodies that a parser of scripts defers: where they stand and whose they are. Lemmas alone.
//!
//! It stands on grammar_parser_specs, whose parser passes over the braced bodies of a script's functions and records them, to be
//! read later, and on script_grammar, whose trees it speaks of. Each recorded body begins where the parser began to read or after
//! that, and before where it stopped, and each begins after the one that was recorded before it: so each is recorded once, in the
//! order of the source, whatever the text. The recorded bodies, read one by one, are those of the functions of the script's tree.
#![tactic(auto)]
