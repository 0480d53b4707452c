//! The parser looks at no token after those that it reads and the next one, and it answers the same on bodies that are
//! deferred: lemmas alone.
//!
//! It stands on grammar_sound_laws. `proofs/LocalEverything.antt` says that what follows the next token changes nothing;
//! `proofs/AgreesScripts.antt` and `proofs/PassingLaws.antt` that a parser which defers function bodies reads the same text.
#![tactic(auto)]
