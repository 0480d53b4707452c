//! What the parser answers for a whole script, in the words of the grammar: lemmas alone.
//!
//! It stands on the laws that the parser is sound (grammar_sound_laws), complete (grammar_complete_laws) and local
//! (grammar_local_laws). `proofs/ScriptLaws.antt` says that tokens are a script exactly where the parser reads one, and that a
//! script has one tree; `proofs/FirstFaults.antt` which fault is the first; `proofs/Totals.antt` that there is always an answer.
#![tactic(auto)]
