//! Bodies of functions that are deferred and read later, and functions that are read alone: lemmas alone.
//!
//! It stands on grammar_script_laws and the crates below it. `proofs/PassedBodies.antt` and `proofs/PassedFunctions.antt` say
//! what a body or a function is that was deferred, `proofs/FunctionAlone.antt` and `proofs/AloneLaws.antt` what it is to read
//! one by itself, and `proofs/Rows.antt` and the files that cite it compute worked rows on the definitions.
#![tactic(auto)]
