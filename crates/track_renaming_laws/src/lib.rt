//! The early errors and the closed names of a script do not depend on how its names are written down: definitions and
//! proofs alone.
//!
//! It stands on parse_track, whose specs say what a script tells and which early errors and closed names follow, for
//! names of any type. A parser has a number for each text in place of a name; the laws here say that what follows for
//! the numbers is what follows for the texts.
#![tactic(auto)]
