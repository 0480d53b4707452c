//! The log of a track read with texts in place of atoms, and what it becomes where more is told: definitions and proofs alone.
//!
//! It stands on parse_track, whose log keeps the regions of a script by number, with atoms for names, on script_grammar, whose
//! interpretations give an atom its text, and on track_renaming_laws. A walk over a kept tree states what it told by `logged`
//! (`specs/Spelled.antt`): the log after it is the log before, with what the tree tells put after what the present region has.
//! Who walked over a whole script so has from `proofs/Scripts.antt` that the track was told what the script tells, and how many
//! functions it has.
#![tactic(auto)]
