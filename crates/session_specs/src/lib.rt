//! What the program answers to each command: definitions alone.
//!
//! They stand above all others: words (session_words), text and tokens (unit_text, script_scanner), the grammar
//! (script_grammar), early errors (parse_track), whole scripts and what is shown of them (compile_specs), listings
//! (script_image) and images (session_image_specs). `specs/Sources.antt` says what a file of source text is,
//! `specs/Answer.antt` what is written for all files of a command, and whether one is refused, and `specs/Compiled.antt` how many
//! functions are shown compiled in that.
#![tactic(auto)]
