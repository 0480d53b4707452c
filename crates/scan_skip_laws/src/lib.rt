//! A text in which some parts between braces are blank has the tokens of the text without those parts: definitions and lemmas
//! alone.
//!
//! They stand on script_scanner, which says what the tokens of a text are, and on scan_laws. Their main law, `blanked_reads`
//! (`proofs/Blanking.antt`): points with a space in place of what stands between a `{` and the `}` that closes it, for as many braces as
//! one likes, are scanned to the tokens of the points but for those that stood there (`specs/Spans.antt`). It stands on a second
//! one: what stands after a `{` does not matter to the tokens in front of it (`walk` of `proofs/Readings.antt`). So a
//! reader of a function can leave out the text of bodies inside it.
#![tactic(auto)]
