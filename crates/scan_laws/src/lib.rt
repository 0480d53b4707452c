//! Laws of the lexical grammar: what holds of the tokens of every text. Lemmas alone.
//!
//! They stand on script_scanner, which says what the tokens of a text are. Their main laws:
//! - A part of a file that is scanned alone has the tokens that the whole file has there (`read_alone` of
//!   `proofs/ReadAlone.antt`): the tokens between the start of one token and the end of another are those of the file there, but
//!   that no line end stands before the first, and then End. It asks that the part closes the braces that it opens, and no other
//!   (`ClosesInside` of `specs/Inside.antt`): else a `}` may end a block here and go on with a template there. Tokens whose
//!   brackets match do so (`proofs/Balanced.antt`).
//! - No token that is a name is empty (`proofs/FullNames.antt`), and none is spelled as the name by which a use of `this` goes
//!   (`proofs/OtherNames.antt`).
//! - No text of a token is longer, in 16-bit units, than the file in bytes: a token's text has no more units than the code
//!   points it was scanned among (`proofs/Tokens.antt`), and these no more than the file has bytes (`proofs/Files.antt`). So a
//!   scan of a file of fewer than 2^32 bytes gains small texts alone (`proofs/Gained.antt`), one more small text keeps a list of
//!   small texts small (`proofs/Interned.antt`), and the texts that a scan begins with are small (`proofs/Words.antt`).
#![tactic(auto)]
