//! The names that a function may bind without a declaration, in UTF-16 units.

/// `arguments` (ECMA-262, clause 10.2.11).
pub const ARGUMENTS: [u16; 9] = [97, 114, 103, 117, 109, 101, 110, 116, 115];

/// `.this`, under which a function finds `this`. No name of a source begins with a dot.
pub const THIS: [u16; 5] = [46, 116, 104, 105, 115];
