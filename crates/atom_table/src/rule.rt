//! What a seat at the table knows, the rule over words and seats, and what each step tells.
use crate::text_list::TextList;
use atomic_table::{Join, Play, Split, TableRule};
use std::collections::LinkedList;

/// The texts of the table, and the words that were seen, each with its place. No value of it is made.
pub struct Seen {
    pub list: TextList,
    pub words: LinkedList<(u64, u64)>,
}

pub(crate) struct OneWordEach;

impl TableRule<(), Seen, TextList> for OneWordEach {
    ghost use Rattle.std.specs.Prelude.{[]};
    ghost use Rattle.atom_table.specs.Rule.{holds, seen};

    ghost holds = { holds };

    ghost first = { λ list. seen list [] };
}

pub(crate) struct Look;

impl Play<(), Seen> for Look {
    ghost use Rattle.atom_table.specs.Rule.{looked};

    ghost then = { looked };
}

pub(crate) struct Claim;

impl Play<(), Seen> for Claim {
    ghost use Rattle.atom_table.specs.Rule.{claimed};

    ghost then = { claimed };
}

/// Two seats that have both seen the same.
pub(crate) struct Alike;

impl Split<Seen> for Alike {
    ghost left = { λ view. view };

    ghost right = { λ view. view };
}

/// One seat that has seen what both had.
pub(crate) struct Together;

impl Join<Seen> for Together {
    ghost use Rattle.atom_table.specs.Rule.{spent, together};

    ghost both = { together };

    ghost spent = { spent };
}
