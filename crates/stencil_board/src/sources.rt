//! Which files there are.

use std::marker::Brand;

/// Which files there are. The call that begins the work picks them.
pub trait Sources {
    ghost use Rattle.std.specs.Prelude.{List};
    ghost use Rattle.stencil_board.specs.Files.{File};

    ghost files: { List File };
}

impl Sources for Brand {
    ghost use Rattle.std.specs.Prelude.{[]};

    ghost files = { [] };
}
