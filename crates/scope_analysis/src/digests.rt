//! Digests of texts.

ghost use Rattle.std.specs.Prelude.{◌≡◌};
ghost use Rattle.parser_atoms.specs.Digest.{digest_of};

use parser_atoms::{EMPTY_DIGEST, digest_with};

/// The digest of a text.
pub(crate) fn digest(units: &[u16]) -> u64
    ensures { result ≡ digest_of units.now }
{
    let mut digest = EMPTY_DIGEST;
    for unit in units {
        digest = digest_with(digest, u32::from(*unit));
    }
    digest
}
