//! Why no stencil was read.

ghost use Rattle.std.specs.Prelude.{◌≡◌};
ghost use Rattle.stencil_xdr_read.specs.declared.fault.ImageFault.TheVariants.{NoMemory as OutOfMemory};

use std::alloc::{AllocError, AllocFailed};

/// Why no stencil was read.
#[derive(Clone, Copy, Debug, PartialEq, Eq)]
pub enum ImageFault {
    /// The bytes are the image of no stencil in range.
    NoImage,
    /// Memory ran out.
    NoMemory,
}

impl From<AllocError> for ImageFault {
    ghost from_gives = { λ _ e. e ≡ OutOfMemory };

    fn from(_fault: AllocError) -> ImageFault {
        ImageFault::NoMemory
    }
}

impl<T: Drop> From<AllocFailed<T>> for ImageFault {
    ghost from_gives = { λ _ e. e ≡ OutOfMemory };

    fn from(_fault: AllocFailed<T>) -> ImageFault {
        ImageFault::NoMemory
    }
}
