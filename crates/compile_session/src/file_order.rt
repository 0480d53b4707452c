//! In which order the files of a command are handed to workers.

ghost use Rattle.std.specs.Prelude.{IfOk};
ghost use Rattle.helper_tasks.specs.Jobs.{IsOrderOf};
ghost use Rattle.compile_session.specs.Orders.{AreBegunIn};

use session_orders::{Sizes, put_in_order};
use session_requests::rising;
use session_words::Order;
use std::alloc::{AllocError, Global};

/// The files of a command, each as large as the bytes that were read of it.
#[derive(Clone, Copy)]
struct FileSizes<'a> {
    reads: &'a [Option<Vec<u8>>],
}

impl Sizes for FileSizes<'_> {
    ghost use Rattle.compile_session.specs.Orders.{size_in};

    ghost size = { λ files number. size_in files.reads.now number };

    fn size(&self, number: u32) -> usize {
        match self.reads.get(number as usize) {
            Some(Some(bytes)) => bytes.len(),
            Some(None) => 0,
            None => 0,
        }
    }
}

/// The numbers of the first `count` files that were read, each once: by rising number, by falling number, or the larger files
/// first and those of one size by rising number.
pub(crate) fn file_order(
    alloc: Global,
    order: Order,
    reads: &[Option<Vec<u8>>],
    count: u32,
) -> Result<Vec<u32>, AllocError>
    ensures order { IfOk result (λ numbers. IsOrderOf count numbers.items) }
    ensures begun { IfOk result (λ numbers. AreBegunIn order reads.now count numbers.items) }
{
    let mut numbers = rising(alloc, count)?;
    put_in_order(&mut numbers, order, &FileSizes { reads })?;
    Ok(numbers)
}
