//! Numbers, put into the order that a command asks for.

ghost use Rattle.std.specs.Prelude.{◌≡◌, ℕ, OnOk};
ghost use Rattle.std.specs.Ordering.{nat_cmp};
ghost use Rattle.session_orders.specs.Orders.{AreInOrder};

use session_words::Order;
use std::alloc::AllocError;
use std::cmp::Ordering;

/// How large things are that have numbers.
pub trait Sizes {
    // the size of the thing of a number
    ghost size: { Self → ℕ → ℕ };

    /// The size of the thing of this number.
    fn size(&self, number: u32) -> usize
        ensures { result ≡ size self.now number };
}

/// Puts numbers that rise into this order: as they stand, backwards, or the numbers of larger things first, and those of things of one
/// size as they stood. Only memory can fail, and then they stand as they did.
pub fn put_in_order<S: Sizes>(
    numbers: &mut Vec<u32>,
    order: Order,
    sizes: &S,
) -> Result<(), AllocError>
    ensures { OnOk result (AreInOrder order (S.size sizes.now) numbers.old.items numbers.new.items) }
{
    match order {
        Order::First => Ok(()),
        Order::Large => larger_first(numbers, sizes),
        Order::Reverse => {
            numbers.reverse();
            Ok(())
        }
    }
}

/// Puts the numbers of larger things first.
fn larger_first<S: Sizes>(numbers: &mut Vec<u32>, sizes: &S) -> Result<(), AllocError>
    ensures { OnOk result (AreInOrder Order.Large (S.size sizes.now) numbers.old.items numbers.new.items) }
{
    numbers.sort_by(
        |one: &u32, other: &u32| -> Ordering
            ensures { result ≡ nat_cmp (S.size sizes.entry.now other.now) (S.size sizes.entry.now one.now) }
        { sizes.size(*other).cmp(&sizes.size(*one)) },
    )
}
