//! A result that is being read.

ghost use Rattle.std.specs.Prelude.{◌≡◌, Some, IfSome};
ghost use Rattle.std.specs.Arc.{arc_value};
ghost use Rattle.lazy_compile.specs.declared.Delazified.{Delazified};
ghost use Rattle.relazy_board.specs.Held.{read_by, held_by};
ghost use Rattle.relazy_board.specs.Results.{IsResultOf};

use crate::place::Kept;
use counted_slot::Claim;
use lazy_compile::Delazified;
use std::alloc::Global;
use std::marker::Model;
use std::snapshot::Snapshot;
use std::sync::Arc;

/// Who holds the result: its slot, of which this is a reader, or this alone.
pub(crate) enum Held<'b, 'a> {
    Slot(Claim<'b, Option<Kept<'a>>>),
    Own(Arc<Delazified, Global>),
}

/// A result that is being read. In a clause it is that result. It has to be given back by
/// [`RelazyBoard::release`](crate::RelazyBoard::release).
pub struct Reading<'b, 'a> {
    held: Held<'b, 'a>,
    made: Snapshot<Delazified>,
}

impl<'b, 'a> Model for Reading<'b, 'a> {
    ghost use Rattle.std.specs.Prelude.{◌≡◌, Some};
    ghost use Rattle.lazy_compile.specs.declared.Delazified.{Delazified};
    ghost use Rattle.relazy_board.specs.Held.{held_by};

    ghost Value = { Delazified };

    ghost view = { λ r. r.made.value };

    ghost invariant = { λ r. held_by r.held ≡ Some r.made.value };
}

/// The result in the slot that is read by this claim.
fn read<'b>(claim: &'b Claim<'_, Option<Kept<'_>>>) -> &'b Delazified
    requires { (made : Delazified) × (read_by claim.now.right claim.now.value ≡ Some made) }
    ensures read { read_by claim.now.right claim.now.value ≡ Some result.now }
    ensures result { IsResultOf claim.now.tag result.now }
{
    match claim.get() {
        Some(kept) => &kept.made,
        None => unreachable!(),
    }
}

impl<'b, 'a> Reading<'b, 'a> {
    /// Reads what is in the slot on which this claim was gained, if anything is.
    pub(crate) fn of_slot(claim: Claim<'b, Option<Kept<'a>>>) -> Option<Reading<'b, 'a>>
        requires { claim.right ≡ 1 }
        ensures { IfSome result (IsResultOf claim.entry.tag) }
    {
        if claim.get().is_none() {
            claim.leave();
            return None;
        }
        let made = Snapshot::of(read(&claim));
        Some(Reading {
            held: Held::Slot(claim),
            made,
        })
    }

    /// Reads a result that may be in no slot.
    pub(crate) fn of_own(own: Arc<Delazified, Global>) -> Reading<'b, 'a>
        ensures { result ≡ arc_value own }
    {
        let made = Snapshot::of(&*own);
        Reading {
            held: Held::Own(own),
            made,
        }
    }

    pub(crate) fn value(&self) -> &Delazified
        ensures { result.now ≡ self.now }
    {
        match &self.held {
            Held::Slot(claim) => read(claim),
            Held::Own(own) => own,
        }
    }

    pub(crate) fn end(self) {
        let Self { held, made: _ } = self;
        match held {
            Held::Slot(claim) => {
                claim.leave();
            }
            Held::Own(own) => drop(own),
        }
    }
}
