//! One desk, and two desks in threads of their own.
ghost use Rattle.std.specs.Prelude.{◌≡◌, ◌<◌, [], length, slice_index_or, IfOk};
ghost use Rattle.atom_table.specs.Views.{SeesText, SeesAtom};

use atom_table::{Atom, AtomTable, Desk, TextList};
use std::alloc::{AllocError, Global};
use std::hash::RandomState;
use std::test::Fail;
use std::thread::{Threads, join};
use stencil_data::Text;

// The texts `x`, `y`, `x` and the empty one.
fn four_texts(alloc: Global, keys: RandomState) -> Result<TextList, AllocError>
    ensures { IfOk result (λ list. length list.texts ≡ 4) }
{
    let mut texts = Vec::new(alloc);
    texts.push(Text::of(alloc, &[120])?)?;
    texts.push(Text::of(alloc, &[121])?)?;
    texts.push(Text::of(alloc, &[120])?)?;
    texts.push(Text::empty(alloc))?;
    Ok(TextList::new(keys, texts))
}

#[test]
fn equal_texts_have_one_atom_which_gives_the_text(rt: HostRuntime) -> Result<(), Fail> {
    let list = four_texts(rt.alloc(), RandomState::new(&rt)?)?;
    let (table, mut desk) = AtomTable::new(rt.alloc(), list)?;
    let x = table.intern(&mut desk, 0);
    let again = table.intern(&mut desk, 2);
    let empty = table.intern(&mut desk, 3);
    let y = table.intern(&mut desk, 1);
    let number = table.text_no(&mut desk, y);
    assert!(rt; x == again && x != y && x != empty && y != empty);
    assert!(rt; number == 1 && table.list().text(number).units() == [121].as_slice());
    Ok(())
}

// Interns one number at a desk.
fn at_desk(table: &AtomTable, mut desk: Desk, number: u32) -> (Desk, Atom)
    requires belongs { desk.table ≡ table.now }
    requires number { number < length table.now.list.texts }
    ensures table { result.0.table ≡ table.now }
    ensures seen { SeesText result.0 result.1 (slice_index_or table.now.list.texts number []) }
{
    let atom = table.intern(&mut desk, number);
    (desk, atom)
}

// Interns two numbers, each in a thread of its own, and lets the desks meet.
fn in_two_threads<R: Threads + Sync>(
    rt: &R,
    table: &AtomTable,
    mut desk: Desk,
    first: u32,
    second: u32,
) -> Result<(Desk, Atom, Atom), AllocError>
    requires belongs { desk.table ≡ table.now }
    requires first { first < length table.now.list.texts }
    requires second { second < length table.now.list.texts }
    ensures table { IfOk result (λ met. met.0.table ≡ table.now) }
    ensures first { IfOk result (λ met. SeesAtom met.0 met.1) }
{
    let other = table.split(&mut desk)?;
    let ((one, x), (two, y)) = join(
        rt,
        move ||
            requires { (desk.table ≡ table.now) × (first < length table.now.list.texts) }
            ensures { (result.0.table ≡ table.entry.now) × SeesText result.0 result.1 (slice_index_or table.entry.now.list.texts first []) }
        { at_desk(table, desk, first) },
        move ||
            requires { (other.table ≡ table.now) × (second < length table.now.list.texts) }
            ensures { (result.0.table ≡ table.entry.now) × SeesText result.0 result.1 (slice_index_or table.entry.now.list.texts second []) }
        { at_desk(table, other, second) },
    );
    Ok((table.meet(one, two), x, y))
}

#[test]
fn two_threads_agree_on_an_atom(rt: HostRuntime) -> Result<(), Fail> {
    let list = four_texts(rt.alloc(), RandomState::new(&rt)?)?;
    let (table, desk) = AtomTable::new(rt.alloc(), list)?;
    let (mut desk, x, again) = in_two_threads(&rt, &table, desk, 0, 2)?;
    assert!(rt; x == again);
    let number = table.text_no(&mut desk, x);
    assert!(rt; number == 0 || number == 2);
    Ok(())
}
