//! Two stencils with a text in common, each made an instance of on a thread of its own.
ghost use Rattle.std.specs.Prelude.{◌≡◌, IfOk};
ghost use Rattle.stencil_data.specs.MergedView.{MergedView};
ghost use Rattle.stencil_instance.specs.Instances.{IsInstanceBy, StandFrom};

use atom_table::{AtomTable, Desk};
use std::alloc::{AllocError, Global};
use std::hash::RandomState;
use std::test::Fail;
use std::thread::{Threads, join};
use stencil_data::{Extent, FuncKind, FunctionStencil, MergedStencil, Text};
use stencil_instance::{Gathered, Instance, instantiate};

/// A stencil with no code that has these texts.
fn stencil_of(alloc: Global, texts: &[&[u16]]) -> Result<MergedStencil, AllocError> {
    let mut copies = Vec::new(alloc);
    for text in texts {
        copies.push(Text::of(alloc, text)?)?;
    }
    let top = FunctionStencil {
        extent: Extent { start: 0, end: 0 },
        kind: FuncKind::Declared,
        name: None,
        params: 0,
        scopes: Vec::new(alloc),
        code: Vec::new(alloc),
        notes: Vec::new(alloc),
        inner: Vec::new(alloc),
    };
    Ok(MergedStencil {
        texts: copies,
        top,
        records: Vec::new(alloc),
        entries: Vec::new(alloc),
    })
}

/// An instance of a stencil, made at one desk.
fn at_desk(
    alloc: Global,
    table: &AtomTable,
    mut desk: Desk,
    base: u32,
    stencil: MergedStencil,
) -> Result<(Desk, Instance), AllocError>
    requires belongs { desk.table ≡ table.now }
    requires texts { StandFrom table.now.list.texts base stencil.texts }
    ensures table { IfOk result (λ made. made.0.table ≡ table.now) }
    ensures instance { IfOk result (λ made. (given : MergedView) × IsInstanceBy made.0 made.1 given) }
{
    let instance = instantiate(alloc, table, &mut desk, base, stencil)?;
    Ok((desk, instance))
}

/// Instances of two stencils, each made on a thread of its own, and the stencil that is had back from the first.
fn in_two_threads<R: Threads + Sync>(
    rt: &R,
    alloc: Global,
    keys: RandomState,
    one: MergedStencil,
    two: MergedStencil,
) -> Result<(MergedStencil, bool, bool), Fail> {
    let mut gathered = Gathered::new(alloc);
    let first = gathered.add(alloc, &one.texts)?;
    let second = gathered.add(alloc, &two.texts)?;
    let (table, mut desk) = AtomTable::new(alloc, gathered.into_list(keys))?;
    let other = table.split(&mut desk)?;
    let shared = &table;
    let (left, right) = join(
        rt,
        move || -> Result<(Desk, Instance), AllocError>
            requires { (desk.table ≡ shared.now) × StandFrom shared.now.list.texts first one.texts }
            ensures { IfOk result (λ made. (made.0.table ≡ shared.entry.now) × ((given : MergedView) × IsInstanceBy made.0 made.1 given)) }
        { at_desk(alloc, shared, desk, first, one) },
        move || -> Result<(Desk, Instance), AllocError>
            requires { (other.table ≡ shared.now) × StandFrom shared.now.list.texts second two.texts }
            ensures { IfOk result (λ made. (made.0.table ≡ shared.entry.now) × ((given : MergedView) × IsInstanceBy made.0 made.1 given)) }
        { at_desk(alloc, shared, other, second, two) },
    );
    let (mut desk, one) = left?;
    let (_, two) = right?;
    let alike = one.atoms.get(1) == two.atoms.get(0);
    let apart = one.atoms.get(0) == two.atoms.get(1);
    let back = one.into_stencil(alloc, &table, &mut desk)?;
    Ok((back, alike, apart))
}

#[test]
fn equal_texts_of_two_stencils_have_one_atom(rt: HostRuntime) -> Result<(), Fail> {
    let alloc = rt.alloc();
    let one = stencil_of(alloc, &[&[97, 114, 101, 97], &[120]])?;
    let two = stencil_of(alloc, &[&[120], &[121]])?;
    let (back, alike, apart) = in_two_threads(&rt, alloc, RandomState::new(&rt)?, one, two)?;
    assert!(rt; alike);
    assert!(rt; !apart);
    assert_eq!(rt; back.texts.len(), 2);
    assert!(rt; back.texts[0].units() == [97, 114, 101, 97].as_slice());
    assert!(rt; back.texts[1].units() == [120].as_slice());
    Ok(())
}
