//! Interning by several threads, and counting what came of it.
ghost use Rattle.std.specs.Prelude.{◌≡◌, ◌<◌, ◌≤◌, length, IfOk};
ghost use Rattle.std.specs.Thread.{IsSync};

use atom_table::{Atom, AtomTable, Desk};
use std::alloc::{AllocError, Global};
use std::thread::{Threads, join};

/// Interns the numbers from `from` to before `to`, by 2 to the power `halvings` threads. The atoms come
/// in the order of the numbers.
#[cycle(halves)]
pub fn interned<R: Threads + Sync>(
    rt: &R,
    alloc: Global,
    table: &AtomTable,
    mut desk: Desk,
    from: u32,
    to: u32,
    halvings: u32,
) -> Result<(Desk, Vec<Atom>), AllocError>
    requires belongs { desk.table ≡ table.now }
    requires order { from ≤ to }
    requires range { to ≤ length table.now.list.texts }
    ensures { IfOk result (λ r. r.0.table ≡ table.now) }
{
    if halvings == 0 {
        return at_desk(alloc, table, desk, from, to);
    }
    let middle = from + (to - from) / 2;
    let fewer = halvings - 1;
    let other = table.split(&mut desk)?;
    let (front, back) = join(
        rt,
        move ||
            requires { IsSync R.row × (desk.table ≡ table.now) × (from ≤ middle) × (middle ≤ length table.now.list.texts) }
            ensures { IfOk result (λ r. r.0.table ≡ table.entry.now) }
        { interned(rt, alloc, table, desk, from, middle, fewer) },
        move ||
            requires { IsSync R.row × (other.table ≡ table.now) × (middle ≤ to) × (to ≤ length table.now.list.texts) }
            ensures { IfOk result (λ r. r.0.table ≡ table.entry.now) }
        { interned(rt, alloc, table, other, middle, to, fewer) },
    );
    let (one, mut atoms) = front?;
    let (two, more) = back?;
    atoms.extend_from_slice(more.as_slice())?;
    Ok((table.meet(one, two), atoms))
}

// Interns the numbers from `from` to before `to` at one desk.
fn at_desk(
    alloc: Global,
    table: &AtomTable,
    mut desk: Desk,
    from: u32,
    to: u32,
) -> Result<(Desk, Vec<Atom>), AllocError>
    requires belongs { desk.table ≡ table.now }
    requires range { to ≤ length table.now.list.texts }
    ensures { IfOk result (λ r. r.0.table ≡ table.now) }
{
    let mut atoms = Vec::new(alloc);
    for number in from..to {
        atoms.push(table.intern(&mut desk, number))?;
    }
    Ok((desk, atoms))
}

/// How many different atoms there are, and how many places were looked at to find a place for each.
#[derive(Debug, Clone, Copy)]
pub struct Tally {
    pub atoms: u64,
    pub probes: u64,
}

/// Counts the atoms, which are those of the first numbers of the table.
pub fn counted(alloc: Global, table: &AtomTable, atoms: &[Atom]) -> Result<Tally, AllocError> {
    let list = table.list();
    let places = 3 * list.count() as usize + 1;
    let mut found = vec![in alloc; false; places]?;
    let mut tally = Tally {
        atoms: 0,
        probes: 0,
    };
    for (number, atom) in atoms.iter().enumerate() {
        let place = atom.place as usize;
        if number < list.count() as usize && place < places && !found[place] {
            found[place] = true;
            let home = list.home(list.text(number as u32));
            tally.atoms = tally.atoms.saturating_add(1);
            tally.probes = tally
                .probes
                .saturating_add(u64::from(atom.place.saturating_sub(home)) + 1);
        }
    }
    Ok(tally)
}
