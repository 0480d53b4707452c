//! Instances of stencils.
ghost use Rattle.std.specs.Prelude.{◌≡◌, ℕ, List, IfOk};
ghost use Rattle.stencil_data.specs.MergedView.{MergedView};
ghost use Rattle.atom_table.specs.Views.{StillSees};
ghost use Rattle.stencil_instance.specs.Instances.{AreSeen, IsInstanceBy, StandFrom};

use atom_table::{Atom, AtomTable, Desk};
use std::alloc::{AllocError, Global};
use std::marker::Model;
use stencil_data::{Entry, FunctionStencil, LazyRecord, MergedStencil, Text};

/// A merged stencil with atoms in place of its texts: where a part has the number of a text, that is an index into `atoms`.
#[derive(Drop)]
pub struct Instance {
    pub atoms: Vec<Atom>,
    pub top: FunctionStencil,
    pub records: Vec<LazyRecord>,
    pub entries: Vec<Entry>,
}

impl Model for Instance {
    ghost use Rattle.stencil_instance.specs.Instances.{InstanceView};

    ghost Value = { InstanceView };

    ghost view = { λ instance. record {
      atoms = instance.atoms.items;
      top = instance.top;
      records = instance.records.items;
      entries =
          instance.entries.items;
    } };
}

/// The instance of a stencil whose texts stand in the table's list from a number on. It looks each text up once.
pub fn instantiate(
    alloc: Global,
    table: &AtomTable,
    desk: &mut Desk,
    base: u32,
    stencil: MergedStencil,
) -> Result<Instance, AllocError>
    requires belongs { desk.old.table ≡ table.now }
    requires texts { StandFrom table.now.list.texts base stencil.texts }
    ensures table { desk.new.table ≡ desk.old.table }
    ensures still { StillSees desk.old desk.new }
    ensures instance { IfOk result (λ instance. IsInstanceBy desk.new instance stencil) }
{
    let MergedStencil {
        texts,
        top,
        records,
        entries,
    } = stencil;
    let atoms = atoms_of(alloc, table, desk, base, &texts)?;
    Ok(Instance {
        atoms,
        top,
        records,
        entries,
    })
}

impl Instance {
    /// The stencil of which this is an instance, with a copy of each text.
    pub fn into_stencil(
        self,
        alloc: Global,
        table: &AtomTable,
        desk: &mut Desk,
    ) -> Result<MergedStencil, AllocError>
        requires belongs { desk.old.table ≡ table.now }
        requires instance { (given : MergedView) × IsInstanceBy desk.old self given }
        ensures table { desk.new.table ≡ desk.old.table }
        ensures still { StillSees desk.old desk.new }
        ensures stencil { IfOk result (λ stencil. (given : MergedView) → IsInstanceBy desk.old self given → stencil ≡ given) }
    {
        let texts = texts_of(alloc, table, desk, &self.atoms)?;
        desk.one_atom_each();
        let Instance {
            atoms: _,
            top,
            records,
            entries,
        } = self;
        Ok(MergedStencil {
            texts,
            top,
            records,
            entries,
        })
    }
}

/// The atoms of texts that stand in the table's list from a number on.
fn atoms_of(
    alloc: Global,
    table: &AtomTable,
    desk: &mut Desk,
    base: u32,
    texts: &[Text],
) -> Result<Vec<Atom>, AllocError>
    requires belongs { desk.old.table ≡ table.now }
    requires texts { StandFrom table.now.list.texts base texts.now }
    ensures table { desk.new.table ≡ desk.old.table }
    ensures still { StillSees desk.old desk.new }
    ensures seen { IfOk result (λ atoms. AreSeen desk.new atoms.items texts.now) }
{
    let _all = table.list().count();
    let mut atoms = Vec::new(alloc);
    for place in 0..texts.len() as u32 {
        atoms.push(table.intern(desk, base + place))?;
    }
    Ok(atoms)
}

/// Copies of the texts of these atoms.
fn texts_of(
    alloc: Global,
    table: &AtomTable,
    desk: &mut Desk,
    atoms: &[Atom],
) -> Result<Vec<Text>, AllocError>
    requires belongs { desk.old.table ≡ table.now }
    requires seen { (given : List (List ℕ)) × AreSeen desk.old atoms.now given }
    ensures table { desk.new.table ≡ desk.old.table }
    ensures still { StillSees desk.old desk.new }
    ensures texts { IfOk result (λ texts. AreSeen desk.new atoms.now texts.items) }
{
    let mut texts = Vec::new(alloc);
    for atom in atoms {
        let number = table.text_no(desk, *atom);
        texts.push(table.list().text(number).copy(alloc)?)?;
    }
    Ok(texts)
}
