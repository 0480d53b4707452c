//! The table, the desks at which threads work on it, and atoms.
ghost use Rattle.std.specs.Prelude.{◌≡◌, ℕ, ◌<◌, ◌≤◌, [], ◌∷◌, length, replicate, slice_index_or, IfOk};
ghost use Rattle.atom_table.specs.Views.{SeesText, SeesAtom, StillSees, OneAtomEach};
ghost use Rattle.atom_table.specs.Words.{places, home_of, Has, Passed, Coherent, gained};

use crate::rule::{Alike, Claim, Look, OneWordEach, Seen, Together};
use crate::text_list::TextList;
use atomic_table::{Seat, Table};
use std::alloc::{AllocError, Global};
use std::marker::Model;

/// What the table has for a text: the place of its word.
#[derive(Debug, Clone, Copy, PartialEq, Eq)]
pub struct Atom {
    pub place: u32,
}

/// A table of atoms over a list of texts.
#[derive(Drop)]
pub struct AtomTable {
    list: TextList,
    table: Table<(), Seen, TextList, OneWordEach, Global>,
}

impl Model for AtomTable {
    ghost use Rattle.std.specs.Prelude.{◌≡◌};
    ghost use Rattle.atom_table.specs.DeskView.{TableName};

    ghost Value = { TableName };

    ghost use Rattle.atom_table.specs.Words.{places};

    ghost view = { λ t. record { id = t.table.shared.table_id; list = t.list } };

    ghost invariant = { λ t. (t.table.shared.key ≡ t.list) × (t.table.shared.table_id.words ≡ places t.list) × (t.table.shared.table_id.slots ≡ 0) };
}

/// A worker's place at the table: what it has seen there. It has no bytes.
#[derive(Drop)]
pub struct Desk {
    seat: Seat<(), Seen>,
}

impl Model for Desk {
    ghost use Rattle.std.specs.Prelude.{◌≡◌, []};
    ghost use Rattle.atom_table.specs.DeskView.{TableName, DeskView};

    ghost Value = { DeskView };

    ghost use Rattle.atom_table.specs.Words.{Coherent};

    ghost view = { λ d. record { table = record { id = d.seat.table_id; list = d.seat.me.0.list }; seen = d.seat.me.0.words } };

    ghost invariant = { λ d. (d.seat.me.1 ≡ []) × Coherent d.seat.me.0.list d.seat.me.0.words };
}

impl AtomTable {
    /// A table over this list, and a desk that has seen no atom.
    pub fn new(alloc: Global, list: TextList) -> Result<(AtomTable, Desk), AllocError>
        ensures table { IfOk result (λ made. made.0.list ≡ list) }
        ensures desk { IfOk result (λ made. (made.1.table ≡ made.0) × (made.1.seen ≡ [])) }
    {
        let words = no_words(alloc, &list)?;
        let (table, seat) = Table::<(), Seen, TextList, OneWordEach, Global>::of_words(
            alloc,
            words.as_slice(),
            &list,
        )?;
        Ok((AtomTable { list, table }, Desk { seat }))
    }

    /// The texts that the table is over.
    pub fn list(&self) -> &TextList
        ensures { result.now ≡ self.now.list }
    {
        &self.list
    }

    /// A second desk, which has seen the same as this one.
    pub fn split(&self, desk: &mut Desk) -> Result<Desk, AllocError>
        requires { desk.old.table ≡ self.now }
        ensures desk { desk.new ≡ desk.old }
        ensures new { IfOk result (λ second. second ≡ desk.old) }
    {
        let seat = self.table.shared.split_seat::<Alike>(&mut desk.seat);
        Ok(Desk { seat })
    }

    /// The atom of the text of this number. Equal texts give one atom and unequal texts unequal ones, for
    /// this desk and for every desk that it meets.
    pub fn intern(&self, desk: &mut Desk, number: u32) -> Atom
        requires belongs { desk.old.table ≡ self.now }
        requires number { number < length self.now.list.texts }
        ensures table { desk.new.table ≡ desk.old.table }
        ensures seen { SeesText desk.new result (slice_index_or self.now.list.texts number []) }
        ensures still { StillSees desk.old desk.new }
        ensures one { OneAtomEach desk.new }
    {
        let text = self.list.text(number);
        let home = self.list.home(text);
        for place in home..home + self.list.count() + 1 {
            let word = self.settle(desk, place, number);
            if self.list.named(word) == text {
                return Atom { place };
            }
        }
        desk.coherent();
        unreachable!()
    }

    /// A number whose text is this atom's.
    pub fn text_no(&self, desk: &mut Desk, atom: Atom) -> u32
        requires belongs { desk.old.table ≡ self.now }
        requires seen { SeesAtom desk.old atom }
        ensures table { desk.new.table ≡ desk.old.table }
        ensures number { result < length self.now.list.texts }
        ensures text { SeesText desk.old atom (slice_index_or self.now.list.texts result []) }
        ensures still { StillSees desk.old desk.new }
        ensures one { OneAtomEach desk.new }
    {
        desk.coherent();
        let word = self.look(desk, atom.place);
        self.list.number(word)
    }

    /// A desk that has seen what both had.
    pub fn meet(&self, one: Desk, two: Desk) -> Desk
        requires one { one.table ≡ self.now }
        requires two { two.table ≡ self.now }
        ensures table { result.table ≡ self.now }
        ensures still_one { StillSees one result }
        ensures still_two { StillSees two result }
        ensures one { OneAtomEach result }
    {
        let mut seat = one.seat;
        self.table.shared.join_seat::<Together>(&mut seat, two.seat);
        let _first = self.table.shared.load::<Look>(&mut seat, 0);
        Desk { seat }
    }

    // The word at this place, which the desk has then seen, if it is not 0.
    fn look(&self, desk: &mut Desk, place: u32) -> u64
        requires belongs { desk.old.table ≡ self.now }
        requires place { place < places self.now.list }
        ensures table { desk.new.table ≡ desk.old.table }
        ensures seen { desk.new.seen ≡ gained place result desk.old.seen }
        ensures coherent { Coherent desk.new.table.list desk.new.seen }
        ensures known { (word : ℕ) → Has desk.old.seen (place, word) → result ≡ word }
    {
        self.table
            .shared
            .load::<Look>(&mut desk.seat, place as usize)
    }

    // The word that stands at this place after one exchange of 0 for this number's word.
    fn claim(&self, desk: &mut Desk, place: u32, number: u32) -> u64
        requires belongs { desk.old.table ≡ self.now }
        requires number { number < length self.now.list.texts }
        requires place { place < places self.now.list }
        requires home { home_of self.now.list (slice_index_or self.now.list.texts number []) ≤ place }
        requires passed { Passed desk.old.seen self.now.list (slice_index_or self.now.list.texts number []) place }
        ensures table { desk.new.table ≡ desk.old.table }
        ensures seen { desk.new.seen ≡ (place, result) ∷ desk.old.seen }
        ensures coherent { Coherent desk.new.table.list desk.new.seen }
    {
        let word = number as u64 + 1;
        let found = self
            .table
            .shared
            .compare_exchange::<Claim>(&mut desk.seat, place as usize, 0, word);
        if found == 0 { word } else { found }
    }

    // The word at this place, which is this number's if there was none.
    fn settle(&self, desk: &mut Desk, place: u32, number: u32) -> u64
        requires belongs { desk.old.table ≡ self.now }
        requires number { number < length self.now.list.texts }
        requires place { place < places self.now.list }
        requires home { home_of self.now.list (slice_index_or self.now.list.texts number []) ≤ place }
        requires passed { Passed desk.old.seen self.now.list (slice_index_or self.now.list.texts number []) place }
        ensures table { desk.new.table ≡ desk.old.table }
        ensures seen { desk.new.seen ≡ (place, result) ∷ desk.old.seen }
        ensures coherent { Coherent desk.new.table.list desk.new.seen }
    {
        let found = self.look(desk, place);
        if found != 0 {
            return found;
        }
        self.claim(desk, place, number)
    }
}

impl Desk {
    /// Of the atoms that the desk has seen, two are equal exactly where their texts are. It does nothing.
    pub fn one_atom_each(&self)
        ensures { OneAtomEach self.now }
    {
        self.coherent();
    }

    // What the desk has seen is coherent.
    fn coherent(&self)
        ensures { Coherent self.now.table.list self.now.seen }
    {
        let _seat = &self.seat;
    }
}

// A word for each place, all 0.
fn no_words(alloc: Global, list: &TextList) -> Result<Vec<u64>, AllocError>
    ensures { IfOk result (λ words. words.items ≡ replicate (places list.now) 0) }
{
    vec![in alloc; 0; 3 * list.count() as usize + 1]
}
