//! The texts that a table of atoms is over.
ghost use Rattle.std.specs.Prelude.{◌≡◌, ◌+◌, ◌^◌, ◌<◌, ◌≤◌, [], length, slice_index_or};
ghost use Rattle.atom_table.specs.Words.{named, home_of, hash_of};

use std::hash::{BuildHasher, RandomState};
use std::marker::Model;
use stencil_data::Text;

/// Texts, numbered from 0; equal ones may stand in it more than once. The keys say how they are hashed.
#[derive(Debug, Drop)]
pub struct TextList {
    keys: RandomState,
    texts: Vec<Text>,
}

impl Model for TextList {
    ghost use Rattle.std.specs.Prelude.{◌^◌, ◌<◌, length};
    ghost use Rattle.atom_table.specs.ListView.{ListView};

    ghost Value = { ListView };

    ghost view = { λ list. record { keys = list.keys; texts = list.texts.items } };

    ghost invariant = { λ list. length list.texts.items < 2 ^ 28 };
}

impl TextList {
    /// The list of these texts, in their order, hashed by these keys. Where who writes the texts knows the keys, texts can be chosen
    /// that are found slowly: so `RandomState::new` makes them. It takes no memory.
    pub fn new(keys: RandomState, texts: Vec<Text>) -> TextList
        requires { length texts.items < 2 ^ 28 }
        ensures keys { result.keys ≡ keys }
        ensures texts { result.texts ≡ texts.items }
    {
        TextList { keys, texts }
    }

    /// The text of this number.
    pub fn text(&self, number: u32) -> &Text
        requires { number < length self.now.texts }
        ensures { result.now ≡ slice_index_or self.now.texts number [] }
    {
        &self.texts[number as usize]
    }

    /// How many texts there are, equal ones counted each.
    pub fn count(&self) -> u32
        ensures count { result ≡ length self.now.texts }
        ensures few { result < 2 ^ 28 }
    {
        self.texts.len() as u32
    }

    // The text that a word names.
    pub(crate) fn named(&self, word: u64) -> &Text
        requires some { 0 < word }
        requires range { word ≤ length self.now.texts }
        ensures { result.now ≡ named self.now word }
    {
        &self.texts[(word - 1) as usize]
    }

    // The number of the text that a word names.
    pub(crate) fn number(&self, word: u64) -> u32
        requires some { 0 < word }
        requires range { word ≤ length self.now.texts }
        ensures { result + 1 ≡ word }
    {
        let _texts = &self.texts;
        (word - 1) as u32
    }

    /// The place where the search for this text begins: its hash, by as many homes as twice the texts
    /// and one.
    pub fn home(&self, text: &Text) -> u32
        ensures { result ≡ home_of self.now text.now }
    {
        let homes = 2 * u64::from(self.count()) + 1;
        (self.hash(text) % homes) as u32
    }

    // The hash of a text by the keys of the list.
    fn hash(&self, text: &Text) -> u64
        ensures { result ≡ hash_of self.now.keys text.now }
    {
        self.keys.hash_one(text)
    }
}
