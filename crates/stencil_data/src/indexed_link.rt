// A link with an index of its names, so that a name is found in it without a look at each. The index is an ordered tree and
// no hash table: no names can be chosen that make a look-up slower than the logarithm of their number.
ghost use Rattle.std.specs.Prelude.{◌≡◌, IfOk, option_copied};
ghost use Rattle.stencil_data.specs.FirstPlaces.{LeadsToFirst};
ghost use Rattle.stencil_data.specs.Resolve as defined;

use crate::chains::{Link, LinkName};
use crate::texts::Text;
use std::alloc::{AllocError, Global};
use std::collections::BTreeMap;
use std::marker::Model;

// A link of at most this many names has no index: its names are compared one by one.
const FEW_NAMES: usize = 8;

/// A link, and the place of the first binding of each of its names, where these are more than a few.
#[derive(Debug, Drop)]
pub struct IndexedLink {
    link: Link,
    places: Option<BTreeMap<Text, usize>>,
}

impl Model for IndexedLink {
    ghost use Rattle.std.specs.Prelude.{IfSome};
    ghost use Rattle.stencil_data.specs.LinkView.{LinkView};
    ghost use Rattle.stencil_data.specs.FirstPlaces.{LeadsToFirst};

    ghost Value = { LinkView };

    ghost view = { λ indexed. indexed.link };

    ghost invariant = { λ indexed. IfSome indexed.places (LeadsToFirst indexed.link.names) };
}

impl IndexedLink {
    /// The link with its index. It takes no memory where the names are few.
    pub fn new(alloc: Global, link: Link) -> Result<IndexedLink, AllocError>
        ensures { IfOk result (λ indexed. indexed ≡ link) }
    {
        if link.names.len() <= FEW_NAMES {
            return Ok(IndexedLink { link, places: None });
        }
        let places = first_places(alloc, &link.names)?;
        Ok(IndexedLink {
            link,
            places: Some(places),
        })
    }

    /// The link itself. It takes no memory.
    pub fn link(&self) -> &Link
        ensures { result.now ≡ self.now }
    {
        &self.link
    }

    /// The first binding of a name. It takes no memory.
    pub fn first_named(&self, name: &Text) -> Option<&LinkName>
        ensures { option_copied result ≡ defined.first_named name.now self.now.names }
    {
        match &self.places {
            None => first_of_few(name, &self.link.names),
            Some(places) => match places.get(name) {
                None => None,
                Some(place) => self.link.names.get(*place),
            },
        }
    }
}

fn first_of_few<'a>(name: &Text, names: &'a [LinkName]) -> Option<&'a LinkName>
    ensures { option_copied result ≡ defined.first_named name.now names.now }
{
    names.iter().find(|binding| binding.text == *name)
}

// The place of the first binding of each name. The names are put in from the last one on, so that of
// equal names the first stays.
fn first_places(alloc: Global, names: &[LinkName]) -> Result<BTreeMap<Text, usize>, AllocError>
    ensures { IfOk result (LeadsToFirst names.now) }
{
    let mut places = BTreeMap::new(alloc);
    let mut place = names.len();
    while place > 0 {
        place -= 1;
        let name = names[place].text.copy(alloc)?;
        places.insert(name, place)?;
    }
    Ok(places)
}
