//! Texts that are printed.

ghost use Rattle.std.specs.Prelude.{◌≡◌, ◌++◌};
ghost use Rattle.script_image.specs.Pieces.{from_script};

use script_image::Listing;
use std::marker::Model;
use stencil_data::MergedStencil;

/// A stencil whose listing is yet to be made.
#[derive(Drop)]
pub struct ListedScript {
    pub listing: Listing,
    pub stencil: MergedStencil,
}

/// A text that is printed: bytes, and after them the listing of a stencil, if there is one.
#[derive(Drop)]
pub struct OutputText {
    pub(crate) head: Vec<u8>,
    pub(crate) listed: Option<ListedScript>,
}

impl Model for OutputText {
    ghost use Rattle.std.specs.Prelude.{ℕ, List, ◌++◌};
    ghost use Rattle.session_output.specs.Texts.{listed_text};

    ghost Value = { List ℕ };

    ghost view = { λ text. text.head.items ++ listed_text text.listed };
}

impl OutputText {
    /// The text of these bytes.
    pub fn of_bytes(bytes: Vec<u8>) -> OutputText
        ensures { result ≡ bytes.items }
    {
        OutputText {
            head: bytes,
            listed: None,
        }
    }

    /// The text of these bytes and the listing of a stencil.
    pub fn of_listing(head: Vec<u8>, listing: Listing, stencil: MergedStencil) -> OutputText
        ensures { result ≡ head.items ++ from_script listing stencil 0 }
    {
        OutputText {
            head,
            listed: Some(ListedScript { listing, stencil }),
        }
    }
}
