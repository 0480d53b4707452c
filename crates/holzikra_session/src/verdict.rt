//! Verdicts on texts and images, what compiling texts comes to, and who does it.

ghost use Rattle.std.specs.Prelude.{◌≡◌, ℕ, List, IfOk};
ghost use Rattle.stencil_data.specs.Named.{NamedMerged};
ghost use Rattle.bytecode_buf.specs.Command.{Command};
ghost use Rattle.session_words.specs.Asked.{Wanted};
ghost use Rattle.holzikra_session.specs.Answers.{spot_of, word_of};
ghost use Rattle.holzikra_session.specs.Compiling.{IsCompiledBy};
ghost use Rattle.holzikra_session.specs.Images.{IsSavedBy};
ghost use Rattle.holzikra_session.specs.declared.verdict.Verdict.{Verdict};
ghost use Rattle.holzikra_session.specs.declared.verdict.Verified.{Verified};

use holzikra_places::Place;
use holzikra_refusals::{Code, Rule};
use holzikra_scripts::Choice;
use holzikra_words::FunctionWord;
use std::alloc::{AllocError, Global};
use stencil_data::MergedStencil;

/// A place in a text.
#[derive(Debug, Clone, Copy, PartialEq, Eq)]
pub struct Spot {
    /// In bytes from 0.
    pub offset: usize,
    pub place: Place,
}

/// Why a text is refused.
#[derive(Debug, Clone, Copy, PartialEq, Eq)]
pub enum Reason {
    /// It has too many bytes.
    TooLong,
    /// It is not UTF-8.
    BadUtf8(Spot),
    /// No script goes on with the token there.
    Unexpected(Spot),
    /// The token there is nested too deep.
    TooDeep(Spot),
    /// An early error, with the number of its rule, 1 to 14.
    Early(Spot, u8),
}

/// What a text is.
#[derive(Debug, Clone, Copy, PartialEq, Eq)]
pub enum Verdict {
    /// A script without errors that has so many functions.
    Script(usize),
    /// It is refused.
    Refused(Reason),
}

/// What compiling a text comes to.
#[derive(Drop)]
pub enum Compiled {
    /// The script, with these of its functions compiled and those around them.
    Script(MergedStencil, Choice),
    /// The text is refused.
    Refused(Reason),
    /// The word of this place among those for functions means none.
    NoFunction(usize),
}

/// What saving a text comes to.
#[derive(Drop)]
pub enum Saved {
    /// The image of the script.
    Image(Vec<u8>),
    /// The text is refused.
    Refused(Reason),
}

/// What bytes are that are taken as an image.
#[derive(Debug, Clone, Copy, PartialEq, Eq)]
pub enum Verified {
    /// The image of a script of so many functions, all code of which is sound. No stack gets deeper than this, and one gets as deep.
    Sound { functions: usize, depth: u64 },
    /// An image with code that is not sound: first that of this script, which is 0 for the top and else the number of a function.
    Unsound { script: usize },
    /// No image.
    NoImage,
}

/// Who gives verdicts on texts and images, and compiles texts.
pub trait Judge {
    ghost judges: { Self → List ℕ → Verdict → Type 0 };

    ghost shows: { Self → Wanted → List ℕ → NamedMerged (List Command) → Type 0 };

    ghost verifies: { Self → List ℕ → Verified → Type 0 };

    /// The verdict on this text. The one error is want of memory.
    fn judge(&self, alloc: Global, text: &[u8]) -> Result<Verdict, AllocError>
        ensures { IfOk result (judges self.now text.now) };

    /// This text compiled, with the functions that these words mean; with all where there is no word. The one error is want of memory.
    fn compile(
        &self,
        alloc: Global,
        text: &[u8],
        words: &[FunctionWord],
    ) -> Result<Compiled, AllocError>
        ensures { IfOk result (IsCompiledBy (judges self.now) (shows self.now) words.now text.now) };

    /// The image of the script that this text is, with all of its functions. The one error is want of memory.
    fn save(&self, alloc: Global, text: &[u8]) -> Result<Saved, AllocError>
        ensures { IfOk result (IsSavedBy (judges self.now) (shows self.now) text.now) };

    /// Whether these bytes are an image, and all code in it is sound. The one error is want of memory.
    fn verify(&self, alloc: Global, image: &[u8]) -> Result<Verified, AllocError>
        ensures { IfOk result (verifies self.now image.now) };
}

impl Verified {
    /// Whether it is an image, all code of which is sound.
    pub(crate) fn is_sound(self) -> bool {
        match self {
            Verified::Sound { .. } => true,
            Verified::Unsound { .. } | Verified::NoImage => false,
        }
    }
}

impl Reason {
    /// Where the reason stands, if it has a place.
    pub(crate) fn spot(self) -> Option<Spot>
        ensures { result ≡ spot_of self }
    {
        match self {
            Reason::TooLong => None,
            Reason::BadUtf8(spot) => Some(spot),
            Reason::Unexpected(spot) => Some(spot),
            Reason::TooDeep(spot) => Some(spot),
            Reason::Early(spot, _) => Some(spot),
        }
    }

    /// The offset of the place; 0 where there is none.
    pub(crate) fn offset(self) -> usize {
        match self.spot() {
            None => 0,
            Some(spot) => spot.offset,
        }
    }

    /// The code of the reason itself, before any guess.
    pub(crate) fn exact_code(self) -> Code {
        match self {
            Reason::TooLong => Code::TooLong,
            Reason::BadUtf8(_) => Code::BadUtf8,
            Reason::Unexpected(_) => Code::Unexpected,
            Reason::TooDeep(_) => Code::TooDeep,
            Reason::Early(_, rule) => Code::Early(Rule::numbered(rule)),
        }
    }

    /// The name of the reason in JSON.
    pub(crate) fn word(self) -> &'static str
        ensures { result.now ≡ word_of self }
    {
        match self {
            Reason::TooLong => "too_long",
            Reason::BadUtf8(_) => "not_utf8",
            Reason::Unexpected(_) => "unexpected",
            Reason::TooDeep(_) => "too_deep",
            Reason::Early(_, _) => "early",
        }
    }
}
