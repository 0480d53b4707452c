//! The commands of `holzikra`: files judged or compiled one after the other, and what is said of them.
//!
//! It stands on holzikra_words, whose requests it does; on holzikra_walk, which finds the files; on holzikra_colours, which colours
//! answers; on holzikra_refusals and holzikra_places for what it says of a text that is refused, and on holzikra_scripts for what it writes
//! of one that is compiled. It does not judge or compile: whoever calls it hands it a [`Judge`], and the program `holzikra` hands it that
//! of the library `stencil`. So it can be proved and tried without the compiler. What each command has for one text stands in a file of its
//! own; [`run`] picks the command. Its main contracts: a text is counted by the verdict of its judge (`IsCounted` of
//! `specs/Statuses.antt`); the plain listings of `code` and `scopes` are those of what its judge shows of the text, and the listing of
//! `code` with notes is that one without them (`IsCode`, `AreScopes` of `specs/Compiling.antt`); a file that is taken as an image is
//! counted by what its judge finds in it, and what was saved of a script is listed as that script is (`IsImageCounted`, `IsSavedCode` of
//! `specs/Images.antt`); a line of JSON on a refusal has the place and the rule of its reason (`IsRefusalLine` of `specs/Answers.antt`);
//! and the status is 1 exactly where a refusal was counted and nothing failed (`status_of`).
#![tactic(auto)]

mod answer;
mod complaint;
mod diff;
mod dispatch;
mod explain;
mod files;
mod github;
mod human;
mod images;
mod inspected;
mod json;
mod listings;
mod note;
mod reading;
mod refusal;
mod report;
mod sarif;
mod save;
mod screen;
mod stats;
mod status;
mod task;
mod ticker;
mod verdict;
mod writing;

pub use dispatch::run;
pub use screen::Terminals;
pub use status::Status;
pub use verdict::{Compiled, Judge, Reason, Saved, Spot, Verdict, Verified};
