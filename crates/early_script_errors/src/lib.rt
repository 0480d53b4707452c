//! The early errors and the closed names of a script that was read without trees.
//!
//! It stands on `parse_track_pieces`, by whose pieces a script tells a track its regions and names, and on `parse_track`, whose
//! definitions say which early errors and closed names a script has. What the track answers, with atoms for names, is what these
//! definitions say of the script's tree, with texts, by the laws of `track_log_laws` and `track_renaming_laws`. The early errors of
//! the rules that look at no region are found while the script is read; here they are met with those of the track.
//!
//! The main contract is that of [`check_told`]: it answers the first early error of the script (`early_error` of parse_track),
//! how many functions it has, and the names that its inner functions close over. [`first_early_error`] answers the error alone.
#![tactic(auto)]

mod checking;

pub use checking::{Checked, check_told, first_early_error};
