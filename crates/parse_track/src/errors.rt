//! The first early error of all rules.

ghost use Rattle.std.specs.Prelude.{◌≡◌, ◌≤◌, ◌-◌, ◌^◌, ◌<◌, false, true, length, IfOk, nat_eq};
ghost use Rattle.parse_track.specs.EarlyErrors.{sooner, error_of, first_error};
ghost use Rattle.parse_track.specs.Log.{known_names};
ghost use Rattle.parse_track.specs.Rows.{told_of_rows};

use crate::clashing::first_clashes;
use crate::jumps::first_wrong_jump;
use crate::region::{Early, WellKnownAtoms};
use crate::rules::rule_offsets;
use crate::track::RegionRow;
use std::alloc::{AllocError, Global};

/// Of two early errors the first.
pub fn sooner_early(x: Option<Early>, y: Option<Early>) -> Option<Early>
    ensures { result ≡ sooner x y }
{
    match (x, y) {
        (None, y) => y,
        (x, None) => x,
        (Some(a), Some(b)) => {
            if b.offset < a.offset || (b.offset == a.offset && b.rule < a.rule) {
                y
            } else {
                x
            }
        }
    }
}

/// The early error of this rule at an offset, where there is one.
fn error_of(rule: u8, offset: Option<u32>) -> Option<Early>
    ensures { result ≡ error_of rule offset }
{
    match offset {
        None => None,
        Some(offset) => Some(Early { offset, rule }),
    }
}

/// The first early error of all rules, where the first of those that were noted is `noted`.
pub fn first_error(
    alloc: Global,
    known: &WellKnownAtoms,
    rows: &[RegionRow],
    noted: Option<Early>,
) -> Result<Option<Early>, AllocError>
    requires { length rows.now ≤ 2 ^ 32 - 2 }
    ensures { IfOk result (λ error. error ≡ first_error nat_eq (known_names known.now) noted (told_of_rows rows.now)) }
{
    let offsets = rule_offsets(alloc, known, rows)?;
    let lexical = error_of(1, offsets.twice_lexical);
    let clashes = first_clashes(alloc, rows)?;
    let clash = error_of(2, clashes.other);
    let head = error_of(3, clashes.head);
    let catch = error_of(4, offsets.catch_and_lexical);
    let param = error_of(5, offsets.param_and_lexical);
    let params = error_of(6, offsets.twice_param);
    let reserved = error_of(9, offsets.binds_reserved);
    let jump = error_of(11, first_wrong_jump(alloc, rows)?);
    let late = sooner_early(params, sooner_early(reserved, jump));
    let middle = sooner_early(head, sooner_early(catch, sooner_early(param, late)));
    let first = sooner_early(noted, sooner_early(lexical, sooner_early(clash, middle)));
    Ok(first)
}
