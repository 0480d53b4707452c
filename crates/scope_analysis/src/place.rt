//! The slots of one scope's bindings.

ghost use Rattle.std.specs.Prelude.{◌≡◌, ℕ, ◌+◌, ◌^◌, ◌<◌, ◌≤◌, Bool, true, List, [], bytes_eq, if◌then◌else◌, length, OnOk, IfOk};
ghost use Rattle.stencil_data.specs.Fits.{SlotFits};
ghost use Rattle.stencil_data.specs.Named.{NamedScope};
ghost use Rattle.stencil_data.specs.Slots.{is_param, takes_frame};
ghost use Rattle.stencil_data.specs.Slots as defined;
ghost use Rattle.stencil_data.specs.StandsFor as stands;
ghost use Rattle.stencil_data.specs.declared.scopes.ScopeKind.TheVariants as scope_kind;
ghost use Rattle.scope_analysis.specs.DeclaredNames.{Text as ModelText};
ghost use Rattle.scope_analysis.specs.Closed.{first_is, named_left};
ghost use Rattle.scope_analysis.specs.Kept.{declarations_of};
ghost use Rattle.scope_analysis.specs.Placing.{Ready, Going};

use crate::names::DeclaredName;
use std::alloc::{AllocError, Global};
use stencil_data::{BindKind, Binding, ClosedName, Slot, Text};

/// What is known of a function or script: the texts of its atoms, and the names of its scopes that functions inside it
/// close over, in order of scope and then of the scope's bindings.
#[derive(Clone, Copy)]
pub struct ScopeContext<'a> {
    pub alloc: Global,
    pub texts: &'a [Text],
    pub closed: &'a [ClosedName],
}

/// The next slots of a scope.
#[derive(Clone, Copy)]
pub struct NextSlots {
    pub env: usize,
    pub arg: usize,
    pub frame: usize,
}

/// The bindings of a scope with their slots, the slots that follow them, and how many of the closed names are placed.
#[derive(Drop)]
pub struct Placed {
    pub bindings: Vec<Binding>,
    pub next: NextSlots,
    pub closed: usize,
}

/// A number of the output. What is no such number becomes the greatest one.
pub fn narrow(number: usize) -> u32
    ensures { number < 2 ^ 32 → result ≡ number }
{
    if number < 0x1_0000_0000 {
        number as u32
    } else {
        u32::MAX
    }
}

/// The units of an atom's text. An atom without a text stands for the empty text.
pub fn units_of<'a>(texts: &'a [Text], atom: u32) -> &'a [u16]
    ensures { result.now ≡ stands.text_at texts.now atom }
{
    match texts.get(atom as usize) {
        Some(text) => text.units(),
        None => &[],
    }
}

/// Whether two texts are equal.
pub fn same_units(one: &[u16], other: &[u16]) -> bool
    ensures { result ≡ bytes_eq one.now other.now }
{
    one == other
}

// Whether the next closed name is this one of this scope.
fn is_next(known: &ScopeContext, place: usize, number: usize, atom: u32) -> bool
    ensures is { result ≡ first_is number (stands.text_at known.now.texts.now atom) (named_left known.now.texts.now known.now.closed.now place) }
    ensures within { result ≡ true → place < length known.now.closed.now }
{
    match known.closed.get(place) {
        Some(name) => {
            name.scope as usize == number
                && same_units(
                    units_of(known.texts, name.atom),
                    units_of(known.texts, atom),
                )
        }
        None => false,
    }
}

// The slot of a binding that no function inside finds.
fn own_slot(kind: BindKind, next: NextSlots) -> Slot
    ensures { SlotFits (defined.own_slot kind next.arg next.frame) → result ≡ defined.own_slot kind next.arg next.frame }
{
    match kind {
        BindKind::Param => Slot::Arg(narrow(next.arg)),
        BindKind::Var => Slot::Frame(narrow(next.frame)),
        BindKind::Let => Slot::Frame(narrow(next.frame)),
        BindKind::Const => Slot::Frame(narrow(next.frame)),
        BindKind::Function => Slot::Frame(narrow(next.frame)),
        BindKind::Catch => Slot::Frame(narrow(next.frame)),
        BindKind::Callee => Slot::Callee,
        BindKind::Arguments => Slot::Frame(narrow(next.frame)),
        BindKind::This => Slot::Frame(narrow(next.frame)),
    }
}

fn slot_of(kind: BindKind, closed: bool, next: NextSlots) -> Slot
    ensures { let wanted = defined.slot_of scope_kind.Lexical next.env next.arg next.frame
        (record { kind = kind; closed = closed }) in SlotFits wanted → result ≡ wanted }
{
    if closed {
        Slot::Env(narrow(next.env))
    } else {
        own_slot(kind, next)
    }
}

fn counted(number: usize, counts: bool) -> usize
    requires { number < 2 ^ 63 }
    ensures { result ≡ number + (if counts then 1 else 0) }
{
    if counts { number + 1 } else { number }
}

fn is_param(kind: BindKind) -> bool
    ensures { result ≡ is_param kind }
{
    matches!(kind, BindKind::Param)
}

fn takes_frame(slot: Slot) -> bool
    ensures { result ≡ takes_frame slot }
{
    matches!(slot, Slot::Frame(_))
}

// The next slots after a binding.
fn after(next: NextSlots, kind: BindKind, closed: bool, slot: Slot) -> NextSlots
    requires env { next.env < 2 ^ 63 }
    requires arg { next.arg < 2 ^ 63 }
    requires frame { next.frame < 2 ^ 63 }
    ensures env { result.env ≡ next.env + (if closed then 1 else 0) }
    ensures arg { result.arg ≡ next.arg + (if is_param kind then 1 else 0) }
    ensures frame { result.frame ≡ next.frame + (if takes_frame slot then 1 else 0) }
{
    NextSlots {
        env: counted(next.env, closed),
        arg: counted(next.arg, is_param(kind)),
        frame: counted(next.frame, takes_frame(slot)),
    }
}

/// Gives the names of a scope their slots, where the scopes around leave the frame free from `frame` on, and the closed
/// names from `from` on are left.
pub fn place(
    known: &ScopeContext,
    number: usize,
    frame: u32,
    from: usize,
    names: &[DeclaredName],
) -> Result<Placed, AllocError>
    ensures { IfOk result (λ made. (inner : List ModelText) (later : List NamedScope)
        → Ready known.now.texts.now known.now.closed.now number inner later 0 0 frame from (declarations_of known.now.texts.now names.now)
        → Going known.now.texts.now known.now.closed.now number inner later frame (declarations_of known.now.texts.now names.now)
        (stands.named_bindings known.now.texts.now made.bindings.items) made.next.env made.next.arg made.next.frame made.closed []) }
{
    let mut bindings = Vec::with_capacity(known.alloc, names.len())?;
    let mut next = NextSlots {
        env: 0,
        arg: 0,
        frame: frame as usize,
    };
    let mut closed = from;
    for name in names {
        let is_closed = is_next(known, closed, number, name.atom);
        let slot = slot_of(name.kind, is_closed, next);
        bindings.push(Binding {
            atom: name.atom,
            kind: name.kind,
            slot,
        })?;
        next = after(next, name.kind, is_closed, slot);
        if is_closed {
            closed += 1;
        }
    }
    Ok(Placed {
        bindings,
        next,
        closed,
    })
}
