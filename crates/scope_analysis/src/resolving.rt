// Where a name lives, seen from a place of the source.
ghost use Rattle.std.specs.Prelude.{◌≡◌, ◌+◌, ◌<◌, ◌≤◌, bytes_eq, option_copied};
ghost use Rattle.stencil_data.specs.Fits.{ChainFits, PlaceFits, SlotFits};
ghost use Rattle.stencil_data.specs.Resolve as defined;

use stencil_data::{BindKind, Chain, LinkName, Place, ScopeKind, Slot, Text};

/// How many names of a scope are compared one by one. A chain has an index of more.
const FEW_NAMES: usize = 8;

fn is_global(kind: ScopeKind) -> bool
    ensures { result ≡ defined.is_global kind }
{
    matches!(kind, ScopeKind::Global)
}

fn place_of(hops: u32, kind: BindKind, slot: Slot) -> Place
    ensures { result ≡ defined.place_of hops kind slot }
{
    match slot {
        Slot::Global => Place::Global,
        Slot::Arg(index) => Place::Arg(index),
        Slot::Frame(slot) => Place::Frame { slot, kind },
        Slot::Env(slot) => Place::Env { hops, slot, kind },
        Slot::Callee => Place::Callee,
    }
}

/// Whether two texts are equal. Most that are compared have not as many units.
#[inline(always)]
#[tactic(auto, using(crate::proofs::Naming::of_other_length))]
fn are_equal(one: &[u16], two: &[u16]) -> bool
    ensures { result ≡ bytes_eq one.now two.now }
{
    if one.len() != two.len() {
        return false;
    }
    one == two
}

/// The first of some bindings that has this name.
fn first_named<'a>(name: &[u16], names: &'a [LinkName]) -> Option<&'a LinkName>
    ensures { option_copied result ≡ defined.first_named name.now names.now }
{
    names
        .iter()
        .find(|binding| are_equal(binding.text.units(), name))
}

/// The first binding of this name in the innermost scope of a chain. It takes no memory.
fn innermost_binding<'a>(chain: &'a Chain, name: &Text) -> Option<&'a LinkName>
    ensures { option_copied result ≡ defined.first_named name.now (defined.innermost_names chain.now) }
{
    let (link, _) = chain.split_innermost();
    if link.names.len() > FEW_NAMES {
        return chain.innermost_binding(name);
    }
    first_named(name.units(), &link.names)
}

/// The place of the first binding of this name on the chain: the walk along the scopes around a use (ECMA-262, 12th
/// edition, clause 9.1.2.1, GetIdentifierReference). It is global where the global scope is reached. It takes no memory.
pub fn resolve(chain: &Chain, name: &Text) -> Place
    requires { ChainFits 65000 chain.now }
    ensures place { result ≡ defined.resolve chain.now name.now }
    ensures fits { PlaceFits result }
{
    let mut rest = Some(chain);
    let mut hops: u32 = 0;
    while let Some(present) = rest {
        let (link, outer) = present.split_innermost();
        if is_global(link.kind) {
            return Place::Global;
        }
        if let Some(binding) = innermost_binding(present, name) {
            return place_of(hops, binding.kind, binding.slot);
        }
        if link.env {
            hops += 1;
        }
        rest = outer;
    }
    Place::Global
}
