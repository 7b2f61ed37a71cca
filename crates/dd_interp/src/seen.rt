//! The lists of an interpretation, with places in a list of elements in place of the elements.
ghost use Rattle.std.specs.Prelude.{◌≡◌, ◌<◌, ◌^◌, true, All, IfOk, length};
ghost use Rattle.std.specs.List.Sorted.{IsNonDecreasingBy};
ghost use Rattle.dd_set.specs.Sets.{IsRising};
ghost use Rattle.dd_interp.specs.Places.{is_listed};
ghost use Rattle.dd_interp.specs.SeenLists.{AreNamesSeen, ArePlaces, AreRolesSeen};

use crate::places::place_of;
use dd_concept::NoMemory;
use std::alloc::Global;

/// The names of the elements that have a place, by names.
pub fn seen_names(
    alloc: Global,
    names: &[(u32, u32)],
    elements: &[u32],
) -> Result<Vec<(u32, u32)>, NoMemory>
    requires rising { IsRising elements.now }
    requires few { length elements.now < 2 ^ 32 }
    ensures seen { IfOk result (λ v. AreNamesSeen elements.now names.now v.items) }
    ensures grouped { IfOk result (λ v. IsNonDecreasingBy (λ p. p.0) v.items) }
{
    let mut seen = placed_names(alloc, names, elements)?;
    seen.sort_unstable_by_key(|p| p.0);
    Ok(seen)
}

fn placed_names(
    alloc: Global,
    names: &[(u32, u32)],
    elements: &[u32],
) -> Result<Vec<(u32, u32)>, NoMemory>
    requires rising { IsRising elements.now }
    requires few { length elements.now < 2 ^ 32 }
    ensures { IfOk result (λ v. AreNamesSeen elements.now names.now v.items) }
{
    let mut seen = Vec::new(alloc);
    for p in names {
        if let Some(place) = place_of(elements, p.1) {
            seen.push((p.0, place as u32))?;
        }
    }
    Ok(seen)
}

/// The pairs of the roles that start at an element with a place, by roles.
pub fn seen_roles(
    alloc: Global,
    roles: &[(u32, u32, u32)],
    elements: &[u32],
) -> Result<Vec<(u32, u32, u32)>, NoMemory>
    requires rising { IsRising elements.now }
    requires few { length elements.now < 2 ^ 32 }
    requires ends { All (λ t. is_listed elements.now t.2 ≡ true) roles.now }
    ensures seen { IfOk result (λ v. AreRolesSeen elements.now roles.now v.items) }
    ensures grouped { IfOk result (λ v. IsNonDecreasingBy (λ t. t.0) v.items) }
{
    let mut seen = placed_roles(alloc, roles, elements)?;
    seen.sort_unstable_by_key(|t| t.0);
    Ok(seen)
}

fn placed_roles(
    alloc: Global,
    roles: &[(u32, u32, u32)],
    elements: &[u32],
) -> Result<Vec<(u32, u32, u32)>, NoMemory>
    requires rising { IsRising elements.now }
    requires few { length elements.now < 2 ^ 32 }
    requires ends { All (λ t. is_listed elements.now t.2 ≡ true) roles.now }
    ensures { IfOk result (λ v. AreRolesSeen elements.now roles.now v.items) }
{
    let mut seen = Vec::new(alloc);
    for t in roles {
        if let Some(pair) = places_of(elements, t.1, t.2) {
            seen.push((t.0, pair.0, pair.1))?;
        }
    }
    Ok(seen)
}

// The places of both ends of a pair whose second end has one.
fn places_of(elements: &[u32], from: u32, to: u32) -> Option<(u32, u32)>
    requires rising { IsRising elements.now }
    requires few { length elements.now < 2 ^ 32 }
    requires end { is_listed elements.now to ≡ true }
    ensures { ArePlaces elements.now from to result }
{
    match (place_of(elements, from), place_of(elements, to)) {
        (Some(from), Some(to)) => Some((from as u32, to as u32)),
        _ => None,
    }
}
