//! Rows: the elements of an interpretation that are in something, as sets of numbers.
ghost use Rattle.std.specs.Prelude.{◌≡◌, ℕ, ◌<◌, true, All, IfOk};
ghost use Rattle.std.specs.List.Sorted.{IsNonDecreasingBy};
ghost use Rattle.dd_set.specs.Words.{has};
ghost use Rattle.dd_interp.specs.Meaning.{in_name, some_along};
ghost use Rattle.dd_interp.specs.Seen.{IsExtension};

use crate::groups::{of_name, of_role};
use dd_concept::NoMemory;
use dd_set::Bits;
use std::alloc::Global;

/// All elements.
pub fn full(alloc: Global, size: u32) -> Result<Bits, NoMemory>
    ensures { IfOk result (IsExtension size (λ k. true)) }
{
    let mut row = Bits::new(alloc, size)?;
    for k in 0..size {
        row.insert(k);
    }
    Ok(row)
}

/// Those of a concept name.
pub fn named(alloc: Global, size: u32, names: &[(u32, u32)], a: u32) -> Result<Bits, NoMemory>
    requires grouped { IsNonDecreasingBy (λ p. p.0) names.now }
    requires shaped { All (λ p. p.1 < size) names.now }
    ensures { IfOk result (IsExtension size (in_name names.now a)) }
{
    let mut row = Bits::new(alloc, size)?;
    for p in of_name(names, a) {
        row.insert(p.1);
    }
    Ok(row)
}

/// Those from which the role leads to one of `ends`.
pub fn starts(
    alloc: Global,
    size: u32,
    roles: &[(u32, u32, u32)],
    r: u32,
    ends: &Bits,
) -> Result<Bits, NoMemory>
    requires grouped { IsNonDecreasingBy (λ t. t.0) roles.now }
    requires shaped { All (λ t. (t.1 < size) × (t.2 < size)) roles.now }
    ensures { IfOk result (IsExtension size (some_along roles.now r (has ends.now.words))) }
{
    let mut row = Bits::new(alloc, size)?;
    for t in of_role(roles, r) {
        if ends.contains(t.2) {
            row.insert(t.1);
        }
    }
    Ok(row)
}
