//! Rising lists of elements, in which each element has a place.
ghost use Rattle.std.specs.Prelude.{◌≡◌, ◌<◌, ◌≤◌, ℕ, IfOk, MatchBool, length, slice_index};
ghost use Rattle.std.specs.List.Sorted.{IsNonDecreasing};
ghost use Rattle.dd_set.specs.Sets.{IsRising};
ghost use Rattle.dd_interp.specs.Places.{HaveSame, IsPlace};

use dd_concept::NoMemory;
use std::alloc::Global;

/// The elements of the list, each once, from the least to the greatest.
pub fn rising(alloc: Global, elements: &[u32]) -> Result<Vec<u32>, NoMemory>
    ensures rising { IfOk result (λ v. IsRising v.items) }
    ensures same { IfOk result (λ v. HaveSame elements.now v.items) }
{
    let mut sorted = Vec::from_slice(alloc, elements)?;
    sorted.sort_unstable();
    distinct(alloc, sorted.as_slice())
}

fn distinct(alloc: Global, sorted: &[u32]) -> Result<Vec<u32>, NoMemory>
    requires { IsNonDecreasing sorted.now }
    ensures rising { IfOk result (λ v. IsRising v.items) }
    ensures same { IfOk result (λ v. HaveSame sorted.now v.items) }
{
    let mut once = Vec::new(alloc);
    for x in sorted {
        if is_above(once.as_slice(), *x) {
            once.push(*x)?;
        }
    }
    Ok(once)
}

// Whether x is above each element.
fn is_above(elements: &[u32], x: u32) -> bool
    requires { IsRising elements.now }
    ensures { MatchBool result ((k : ℕ) → k < length elements.now → slice_index elements.now k < x) ((k : ℕ) × (k < length elements.now) × (x ≤ slice_index elements.now k)) }
{
    match elements.last() {
        Some(last) => *last < x,
        None => true,
    }
}

/// The place of the element, from 0, where it is in the list.
pub fn place_of(elements: &[u32], x: u32) -> Option<usize>
    requires { IsRising elements.now }
    ensures { IsPlace elements.now x result }
{
    match elements.binary_search(&x) {
        Ok(place) => Some(place),
        Err(_) => None,
    }
}
