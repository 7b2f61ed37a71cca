//! What a concept means at each element of a list.
ghost use Rattle.std.specs.Prelude.{◌≡◌, ◌<◌, ◌^◌, ℕ, Bool, true, All, Contains, IfOk, length, map};
ghost use Rattle.dd_set.specs.Sets.{IsRising};
ghost use Rattle.dd_interp.specs.Meaning.{meaning};
ghost use Rattle.dd_interp.specs.Places.{is_listed};
ghost use Rattle.dd_interp.specs.SeenLists.{HasValues};

use crate::chart::Chart;
use crate::interp::Interp;
use crate::places::{place_of, rising};
use dd_concept::{Concept, NoMemory};
use dd_set::Bits;
use std::alloc::Global;

/// For each of these elements, whether it is one of the concept. Among them are all that a role leads to. Each part of the
/// concept is looked at once.
pub fn extension(
    alloc: Global,
    i: &Interp,
    elements: &[u32],
    c: &Concept,
) -> Result<Vec<bool>, NoMemory>
    requires { All (λ t. Contains elements.now t.2) i.now.roles }
    ensures { IfOk result (λ row. row.items ≡ map (meaning i.now c.now) elements.now) }
{
    let places = rising(alloc, elements)?;
    let chart = Chart::new(alloc, i, places.as_slice())?;
    let _few = chart.size();
    let row = chart.row(alloc, c)?;
    values(alloc, places.as_slice(), &row, elements)
}

fn values(
    alloc: Global,
    places: &[u32],
    row: &Bits,
    elements: &[u32],
) -> Result<Vec<bool>, NoMemory>
    requires rising { IsRising places.now }
    requires few { length places.now < 2 ^ 32 }
    ensures { IfOk result (λ v. (test : ℕ → Bool) → HasValues test places.now row.now.words → All (λ x. is_listed places.now x ≡ true) elements.now → v.items ≡ map test elements.now) }
{
    let mut values = Vec::new(alloc);
    for x in elements {
        values.push(value(places, row, *x))?;
    }
    Ok(values)
}

// Whether the row has the place of x.
fn value(places: &[u32], row: &Bits, x: u32) -> bool
    requires rising { IsRising places.now }
    requires few { length places.now < 2 ^ 32 }
    ensures { (test : ℕ → Bool) → HasValues test places.now row.now.words → is_listed places.now x ≡ true → result ≡ test x }
{
    match place_of(places, x) {
        Some(place) => row.contains(place as u32),
        None => false,
    }
}
