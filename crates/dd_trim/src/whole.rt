// The lines that a derivation needs.
ghost use Rattle.std.specs.Prelude.{IfOk};
ghost use Rattle.dd_trim.specs.Trimmed.{AreFrom, AreNeeded, DeriveAlike};

use crate::NoMemory;
use crate::copies::keep;
use crate::needed::needed_of;
use crate::places::places_of;
use dd_task::Line;
use std::alloc::Global;

/// Copies of the lines that the last one needs, in their order: the last one, and each that one of them cites. Their cites have
/// the new numbers. What the lines derive the copies derive. For lines that cite later ones or themselves nothing is promised but
/// that the copies are of these lines. The time is linear in what the lines hold.
///
/// There are fewer than 2^32 lines, or there is no memory for them.
pub fn trim(alloc: Global, lines: &[Line]) -> Result<Vec<Line>, NoMemory>
    ensures derives { IfOk result (λ kept. DeriveAlike lines.now kept.items) }
    ensures from { IfOk result (λ kept. AreFrom lines.now kept.items) }
    ensures needed { IfOk result (λ kept. AreNeeded kept.items) }
{
    let needed = needed_of(alloc, lines)?;
    let marks = needed.as_slice();
    let places = places_of(alloc, marks)?;
    let kept = keep(alloc, lines, marks, places.as_slice())?;
    Ok(kept)
}
