// The new numbers of lines.
ghost use Rattle.std.specs.Prelude.{◌≡◌, IfOk};
ghost use Rattle.dd_trim.specs.Marked.{ArePlaces, counted};

use crate::NoMemory;
use std::alloc::Global;

/// For each line how many before it have a mark.
pub(crate) fn places_of(alloc: Global, marks: &[bool]) -> Result<Vec<u32>, NoMemory>
    ensures { IfOk result (λ places. ArePlaces marks.now places.items) }
{
    let mut places = Vec::new(alloc);
    let mut next = 0;
    for mark in marks {
        places.push(next)?;
        next = after(next, *mark)?;
    }
    Ok(places)
}

fn after(next: u32, mark: bool) -> Result<u32, NoMemory>
    ensures { IfOk result (λ n. n ≡ counted mark next) }
{
    if !mark {
        return Ok(next);
    }
    match next.checked_add(1) {
        Some(more) => Ok(more),
        None => Err(NoMemory),
    }
}
