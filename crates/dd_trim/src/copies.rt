// Copies of lines under other numbers.
ghost use Rattle.std.specs.Prelude.{◌≡◌, ◌∷◌, ◌++◌, [], IfOk, OnOk, length, map};
ghost use Rattle.dd_task.specs.declared.line.Why.{Why};
ghost use Rattle.dd_trim.specs.Cited.{renumbered, renumbered_why};
ghost use Rattle.dd_trim.specs.Marked.{kept_of, number_at};

use crate::NoMemory;
use dd_concept::{Concept, Items, copy};
use dd_task::{Line, Why};
use std::alloc::Global;

/// Copies of the lines that have a mark, where each line that they cite has its number in the list.
pub(crate) fn keep(
    alloc: Global,
    lines: &[Line],
    marks: &[bool],
    places: &[u32],
) -> Result<Vec<Line>, NoMemory>
    requires { length marks.now ≡ length lines.now }
    ensures { IfOk result (λ kept. kept.items ≡ kept_of marks.now (number_at places.now) lines.now) }
{
    let mut kept = Vec::new(alloc);
    for k in 0..lines.len() {
        add(alloc, &lines[k], marks[k], places, &mut kept)?;
    }
    Ok(kept)
}

/// Adds a copy of the line, where it has a mark.
fn add(
    alloc: Global,
    l: &Line,
    mark: bool,
    places: &[u32],
    kept: &mut Vec<Line>,
) -> Result<(), NoMemory>
    ensures { OnOk result (kept.new.items ≡ kept.old.items ++ kept_of (mark ∷ []) (number_at places.now) (l.now ∷ [])) }
{
    if mark {
        kept.push(line(alloc, l, places)?)?;
    }
    Ok(())
}

fn line(alloc: Global, l: &Line, places: &[u32]) -> Result<Line, NoMemory>
    ensures { IfOk result (λ m. m ≡ renumbered (number_at places.now) l.now) }
{
    let label = copy_concepts(alloc, l.label.as_slice())?;
    Ok(Line {
        peer: l.peer,
        label,
        why: why(alloc, &l.why, places)?,
    })
}

fn why(alloc: Global, w: &Why, places: &[u32]) -> Result<Why, NoMemory>
    ensures { IfOk result (λ x. x ≡ renumbered_why (number_at places.now) w.now) }
{
    match w {
        Why::Bottom => Ok(Why::Bottom),
        Why::Clash { name } => Ok(Why::Clash { name: *name }),
        Why::And { at, cite } => Ok(Why::And {
            at: *at,
            cite: place(places, *cite),
        }),
        Why::Or { at, left, right } => Ok(Why::Or {
            at: *at,
            left: place(places, *left),
            right: place(places, *right),
        }),
        Why::Axiom { index, left, right } => Ok(Why::Axiom {
            index: *index,
            left: place(places, *left),
            right: place(places, *right),
        }),
        Why::Cut { on, yes, no } => Ok(Why::Cut {
            on: copy(alloc, on)?,
            yes: place(places, *yes),
            no: place(places, *no),
        }),
        Why::Successor { at, cite } => Ok(Why::Successor {
            at: *at,
            cite: place(places, *cite),
        }),
        Why::Bridge {
            from,
            onto,
            into_set,
            cite,
            each,
        } => bridge(
            alloc,
            (*from, *onto, place(places, *cite)),
            into_set.as_slice(),
            each.as_slice(),
            places,
        ),
    }
}

fn bridge(
    alloc: Global,
    numbers: (u32, u32, u32),
    into_set: &[u32],
    each: &[u32],
    places: &[u32],
) -> Result<Why, NoMemory>
    ensures { IfOk result (λ x. x ≡ Why.Bridge numbers.0 numbers.1 into_set.now numbers.2 (map (number_at places.now) each.now)) }
{
    let (from, onto, cite) = numbers;
    let into_set = Items::from_slice(alloc, into_set)?;
    Ok(Why::Bridge {
        from,
        onto,
        into_set,
        cite,
        each: places_each(alloc, each, places)?,
    })
}

fn places_each(alloc: Global, cites: &[u32], places: &[u32]) -> Result<Items<u32>, NoMemory>
    ensures { IfOk result (λ ns. ns ≡ map (number_at places.now) cites.now) }
{
    let mut numbers = Items::new(alloc);
    for cite in cites {
        numbers.push(place(places, *cite))?;
    }
    Ok(numbers)
}

/// The new number of a line.
fn place(places: &[u32], cite: u32) -> u32
    ensures { result ≡ number_at places.now cite }
{
    places.get(cite as usize).copied().unwrap_or(0)
}

fn copy_concepts(alloc: Global, concepts: &[Concept]) -> Result<Items<Concept>, NoMemory>
    ensures { IfOk result (λ cs. cs ≡ concepts.now) }
{
    let mut copies = Items::new(alloc);
    for c in concepts {
        copies.push(copy(alloc, c)?)?;
    }
    Ok(copies)
}
