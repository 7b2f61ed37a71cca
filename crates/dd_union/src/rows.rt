// What the rules from one peer say of each element of a model.
ghost use Rattle.std.specs.Prelude.{◌≡◌, ◌++◌, ◌∷◌, [], false, if◌then◌else◌, IfOk, OnOk, bytes_eq, map, slice_get};
ghost use Rattle.dd_interp.specs.Satisfies.{IsShaped};
ghost use Rattle.dd_peer.specs.Rules.{rules_from};
ghost use Rattle.dd_task.specs.Tables.{elements_of, places_of, row_at, says};
ghost use Rattle.dd_union.specs.Pieces.{raises_by, rows_of};
ghost use Rattle.std.specs.List.{range_with_len};
ghost use Rattle.dd_task.specs.Lines.{is_there};

use dd_concept::{Items, NoMemory};
use dd_interp::{Interp, extension};
use dd_peer::{Pinned, Rule};
use dd_task::version_of;
use std::alloc::Global;

/// For each onto rule, whether an element is in its target; for each element, the into rules whose targets it is not in.
#[derive(Drop)]
pub(crate) struct Rows {
    pub(crate) onto: Items<Items<bool>>,
    pub(crate) lacks: Items<Items<u32>>,
}

pub(crate) fn rows_from(
    alloc: Global,
    p: &Pinned,
    peer: u32,
    m: &Interp,
    elements: &[u32],
    from: u32,
) -> Result<Rows, NoMemory>
    requires shaped { IsShaped m.now }
    requires elements { elements.now ≡ elements_of m.now }
    ensures { IfOk result (λ r. r ≡ rows_of p.now peer m.now from) }
{
    let Some(version) = version_of(p, peer) else {
        return Ok(Rows {
            onto: Items::new(alloc),
            lacks: lacks(alloc, &[], m.size)?,
        });
    };
    let into = target_rows(alloc, m, elements, version.into.as_slice(), from)?;
    let lacks = lacks(alloc, into.as_slice(), m.size);
    drop(into);
    let onto = target_rows(alloc, m, elements, version.onto.as_slice(), from)?;
    Ok(Rows {
        onto,
        lacks: lacks?,
    })
}

/// The elements of a model.
pub(crate) fn elements(alloc: Global, size: u32) -> Result<Vec<u32>, NoMemory>
    ensures { IfOk result (λ xs. xs.items ≡ range_with_len 0 size) }
{
    let mut elements = Vec::new(alloc);
    for x in 0..size {
        elements.push(x)?;
    }
    Ok(elements)
}

// What the target of each rule from this peer says of each element.
fn target_rows(
    alloc: Global,
    m: &Interp,
    elements: &[u32],
    rules: &[Rule],
    from: u32,
) -> Result<Items<Items<bool>>, NoMemory>
    requires shaped { IsShaped m.now }
    requires elements { elements.now ≡ elements_of m.now }
    ensures { IfOk result (λ rs. rs ≡ map (row_at m.now elements.now) (rules_from rules.now from)) }
{
    let mut rows = Items::new(alloc);
    for rule in rules {
        if rule.from == from {
            rows.push(row(alloc, m, elements, rule)?)?;
        }
    }
    Ok(rows)
}

fn row(alloc: Global, m: &Interp, elements: &[u32], rule: &Rule) -> Result<Items<bool>, NoMemory>
    requires shaped { IsShaped m.now }
    requires elements { elements.now ≡ elements_of m.now }
    ensures { IfOk result (λ r. r ≡ row_at m.now elements.now rule.now) }
{
    Ok(Items::from_vec(extension(alloc, m, elements, &rule.target)?))
}

// For each element the places of the rows that say no of it.
fn lacks(alloc: Global, rows: &[Items<bool>], size: u32) -> Result<Items<Items<u32>>, NoMemory>
    ensures { IfOk result (λ ls. ls ≡ map (λ y. places_of false y rows.now) (range_with_len 0 size)) }
{
    let mut lacks = Items::new(alloc);
    for y in 0..size {
        lacks.push(places(alloc, rows, y)?)?;
    }
    Ok(lacks)
}

fn places(alloc: Global, rows: &[Items<bool>], y: u32) -> Result<Items<u32>, NoMemory>
    ensures { IfOk result (λ ks. ks ≡ places_of false y rows.now) }
{
    let mut places = Items::new(alloc);
    for k in 0..rows.len() {
        let Ok(place) = u32::try_from(k) else {
            return Err(NoMemory);
        };
        push_where(&mut places, place, !is_said(rows[k].as_slice(), y))?;
    }
    Ok(places)
}

fn push_where(places: &mut Items<u32>, place: u32, is_one: bool) -> Result<(), NoMemory>
    ensures { OnOk result (places.new ≡ places.old ++ (if is_one then place ∷ [] else [])) }
{
    if is_one {
        return places.push(place);
    }
    Ok(())
}

fn is_said(row: &[bool], y: u32) -> bool
    ensures { result ≡ says y row.now }
{
    match row.get(y as usize) {
        Some(said) => *said,
        None => false,
    }
}

/// Whether the element is in the target of the onto rule, and in those of exactly the into rules that are not in the set.
pub(crate) fn raises(rows: &Rows, onto: u32, set: &[u32], y: u32) -> bool
    ensures { result ≡ raises_by rows.now onto set.now y }
{
    is_in_row(rows.onto.as_slice(), onto, y) && has_set(rows.lacks.as_slice(), y, set)
}

fn is_in_row(rows: &[Items<bool>], n: u32, y: u32) -> bool
    ensures { result ≡ is_there (slice_get rows.now n) (says y) }
{
    match rows.get(n as usize) {
        Some(row) => is_said(row.as_slice(), y),
        None => false,
    }
}

fn has_set(sets: &[Items<u32>], y: u32, set: &[u32]) -> bool
    ensures { result ≡ is_there (slice_get sets.now y) (λ lacked. bytes_eq lacked set.now) }
{
    match sets.get(y as usize) {
        Some(lacked) => lacked.as_slice() == set,
        None => false,
    }
}
