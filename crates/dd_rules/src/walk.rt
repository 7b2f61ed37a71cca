ghost use Rattle.std.specs.Prelude.{◌≡◌, ◌<◌, [], length, slice_get, Some, IfOk, OnOk};
ghost use Rattle.dd_concept.specs.Parts.{parts_in_order};
ghost use Rattle.dd_rules.specs.Compiled.{concept_at};
ghost use Rattle.dd_rules.specs.Trees.{IsRows, IsWithin, concept_of, trees};
ghost use Rattle.dd_rules.specs.Walks.{IsWalk, numbered, parts_below, with_all, with_one};

use crate::row::Row;
use dd_concept::NoMemory;
use indexmap::IndexSet;
use std::alloc::Global;

/// Rows in the order in which their concepts are numbered; per row the number of its concept, and whether all of its
/// subconcepts have theirs.
#[derive(Drop)]
pub struct Walk {
    pub order: Vec<u32>,
    pub numbers: Vec<Option<u32>>,
    pub done: Vec<bool>,
}

/// The walk that has numbered nothing.
pub fn start(alloc: Global, rows: &IndexSet<Row>) -> Result<Walk, NoMemory>
    requires { IsRows rows.now.keys }
    ensures walk { IfOk result (IsWalk (trees rows.now.keys)) }
    ensures none { IfOk result (λ w. numbered (trees rows.now.keys) w ≡ []) }
{
    let count = rows.len();
    Ok(Walk {
        order: Vec::new(alloc),
        numbers: vec![in alloc; None; count]?,
        done: vec![in alloc; false; count]?,
    })
}

/// The row with this number.
pub fn row_at(rows: &IndexSet<Row>, n: u32) -> Row
    requires rows { IsRows rows.now.keys }
    requires within { n < length rows.now.keys }
    ensures row { slice_get rows.now.keys n ≡ Some result }
    ensures concept { concept_at (trees rows.now.keys) n ≡ concept_of (trees rows.now.keys) result }
    ensures parts { IsWithin result n }
{
    match rows.get_index(n as usize) {
        Some(row) => *row,
        None => Row::Top,
    }
}

/// Gives the row's concept the next number, where it has none.
fn mark(rows: &IndexSet<Row>, walk: &mut Walk, n: u32) -> Result<(), NoMemory>
    requires rows { IsRows rows.now.keys }
    requires walk { IsWalk (trees rows.now.keys) walk.old }
    requires within { n < length rows.now.keys }
    ensures order { OnOk result (numbered (trees rows.now.keys) walk.new ≡ with_one (numbered (trees rows.now.keys) walk.old) (concept_at (trees rows.now.keys) n)) }
    ensures walk { OnOk result (IsWalk (trees rows.now.keys) walk.new) }
{
    if walk.numbers[n as usize].is_some() {
        return Ok(());
    }
    let next = walk.order.len();
    if next >= 4_294_967_295 {
        return Err(NoMemory);
    }
    walk.order.push(n)?;
    walk.numbers[n as usize] = Some(next as u32);
    Ok(())
}

/// Numbers the row's concept and its subconcepts, those that have no number yet, each whole before its parts.
#[cycle(visit)]
pub fn visit(rows: &IndexSet<Row>, walk: &mut Walk, n: u32) -> Result<(), NoMemory>
    requires rows { IsRows rows.now.keys }
    requires walk { IsWalk (trees rows.now.keys) walk.old }
    requires within { n < length rows.now.keys }
    ensures order { OnOk result (numbered (trees rows.now.keys) walk.new ≡ with_all (numbered (trees rows.now.keys) walk.old) (parts_in_order (concept_at (trees rows.now.keys) n))) }
    ensures walk { OnOk result (IsWalk (trees rows.now.keys) walk.new) }
{
    if walk.done[n as usize] {
        return Ok(());
    }
    mark(rows, walk, n)?;
    visit_parts(rows, walk, n, row_at(rows, n))?;
    walk.done[n as usize] = true;
    Ok(())
}

/// Numbers what a row's concept has beside itself. The parts of the row are below `n`.
#[cycle(visit)]
fn visit_parts(rows: &IndexSet<Row>, walk: &mut Walk, n: u32, row: Row) -> Result<(), NoMemory>
    requires rows { IsRows rows.now.keys }
    requires walk { IsWalk (trees rows.now.keys) walk.old }
    requires within { n < length rows.now.keys }
    requires parts { IsWithin row n }
    ensures order { OnOk result (numbered (trees rows.now.keys) walk.new ≡ with_all (numbered (trees rows.now.keys) walk.old) (parts_below (trees rows.now.keys) row)) }
    ensures walk { OnOk result (IsWalk (trees rows.now.keys) walk.new) }
{
    match row {
        Row::Top | Row::Bottom | Row::Name(_) | Row::Not(_) => Ok(()),
        Row::And(left, right) | Row::Or(left, right) => {
            visit(rows, walk, left)?;
            visit(rows, walk, right)
        }
        Row::HasSome(_, part) | Row::HasAll(_, part) => visit(rows, walk, part),
    }
}
