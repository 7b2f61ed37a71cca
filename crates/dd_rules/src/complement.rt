ghost use Rattle.std.specs.Prelude.{◌≤◌, length};

use crate::row::Row;
use dd_concept::NoMemory;
use indexmap::IndexSet;
use std::alloc::Global;

/// What a list has at this place.
pub fn entry_at(list: &[Option<u32>], n: u32) -> Option<u32> {
    match list.get(n as usize) {
        Some(entry) => *entry,
        None => None,
    }
}

fn place(rows: &IndexSet<Row>, row: Row) -> Option<u32>
    requires { length rows.now.keys ≤ 4294967295 }
{
    match rows.get_index_of(&row) {
        Some(n) => Some(n as u32),
        None => None,
    }
}

/// The row of the complement in normal form of the row with this number, where both its parts' are in the list.
fn complement_of(rows: &IndexSet<Row>, list: &[Option<u32>], n: u32, row: Row) -> Option<u32>
    requires { length rows.now.keys ≤ 4294967295 }
{
    match row {
        Row::Top => place(rows, Row::Bottom),
        Row::Bottom => place(rows, Row::Top),
        Row::Name(_) => place(rows, Row::Not(n)),
        Row::Not(part) => Some(part),
        Row::And(left, right) => {
            place(rows, Row::Or(entry_at(list, left)?, entry_at(list, right)?))
        }
        Row::Or(left, right) => {
            place(
                rows,
                Row::And(entry_at(list, left)?, entry_at(list, right)?),
            )
        }
        Row::HasSome(role, part) => place(rows, Row::HasAll(role, entry_at(list, part)?)),
        Row::HasAll(role, part) => place(rows, Row::HasSome(role, entry_at(list, part)?)),
    }
}

/// Per row the row of its complement in normal form, if there is one.
pub fn complement_rows(alloc: Global, rows: &IndexSet<Row>) -> Result<Vec<Option<u32>>, NoMemory>
    requires { length rows.now.keys ≤ 4294967295 }
{
    let mut list = Vec::new(alloc);
    for n in 0..rows.len() {
        let complement = match rows.get_index(n) {
            Some(row) => complement_of(rows, &list, n as u32, *row),
            None => None,
        };
        list.push(complement)?;
    }
    Ok(list)
}
