use crate::rows::{Failure, check_one};
use bumpalo::Bump;
use dd_set::{Bits, Marked, NoMemory, numbers_in, numbers_of};
use dd_table::Table;
use std::alloc::Global;

/// The width of all labels here.
const WIDTH: u32 = 130;

/// Puts the numbers that are below the label's width into it.
fn put(label: &mut Bits, numbers: &[u32]) {
    for n in numbers {
        if *n < label.width() {
            label.insert(*n);
        }
    }
}

fn label(alloc: Global, numbers: &[u32]) -> Result<Bits, NoMemory> {
    let mut label = Bits::new(alloc, WIDTH)?;
    put(&mut label, numbers);
    Ok(label)
}

/// Whether the label has these numbers alone.
fn has_only(alloc: Global, label: &Bits, numbers: &[u32]) -> Result<bool, NoMemory> {
    let listed = numbers_of(alloc, label)?;
    let are_listed = listed.as_slice() == numbers;
    drop(listed);
    let found = numbers_in(alloc, label.width(), label.words())?;
    let are_found = found.as_slice() == numbers;
    drop(found);
    Ok(are_listed && are_found)
}

/// A copy with one number more, and once more by its words.
fn grows(alloc: Global, label: &Bits) -> Result<bool, NoMemory> {
    let mut more = label.copy(alloc)?;
    put(&mut more, &[64]);
    let is_right = has_only(alloc, &more, &[1, 64, 65]);
    drop(more);
    is_right
}

fn stays(alloc: Global, label: &Bits) -> Result<bool, NoMemory> {
    let again = Bits::from_words(alloc, label.width(), label.words())?;
    let is_right = has_only(alloc, &again, &[1, 65]);
    drop(again);
    is_right
}

fn are_sets(alloc: Global) -> Result<bool, NoMemory> {
    let label = label(alloc, &[65, 1, 65, 200])?;
    let is_right = match grows(alloc, &label) {
        Ok(true) => stays(alloc, &label),
        other => other,
    };
    drop(label);
    is_right
}

#[test]
fn labels_are_sets(rt: HostRuntime) -> Result<(), Failure> {
    check_one(are_sets(rt.alloc()))
}

/// The number of a label and whether it is new, or 99 where the label has another width.
fn interned(
    alloc: Global,
    table: &mut Table<'_>,
    numbers: &[u32],
) -> Result<(u32, bool), NoMemory> {
    let label = label(alloc, numbers)?;
    let given = if label.width() == table.width() {
        table.intern(alloc, &label)
    } else {
        Ok((99, false))
    };
    drop(label);
    given
}

/// The first step that gets another answer.
fn first_wrong(
    alloc: Global,
    table: &mut Table<'_>,
    steps: &[(&[u32], u32, bool)],
) -> Result<Option<usize>, NoMemory> {
    for (i, (numbers, number, is_new)) in steps.iter().enumerate() {
        let given = interned(alloc, table, numbers)?;
        if given.0 != *number || given.1 != *is_new {
            return Ok(Some(i));
        }
    }
    Ok(None)
}

const STEPS: &[(&[u32], u32, bool)] = &[
    (&[1, 65], 0, true),
    (&[1, 65], 0, false),
    (&[65], 1, true),
    (&[], 2, true),
    (&[65], 1, false),
];

/// Whether the table finds the label with these numbers at this place.
fn is_found(
    alloc: Global,
    table: &Table<'_>,
    numbers: &[u32],
    wanted: Option<u32>,
) -> Result<bool, NoMemory> {
    let label = label(alloc, numbers)?;
    let place = table.find(&label);
    drop(label);
    Ok(place == wanted)
}

/// Whether the first label of the table is {1, 65}.
fn is_kept(alloc: Global, table: &Table<'_>) -> Result<bool, NoMemory> {
    if table.len() != 3 {
        return Ok(false);
    }
    let view = table.label(0);
    if !view.contains(65) || view.contains(64) || view.next_from(2) != Some(65) {
        return Ok(false);
    }
    let label = view.to_bits(alloc)?;
    let is_right = has_only(alloc, &label, &[1, 65]);
    drop(label);
    is_right
}

fn are_numbered(alloc: Global, table: &mut Table<'_>) -> Result<bool, NoMemory> {
    let wrong = first_wrong(alloc, table, STEPS)?;
    let is_there = is_found(alloc, table, &[65], Some(1))?;
    let is_absent = is_found(alloc, table, &[1], None)?;
    let is_kept = is_kept(alloc, table)?;
    Ok(wrong.is_none() && is_there && is_absent && is_kept)
}

fn table_numbers(alloc: Global) -> Result<bool, NoMemory> {
    let arena = Bump::new(alloc);
    let mut table = Table::new(alloc, &arena, WIDTH)?;
    let is_right = are_numbered(alloc, &mut table);
    drop(table);
    is_right
}

#[test]
fn equal_labels_have_one_number(rt: HostRuntime) -> Result<(), Failure> {
    check_one(table_numbers(rt.alloc()))
}

fn arrive(alloc: Global) -> Result<bool, NoMemory> {
    let mut marked = Marked::new(alloc, 5)?;
    let are_new = marked.add(3) && marked.add(1) && !marked.add(3);
    let are_there = marked.has(1) && !marked.has(0) && !marked.has(7);
    let is_order_kept = marked.as_slice() == [3, 1].as_slice() && marked.get(1) == Some(1);
    let is_size_right = marked.len() == 2 && marked.bound() == 5 && marked.get(2).is_none();
    drop(marked);
    Ok(are_new && are_there && is_order_kept && is_size_right)
}

#[test]
fn numbers_arrive_once(rt: HostRuntime) -> Result<(), Failure> {
    check_one(arrive(rt.alloc()))
}
