ghost use Rattle.std.specs.Prelude.{◌≡◌, ◌<◌, ◌≤◌, ℕ, true, [], List, Option, IfOk, OnOk, length, None, Some, slice_get};
ghost use Rattle.std.specs.List.{list_any, slice_index_or};
ghost use Rattle.dd_rules.specs.Index.{Among, IsIndex, Lists, is_among, is_named};

use crate::tables::{AxiomNumbers, axiom_at};
use dd_concept::{Items, NoMemory};
use std::alloc::Global;

/// For each number the axioms that have it as a name of their left side, and the axioms whose left side has no name.
#[derive(Drop)]
pub(crate) struct Index {
    pub lists: Vec<Items<u32>>,
    pub plain: Items<u32>,
}

/// The index of the axioms.
pub(crate) fn index_of(
    alloc: Global,
    count: u32,
    axioms: &[AxiomNumbers],
) -> Result<Index, NoMemory>
    requires { length axioms.now ≤ 4294967295 }
    ensures index { IfOk result (λ i. IsIndex axioms.now i.lists.items i.plain) }
    ensures count { IfOk result (λ i. length i.lists.items ≡ count) }
{
    let mut index = Index {
        lists: empty_lists(alloc, count)?,
        plain: Items::new(alloc),
    };
    note_all(&mut index.lists, &mut index.plain, axioms)?;
    Ok(index)
}

fn empty_lists(alloc: Global, count: u32) -> Result<Vec<Items<u32>>, NoMemory>
    ensures { IfOk result (λ v. length v.items ≡ count) }
{
    let mut lists = Vec::new(alloc);
    for _ in 0..count {
        lists.push(Items::new(alloc))?;
    }
    Ok(lists)
}

fn note_all(
    lists: &mut Vec<Items<u32>>,
    plain: &mut Items<u32>,
    axioms: &[AxiomNumbers],
) -> Result<(), NoMemory>
    requires { length axioms.now ≤ 4294967295 }
    ensures index { OnOk result (IsIndex axioms.now lists.new.items plain.new) }
    ensures count { OnOk result (length lists.new.items ≡ length lists.old.items) }
{
    let count = axioms.len() as u32;
    for k in 0..count {
        note(lists, plain, k, axiom_at(axioms, k))?;
    }
    Ok(())
}

/// Lists an axiom under its number.
fn note(
    lists: &mut Vec<Items<u32>>,
    plain: &mut Items<u32>,
    k: u32,
    row: &AxiomNumbers,
) -> Result<(), NoMemory>
    ensures named { OnOk result ((n : ℕ) (names : List (Option ℕ)) → row.now.joined ≡ Some names → list_any (is_named n) names ≡ true → n < length lists.old.items → is_among (slice_index_or lists.new.items n []) k ≡ true) }
    ensures unnamed { OnOk result (row.now.joined ≡ Some [] → is_among plain.new k ≡ true) }
    ensures lists { OnOk result (Lists lists.old.items lists.new.items) }
    ensures plain { OnOk result (Among plain.old plain.new) }
    ensures count { OnOk result (length lists.new.items ≡ length lists.old.items) }
{
    let Some(names) = &row.joined else {
        return Ok(());
    };
    if names.as_slice().is_empty() {
        return plain.push(k);
    }
    note_names(lists, k, names.as_slice())
}

/// Lists the axiom at the number of each of the names.
fn note_names(lists: &mut Vec<Items<u32>>, k: u32, names: &[Option<u32>]) -> Result<(), NoMemory>
    ensures named { OnOk result ((n : ℕ) → list_any (is_named n) names.now ≡ true → n < length lists.old.items → is_among (slice_index_or lists.new.items n []) k ≡ true) }
    ensures lists { OnOk result (Lists lists.old.items lists.new.items) }
    ensures count { OnOk result (length lists.new.items ≡ length lists.old.items) }
{
    for i in 0..names.len() {
        note_name(lists, k, name_at(names, i))?;
    }
    Ok(())
}

fn name_at(names: &[Option<u32>], i: usize) -> Option<u32>
    requires { i < length names.now }
    ensures { slice_get names.now i ≡ Some result }
{
    names[i]
}

fn note_name(lists: &mut Vec<Items<u32>>, k: u32, name: Option<u32>) -> Result<(), NoMemory>
    ensures named { OnOk result ((n : ℕ) → is_named n name ≡ true → n < length lists.old.items → is_among (slice_index_or lists.new.items n []) k ≡ true) }
    ensures lists { OnOk result (Lists lists.old.items lists.new.items) }
    ensures count { OnOk result (length lists.new.items ≡ length lists.old.items) }
{
    let Some(n) = name else {
        return Ok(());
    };
    if n as usize >= lists.len() {
        return Ok(());
    }
    let list = &mut lists[n as usize];
    list.push(k)
}

/// The axioms that are listed at the number.
pub(crate) fn list_at(lists: &[Items<u32>], n: u32) -> &[u32]
    ensures { result.now ≡ slice_index_or lists.now n [] }
{
    match lists.get(n as usize) {
        Some(list) => list.as_slice(),
        None => &[],
    }
}
