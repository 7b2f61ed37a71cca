// The keys that a model of a peer raises.
ghost use Rattle.std.specs.Prelude.{◌≡◌, ◌++◌, ◌∷◌, [], if◌then◌else◌, IfOk, OnOk, fold, map};
ghost use Rattle.std.specs.List.{flat_map, list_any, range_with_len};
ghost use Rattle.dd_interp.specs.Satisfies.{IsShaped};
ghost use Rattle.dd_peer.specs.Rules.{rules_from};
ghost use Rattle.dd_task.specs.Demands.{raised_by, with_key};
ghost use Rattle.dd_task.specs.Tables.{elements_of, places_of, raised_by_table, raised_in, row_at, says, table_of, tables_of, taken_as};
ghost use Rattle.dd_task.specs.Keys.{is_same_key};

use crate::NoMemory;
use crate::goals::version_of;
use crate::job::Key;
use dd_concept::Items;
use dd_interp::{Interp, extension};
use dd_peer::{Pinned, Rule};
use std::alloc::Global;

/// The keys that the elements of a model of the peer raise, by element, by the other peer, and by the onto rule whose target the
/// element is in: each asks for an element outside the sources of those into rules whose targets the element is not in. A key
/// that is raised again stands at its first place.
pub fn demands_of(alloc: Global, p: &Pinned, peer: u32, i: &Interp) -> Result<Vec<Key>, NoMemory>
    requires { IsShaped i.now }
    ensures { IfOk result (λ keys. keys.items ≡ raised_by p.now peer i.now) }
{
    let tables = tables(alloc, p, peer, i)?;
    let keys = raised(alloc, tables.as_slice(), peer, i.size);
    drop(tables);
    Ok(keys?.into_vec())
}

/// The rules that a peer keeps from another, by what their targets say of each element of a model.
#[derive(Drop)]
struct Table {
    into: Items<Items<bool>>,
    onto: Items<Items<bool>>,
}

// ---- the tables

fn tables(alloc: Global, p: &Pinned, peer: u32, i: &Interp) -> Result<Items<Table>, NoMemory>
    requires { IsShaped i.now }
    ensures { IfOk result (λ ts. ts ≡ tables_of p.now peer i.now) }
{
    let elements = elements(alloc, i.size)?;
    let tables = tables_at(alloc, p, peer, i, elements.as_slice());
    drop(elements);
    tables
}

fn elements(alloc: Global, size: u32) -> Result<Vec<u32>, NoMemory>
    ensures { IfOk result (λ xs. xs.items ≡ range_with_len 0 size) }
{
    let mut elements = Vec::new(alloc);
    for x in 0..size {
        elements.push(x)?;
    }
    Ok(elements)
}

fn tables_at(
    alloc: Global,
    p: &Pinned,
    peer: u32,
    i: &Interp,
    elements: &[u32],
) -> Result<Items<Table>, NoMemory>
    requires shaped { IsShaped i.now }
    requires elements { elements.now ≡ elements_of i.now }
    ensures { IfOk result (λ ts. ts ≡ tables_of p.now peer i.now) }
{
    let mut tables = Items::new(alloc);
    for h in 0..p.peers.as_slice().len() {
        let Ok(from) = u32::try_from(h) else {
            return Err(NoMemory);
        };
        tables.push(table_from(alloc, p, peer, i, elements, from)?)?;
    }
    Ok(tables)
}

fn table_from(
    alloc: Global,
    p: &Pinned,
    peer: u32,
    i: &Interp,
    elements: &[u32],
    from: u32,
) -> Result<Table, NoMemory>
    requires shaped { IsShaped i.now }
    requires elements { elements.now ≡ elements_of i.now }
    ensures { IfOk result (λ t. t ≡ table_of p.now peer i.now from) }
{
    match version_of(p, peer) {
        Some(version) => {
            let into = rows(alloc, i, elements, version.into.as_slice(), from)?;
            Ok(Table {
                into,
                onto: rows(alloc, i, elements, version.onto.as_slice(), from)?,
            })
        }
        None => Ok(Table {
            into: Items::new(alloc),
            onto: Items::new(alloc),
        }),
    }
}

// What the target of each rule from this peer says of each element.
fn rows(
    alloc: Global,
    i: &Interp,
    elements: &[u32],
    rules: &[Rule],
    from: u32,
) -> Result<Items<Items<bool>>, NoMemory>
    requires shaped { IsShaped i.now }
    requires elements { elements.now ≡ elements_of i.now }
    ensures { IfOk result (λ rs. rs ≡ map (row_at i.now elements.now) (rules_from rules.now from)) }
{
    let mut rows = Items::new(alloc);
    for rule in rules {
        if rule.from == from {
            rows.push(row(alloc, i, elements, rule)?)?;
        }
    }
    Ok(rows)
}

fn row(alloc: Global, i: &Interp, elements: &[u32], rule: &Rule) -> Result<Items<bool>, NoMemory>
    requires shaped { IsShaped i.now }
    requires elements { elements.now ≡ elements_of i.now }
    ensures { IfOk result (λ r. r ≡ row_at i.now elements.now rule.now) }
{
    Ok(Items::from_vec(extension(alloc, i, elements, &rule.target)?))
}

// ---- the keys

fn raised(alloc: Global, tables: &[Table], peer: u32, size: u32) -> Result<Items<Key>, NoMemory>
    ensures { IfOk result (λ keys. keys ≡ fold with_key [] (flat_map (raised_in tables.now peer) (range_with_len 0 size))) }
{
    let mut keys = Items::new(alloc);
    for x in 0..size {
        raise_at(alloc, tables, peer, x, &mut keys)?;
    }
    Ok(keys)
}

// Adds the keys that the element raises.
fn raise_at(
    alloc: Global,
    tables: &[Table],
    peer: u32,
    x: u32,
    keys: &mut Items<Key>,
) -> Result<(), NoMemory>
    ensures { OnOk result (keys.new ≡ fold with_key keys.old (raised_in tables.now peer x)) }
{
    for h in 0..tables.len() {
        let Ok(from) = u32::try_from(h) else {
            return Err(NoMemory);
        };
        raise_from(alloc, &tables[h], from, peer, x, keys)?;
    }
    Ok(())
}

// Adds those that it raises at one other peer.
fn raise_from(
    alloc: Global,
    table: &Table,
    from: u32,
    peer: u32,
    x: u32,
    keys: &mut Items<Key>,
) -> Result<(), NoMemory>
    ensures { OnOk result (keys.new ≡ fold with_key keys.old (raised_by_table from peer x table.now)) }
{
    let asked = places(alloc, table.onto.as_slice(), x, true)?;
    let set = places(alloc, table.into.as_slice(), x, false)?;
    raise_each(alloc, from, peer, asked.as_slice(), set.as_slice(), keys)
}

fn raise_each(
    alloc: Global,
    from: u32,
    peer: u32,
    asked: &[u32],
    set: &[u32],
    keys: &mut Items<Key>,
) -> Result<(), NoMemory>
    ensures { OnOk result (keys.new ≡ fold with_key keys.old (map (λ o. Key.Asked from peer o set.now) asked.now)) }
{
    for o in asked {
        raise(alloc, from, peer, *o, set, keys)?;
    }
    Ok(())
}

// Adds a key where it is not there yet.
fn raise(
    alloc: Global,
    from: u32,
    to: u32,
    onto: u32,
    into_set: &[u32],
    keys: &mut Items<Key>,
) -> Result<(), NoMemory>
    ensures { OnOk result (keys.new ≡ with_key keys.old (Key.Asked from to onto into_set.now)) }
{
    if has_asked(keys.as_slice(), from, to, onto, into_set) {
        return Ok(());
    }
    keys.push(Key::Asked {
        from,
        to,
        onto,
        into_set: Items::from_slice(alloc, into_set)?,
    })
}

fn has_asked(keys: &[Key], from: u32, to: u32, onto: u32, into_set: &[u32]) -> bool
    ensures { result ≡ list_any (is_same_key (Key.Asked from to onto into_set.now)) keys.now }
{
    keys.iter().any(|k| is_asked(k, from, to, onto, into_set))
}

fn is_asked(key: &Key, h: u32, i: u32, o: u32, set: &[u32]) -> bool
    ensures { result ≡ is_same_key (Key.Asked h i o set.now) key.now }
{
    match key {
        Key::Root => false,
        Key::Asked {
            from,
            to,
            onto,
            into_set,
        } => h == *from && i == *to && o == *onto && set == into_set.as_slice(),
    }
}

// The places of the rows that say this of the element.
fn places(alloc: Global, rows: &[Items<bool>], x: u32, wanted: bool) -> Result<Items<u32>, NoMemory>
    ensures { IfOk result (λ ks. ks ≡ places_of wanted x rows.now) }
{
    let mut places = Items::new(alloc);
    for k in 0..rows.len() {
        let Ok(place) = u32::try_from(k) else {
            return Err(NoMemory);
        };
        push_where(&mut places, place, is_said(rows[k].as_slice(), x, wanted))?;
    }
    Ok(places)
}

fn push_where(places: &mut Items<u32>, place: u32, is_one: bool) -> Result<(), NoMemory>
    ensures { OnOk result (places.new ≡ places.old ++ (if is_one then place ∷ [] else [])) }
{
    if is_one {
        return places.push(place);
    }
    Ok(())
}

fn is_said(row: &[bool], x: u32, wanted: bool) -> bool
    ensures { result ≡ taken_as wanted (says x row.now) }
{
    match row.get(x as usize) {
        Some(said) => *said == wanted,
        None => !wanted,
    }
}
