ghost use Rattle.std.specs.Prelude.{◌≡◌, ◌≢◌, Some, Err, option_map, is_some};
ghost use Rattle.serde_json.specs.Find.{get};
ghost use Rattle.serde_json.specs.View.{view, items_view};
ghost use Rattle.dd_json.specs.Members.{text_of, text_at, texts_of, texts_at, listed_at, number_of, maybe_number_at, indexes_of, indexes_at, items_at, presence, sized};
ghost use Rattle.dd_json.specs.Gives.{Gives, GivesSeen};

use crate::shape::{ShapeErr, Text};
use dd_concept::Items;
use serde_json::Value;
use std::alloc::Global;

/// The bytes of a string.
pub fn text_in(alloc: Global, value: &Value) -> Result<Text, ShapeErr>
    ensures { Gives result (text_of (view value.now)) }
{
    match value.as_str() {
        Some(text) => Ok(Items::from_slice(alloc, text.as_bytes())?),
        None => Err(ShapeErr::Shape),
    }
}

/// The bytes of a member that is a string.
pub fn text(alloc: Global, value: &Value, key: &str) -> Result<Text, ShapeErr>
    ensures { Gives result (text_at key.now (view value.now)) }
{
    match value.get(key) {
        Some(member) => text_in(alloc, member),
        None => Err(ShapeErr::Shape),
    }
}

/// A member that is a list, as its items.
pub fn list<'a>(value: &'a Value, key: &str) -> Result<&'a [Value], ShapeErr>
    ensures gives { GivesSeen (λ v. items_view v.now) result (items_at key.now (view value.now)) }
    ensures no_memory { result ≢ Err ShapeErr.NoMemory }
{
    match value.get(key).and_then(Value::as_array) {
        Some(list) => Ok(list.as_slice()),
        None => Err(ShapeErr::Shape),
    }
}

/// A member that is a list of strings.
pub fn texts(alloc: Global, value: &Value, key: &str) -> Result<Items<Text>, ShapeErr>
    ensures { Gives result (texts_at key.now (view value.now)) }
{
    all_texts(alloc, list(value, key)?)
}

fn all_texts(alloc: Global, list: &[Value]) -> Result<Items<Text>, ShapeErr>
    ensures { Gives result (texts_of (items_view list.now)) }
{
    let mut found = Items::new(alloc);
    for value in list {
        found.push(text_in(alloc, value)?)?;
    }
    Ok(found)
}

/// A member that is a list of strings, or the empty list where it is absent.
pub fn listed(alloc: Global, value: &Value, key: &str) -> Result<Items<Text>, ShapeErr>
    ensures { Gives result (listed_at key.now (view value.now)) }
{
    if has(value, key) {
        texts(alloc, value, key)
    } else {
        Ok(Items::new(alloc))
    }
}

/// A whole number from 0 to 18,446,744,073,709,551,615 that is written with digits alone.
pub fn number_in(value: &Value) -> Result<u64, ShapeErr>
    ensures gives { Gives result (number_of (view value.now)) }
    ensures no_memory { result ≢ Err ShapeErr.NoMemory }
{
    match value.as_u64() {
        Some(n) => Ok(n),
        None => Err(ShapeErr::Shape),
    }
}

/// A member that is such a number, where it is there.
pub fn maybe_number(value: &Value, key: &str) -> Result<Option<u64>, ShapeErr>
    ensures gives { Gives result (maybe_number_at key.now (view value.now)) }
    ensures no_memory { result ≢ Err ShapeErr.NoMemory }
{
    match value.get(key) {
        Some(member) => Ok(Some(number_in(member)?)),
        None => Ok(None),
    }
}

/// A member that is a list of such numbers, none above 4,294,967,295.
pub fn indexes(alloc: Global, value: &Value, key: &str) -> Result<Items<u32>, ShapeErr>
    ensures { Gives result (indexes_at key.now (view value.now)) }
{
    all_indexes(alloc, list(value, key)?)
}

fn all_indexes(alloc: Global, list: &[Value]) -> Result<Items<u32>, ShapeErr>
    ensures { Gives result (indexes_of (items_view list.now)) }
{
    let mut found = Items::new(alloc);
    for value in list {
        let n = number_in(value)?;
        if n > 4_294_967_295 {
            return Err(ShapeErr::Shape);
        }
        found.push(n as u32)?;
    }
    Ok(found)
}

/// Whether an object has the member, as a number to count with.
pub fn count_of(value: &Value, key: &str) -> usize
    ensures { result ≡ presence key.now (view value.now) }
{
    if has(value, key) { 1 } else { 0 }
}

/// Whether an object has the member.
pub fn has(value: &Value, key: &str) -> bool
    ensures { result ≡ is_some (get key.now (view value.now)) }
{
    value.get(key).is_some()
}

/// Asks that an object have so many members.
#[tactic(auto, using(crate::proofs::MemberCounts::count_of_members))]
pub fn wants_members(value: &Value, count: usize) -> Result<(), ShapeErr>
    ensures gives { Gives result (sized count (view value.now)) }
    ensures no_memory { result ≢ Err ShapeErr.NoMemory }
{
    let Some(members) = value.as_object() else {
        return Err(ShapeErr::Shape);
    };
    if members.len() == count {
        Ok(())
    } else {
        Err(ShapeErr::Shape)
    }
}
