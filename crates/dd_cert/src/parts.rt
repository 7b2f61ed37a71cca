ghost use Rattle.std.specs.Prelude.{◌≡◌, IfOk};
ghost use Rattle.std.specs.Str.{IsUtf8};
ghost use Rattle.serde_json.specs.Data.{put, string};
ghost use Rattle.serde_json.specs.View.{view, members_view};
ghost use Rattle.dd_cert.specs.Printed.{head_members, numbers_data, whole_number};

use dd_concept::NoMemory;
use serde_json::{Map, Value, put};
use std::alloc::Global;
use std::str::from_utf8;

/// What a certificate of each kind begins with.
pub fn head(alloc: Global, kind: &str) -> Result<Map<String, Value>, NoMemory>
    ensures { IfOk result (λ new. members_view new.entries ≡ head_members kind.now) }
{
    let kind = Value::try_from_str(alloc, kind)?;
    let members = with_number(alloc, Map::new(alloc), "format", 1)?;
    with(alloc, members, "kind", kind)
}

/// The members and one more, each at its place in the byte order of their names.
pub fn with(
    alloc: Global,
    mut members: Map<String, Value>,
    name: &str,
    value: Value,
) -> Result<Map<String, Value>, NoMemory>
    ensures { IfOk result (λ new. members_view new.entries ≡ put name.now (view value) (members_view members.entries)) }
{
    put(&mut members, alloc, name, value)?;
    Ok(members)
}

/// The members and one more that is a number.
pub fn with_number(
    alloc: Global,
    members: Map<String, Value>,
    name: &str,
    n: u32,
) -> Result<Map<String, Value>, NoMemory>
    ensures { IfOk result (λ new. members_view new.entries ≡ put name.now (whole_number n) (members_view members.entries)) }
{
    with(alloc, members, name, Value::from(n))
}

/// The value of a text.
pub fn text_value(alloc: Global, text: &[u8]) -> Result<Value, NoMemory>
    requires { IsUtf8 text.now }
    ensures { IfOk result (λ v. view v ≡ string text.now) }
{
    match from_utf8(text) {
        Ok(text) => Value::try_from_str(alloc, text),
        Err(_) => unreachable!(),
    }
}

/// A list of numbers.
pub fn numbers(alloc: Global, list: &[u32]) -> Result<Value, NoMemory>
    ensures { IfOk result (λ v. view v ≡ numbers_data list.now) }
{
    let mut values = Vec::new(alloc);
    for n in list {
        values.push(Value::from(*n))?;
    }
    Ok(Value::Array(values))
}
