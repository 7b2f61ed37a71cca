ghost use Rattle.std.specs.Prelude.{◌≡◌, IfOk, IsTrue, codes};
ghost use Rattle.serde_json.specs.Data.{put, string, object, member, no_members};
ghost use Rattle.serde_json.specs.View.{view, members_view};
ghost use Rattle.dd_text.specs.Names.{names_a_thing};
ghost use Rattle.dd_wire.specs.Replies.{numbers, whole_number, verdict_name, origin_name, decided_data, run_data, verdicts_data, memory_data, unread_number, unread_text, placed_fault, fault_data, unread_data, reply_data, reply_text, IsPrintable};
ghost use Rattle.dd_wire.specs.Steps.{put_maybe, ask_members, spent_members, outcome_members};

use crate::code::name_of;
use crate::reply::{BadWorld, Origin, Reply, Unread};
use dd_concept::NoMemory;
use dd_peer::Pin;
use serde_json::{Map, Value, put};
use std::alloc::Global;
use std::str::from_utf8;

/// The text of a reply: compact JSON, its members in the byte order of their names, with no line feed.
pub fn print_reply(alloc: Global, reply: &Reply) -> Result<Vec<u8>, NoMemory>
    requires { IsPrintable reply.now }
    ensures { IfOk result (λ text. text.items ≡ reply_text reply.now) }
{
    let value = value_of(alloc, reply)?;
    value.to_vec(alloc)
}

fn value_of(alloc: Global, reply: &Reply) -> Result<Value, NoMemory>
    requires { IsPrintable reply.now }
    ensures { IfOk result (λ value. view value ≡ reply_data reply.now) }
{
    match reply {
        Reply::Refused { id, code, n } => refused(alloc, *id, *code, *n),
        Reply::Peers { id, count } => peers(alloc, *id, *count),
        Reply::Put { id, put, version } => stored(alloc, *id, put.as_slice(), *version),
        Reply::Decided {
            id,
            yes,
            from,
            pin,
            cert,
        } => decided(alloc, *id, *yes, from, pin, cert),
        Reply::RunSpent {
            id,
            count,
            peer,
            from,
            pin,
        } => run_spent(alloc, *id, *count, *peer, from, pin),
        Reply::VerdictsSpent {
            id,
            count,
            from,
            pin,
        } => verdicts_spent(alloc, *id, *count, from, pin),
        Reply::Memory { id, from, pin } => memory(alloc, *id, from, pin),
        Reply::Valid { id } => valid(alloc, *id),
        Reply::InvalidLines { id, at } => invalid_lines(alloc, *id, *at),
        Reply::InvalidWorld { id, fault } => invalid(alloc, *id, fault),
        Reply::Unreadable { id, what } => unreadable(alloc, *id, what),
        Reply::Versions { id, versions } => versions_of(alloc, *id, versions),
    }
}

fn refused(alloc: Global, id: u64, code: u8, n: Option<u64>) -> Result<Value, NoMemory>
    ensures { IfOk result (λ value. view value ≡ reply_data (Reply.Refused id code n)) }
{
    let reply = of_request(alloc, id)?;
    let reply = with(alloc, reply, "code", Value::from(code))?;
    let reply = with_text(alloc, reply, "error", name_of(code))?;
    numbered(alloc, reply, n)
}

/// The refusal with these members, and with its number where it has one.
fn numbered(alloc: Global, reply: Map<String, Value>, n: Option<u64>) -> Result<Value, NoMemory>
    ensures { IfOk result (λ value. view value ≡ object (put_maybe (codes "n") n (members_view reply.entries))) }
{
    match n {
        Some(n) => Ok(Value::Object(with(alloc, reply, "n", Value::from(n))?)),
        None => Ok(Value::Object(reply)),
    }
}

fn peers(alloc: Global, id: u64, count: u32) -> Result<Value, NoMemory>
    ensures { IfOk result (λ value. view value ≡ reply_data (Reply.Peers id count)) }
{
    let reply = of_request(alloc, id)?;
    let reply = with(alloc, reply, "peers", Value::from(count))?;
    Ok(Value::Object(reply))
}

fn stored(alloc: Global, id: u64, peer: &[u8], version: u32) -> Result<Value, NoMemory>
    requires { IsTrue (names_a_thing peer.now) }
    ensures { IfOk result (λ value. view value ≡ reply_data (Reply.Put id peer.now version)) }
{
    let reply = of_request(alloc, id)?;
    let reply = with_text(alloc, reply, "put", name_text(peer))?;
    let reply = with(alloc, reply, "version", Value::from(version))?;
    Ok(Value::Object(reply))
}

fn name_text(name: &[u8]) -> &str
    requires { IsTrue (names_a_thing name.now) }
    ensures { result.now ≡ name.now }
{
    match from_utf8(name) {
        Ok(text) => text,
        Err(_) => unreachable!(),
    }
}

fn decided(
    alloc: Global,
    id: u64,
    yes: bool,
    from: &Origin,
    pin: &Pin,
    cert: &Value,
) -> Result<Value, NoMemory>
    ensures { IfOk result (λ value. view value ≡ decided_data id (verdict_name yes) from.now pin.now.versions (view cert.now)) }
{
    let reply = of_ask(alloc, id, from, pin, verdict(yes))?;
    with_copy(alloc, reply, "cert", cert)
}

/// The reply with these members, and with one more that is copied.
fn with_copy(
    alloc: Global,
    reply: Map<String, Value>,
    name: &str,
    value: &Value,
) -> Result<Value, NoMemory>
    ensures { IfOk result (λ new. view new ≡ object (put name.now (view value.now) (members_view reply.entries))) }
{
    let copy = value.clone()?;
    Ok(Value::Object(with(alloc, reply, name, copy)?))
}

fn run_spent(
    alloc: Global,
    id: u64,
    count: u64,
    peer: u32,
    from: &Origin,
    pin: &Pin,
) -> Result<Value, NoMemory>
    ensures { IfOk result (λ value. view value ≡ run_data id count peer from.now pin.now.versions) }
{
    let reply = spent(alloc, id, from, pin, "run")?;
    let reply = with(alloc, reply, "count", Value::from(count))?;
    let reply = with(alloc, reply, "peer", Value::from(peer))?;
    Ok(Value::Object(reply))
}

fn verdicts_spent(
    alloc: Global,
    id: u64,
    count: u64,
    from: &Origin,
    pin: &Pin,
) -> Result<Value, NoMemory>
    ensures { IfOk result (λ value. view value ≡ verdicts_data id count from.now pin.now.versions) }
{
    let reply = spent(alloc, id, from, pin, "verdicts")?;
    let reply = with(alloc, reply, "count", Value::from(count))?;
    Ok(Value::Object(reply))
}

fn memory(alloc: Global, id: u64, from: &Origin, pin: &Pin) -> Result<Value, NoMemory>
    ensures { IfOk result (λ value. view value ≡ memory_data id from.now pin.now.versions) }
{
    let reply = of_ask(alloc, id, from, pin, "memory")?;
    Ok(Value::Object(reply))
}

fn versions_of(alloc: Global, id: u64, versions: &Pin) -> Result<Value, NoMemory>
    ensures { IfOk result (λ value. view value ≡ reply_data (Reply.Versions id versions.now)) }
{
    let reply = of_request(alloc, id)?;
    let reply = with_numbers(alloc, reply, "versions", versions.versions.as_slice())?;
    Ok(Value::Object(reply))
}

fn valid(alloc: Global, id: u64) -> Result<Value, NoMemory>
    ensures { IfOk result (λ value. view value ≡ reply_data (Reply.Valid id)) }
{
    let reply = of_check(alloc, id, "valid")?;
    Ok(Value::Object(reply))
}

fn invalid_lines(alloc: Global, id: u64, at: u32) -> Result<Value, NoMemory>
    ensures { IfOk result (λ value. view value ≡ reply_data (Reply.InvalidLines id at)) }
{
    let reply = of_check(alloc, id, "invalid")?;
    let reply = with(alloc, reply, "at", Value::from(at))?;
    Ok(Value::Object(reply))
}

fn invalid(alloc: Global, id: u64, fault: &BadWorld) -> Result<Value, NoMemory>
    ensures { IfOk result (λ value. view value ≡ fault_data id fault.now) }
{
    match fault {
        BadWorld::Shape => check_with(alloc, id, "invalid", "fault", "shape"),
        BadWorld::NotCounter => check_with(alloc, id, "invalid", "fault", "not_counter"),
        BadWorld::Axiom { index, peer } => at_place(alloc, id, "axiom", *index, *peer),
        BadWorld::Into { index, peer } => at_place(alloc, id, "into", *index, *peer),
        BadWorld::Onto { index, peer } => at_place(alloc, id, "onto", *index, *peer),
    }
}

/// The reply to a check with this outcome and one more member.
fn check_with(
    alloc: Global,
    id: u64,
    outcome: &str,
    name: &str,
    text: &str,
) -> Result<Value, NoMemory>
    ensures { IfOk result (λ value. view value ≡ object (put name.now (string text.now) (outcome_members outcome.now id))) }
{
    let reply = of_check(alloc, id, outcome)?;
    let reply = with_text(alloc, reply, name, text)?;
    Ok(Value::Object(reply))
}

fn at_place(alloc: Global, id: u64, fault: &str, index: u32, peer: u32) -> Result<Value, NoMemory>
    ensures { IfOk result (λ value. view value ≡ placed_fault fault.now id index peer) }
{
    let reply = of_check(alloc, id, "invalid")?;
    let reply = with_text(alloc, reply, "fault", fault)?;
    let reply = with(alloc, reply, "index", Value::from(index))?;
    let reply = with(alloc, reply, "peer", Value::from(peer))?;
    Ok(Value::Object(reply))
}

fn unreadable(alloc: Global, id: u64, what: &Unread) -> Result<Value, NoMemory>
    ensures { IfOk result (λ value. view value ≡ unread_data id what.now) }
{
    match what {
        Unread::Field(field) => check_with(alloc, id, "unreadable", "field", *field),
        Unread::Place { place, value } => large_number(alloc, id, *place, *value),
        Unread::Text(index) => bad_text(alloc, id, *index),
    }
}

fn large_number(alloc: Global, id: u64, place: u32, value: u64) -> Result<Value, NoMemory>
    ensures { IfOk result (λ reply. view reply ≡ unread_number place value id) }
{
    let reply = of_check(alloc, id, "unreadable")?;
    let reply = with(alloc, reply, "place", Value::from(place))?;
    let reply = with(alloc, reply, "value", Value::from(value))?;
    Ok(Value::Object(reply))
}

fn bad_text(alloc: Global, id: u64, index: u32) -> Result<Value, NoMemory>
    ensures { IfOk result (λ value. view value ≡ unread_text index id) }
{
    let reply = of_check(alloc, id, "unreadable")?;
    let reply = with(alloc, reply, "text", Value::from(index))?;
    Ok(Value::Object(reply))
}

fn verdict(yes: bool) -> &'static str
    ensures { result.now ≡ verdict_name yes }
{
    if yes { "yes" } else { "no" }
}

/// The members of a reply to a request.
fn of_request(alloc: Global, id: u64) -> Result<Map<String, Value>, NoMemory>
    ensures { IfOk result (λ new. members_view new.entries ≡ member (codes "id") (whole_number id) no_members) }
{
    with(alloc, Map::new(alloc), "id", Value::from(id))
}

/// The members of a reply to an ask, with this verdict.
fn of_ask(
    alloc: Global,
    id: u64,
    from: &Origin,
    pin: &Pin,
    verdict: &str,
) -> Result<Map<String, Value>, NoMemory>
    ensures { IfOk result (λ new. members_view new.entries ≡ ask_members id from.now pin.now.versions verdict.now) }
{
    let reply = of_request(alloc, id)?;
    let reply = with_text(alloc, reply, "from", origin(from))?;
    let reply = with_numbers(alloc, reply, "pin", pin.versions.as_slice())?;
    with_text(alloc, reply, "verdict", verdict)
}

/// The members of a reply to an ask, where this was spent.
fn spent(
    alloc: Global,
    id: u64,
    from: &Origin,
    pin: &Pin,
    what: &str,
) -> Result<Map<String, Value>, NoMemory>
    ensures { IfOk result (λ new. members_view new.entries ≡ spent_members id from.now pin.now.versions what.now) }
{
    let reply = of_ask(alloc, id, from, pin, "spent")?;
    with_text(alloc, reply, "spent", what)
}

fn origin(from: &Origin) -> &'static str
    ensures { result.now ≡ origin_name from.now }
{
    match from {
        Origin::Search => "search",
        Origin::Cache => "cache",
    }
}

/// The members of a reply to a check.
fn of_check(alloc: Global, id: u64, outcome: &str) -> Result<Map<String, Value>, NoMemory>
    ensures { IfOk result (λ new. members_view new.entries ≡ outcome_members outcome.now id) }
{
    let reply = of_request(alloc, id)?;
    with_text(alloc, reply, "check", outcome)
}

/// The members and one more, each at its place in the byte order of their names.
fn with(
    alloc: Global,
    mut members: Map<String, Value>,
    name: &str,
    value: Value,
) -> Result<Map<String, Value>, NoMemory>
    ensures { IfOk result (λ new. members_view new.entries ≡ put name.now (view value) (members_view members.entries)) }
{
    put(&mut members, alloc, name, value)?;
    Ok(members)
}

fn with_text(
    alloc: Global,
    members: Map<String, Value>,
    name: &str,
    text: &str,
) -> Result<Map<String, Value>, NoMemory>
    ensures { IfOk result (λ new. members_view new.entries ≡ put name.now (string text.now) (members_view members.entries)) }
{
    let text = Value::try_from_str(alloc, text)?;
    with(alloc, members, name, text)
}

fn with_numbers(
    alloc: Global,
    members: Map<String, Value>,
    name: &str,
    list: &[u32],
) -> Result<Map<String, Value>, NoMemory>
    ensures { IfOk result (λ new. members_view new.entries ≡ put name.now (numbers list.now) (members_view members.entries)) }
{
    let list = list_of(alloc, list)?;
    with(alloc, members, name, list)
}

fn list_of(alloc: Global, list: &[u32]) -> Result<Value, NoMemory>
    ensures { IfOk result (λ value. view value ≡ numbers list.now) }
{
    let mut values = Vec::new(alloc);
    for n in list {
        values.push(Value::from(*n))?;
    }
    Ok(Value::Array(values))
}
