ghost use Rattle.std.specs.Prelude.{◌≡◌};
ghost use Rattle.serde_json.specs.View.{view, items_view};
ghost use Rattle.dd_json.specs.Gives.{Gives};
ghost use Rattle.dd_cert.specs.Forms.{each_of, link_in, name_in, role_in, link_of, name_of, role_of, local_of, one, format_at, kind_named, members_of, kind_at, links_at, locals_at};
ghost use Rattle.dd_cert.specs.Certificates.{cert_form, form_by, world_form};
ghost use Rattle.dd_cert.specs.Steps.{Finds, IsTold, size_at};
ghost use Rattle.dd_cert.specs.declared.form.Kind.TheVariants as kind;

use crate::form::{CertForm, Kind, LocalForm, WorldForm};
use crate::line_shape::lines_in;
use crate::read::CertErr;
use dd_concept::Items;
use dd_json::{ShapeErr, Text, count_of, list, number_in, text, text_in, wants_members};
use serde_json::Value;
use std::alloc::Global;

/// The certificate as it is written.
#[tactic(auto, unfolding(crate::specs::Certificates::cert_form))]
pub fn cert_form(alloc: Global, value: &Value) -> Result<CertForm, CertErr>
    ensures { Finds result (cert_form (view value.now)) }
{
    if let Err(e) = format(value) {
        return Err(at_field(e, "format"));
    }
    match kind(alloc, value) {
        Ok(kind) => form_by(alloc, kind, value),
        Err(e) => Err(at_field(e, "kind")),
    }
}

fn form_by(alloc: Global, kind: Kind, value: &Value) -> Result<CertForm, CertErr>
    ensures { Finds result (form_by kind (view value.now)) }
{
    match kind {
        Kind::Yes => derivation(alloc, value),
        Kind::No => Ok(CertForm::No(world(alloc, value)?)),
    }
}

/// The derivation as it is written in a certificate of kind `yes`.
fn derivation(alloc: Global, value: &Value) -> Result<CertForm, CertErr>
    ensures { Finds result (form_by kind.Yes (view value.now)) }
{
    match lines_in(alloc, value) {
        Ok(lines) => Ok(CertForm::Yes(lines)),
        Err(e) => Err(at_field(e, "lines")),
    }
}

/// The world as it is written in a certificate of kind `no`.
#[tactic(auto, unfolding(crate::specs::Certificates::world_form))]
fn world(alloc: Global, value: &Value) -> Result<WorldForm, CertErr>
    ensures { Finds result (world_form (view value.now)) }
{
    let links = match links_in(alloc, value) {
        Ok(links) => links,
        Err(e) => return Err(at_field(e, "links")),
    };
    let locals = match locals_in(alloc, value) {
        Ok(locals) => locals,
        Err(e) => return Err(at_field(e, "locals")),
    };
    Ok(WorldForm { links, locals })
}

fn at_field(e: ShapeErr, field: &'static str) -> CertErr
    ensures { IsTold field.entry.now e result }
{
    match e {
        ShapeErr::Shape => CertErr::Shape { field },
        ShapeErr::NoMemory => CertErr::NoMemory,
    }
}

fn format(value: &Value) -> Result<(), ShapeErr>
    ensures { Gives result (format_at (view value.now)) }
{
    match value.get("format") {
        Some(member) => wants_one(number_in(member)?),
        None => Err(ShapeErr::Shape),
    }
}

fn wants_one(n: u64) -> Result<(), ShapeErr>
    ensures { Gives result (one n) }
{
    if n == 1 { Ok(()) } else { Err(ShapeErr::Shape) }
}

#[tactic(auto, unfolding(crate::specs::Forms::kind_at))]
fn kind(alloc: Global, value: &Value) -> Result<Kind, ShapeErr>
    ensures { Gives result (kind_at (view value.now)) }
{
    let name = text(alloc, value, "kind")?;
    let kind = kind_named(name.as_slice())?;
    wants_members(value, members_of(kind, value))?;
    Ok(kind)
}

fn kind_named(name: &[u8]) -> Result<Kind, ShapeErr>
    ensures { Gives result (kind_named name.now) }
{
    if name == b"yes".as_slice() {
        Ok(Kind::Yes)
    } else if name == b"no".as_slice() {
        Ok(Kind::No)
    } else {
        Err(ShapeErr::Shape)
    }
}

fn members_of(kind: Kind, value: &Value) -> usize
    ensures { result ≡ members_of kind (view value.now) }
{
    match kind {
        Kind::Yes => 2 + count_of(value, "lines"),
        Kind::No => 2 + count_of(value, "links") + count_of(value, "locals"),
    }
}

fn links_in(alloc: Global, value: &Value) -> Result<Items<(u64, u64, u64, u64)>, ShapeErr>
    ensures { Gives result (links_at (view value.now)) }
{
    links(alloc, list(value, "links")?)
}

fn links(alloc: Global, list: &[Value]) -> Result<Items<(u64, u64, u64, u64)>, ShapeErr>
    ensures { Gives result (each_of link_of (items_view list.now)) }
{
    let mut found = Items::new(alloc);
    for value in list {
        found.push(link(value)?)?;
    }
    Ok(found)
}

fn link(value: &Value) -> Result<(u64, u64, u64, u64), ShapeErr>
    ensures { Gives result (link_of (view value.now)) }
{
    match value.as_array() {
        Some(list) => link_of_items(list.as_slice()),
        None => Err(ShapeErr::Shape),
    }
}

fn link_of_items(list: &[Value]) -> Result<(u64, u64, u64, u64), ShapeErr>
    ensures { Gives result (link_in (items_view list.now)) }
{
    let [from, to, start, end] = list else {
        return Err(ShapeErr::Shape);
    };
    let from = number_in(from)?;
    let to = number_in(to)?;
    let start = number_in(start)?;
    let end = number_in(end)?;
    Ok((from, to, start, end))
}

fn locals_in(alloc: Global, value: &Value) -> Result<Items<LocalForm>, ShapeErr>
    ensures { Gives result (locals_at (view value.now)) }
{
    locals(alloc, list(value, "locals")?)
}

fn locals(alloc: Global, list: &[Value]) -> Result<Items<LocalForm>, ShapeErr>
    ensures { Gives result (each_of local_of (items_view list.now)) }
{
    let mut found = Items::new(alloc);
    for value in list {
        found.push(local(alloc, value)?)?;
    }
    Ok(found)
}

#[tactic(auto, unfolding(crate::specs::Forms::local_of))]
fn local(alloc: Global, value: &Value) -> Result<LocalForm, ShapeErr>
    ensures { Gives result (local_of (view value.now)) }
{
    let names = names(alloc, list(value, "names")?)?;
    let roles = roles(alloc, list(value, "roles")?)?;
    let size = size(value)?;
    wants_members(value, 3)?;
    Ok(LocalForm { names, roles, size })
}

fn size(value: &Value) -> Result<u64, ShapeErr>
    ensures { Gives result (size_at (view value.now)) }
{
    match value.get("size") {
        Some(member) => number_in(member),
        None => Err(ShapeErr::Shape),
    }
}

fn names(alloc: Global, list: &[Value]) -> Result<Items<(Text, u64)>, ShapeErr>
    ensures { Gives result (each_of name_of (items_view list.now)) }
{
    let mut found = Items::new(alloc);
    for value in list {
        found.push(name(alloc, value)?)?;
    }
    Ok(found)
}

fn name(alloc: Global, value: &Value) -> Result<(Text, u64), ShapeErr>
    ensures { Gives result (name_of (view value.now)) }
{
    match value.as_array() {
        Some(list) => name_of_items(alloc, list.as_slice()),
        None => Err(ShapeErr::Shape),
    }
}

fn name_of_items(alloc: Global, list: &[Value]) -> Result<(Text, u64), ShapeErr>
    ensures { Gives result (name_in (items_view list.now)) }
{
    let [name, element] = list else {
        return Err(ShapeErr::Shape);
    };
    let name = text_in(alloc, name)?;
    let element = number_in(element)?;
    Ok((name, element))
}

fn roles(alloc: Global, list: &[Value]) -> Result<Items<(Text, u64, u64)>, ShapeErr>
    ensures { Gives result (each_of role_of (items_view list.now)) }
{
    let mut found = Items::new(alloc);
    for value in list {
        found.push(role(alloc, value)?)?;
    }
    Ok(found)
}

fn role(alloc: Global, value: &Value) -> Result<(Text, u64, u64), ShapeErr>
    ensures { Gives result (role_of (view value.now)) }
{
    match value.as_array() {
        Some(list) => role_of_items(alloc, list.as_slice()),
        None => Err(ShapeErr::Shape),
    }
}

fn role_of_items(alloc: Global, list: &[Value]) -> Result<(Text, u64, u64), ShapeErr>
    ensures { Gives result (role_in (items_view list.now)) }
{
    let [role, start, end] = list else {
        return Err(ShapeErr::Shape);
    };
    let role = text_in(alloc, role)?;
    let start = number_in(start)?;
    let end = number_in(end)?;
    Ok((role, start, end))
}
