ghost use Rattle.std.specs.Prelude.{◌≡◌, IfOk, IsTrue, map};
ghost use Rattle.std.specs.List.{list_all};
ghost use Rattle.serde_json.specs.View.{view};
ghost use Rattle.dd_cert.specs.Printed.{link_data, list_data, local_data, local_has_symbols, name_data, name_has_symbols, role_data, role_has_symbols, world_data};

use crate::parts::{head, text_value, with, with_number};
use dd_concept::NoMemory;
use dd_interp::Interp;
use dd_text::Symbols;
use dd_world::World;
use serde_json::{Map, Value};
use std::alloc::Global;

/// The certificate that a world is.
pub fn print_world(alloc: Global, symbols: &Symbols, w: &World) -> Result<Value, NoMemory>
    requires { IsTrue (list_all (local_has_symbols symbols.now) w.now.locals) }
    ensures { IfOk result (λ v. view v ≡ world_data symbols.now w.now) }
{
    let links = links(alloc, w.links.as_slice())?;
    let locals = locals(alloc, symbols, w.locals.as_slice())?;
    let cert = head(alloc, "no")?;
    let cert = with(alloc, cert, "links", links)?;
    Ok(Value::Object(with(alloc, cert, "locals", locals)?))
}

fn links(alloc: Global, links: &[(u32, u32, u32, u32)]) -> Result<Value, NoMemory>
    ensures { IfOk result (λ v. view v ≡ list_data (map link_data links.now)) }
{
    let mut values = Vec::new(alloc);
    for link in links {
        values.push(print_link(alloc, link)?)?;
    }
    Ok(Value::Array(values))
}

fn print_link(alloc: Global, link: &(u32, u32, u32, u32)) -> Result<Value, NoMemory>
    ensures { IfOk result (λ v. view v ≡ link_data link.now) }
{
    let mut values = Vec::new(alloc);
    values.push(Value::from(link.0))?;
    values.push(Value::from(link.1))?;
    values.push(Value::from(link.2))?;
    values.push(Value::from(link.3))?;
    Ok(Value::Array(values))
}

fn locals(alloc: Global, symbols: &Symbols, locals: &[Interp]) -> Result<Value, NoMemory>
    requires { IsTrue (list_all (local_has_symbols symbols.now) locals.now) }
    ensures { IfOk result (λ v. view v ≡ list_data (map (local_data symbols.now) locals.now)) }
{
    let mut values = Vec::new(alloc);
    for local in locals {
        values.push(print_local(alloc, symbols, local)?)?;
    }
    Ok(Value::Array(values))
}

fn print_local(alloc: Global, symbols: &Symbols, local: &Interp) -> Result<Value, NoMemory>
    requires { IsTrue (local_has_symbols symbols.now local.now) }
    ensures { IfOk result (λ v. view v ≡ local_data symbols.now local.now) }
{
    let names = names(alloc, symbols, local.names.as_slice())?;
    let roles = roles(alloc, symbols, local.roles.as_slice())?;
    let members = with(alloc, Map::new(alloc), "names", names)?;
    let members = with(alloc, members, "roles", roles)?;
    Ok(Value::Object(with_number(alloc, members, "size", local.size)?))
}

fn names(alloc: Global, symbols: &Symbols, names: &[(u32, u32)]) -> Result<Value, NoMemory>
    requires { IsTrue (list_all (name_has_symbols symbols.now) names.now) }
    ensures { IfOk result (λ v. view v ≡ list_data (map (name_data symbols.now) names.now)) }
{
    let mut values = Vec::new(alloc);
    for name in names {
        values.push(print_name(alloc, symbols, name)?)?;
    }
    Ok(Value::Array(values))
}

fn print_name(alloc: Global, symbols: &Symbols, name: &(u32, u32)) -> Result<Value, NoMemory>
    requires { IsTrue (name_has_symbols symbols.now name.now) }
    ensures { IfOk result (λ v. view v ≡ name_data symbols.now name.now) }
{
    let _numbering = symbols.mark();
    let mut values = Vec::new(alloc);
    values.push(text_value(alloc, symbols.name(name.0))?)?;
    values.push(Value::from(name.1))?;
    Ok(Value::Array(values))
}

fn roles(alloc: Global, symbols: &Symbols, roles: &[(u32, u32, u32)]) -> Result<Value, NoMemory>
    requires { IsTrue (list_all (role_has_symbols symbols.now) roles.now) }
    ensures { IfOk result (λ v. view v ≡ list_data (map (role_data symbols.now) roles.now)) }
{
    let mut values = Vec::new(alloc);
    for role in roles {
        values.push(print_role(alloc, symbols, role)?)?;
    }
    Ok(Value::Array(values))
}

fn print_role(alloc: Global, symbols: &Symbols, role: &(u32, u32, u32)) -> Result<Value, NoMemory>
    requires { IsTrue (role_has_symbols symbols.now role.now) }
    ensures { IfOk result (λ v. view v ≡ role_data symbols.now role.now) }
{
    let _numbering = symbols.mark();
    let mut values = Vec::new(alloc);
    values.push(text_value(alloc, symbols.role(role.0))?)?;
    values.push(Value::from(role.1))?;
    values.push(Value::from(role.2))?;
    Ok(Value::Array(values))
}
