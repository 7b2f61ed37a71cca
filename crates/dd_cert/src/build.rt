ghost use Rattle.std.specs.Prelude.{◌≡◌, IfOk, IsTrue, map};
ghost use Rattle.std.specs.List.{list_all};
ghost use Rattle.dd_cert.specs.Certificates.{local_by, world_by};
ghost use Rattle.dd_cert.specs.Steps.{link_fits, name_fits, role_fits, local_fits, world_fits, name_by, role_by};

use crate::form::{LocalForm, WorldForm};
use dd_concept::{Items, NoMemory};
use dd_interp::Interp;
use dd_json::Text;
use dd_text::Symbols;
use dd_world::World;
use std::alloc::Global;

/// The world, by the numbers of its names and roles.
pub fn build(alloc: Global, symbols: &Symbols, w: &WorldForm) -> Result<World, NoMemory>
    requires { IsTrue (world_fits w.now) }
    ensures { IfOk result (λ world. world ≡ world_by symbols.now w.now) }
{
    let locals = locals(alloc, symbols, w.locals.as_slice())?;
    let links = links(alloc, w.links.as_slice())?;
    Ok(World { locals, links })
}

fn links(
    alloc: Global,
    links: &[(u64, u64, u64, u64)],
) -> Result<Items<(u32, u32, u32, u32)>, NoMemory>
    requires { IsTrue (list_all link_fits links.now) }
    ensures { IfOk result (λ built. built ≡ links.now) }
{
    let mut built = Items::new(alloc);
    for link in links {
        built.push((link.0 as u32, link.1 as u32, link.2 as u32, link.3 as u32))?;
    }
    Ok(built)
}

fn locals(alloc: Global, symbols: &Symbols, locals: &[LocalForm]) -> Result<Items<Interp>, NoMemory>
    requires { IsTrue (list_all local_fits locals.now) }
    ensures { IfOk result (λ built. built ≡ map (local_by symbols.now) locals.now) }
{
    let mut built = Items::new(alloc);
    for local in locals {
        built.push(local_of(alloc, symbols, local)?)?;
    }
    Ok(built)
}

fn local_of(alloc: Global, symbols: &Symbols, local: &LocalForm) -> Result<Interp, NoMemory>
    requires { IsTrue (local_fits local.now) }
    ensures { IfOk result (λ built. built ≡ local_by symbols.now local.now) }
{
    let names = names(alloc, symbols, local.names.as_slice())?;
    let roles = roles(alloc, symbols, local.roles.as_slice())?;
    Ok(Interp {
        size: local.size as u32,
        names,
        roles,
    })
}

fn names(
    alloc: Global,
    symbols: &Symbols,
    names: &[(Text, u64)],
) -> Result<Items<(u32, u32)>, NoMemory>
    requires { IsTrue (list_all name_fits names.now) }
    ensures { IfOk result (λ built. built ≡ map (name_by symbols.now) names.now) }
{
    let mut built = Items::new(alloc);
    for name in names {
        built.push((symbols.name_number(name.0.as_slice()), name.1 as u32))?;
    }
    Ok(built)
}

fn roles(
    alloc: Global,
    symbols: &Symbols,
    roles: &[(Text, u64, u64)],
) -> Result<Items<(u32, u32, u32)>, NoMemory>
    requires { IsTrue (list_all role_fits roles.now) }
    ensures { IfOk result (λ built. built ≡ map (role_by symbols.now) roles.now) }
{
    let mut built = Items::new(alloc);
    for role in roles {
        let number = symbols.role_number(role.0.as_slice());
        built.push((number, role.1 as u32, role.2 as u32))?;
    }
    Ok(built)
}
