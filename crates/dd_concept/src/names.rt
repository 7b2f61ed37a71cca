ghost use Rattle.std.specs.Prelude.{◌≡◌, ◌++◌, IfOk, OnOk};
ghost use Rattle.dd_concept.specs.Names as spec;

use crate::NoMemory;
use crate::concept::Concept;
use crate::items::Items;
use std::alloc::Global;

/// The names that stand in a concept, in the order of its text, each as often as it stands there.
pub fn names_in(alloc: Global, c: &Concept) -> Result<Items<u32>, NoMemory>
    ensures { IfOk result (λ names. names ≡ spec.names_in c.now) }
{
    let mut names = Items::new(alloc);
    add_names(&mut names, c)?;
    Ok(names)
}

/// The roles that stand in a concept, in the order of its text, each as often as it stands there.
pub fn roles_in(alloc: Global, c: &Concept) -> Result<Items<u32>, NoMemory>
    ensures { IfOk result (λ roles. roles ≡ spec.roles_in c.now) }
{
    let mut roles = Items::new(alloc);
    add_roles(&mut roles, c)?;
    Ok(roles)
}

fn add_names(names: &mut Items<u32>, c: &Concept) -> Result<(), NoMemory>
    ensures { OnOk result (names.new ≡ names.old ++ spec.names_in c.now) }
{
    match c {
        Concept::Top | Concept::Bottom => Ok(()),
        Concept::Name(a) => names.push(*a),
        Concept::Not(d) | Concept::HasSome(_, d) | Concept::HasAll(_, d) => add_names(
            names,
            d.get(),
        ),
        Concept::And(d, e) | Concept::Or(d, e) => {
            add_names(names, d.get())?;
            add_names(names, e.get())
        }
    }
}

fn add_roles(roles: &mut Items<u32>, c: &Concept) -> Result<(), NoMemory>
    ensures { OnOk result (roles.new ≡ roles.old ++ spec.roles_in c.now) }
{
    match c {
        Concept::Top | Concept::Bottom | Concept::Name(_) => Ok(()),
        Concept::Not(d) => add_roles(roles, d.get()),
        Concept::And(d, e) | Concept::Or(d, e) => {
            add_roles(roles, d.get())?;
            add_roles(roles, e.get())
        }
        Concept::HasSome(r, d) | Concept::HasAll(r, d) => {
            roles.push(*r)?;
            add_roles(roles, d.get())
        }
    }
}
