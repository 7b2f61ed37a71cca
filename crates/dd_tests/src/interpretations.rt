use crate::rows::{Failure, check_one};
use dd_concept::{Concept, Items, NoMemory, existential};
use dd_interp::{Interp, append, extension, is_shaped};
use std::alloc::Global;

/// Two elements, the first of them in name 5 and with the second in role 7.
fn sample(alloc: Global) -> Result<Interp, NoMemory> {
    let names = Items::from_slice(alloc, &[(5, 0)])?;
    Ok(Interp {
        size: 2,
        names,
        roles: Items::from_slice(alloc, &[(7, 0, 1)])?,
    })
}

fn is_twice_the_sample(i: &Interp) -> bool {
    i.size == 4
        && i.names.as_slice() == [(5, 0), (5, 2)].as_slice()
        && i.roles.as_slice() == [(7, 0, 1), (7, 2, 3)].as_slice()
}

/// Whether these elements become the sample twice with the other ones behind them.
fn become_twice(alloc: Global, i: &mut Interp, other: &Interp) -> Result<bool, NoMemory> {
    if !is_shaped(i) || i.size != 2 || !is_shaped(other) || other.size != 2 {
        return Ok(false);
    }
    append(alloc, i, other)?;
    Ok(is_twice_the_sample(i))
}

fn doubles(alloc: Global, other: &Interp) -> Result<bool, NoMemory> {
    let mut i = sample(alloc)?;
    let is_right = become_twice(alloc, &mut i, other);
    drop(i);
    is_right
}

fn sample_doubles(alloc: Global) -> Result<bool, NoMemory> {
    let other = sample(alloc)?;
    let is_right = doubles(alloc, &other);
    drop(other);
    is_right
}

#[test]
fn append_moves_elements_up(rt: HostRuntime) -> Result<(), Failure> {
    check_one(sample_doubles(rt.alloc()))
}

/// Whether the first element of the sample alone has a successor along role 7, where it is asked between two others.
fn first_alone_leads(alloc: Global) -> Result<bool, NoMemory> {
    let concept = existential(alloc, 7, Concept::Top)?;
    let is_right = is_the_first(alloc, &concept);
    drop(concept);
    is_right
}

fn is_the_first(alloc: Global, concept: &Concept) -> Result<bool, NoMemory> {
    let roles = Items::from_slice(alloc, &[(7, 0, 1)])?;
    let i = Interp {
        size: 2,
        names: Items::new(alloc),
        roles,
    };
    let row = extension(alloc, &i, &[1, 0, 9], concept);
    drop(i);
    Ok(row?.as_slice() == [false, true, false].as_slice())
}

#[test]
fn an_extension_is_told_in_the_order_of_the_list(rt: HostRuntime) -> Result<(), Failure> {
    check_one(first_alone_leads(rt.alloc()))
}
