// The propagations of a view by the numbers of their concepts.
ghost use Rattle.std.specs.Prelude.{◌≡◌, ◌++◌, true, All, IfOk, OnOk, flat_map, slice_get};
ghost use Rattle.std.specs.Option.{option_copied};
ghost use Rattle.dd_task.specs.Rules.{into_rules, onto_rules};
ghost use Rattle.dd_run.specs.Numbers.{HaveTargets, into_number, prop_numbers};

use crate::numbers::{complement_number, normal_number};
use dd_concept::Items;
use dd_peer::{Pinned, Rule};
use dd_rules::{Compiled, Props};
use dd_set::NoMemory;
use dd_task::{Prop, version_of};
use std::alloc::Global;

/// The propagations of the view into the peer. One whose onto rule is not there is left out.
pub(crate) fn props_for(
    alloc: Global,
    compiled: &Compiled,
    p: &Pinned,
    peer: u32,
    view: &[Prop],
) -> Result<Props, NoMemory>
    requires { HaveTargets p.now peer compiled.now.concepts }
    ensures { IfOk result (λ ps. ps.list ≡ flat_map (prop_numbers compiled.now.concepts p.now peer) view.now) }
{
    let mut list = Items::new(alloc);
    for prop in view {
        push_prop(alloc, compiled, p, peer, prop, &mut list)?;
    }
    Ok(Props { list })
}

fn push_prop(
    alloc: Global,
    compiled: &Compiled,
    p: &Pinned,
    peer: u32,
    prop: &Prop,
    list: &mut Items<(u32, u32, Items<u32>)>,
) -> Result<(), NoMemory>
    requires { HaveTargets p.now peer compiled.now.concepts }
    ensures { OnOk result (list.new ≡ list.old ++ prop_numbers compiled.now.concepts p.now peer prop.now) }
{
    match onto_rule(p, prop.from, peer, prop.onto) {
        Some(rule) => {
            let onto = normal_number(alloc, compiled, &rule.target)?;
            let not_onto = complement_number(alloc, compiled, &rule.target)?;
            let into = into_numbers(
                alloc,
                compiled,
                p,
                prop.from,
                peer,
                prop.into_set.as_slice(),
            )?;
            list.push((onto, not_onto, into))
        }
        None => Ok(()),
    }
}

/// The numbers of the targets of these into rules that the peer keeps from peer `from`.
fn into_numbers(
    alloc: Global,
    compiled: &Compiled,
    p: &Pinned,
    from: u32,
    peer: u32,
    set: &[u32],
) -> Result<Items<u32>, NoMemory>
    requires { HaveTargets p.now peer compiled.now.concepts }
    ensures { IfOk result (λ ns. ns ≡ flat_map (into_number compiled.now.concepts p.now from peer) set.now) }
{
    let mut numbers = Items::new(alloc);
    for k in set {
        push_into(alloc, compiled, p, from, peer, *k, &mut numbers)?;
    }
    Ok(numbers)
}

fn push_into(
    alloc: Global,
    compiled: &Compiled,
    p: &Pinned,
    from: u32,
    peer: u32,
    k: u32,
    numbers: &mut Items<u32>,
) -> Result<(), NoMemory>
    requires { HaveTargets p.now peer compiled.now.concepts }
    ensures { OnOk result (numbers.new ≡ numbers.old ++ into_number compiled.now.concepts p.now from peer k) }
{
    match into_rule(p, from, peer, k) {
        Some(rule) => numbers.push(normal_number(alloc, compiled, &rule.target)?),
        None => Ok(()),
    }
}

/// The onto rule with this position among those that the peer keeps from peer `from`, and the into rule.
fn onto_rule(p: &Pinned, from: u32, peer: u32, o: u32) -> Option<&Rule>
    ensures { option_copied result ≡ slice_get (onto_rules p.now from peer) o }
{
    version_of(p, peer)?.onto_of(from, o)
}

fn into_rule(p: &Pinned, from: u32, peer: u32, k: u32) -> Option<&Rule>
    ensures { option_copied result ≡ slice_get (into_rules p.now from peer) k }
{
    version_of(p, peer)?.into_of(from, k)
}
