// The goals that keys stand for.
ghost use Rattle.std.specs.Prelude.{◌≡◌, ◌++◌, IfOk, OnOk, slice_get, flat_map};
ghost use Rattle.std.specs.Option.{option_copied, option_map, option_to_list};
ghost use Rattle.dd_concept.specs.Normal.{nnf_not_of, nnf_of};
ghost use Rattle.dd_task.specs.Goals.{asked_label, goal_for, no_source_of, root_label, source_of};
ghost use Rattle.dd_task.specs.Rules.{into_rules, onto_rules};

use crate::NoMemory;
use crate::job::{Goal, Job, Key};
use dd_concept::{Concept, Items, nnf, nnf_not};
use dd_peer::{PeerVersion, Pinned, Query, Rule};
use std::alloc::Global;

/// The goal of a key. A rule that `to` does not keep adds nothing to the label.
pub fn goal_of(alloc: Global, job: &Job, key: &Key) -> Result<Goal, NoMemory>
    ensures { IfOk result (λ g. g ≡ goal_for job.now key.now) }
{
    match key {
        Key::Root => root_goal(alloc, &job.query),
        Key::Asked {
            from,
            to,
            onto,
            into_set,
        } => {
            let label = label_of_key(alloc, &job.pinned, *from, *to, *onto, into_set.as_slice())?;
            Ok(Goal { peer: *from, label })
        }
    }
}

fn root_goal(alloc: Global, q: &Query) -> Result<Goal, NoMemory>
    ensures { IfOk result (λ g. (g.peer ≡ q.now.peer) × (g.label ≡ root_label q.now)) }
{
    let mut label = Items::new(alloc);
    push_root(alloc, q, &mut label)?;
    Ok(Goal {
        peer: q.peer,
        label,
    })
}

/// Puts what the query asks for behind the label: the left concept and the right one's complement, in normal form.
pub(crate) fn push_root(
    alloc: Global,
    q: &Query,
    label: &mut Items<Concept>,
) -> Result<(), NoMemory>
    ensures { OnOk result (label.new ≡ label.old ++ root_label q.now) }
{
    label.push(nnf(alloc, &q.left)?)?;
    label.push(nnf_not(alloc, &q.right)?)
}

// The label of a key that is not the root's.
fn label_of_key(
    alloc: Global,
    p: &Pinned,
    from: u32,
    to: u32,
    onto: u32,
    into_set: &[u32],
) -> Result<Items<Concept>, NoMemory>
    ensures { IfOk result (λ l. l ≡ asked_label p.now from to onto into_set.now) }
{
    let mut label = Items::new(alloc);
    push_source(alloc, onto_rule(p, from, to, onto), &mut label)?;
    for k in into_set {
        push_no_source(alloc, into_rule(p, from, to, *k), &mut label)?;
    }
    Ok(label)
}

fn push_source(
    alloc: Global,
    rule: Option<&Rule>,
    label: &mut Items<Concept>,
) -> Result<(), NoMemory>
    ensures { OnOk result (label.new ≡ label.old ++ option_to_list (option_map (λ (r : Rule). nnf_of r.source) (option_copied rule.entry))) }
{
    match rule {
        Some(rule) => label.push(nnf(alloc, &rule.source)?),
        None => Ok(()),
    }
}

fn push_no_source(
    alloc: Global,
    rule: Option<&Rule>,
    label: &mut Items<Concept>,
) -> Result<(), NoMemory>
    ensures { OnOk result (label.new ≡ label.old ++ option_to_list (option_map (λ (r : Rule). nnf_not_of r.source) (option_copied rule.entry))) }
{
    match rule {
        Some(rule) => label.push(nnf_not(alloc, &rule.source)?),
        None => Ok(()),
    }
}

// The onto rule with this position among those that peer `to` keeps from peer `from`, and the into rule.
fn onto_rule(p: &Pinned, from: u32, to: u32, o: u32) -> Option<&Rule>
    ensures { option_copied result ≡ slice_get (onto_rules p.now from to) o }
{
    version_of(p, to)?.onto_of(from, o)
}

fn into_rule(p: &Pinned, from: u32, to: u32, k: u32) -> Option<&Rule>
    ensures { option_copied result ≡ slice_get (into_rules p.now from to) k }
{
    version_of(p, to)?.into_of(from, k)
}

/// The version of the peer, where it is declared.
pub fn version_of(p: &Pinned, peer: u32) -> Option<&PeerVersion>
    ensures { option_copied result ≡ slice_get p.now.peers peer }
{
    match p.peers.as_slice().get(peer as usize) {
        Some(version) => Some(version.get()),
        None => None,
    }
}
