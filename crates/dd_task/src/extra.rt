// The concepts besides the axioms whose subconcepts are in a peer's closure.
ghost use Rattle.std.specs.Prelude.{◌≡◌, ◌++◌, All, IfOk, OnOk, flat_map, map};
ghost use Rattle.dd_concept.specs.Normal.{IsNormal, nnf_not_of, nnf_of};
ghost use Rattle.dd_peer.specs.Rules.{rules_from};
ghost use Rattle.dd_peer.specs.declared.version.Rule.{Rule};
ghost use Rattle.dd_task.specs.Closure.{asked_by, asked_first, both_targets, extra_for, kept_targets};

use crate::NoMemory;
use crate::goals::{push_root, version_of};
use crate::job::Job;
use dd_concept::{Concept, Items, nnf, nnf_not};
use dd_peer::{PeerVersion, Pinned, Query, Rule};
use std::alloc::Global;

/// The concepts besides the axioms whose subconcepts are in the peer's closure for the job: by the rules that it keeps, by what
/// the relevant peers' rules ask of it, and by the query where it is at this peer. A concept may stand there twice.
pub fn extra_of(alloc: Global, job: &Job, peer: u32) -> Result<Vec<Concept>, NoMemory>
    ensures form { IfOk result (λ cs. cs.items ≡ extra_for job.now peer) }
    ensures normal { IfOk result (λ cs. All IsNormal cs.items) }
{
    let extra = extra_items(alloc, job, peer)?;
    Ok(extra.into_vec())
}

fn extra_items(alloc: Global, job: &Job, peer: u32) -> Result<Items<Concept>, NoMemory>
    ensures { IfOk result (λ cs. cs ≡ extra_for job.now peer) }
{
    let mut extra = Items::new(alloc);
    push_kept(alloc, &job.pinned, peer, &mut extra)?;
    push_asked(
        alloc,
        &job.pinned,
        peer,
        job.relevant.as_slice(),
        &mut extra,
    )?;
    push_first(alloc, &job.query, peer, &mut extra)?;
    Ok(extra)
}

// What the query asks of the peer.
fn push_first(
    alloc: Global,
    q: &Query,
    peer: u32,
    extra: &mut Items<Concept>,
) -> Result<(), NoMemory>
    ensures { OnOk result (extra.new ≡ extra.old ++ asked_first q.now peer) }
{
    if q.peer == peer {
        return push_root(alloc, q, extra);
    }
    Ok(())
}

// The targets of the rules that the peer keeps, and their complements.
fn push_kept(
    alloc: Global,
    p: &Pinned,
    peer: u32,
    extra: &mut Items<Concept>,
) -> Result<(), NoMemory>
    ensures { OnOk result (extra.new ≡ extra.old ++ kept_targets p.now peer) }
{
    match version_of(p, peer) {
        Some(version) => {
            push_targets(alloc, version.into.as_slice(), extra)?;
            push_targets(alloc, version.onto.as_slice(), extra)
        }
        None => Ok(()),
    }
}

fn push_targets(alloc: Global, rules: &[Rule], extra: &mut Items<Concept>) -> Result<(), NoMemory>
    ensures { OnOk result (extra.new ≡ extra.old ++ flat_map both_targets rules.now) }
{
    for rule in rules {
        extra.push(nnf(alloc, &rule.target)?)?;
        extra.push(nnf_not(alloc, &rule.target)?)?;
    }
    Ok(())
}

// What the rules that these peers keep from the peer ask of its elements.
fn push_asked(
    alloc: Global,
    p: &Pinned,
    peer: u32,
    keepers: &[u32],
    extra: &mut Items<Concept>,
) -> Result<(), NoMemory>
    ensures { OnOk result (extra.new ≡ extra.old ++ flat_map (asked_by p.now peer) keepers.now) }
{
    for k in keepers {
        push_asked_by(alloc, p, peer, *k, extra)?;
    }
    Ok(())
}

fn push_asked_by(
    alloc: Global,
    p: &Pinned,
    peer: u32,
    k: u32,
    extra: &mut Items<Concept>,
) -> Result<(), NoMemory>
    ensures { OnOk result (extra.new ≡ extra.old ++ asked_by p.now peer k) }
{
    match version_of(p, k) {
        Some(version) => {
            push_no_sources(alloc, version.into.as_slice(), peer, extra)?;
            push_sources(alloc, version.onto.as_slice(), peer, extra)
        }
        None => Ok(()),
    }
}

fn push_no_sources(
    alloc: Global,
    rules: &[Rule],
    from: u32,
    extra: &mut Items<Concept>,
) -> Result<(), NoMemory>
    ensures { OnOk result (extra.new ≡ extra.old ++ map (λ (r : Rule). nnf_not_of r.source) (rules_from rules.now from)) }
{
    for rule in rules {
        if rule.from == from {
            extra.push(nnf_not(alloc, &rule.source)?)?;
        }
    }
    Ok(())
}

fn push_sources(
    alloc: Global,
    rules: &[Rule],
    from: u32,
    extra: &mut Items<Concept>,
) -> Result<(), NoMemory>
    ensures { OnOk result (extra.new ≡ extra.old ++ map (λ (r : Rule). nnf_of r.source) (rules_from rules.now from)) }
{
    for rule in rules {
        if rule.from == from {
            extra.push(nnf(alloc, &rule.source)?)?;
        }
    }
    Ok(())
}
