//! Whether a world is a countermodel, by rows of elements.
ghost use Rattle.std.specs.Prelude.{◌≡◌, ◌+◌, ◌^◌, ◌<◌, ◌↔◌, ℕ, true, All, IfOk, IsOk, Result, length, not, position};
ghost use Rattle.std.specs.List.{list_all, list_any};
ghost use Rattle.dd_interp.specs.Seen.{IsExtension};
ghost use Rattle.dd_set.specs.Words.{has};
ghost use Rattle.dd_world.specs.declared.world.WorldFault.{WorldFault};
ghost use Rattle.dd_world.specs.Elements.{holds_at, size_at};
ghost use Rattle.dd_world.specs.Faults.{IsFirstFault, fault_of, judged_by};
ghost use Rattle.dd_world.specs.Kinds.{failing, fault_in_shape, first_of_kind, keeps_rows, leads_by, starts_in};
ghost use Rattle.dd_world.specs.Sketches.{world_of};
ghost use Rattle.dd_world.specs.Tests.{is_under, joins, satisfies_axiom, satisfies_into, satisfies_onto};
ghost use Rattle.dd_world.specs.World.{IsCounter, IsLink};

use crate::kind::Kind;
use crate::shape::has_world_shape;
use crate::sketch::{Sketch, sketch_of};
use crate::world::{World, WorldFault};
use dd_concept::{Axiom, Concept, NoMemory};
use dd_peer::{PeerVersion, Pinned, Query, Rule};
use dd_set::Bits;
use std::alloc::Global;

/// What `check_world` answers, found with memory and quickly: each concept is looked at once, for all elements that the
/// world mentions and for one of each peer's that it does not.
pub fn judge_world(
    alloc: Global,
    p: &Pinned,
    q: &Query,
    w: &World,
) -> Result<Result<(), WorldFault>, NoMemory>
    requires peers { length p.now.peers < 2 ^ 32 }
    requires axioms { All (λ v. length v.axioms < 2 ^ 32) p.now.peers }
    requires rules { All (λ v. length v.into + length v.onto < 2 ^ 32) p.now.peers }

    ensures first { IfOk result (λ answer. answer ≡ judged_by (fault_of p.now q.now w.now)) }
    ensures counter { IfOk result (λ answer. IsOk answer ↔ IsCounter p.now q.now w.now) }
    ensures fault { IfOk result (λ answer. (fault : WorldFault) → (answer ≡ Result.Err fault) ↔ IsFirstFault p.now q.now w.now fault) }
{
    judge_shaped(alloc, p, q, w)
}

fn judge_shaped(
    alloc: Global,
    p: &Pinned,
    q: &Query,
    w: &World,
) -> Result<Result<(), WorldFault>, NoMemory>
    requires peers { length p.now.peers < 2 ^ 32 }
    requires axioms { All (λ v. length v.axioms < 2 ^ 32) p.now.peers }
    requires rules { All (λ v. length v.into + length v.onto < 2 ^ 32) p.now.peers }
    ensures { IfOk result (λ answer. answer ≡ judged_by (fault_of p.now q.now w.now)) }
{
    if !has_world_shape(p, w) {
        return Ok(Err(WorldFault::Shape));
    }
    let sketch = sketch_of(alloc, w)?;
    judge_sketch(alloc, p, q, &sketch)
}

fn judge_sketch(
    alloc: Global,
    p: &Pinned,
    q: &Query,
    s: &Sketch,
) -> Result<Result<(), WorldFault>, NoMemory>
    requires links { All (IsLink (world_of s.now)) s.now.links }
    requires peers { length p.now.peers < 2 ^ 32 }
    requires axioms { All (λ v. length v.axioms < 2 ^ 32) p.now.peers }
    requires rules { All (λ v. length v.into + length v.onto < 2 ^ 32) p.now.peers }
    ensures { IfOk result (λ answer. answer ≡ judged_by (fault_in_shape p.now q.now (world_of s.now))) }
{
    if let Some((peer, index)) = first(alloc, s, p, Kind::Axioms)? {
        return Ok(Err(WorldFault::Axiom { peer, index }));
    }
    if let Some((peer, index)) = first(alloc, s, p, Kind::Into)? {
        return Ok(Err(WorldFault::Into { peer, index }));
    }
    if let Some((peer, index)) = first(alloc, s, p, Kind::Onto)? {
        return Ok(Err(WorldFault::Onto { peer, index }));
    }
    if is_included(alloc, s, q.peer, &q.left, &q.right)? {
        Ok(Err(WorldFault::NotCounter))
    } else {
        Ok(Ok(()))
    }
}

// The first peer with an item of the kind that fails, and the item's place.
fn first(alloc: Global, s: &Sketch, p: &Pinned, kind: Kind) -> Result<Option<(u32, u32)>, NoMemory>
    requires links { All (IsLink (world_of s.now)) s.now.links }
    requires peers { length p.now.peers < 2 ^ 32 }
    requires axioms { All (λ v. length v.axioms < 2 ^ 32) p.now.peers }
    requires rules { All (λ v. length v.into + length v.onto < 2 ^ 32) p.now.peers }
    ensures { IfOk result (λ at. at ≡ first_of_kind kind (world_of s.now) 0 p.now.peers) }
{
    for (peer, version) in p.peers.as_slice().iter().enumerate() {
        let peer = peer as u32;
        if let Some(index) = first_in(alloc, s, peer, version.get(), kind)? {
            return Ok(Some((peer, index)));
        }
    }
    Ok(None)
}

fn first_in(
    alloc: Global,
    s: &Sketch,
    peer: u32,
    v: &PeerVersion,
    kind: Kind,
) -> Result<Option<u32>, NoMemory>
    requires links { All (IsLink (world_of s.now)) s.now.links }
    requires axioms { length v.now.axioms < 2 ^ 32 }
    requires rules { length v.now.into + length v.now.onto < 2 ^ 32 }
    ensures { IfOk result (λ at. at ≡ failing kind (world_of s.now) peer v.now) }
{
    match kind {
        Kind::Axioms => first_axiom(alloc, s, peer, v.axioms.as_slice()),
        Kind::Into => first_into(alloc, s, peer, v.into.as_slice()),
        Kind::Onto => first_onto(alloc, s, peer, v.onto.as_slice()),
    }
}

fn first_axiom(
    alloc: Global,
    s: &Sketch,
    peer: u32,
    axioms: &[Axiom],
) -> Result<Option<u32>, NoMemory>
    requires { length axioms.now < 2 ^ 32 }
    ensures { IfOk result (λ at. at ≡ position (λ a. not (satisfies_axiom (world_of s.now) peer a)) axioms.now) }
{
    for k in 0..axioms.len() {
        let axiom = &axioms[k];
        if !is_included(alloc, s, peer, &axiom.left, &axiom.right)? {
            return Ok(Some(k as u32));
        }
    }
    Ok(None)
}

fn first_into(alloc: Global, s: &Sketch, peer: u32, rules: &[Rule]) -> Result<Option<u32>, NoMemory>
    requires links { All (IsLink (world_of s.now)) s.now.links }
    requires few { length rules.now < 2 ^ 32 }
    ensures { IfOk result (λ at. at ≡ position (λ r. not (satisfies_into (world_of s.now) peer r)) rules.now) }
{
    for k in 0..rules.len() {
        if !meets_into(alloc, s, peer, &rules[k])? {
            return Ok(Some(k as u32));
        }
    }
    Ok(None)
}

fn first_onto(alloc: Global, s: &Sketch, peer: u32, rules: &[Rule]) -> Result<Option<u32>, NoMemory>
    requires links { All (IsLink (world_of s.now)) s.now.links }
    requires few { length rules.now < 2 ^ 32 }
    ensures { IfOk result (λ at. at ≡ position (λ r. not (satisfies_onto (world_of s.now) peer r)) rules.now) }
{
    for k in 0..rules.len() {
        if !meets_onto(alloc, s, peer, &rules[k])? {
            return Ok(Some(k as u32));
        }
    }
    Ok(None)
}

fn is_included(
    alloc: Global,
    s: &Sketch,
    peer: u32,
    left: &Concept,
    right: &Concept,
) -> Result<bool, NoMemory>
    ensures { IfOk result (λ is. is ≡ is_under (world_of s.now) peer left.now right.now) }
{
    let left = row_at(alloc, s, peer, left)?;
    let right = row_at(alloc, s, peer, right)?;
    Ok(left.is_subset(&right))
}

/// The elements of the peer that are in the concept.
fn row_at(alloc: Global, s: &Sketch, peer: u32, c: &Concept) -> Result<Bits, NoMemory>
    ensures { IfOk result (IsExtension (size_at (world_of s.now) peer) (λ k. holds_at (world_of s.now) peer k c.now)) }
{
    match s.charts.as_slice().get(peer as usize) {
        Some(chart) => chart.row(alloc, c),
        None => Bits::new(alloc, 0),
    }
}

fn meets_into(alloc: Global, s: &Sketch, peer: u32, rule: &Rule) -> Result<bool, NoMemory>
    requires { All (IsLink (world_of s.now)) s.now.links }
    ensures { IfOk result (λ is. is ≡ satisfies_into (world_of s.now) peer rule.now) }
{
    let source = row_at(alloc, s, rule.from, &rule.source)?;
    let target = row_at(alloc, s, peer, &rule.target)?;
    Ok(do_links_keep(peer, rule, &source, &target, s.links.as_slice()))
}

fn do_links_keep(
    peer: u32,
    rule: &Rule,
    source: &Bits,
    target: &Bits,
    links: &[(u32, u32, u32, u32)],
) -> bool
    ensures { result ≡ list_all (keeps_rows peer rule.now source.now.words target.now.words) links.now }
{
    links
        .iter()
        .all(|link| does_keep(peer, rule, source, target, *link))
}

fn does_keep(
    peer: u32,
    rule: &Rule,
    source: &Bits,
    target: &Bits,
    link: (u32, u32, u32, u32),
) -> bool
    ensures { result ≡ keeps_rows peer rule.now source.now.words target.now.words link }
{
    !does_start(peer, rule, source, link) || target.contains(link.3)
}

// Whether the link is one of the rule and starts in its source.
fn does_start(peer: u32, rule: &Rule, source: &Bits, link: (u32, u32, u32, u32)) -> bool
    ensures { result ≡ starts_in peer rule.now source.now.words link }
{
    link.0 == rule.from && link.1 == peer && source.contains(link.2)
}

fn meets_onto(alloc: Global, s: &Sketch, peer: u32, rule: &Rule) -> Result<bool, NoMemory>
    requires { All (IsLink (world_of s.now)) s.now.links }
    ensures { IfOk result (λ is. is ≡ satisfies_onto (world_of s.now) peer rule.now) }
{
    let source = row_at(alloc, s, rule.from, &rule.source)?;
    let target = row_at(alloc, s, peer, &rule.target)?;
    let ends = ends_of(
        alloc,
        target.width(),
        peer,
        rule,
        &source,
        s.links.as_slice(),
    )?;
    Ok(target.is_subset(&ends))
}

/// The ends of the links of the rule that start in its source.
fn ends_of(
    alloc: Global,
    width: u32,
    peer: u32,
    rule: &Rule,
    source: &Bits,
    links: &[(u32, u32, u32, u32)],
) -> Result<Bits, NoMemory>
    requires { All (λ l. joins peer rule.now l ≡ true → l.3 < width) links.now }
    ensures width { IfOk result (λ row. row.width ≡ width) }
    ensures ends { IfOk result (λ row. (k : ℕ) → has row.words k ≡ list_any (leads_by peer rule.now source.now.words k) links.now) }
{
    let mut row = Bits::new(alloc, width)?;
    for link in links {
        if does_start(peer, rule, source, *link) {
            row.insert(link.3);
        }
    }
    Ok(row)
}
