ghost use Rattle.std.specs.Prelude.{◌≡◌, ◌+◌, ◌^◌, ◌<◌, ◌↔◌, All, IsOk, length, not, position};
ghost use Rattle.dd_interp.specs.Satisfies.{IsShaped};
ghost use Rattle.dd_world.specs.Faults.{IsFirstFault, fault_of, judged_by};
ghost use Rattle.dd_world.specs.Kinds.{failing, first_of_kind};
ghost use Rattle.dd_world.specs.declared.world.WorldFault.{WorldFault};
ghost use Rattle.dd_world.specs.Tests.{satisfies_axiom, satisfies_into, satisfies_onto};
ghost use Rattle.dd_world.specs.World.{IsCounter, IsLink, IsWorld};

use crate::included::is_included;
use crate::kind::Kind;
use crate::rules::{meets_into, meets_onto};
use crate::shape::has_world_shape;
use crate::world::{World, WorldFault};
use dd_peer::{PeerVersion, Pinned, Query};

/// Whether the world is a countermodel of the query under these versions: the first fault in the order of `WorldFault`
/// where it is not, of the least peer, and of the least index there.
pub fn check_world(p: &Pinned, q: &Query, w: &World) -> Result<(), WorldFault>
    requires peers { length p.now.peers < 2 ^ 32 }
    requires axioms { All (λ v. length v.axioms < 2 ^ 32) p.now.peers }
    requires rules { All (λ v. length v.into + length v.onto < 2 ^ 32) p.now.peers }

    ensures first { result ≡ judged_by (fault_of p.now q.now w.now) }
    ensures counter { IsOk result ↔ IsCounter p.now q.now w.now }
    ensures fault { (fault : WorldFault) → (result ≡ Err fault) ↔ IsFirstFault p.now q.now w.now fault }
{
    judge(p, q, w)
}

fn judge(p: &Pinned, q: &Query, w: &World) -> Result<(), WorldFault>
    requires peers { length p.now.peers < 2 ^ 32 }
    requires axioms { All (λ v. length v.axioms < 2 ^ 32) p.now.peers }
    requires rules { All (λ v. length v.into + length v.onto < 2 ^ 32) p.now.peers }
    ensures { result ≡ judged_by (fault_of p.now q.now w.now) }
{
    if !has_world_shape(p, w) {
        return Err(WorldFault::Shape);
    }
    if let Some((peer, index)) = first(p, w, Kind::Axioms) {
        return Err(WorldFault::Axiom { peer, index });
    }
    if let Some((peer, index)) = first(p, w, Kind::Into) {
        return Err(WorldFault::Into { peer, index });
    }
    if let Some((peer, index)) = first(p, w, Kind::Onto) {
        return Err(WorldFault::Onto { peer, index });
    }
    if is_included(w, q.peer, &q.left, &q.right) {
        Err(WorldFault::NotCounter)
    } else {
        Ok(())
    }
}

// The first peer with an item of the kind that fails, and the item's place.
fn first(p: &Pinned, w: &World, kind: Kind) -> Option<(u32, u32)>
    requires world { IsWorld p.now w.now }
    requires peers { length p.now.peers < 2 ^ 32 }
    requires axioms { All (λ v. length v.axioms < 2 ^ 32) p.now.peers }
    requires rules { All (λ v. length v.into + length v.onto < 2 ^ 32) p.now.peers }
    ensures { result ≡ first_of_kind kind w.now 0 p.now.peers }
{
    for (peer, version) in p.peers.as_slice().iter().enumerate() {
        let peer = peer as u32;
        if let Some(index) = first_in(w, peer, version.get(), kind) {
            return Some((peer, index as u32));
        }
    }
    None
}

fn first_in(w: &World, peer: u32, v: &PeerVersion, kind: Kind) -> Option<usize>
    requires shaped { All IsShaped w.now.locals }
    requires links { All (IsLink w.now) w.now.links }
    ensures { result ≡ failing kind w.now peer v.now }
{
    match kind {
        Kind::Axioms => axiom_of(w, peer, v),
        Kind::Into => into_of(w, peer, v),
        Kind::Onto => onto_of(w, peer, v),
    }
}

fn axiom_of(w: &World, peer: u32, v: &PeerVersion) -> Option<usize>
    requires { All IsShaped w.now.locals }
    ensures { result ≡ position (λ a. not (satisfies_axiom w.now peer a)) v.now.axioms }
{
    let mut axioms = v.axioms.as_slice().iter();
    axioms.position(|axiom| !is_included(w, peer, &axiom.left, &axiom.right))
}

fn into_of(w: &World, peer: u32, v: &PeerVersion) -> Option<usize>
    ensures { result ≡ position (λ r. not (satisfies_into w.now peer r)) v.now.into }
{
    v.into
        .as_slice()
        .iter()
        .position(|rule| !meets_into(w, peer, rule))
}

fn onto_of(w: &World, peer: u32, v: &PeerVersion) -> Option<usize>
    requires shaped { All IsShaped w.now.locals }
    requires links { All (IsLink w.now) w.now.links }
    ensures { result ≡ position (λ r. not (satisfies_onto w.now peer r)) v.now.onto }
{
    v.onto
        .as_slice()
        .iter()
        .position(|rule| !meets_onto(w, peer, rule))
}
