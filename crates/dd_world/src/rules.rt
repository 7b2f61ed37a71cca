ghost use Rattle.std.specs.Prelude.{◌≡◌, All};
ghost use Rattle.std.specs.List.{list_all};
ghost use Rattle.dd_interp.specs.Satisfies.{IsShaped};
ghost use Rattle.dd_world.specs.Named.{all_named, names_at, roles_at};
ghost use Rattle.dd_world.specs.Tests.{is_reached, joins, keeps_into, keeps_onto, leads_to, satisfies_into, satisfies_onto};
ghost use Rattle.dd_world.specs.World.{IsLink};

use crate::elements::{has, names, roles, size};
use crate::world::World;
use dd_peer::Rule;

/// Whether each link of an into rule that this peer keeps ends in the target where it starts in the source.
pub fn meets_into(w: &World, peer: u32, rule: &Rule) -> bool
    ensures { result ≡ satisfies_into w.now peer rule.now }
{
    w.links
        .as_slice()
        .iter()
        .all(|link| link_meets_into(w, peer, rule, *link))
}

/// Whether to each element of the target of an onto rule that this peer keeps a link leads that starts in the source.
///
/// Where the number `size` is not in the target, no element is that no list names: then only the named elements are tried.
pub fn meets_onto(w: &World, peer: u32, rule: &Rule) -> bool
    requires shaped { All IsShaped w.now.locals }
    requires links { All (IsLink w.now) w.now.links }
    ensures { result ≡ satisfies_onto w.now peer rule.now }
{
    if element_meets_onto(w, peer, rule, size(w, peer)) {
        named_meet_onto(w, peer, rule)
    } else {
        all_meet_onto(w, peer, rule)
    }
}

fn link_meets_into(w: &World, peer: u32, rule: &Rule, link: (u32, u32, u32, u32)) -> bool
    ensures { result ≡ keeps_into w.now peer rule.now link }
{
    !(joins_the_peers(peer, rule, link) && has(w, rule.from, link.2, &rule.source))
        || has(w, peer, link.3, &rule.target)
}

fn all_meet_onto(w: &World, peer: u32, rule: &Rule) -> bool
    ensures { result ≡ satisfies_onto w.now peer rule.now }
{
    for x in 0..size(w, peer) {
        if !element_meets_onto(w, peer, rule, x) {
            return false;
        }
    }
    true
}

fn named_meet_onto(w: &World, peer: u32, rule: &Rule) -> bool
    ensures { result ≡ all_named w.now peer (keeps_onto w.now peer rule.now) }
{
    names_meet_onto(w, peer, rule) && starts_meet_onto(w, peer, rule)
}

fn names_meet_onto(w: &World, peer: u32, rule: &Rule) -> bool
    ensures { result ≡ list_all (λ p. keeps_onto w.now peer rule.now p.1) (names_at w.now peer) }
{
    names(w, peer)
        .iter()
        .all(|p| element_meets_onto(w, peer, rule, p.1))
}

// The elements at which a pair of a role starts.
fn starts_meet_onto(w: &World, peer: u32, rule: &Rule) -> bool
    ensures { result ≡ list_all (λ t. keeps_onto w.now peer rule.now t.1) (roles_at w.now peer) }
{
    roles(w, peer)
        .iter()
        .all(|t| element_meets_onto(w, peer, rule, t.1))
}

fn element_meets_onto(w: &World, peer: u32, rule: &Rule, x: u32) -> bool
    ensures { result ≡ keeps_onto w.now peer rule.now x }
{
    !has(w, peer, x, &rule.target) || is_end(w, peer, rule, x)
}

// Whether a link of the rule leads to x.
fn is_end(w: &World, peer: u32, rule: &Rule, x: u32) -> bool
    ensures { result ≡ is_reached w.now peer rule.now x }
{
    w.links
        .as_slice()
        .iter()
        .any(|link| link_leads_to(w, peer, rule, x, *link))
}

fn link_leads_to(w: &World, peer: u32, rule: &Rule, x: u32, link: (u32, u32, u32, u32)) -> bool
    ensures { result ≡ leads_to w.now peer rule.now x link }
{
    joins_the_peers(peer, rule, link) && link.3 == x && has(w, rule.from, link.2, &rule.source)
}

// Whether the link leads from the peer of the rule to this one.
fn joins_the_peers(peer: u32, rule: &Rule, link: (u32, u32, u32, u32)) -> bool
    ensures { result ≡ joins peer rule.now link }
{
    link.0 == rule.from && link.1 == peer
}
