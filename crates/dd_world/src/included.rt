ghost use Rattle.std.specs.Prelude.{◌≡◌, All};
ghost use Rattle.std.specs.List.{list_all};
ghost use Rattle.dd_interp.specs.Satisfies.{IsShaped};
ghost use Rattle.dd_world.specs.Named.{all_named, names_at, roles_at};
ghost use Rattle.dd_world.specs.Tests.{is_under, passes};

use crate::elements::{has, names, roles, size};
use crate::world::World;
use dd_concept::Concept;

/// Whether each element of `left` at this peer is one of `right`.
///
/// An element that no list names has what the number `size` has, which is no element. So where that number passes, only the
/// named elements are tried; else all are, and the first that is not named fails at the latest.
pub fn is_included(w: &World, peer: u32, left: &Concept, right: &Concept) -> bool
    requires { All IsShaped w.now.locals }
    ensures { result ≡ is_under w.now peer left.now right.now }
{
    if is_passed(w, peer, left, right, size(w, peer)) {
        are_named_passed(w, peer, left, right)
    } else {
        are_all_passed(w, peer, left, right)
    }
}

fn are_all_passed(w: &World, peer: u32, left: &Concept, right: &Concept) -> bool
    ensures { result ≡ is_under w.now peer left.now right.now }
{
    for x in 0..size(w, peer) {
        if !is_passed(w, peer, left, right, x) {
            return false;
        }
    }
    true
}

fn are_named_passed(w: &World, peer: u32, left: &Concept, right: &Concept) -> bool
    ensures { result ≡ all_named w.now peer (passes w.now peer left.now right.now) }
{
    are_names_passed(w, peer, left, right) && are_starts_passed(w, peer, left, right)
}

fn are_names_passed(w: &World, peer: u32, left: &Concept, right: &Concept) -> bool
    ensures { result ≡ list_all (λ p. passes w.now peer left.now right.now p.1) (names_at w.now peer) }
{
    names(w, peer)
        .iter()
        .all(|p| is_passed(w, peer, left, right, p.1))
}

// The elements at which a pair of a role starts.
fn are_starts_passed(w: &World, peer: u32, left: &Concept, right: &Concept) -> bool
    ensures { result ≡ list_all (λ t. passes w.now peer left.now right.now t.1) (roles_at w.now peer) }
{
    roles(w, peer)
        .iter()
        .all(|t| is_passed(w, peer, left, right, t.1))
}

fn is_passed(w: &World, peer: u32, left: &Concept, right: &Concept, x: u32) -> bool
    ensures { result ≡ passes w.now peer left.now right.now x }
{
    !has(w, peer, x, left) || has(w, peer, x, right)
}
