ghost use Rattle.std.specs.Prelude.{◌≡◌};
ghost use Rattle.dd_world.specs.Named.{names_at, roles_at};
ghost use Rattle.dd_world.specs.Elements.{holds_at, size_at};

use crate::world::World;
use dd_concept::Concept;
use dd_interp::holds;

/// The number of elements of a peer, 0 where it has no interpretation.
pub fn size(w: &World, peer: u32) -> u32
    ensures { result ≡ size_at w.now peer }
{
    match w.locals.as_slice().get(peer as usize) {
        Some(local) => local.size,
        None => 0,
    }
}

/// Whether the element of the peer is one of the concept.
pub fn has(w: &World, peer: u32, x: u32, c: &Concept) -> bool
    ensures { result ≡ holds_at w.now peer x c.now }
{
    match w.locals.as_slice().get(peer as usize) {
        Some(local) => holds(local, x, c),
        None => false,
    }
}

/// The names of the peer's elements.
pub fn names(w: &World, peer: u32) -> &[(u32, u32)]
    ensures { result.now ≡ names_at w.now peer }
{
    match w.locals.as_slice().get(peer as usize) {
        Some(local) => local.names.as_slice(),
        None => &[],
    }
}

/// The roles of the peer's elements.
pub fn roles(w: &World, peer: u32) -> &[(u32, u32, u32)]
    ensures { result.now ≡ roles_at w.now peer }
{
    match w.locals.as_slice().get(peer as usize) {
        Some(local) => local.roles.as_slice(),
        None => &[],
    }
}
