ghost use Rattle.std.specs.Prelude.{◌≡◌, ◌↔◌, IsTrue};
ghost use Rattle.std.specs.List.{list_all};
ghost use Rattle.dd_world.specs.Tests.{has_shape, is_link, is_world};
ghost use Rattle.dd_world.specs.World.{IsWorld};

use crate::elements::size;
use crate::world::World;
use dd_interp::{Interp, is_shaped};
use dd_peer::Pinned;

/// Whether there is one shaped interpretation per peer, and each link leads from an element to one of another peer.
pub fn has_world_shape(p: &Pinned, w: &World) -> bool
    ensures test { result ≡ is_world p.now w.now }
    ensures meaning { IsTrue result ↔ IsWorld p.now w.now }
{
    is_world_of(p, w)
}

fn is_world_of(p: &Pinned, w: &World) -> bool
    ensures { result ≡ is_world p.now w.now }
{
    w.locals.as_slice().len() == p.peers.as_slice().len()
        && has_shaped_locals(w)
        && has_links_alone(w)
}

fn has_shaped_locals(w: &World) -> bool
    ensures { result ≡ list_all has_shape w.now.locals }
{
    w.locals
        .as_slice()
        .iter()
        .all(|local| is_interpretation(local))
}

fn has_links_alone(w: &World) -> bool
    ensures { result ≡ list_all (is_link w.now) w.now.links }
{
    w.links
        .as_slice()
        .iter()
        .all(|link| leads_between(w, *link))
}

fn is_interpretation(local: &Interp) -> bool
    ensures { result ≡ has_shape local.now }
{
    is_shaped(local)
}

fn leads_between(w: &World, link: (u32, u32, u32, u32)) -> bool
    ensures { result ≡ is_link w.now link }
{
    link.0 != link.1 && link.2 < size(w, link.0) && link.3 < size(w, link.1)
}
