//! A world seen at the elements that it mentions, and at one for those that it does not, which is as good as the world.
ghost use Rattle.std.specs.Prelude.{◌≡◌, ◌<◌, ◌^◌, [], true, All, IfOk, length, map, slice_index_or};
ghost use Rattle.dd_interp.specs.Places.{is_listed};
ghost use Rattle.dd_interp.specs.Satisfies.{IsShaped};
ghost use Rattle.dd_set.specs.Sets.{IsRising};
ghost use Rattle.dd_world.specs.Mentions.{AreSeen, mentions_of};
ghost use Rattle.dd_world.specs.Sketches.{AreAllSeen, AreCharts, Sees, place, seen_link, world_of};
ghost use Rattle.dd_world.specs.World.{IsLink};

use crate::mention::{mentions, seen_elements};
use crate::world::World;
use dd_concept::{Items, NoMemory};
use dd_interp::{Chart, Interp, place_of};
use std::alloc::Global;

/// A world whose elements are numbered by their places among those that are seen.
#[derive(Drop)]
pub struct Sketch {
    pub charts: Items<Chart>,
    pub links: Items<(u32, u32, u32, u32)>,
}

/// The sketch of a world. It takes time for each item of a list, and for each link and peer.
pub fn sketch_of(alloc: Global, w: &World) -> Result<Sketch, NoMemory>
    requires peers { length w.now.locals < 2 ^ 32 }
    requires shaped { All IsShaped w.now.locals }
    requires links { All (IsLink w.now) w.now.links }
    ensures { IfOk result (λ s. Sees w.now (world_of s)) }
{
    let elements = all_elements(alloc, w)?;
    let charts = charts(alloc, w, elements.as_slice())?;
    let links = seen_links(alloc, w, elements.as_slice())?;
    Ok(Sketch { charts, links })
}

fn all_elements(alloc: Global, w: &World) -> Result<Items<Items<u32>>, NoMemory>
    requires peers { length w.now.locals < 2 ^ 32 }
    requires shaped { All IsShaped w.now.locals }
    requires links { All (IsLink w.now) w.now.links }
    ensures { IfOk result (λ elements. AreAllSeen w.now elements (length w.now.locals)) }
{
    let locals = w.locals.as_slice();
    let mut elements = Items::new(alloc);
    for peer in 0..locals.len() {
        let seen = elements_of(alloc, peer as u32, &locals[peer], w.links.as_slice())?;
        elements.push(seen)?;
    }
    Ok(elements)
}

fn elements_of(
    alloc: Global,
    peer: u32,
    local: &Interp,
    links: &[(u32, u32, u32, u32)],
) -> Result<Items<u32>, NoMemory>
    requires shaped { IsShaped local.now }
    requires ends { All (λ l. (l.0 ≡ peer → l.2 < local.now.size) × (l.1 ≡ peer → l.3 < local.now.size)) links.now }
    ensures { IfOk result (AreSeen local.now.size (mentions_of peer local.now links.now)) }
{
    let mentions = mentions(alloc, peer, local, links)?;
    seen_elements(alloc, local.size, mentions.as_slice())
}

fn charts(alloc: Global, w: &World, elements: &[Items<u32>]) -> Result<Items<Chart>, NoMemory>
    requires { AreAllSeen w.now elements.now (length w.now.locals) }
    ensures { IfOk result (λ charts. AreCharts w.now elements.now charts (length w.now.locals)) }
{
    let locals = w.locals.as_slice();
    let mut charts = Items::new(alloc);
    for peer in 0..locals.len() {
        let chart = Chart::new(alloc, &locals[peer], elements[peer].as_slice())?;
        charts.push(chart)?;
    }
    Ok(charts)
}

fn seen_links(
    alloc: Global,
    w: &World,
    elements: &[Items<u32>],
) -> Result<Items<(u32, u32, u32, u32)>, NoMemory>
    requires links { All (IsLink w.now) w.now.links }
    requires seen { AreAllSeen w.now elements.now (length w.now.locals) }
    ensures { IfOk result (λ links. links ≡ map (seen_link elements.now) w.now.links) }
{
    let mut links = Items::new(alloc);
    for link in w.links.as_slice() {
        let from = place_at(elements, link.0, link.2);
        let to = place_at(elements, link.1, link.3);
        links.push((link.0, link.1, from, to))?;
    }
    Ok(links)
}

// The place of the element of the peer.
fn place_at(elements: &[Items<u32>], peer: u32, x: u32) -> u32
    requires rising { IsRising (slice_index_or elements.now peer []) }
    requires few { length (slice_index_or elements.now peer []) < 2 ^ 32 }
    requires listed { is_listed (slice_index_or elements.now peer []) x ≡ true }
    ensures { result ≡ place (slice_index_or elements.now peer []) x }
{
    match elements.get(peer as usize) {
        Some(elements) => match place_of(elements.as_slice(), x) {
            Some(place) => place as u32,
            None => 0,
        },
        None => 0,
    }
}
