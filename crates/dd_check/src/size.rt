// How large the concept of a cut may be.
ghost use Rattle.std.specs.Prelude.{◌≡◌, ◌&&◌, nat_le};
ghost use Rattle.dd_concept.specs.Counts.{depth_of, node_count};
ghost use Rattle.dd_check.specs.Room.{room_after};

use dd_concept::{Concept, depth};

/// Whether a cut may be made on the concept: it has at most 1,000 nodes and depth at most 64. A larger concept is read no
/// further than 1,000 nodes.
pub(crate) fn is_for_cuts(c: &Concept) -> bool
    ensures { result ≡ (nat_le (node_count c.now) 1000 && nat_le (depth_of c.now) 64) }
{
    match room_left(c, 1000) {
        Some(_) => depth(c) <= 64,
        None => false,
    }
}

// How many nodes are left of so many, where the concept has no more.
fn room_left(c: &Concept, most: u32) -> Option<u32>
    ensures { result ≡ room_after most (node_count c.now) }
{
    let Some(rest) = most.checked_sub(1) else {
        return None;
    };
    match c {
        Concept::Top | Concept::Bottom | Concept::Name(_) => Some(rest),
        Concept::Not(d) | Concept::HasSome(_, d) | Concept::HasAll(_, d) => {
            room_left(d.get(), rest)
        }
        Concept::And(d, e) | Concept::Or(d, e) => match room_left(d.get(), rest) {
            Some(rest) => room_left(e.get(), rest),
            None => None,
        },
    }
}
