ghost use Rattle.std.specs.Prelude.{◌≡◌, ◌<◌, ◌^◌, ℕ};
ghost use Rattle.dd_concept.specs.Counts.{depth_of, node_count};

use crate::concept::Concept;

/// The number of nodes: each variant of the tree is one, and a role is none.
pub fn nodes(c: &Concept) -> u32
    requires { node_count c.now < 2 ^ 32 }
    ensures { result ≡ node_count c.now }
{
    match c {
        Concept::Top | Concept::Bottom | Concept::Name(_) => 1,
        Concept::Not(d) | Concept::HasSome(_, d) | Concept::HasAll(_, d) => nodes(d.get()) + 1,
        Concept::And(d, e) | Concept::Or(d, e) => nodes(d.get()) + nodes(e.get()) + 1,
    }
}

/// The number of nodes on the longest way down: 1 for a concept without parts.
pub fn depth(c: &Concept) -> u32
    requires { depth_of c.now < 2 ^ 32 }
    ensures { result ≡ depth_of c.now }
{
    match c {
        Concept::Top | Concept::Bottom | Concept::Name(_) => 1,
        Concept::Not(d) | Concept::HasSome(_, d) | Concept::HasAll(_, d) => depth(d.get()) + 1,
        Concept::And(d, e) | Concept::Or(d, e) => depth(d.get()).max(depth(e.get())) + 1,
    }
}
