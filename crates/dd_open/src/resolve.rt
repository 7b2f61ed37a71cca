//! The way from an open label to the complete one that it leads to.
ghost use Rattle.std.specs.Prelude.{◌≡◌, ◌<◌, true, length};
ghost use Rattle.dd_graph.specs.View.{is_open_at, view_of};
ghost use Rattle.dd_open.specs.Ways.{LeadsTo, IsOpenDone};

use dd_graph::Graph;

/// The position of the complete label to which an open one leads.
pub(crate) fn resolve(g: &Graph, id: u32) -> u32
    requires within { id < length (view_of g.now).labels }
    requires open { is_open_at (view_of g.now) id ≡ true }
    ensures leads { LeadsTo (view_of g.now) id result }
    ensures done { IsOpenDone (view_of g.now) result }
    ensures within { result < length (view_of g.now).labels }
{
    g.known();
    let mut at = id;
    while let Some(next) = g.open_child(at) {
        at = next;
    }
    at
}
