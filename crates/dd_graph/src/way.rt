//! Which label keeps an open one open.
ghost use Rattle.std.specs.Prelude.{◌≡◌, ◌<◌, length};
ghost use Rattle.std.specs.List.{find};
ghost use Rattle.dd_graph.specs.Child.{open_child};
ghost use Rattle.dd_graph.specs.Right.{open_at};
ghost use Rattle.dd_graph.specs.View.{node_at, view_of};

use crate::graph::Graph;
use crate::node::{Entry, Node};

impl<'b> Graph<'b> {
    /// Of an open label the one that keeps it open: the larger one, or the first open one of those that its step gave; none
    /// where all is decided.
    pub fn open_child(&self, id: u32) -> Option<u32>
        requires { id < length (view_of self.now).labels }
        ensures { result ≡ open_child (view_of self.now).entries (node_at (view_of self.now) id) }
    {
        let entries = &self.kernel.entries;
        child_of(entries, &entries[id as usize].node)
    }
}

fn child_of(entries: &[Entry], node: &Node) -> Option<u32>
    ensures { result ≡ open_child entries.now node.now }
{
    match node {
        Node::Fresh => None,
        Node::Clash(_) => None,
        Node::Larger { to } => Some(*to),
        Node::Split { to, .. } => first_open(entries, to.list.as_slice()),
        Node::Done { .. } => None,
    }
}

fn first_open(entries: &[Entry], ids: &[u32]) -> Option<u32>
    ensures { result ≡ find (open_at entries.now) ids.now }
{
    ids.iter().copied().find(|id| is_open(entries, *id))
}

fn is_open(entries: &[Entry], id: u32) -> bool
    ensures { result ≡ open_at entries.now id }
{
    match entries.get(id as usize) {
        Some(entry) => entry.open,
        None => false,
    }
}
