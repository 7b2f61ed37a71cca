//! Reading the kernel.
ghost use Rattle.std.specs.Prelude.{◌≡◌, ◌<◌, ◌||◌, true, false, None, Some, nat_lt, length, slice_get};
ghost use Rattle.std.specs.Option.{option_map_or};
ghost use Rattle.dd_graph.specs.Goes.{is_begun, is_unfinished, unfinished_at};
ghost use Rattle.dd_graph.specs.Right.{open_at, rank_at};

use crate::close::{allows, is_settled_entry};
use crate::kernel::Kernel;
use crate::node::{Entry, Node};
use dd_set::{Bits, NoMemory};
use std::alloc::Global;

impl<'b> Kernel<'b> {
    /// Whether the label at this position is reached and unfinished.
    pub(crate) fn is_unfinished(&self, id: u32) -> bool
        ensures { result ≡ unfinished_at self.now id }
    {
        is_marked(&self.reached, id)
            && is_left(&self.entries, id, self.compiled.count(), self.closed)
    }

    /// The rank of the label at this position.
    pub(crate) fn rank(&self, id: u32) -> Option<u32>
        ensures { result ≡ rank_at self.now.entries.items id }
    {
        match self.entries.get(id as usize) {
            Some(entry) => entry.rank,
            None => None,
        }
    }

    /// Whether the label at this position is neither closed nor open.
    pub(crate) fn is_undecided(&self, id: u32) -> bool {
        match self.entries.get(id as usize) {
            Some(entry) => !is_settled_entry(entry),
            None => false,
        }
    }

    /// The label at this position, where it is Fresh and saturated.
    pub(crate) fn saturated_at(&self, alloc: Global, id: u32) -> Result<Option<Bits>, NoMemory> {
        if id >= self.table.len() || !is_fresh_at(&self.entries, id) {
            return Ok(None);
        }
        let label = self.table.label(id).to_bits(alloc)?;
        if self.compiled.forced(&label, &self.props).is_some() {
            return Ok(None);
        }
        Ok(Some(label))
    }

    /// Whether one of the label's children is enough for it to be open.
    pub(crate) fn is_split(&self, id: u32) -> bool {
        match self.entries.get(id as usize) {
            Some(entry) => is_split_node(&entry.node),
            None => false,
        }
    }

    /// The position with this place among those that the label's node tells.
    pub(crate) fn child_at(&self, id: u32, k: u32) -> Option<u32> {
        match self.entries.get(id as usize) {
            Some(entry) => child_in(&entry.node, k),
            None => None,
        }
    }
}

fn is_marked(marks: &[bool], id: u32) -> bool
    ensures { result ≡ option_map_or (λ b. b) (slice_get marks.now id) false }
{
    match marks.get(id as usize) {
        Some(mark) => *mark,
        None => false,
    }
}

pub(crate) fn is_left(entries: &[Entry], id: u32, width: u32, closed: u32) -> bool
    ensures { result ≡ option_map_or (is_unfinished width entries.now closed) (slice_get entries.now id) false }
{
    match entries.get(id as usize) {
        Some(entry) => {
            !is_settled_entry(entry)
                && (is_at_work(entry, width) || allows(entries, &entry.node, closed))
        }
        None => false,
    }
}

fn is_at_work(entry: &Entry, width: u32) -> bool
    ensures { result ≡ is_begun width entry.now.upto entry.now.node }
{
    match entry.node {
        Node::Fresh => true,
        Node::Done { .. } => entry.upto < width,
        _ => false,
    }
}

fn is_fresh_at(entries: &[Entry], id: u32) -> bool {
    match entries.get(id as usize) {
        Some(entry) => match entry.node {
            Node::Fresh => true,
            _ => false,
        },
        None => false,
    }
}

fn is_split_node(node: &Node) -> bool {
    match node {
        Node::Split { .. } => true,
        _ => false,
    }
}

fn child_in(node: &Node, k: u32) -> Option<u32> {
    match node {
        Node::Fresh => None,
        Node::Clash(_) => None,
        Node::Larger { to } => { if k == 0 { Some(*to) } else { None } }
        Node::Split { to, .. } => match to.as_slice().get(k as usize) {
            Some(t) => Some(*t),
            None => None,
        },
        Node::Done { to } => match to.as_slice().get(k as usize) {
            Some(pair) => Some(pair.1),
            None => None,
        },
    }
}
