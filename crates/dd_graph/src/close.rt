//! Closing a label: it gets the next rank.
ghost use Rattle.std.specs.Prelude.{◌≡◌, ◌<◌, false, length, IsTrue, slice_get, slice_set, Some, vec_len};
ghost use Rattle.std.specs.List.{list_all, list_any};
ghost use Rattle.dd_graph.specs.Goes.{Goes, IsBegun, closable_at, is_closable, Lessens};
ghost use Rattle.dd_graph.specs.Right.{closes, is_below, rank_at};
ghost use Rattle.dd_graph.specs.View.{is_settled};

use crate::kernel::Kernel;
use crate::node::{Entry, Node};

impl<'b> Kernel<'b> {
    /// Closes the label at this position where its node allows it, and tells whether it did.
    pub(crate) fn close(&mut self, id: u32) -> bool
        requires begun { IsBegun self.old }
        ensures goes { Goes self.old self.new }
        ensures closed { result ≡ closable_at self.old.entries.items self.old.closed id }
        ensures less { IsTrue result → Lessens self.old self.new }
    {
        let _labels = self.table.len();
        if !can_close(&self.entries, id, self.closed) {
            return false;
        }
        set_rank(&mut self.entries, id, self.closed);
        self.closed += 1;
        true
    }
}

pub(crate) fn can_close(entries: &[Entry], id: u32, closed: u32) -> bool
    ensures { result ≡ closable_at entries.now closed id }
{
    match entries.get(id as usize) {
        Some(entry) => !is_settled_entry(entry) && allows(entries, &entry.node, closed),
        None => false,
    }
}

pub(crate) fn is_settled_entry(entry: &Entry) -> bool
    ensures { result ≡ is_settled entry.now }
{
    entry.rank.is_some() || entry.open
}

fn set_rank(entries: &mut Vec<Entry>, id: u32, rank: u32)
    requires { id < vec_len entries.old }
    ensures { (e : Entry) → slice_get entries.old.items id ≡ Some e → entries.new.items ≡ slice_set entries.old.items id (record e { rank = Some rank }) }
{
    let entry = &mut entries[id as usize];
    entry.rank = Some(rank);
}

pub(crate) fn allows(entries: &[Entry], node: &Node, closed: u32) -> bool
    ensures { result ≡ closes entries.now closed node.now }
{
    match node {
        Node::Fresh => false,
        Node::Clash(_) => true,
        Node::Larger { to } => is_under(entries, *to, closed),
        Node::Split { to, .. } => all_under(entries, to.as_slice(), closed),
        Node::Done { to } => some_under(entries, to.as_slice(), closed),
    }
}

fn all_under(entries: &[Entry], ids: &[u32], closed: u32) -> bool
    ensures { result ≡ list_all (λ t. is_below closed (rank_at entries.now t)) ids.now }
{
    ids.iter().all(|t| is_under(entries, *t, closed))
}

fn some_under(entries: &[Entry], pairs: &[(u32, u32)], closed: u32) -> bool
    ensures { result ≡ list_any (λ p. is_below closed (rank_at entries.now p.1)) pairs.now }
{
    pairs.iter().any(|p| is_under(entries, p.1, closed))
}

pub(crate) fn is_under(entries: &[Entry], id: u32, closed: u32) -> bool
    ensures { result ≡ is_below closed (rank_at entries.now id) }
{
    match entries.get(id as usize) {
        Some(entry) => match entry.rank {
            Some(rank) => rank < closed,
            None => false,
        },
        None => false,
    }
}
