//! The lines of all labels that were closed up to some label, in the order in which they were closed.
ghost use Rattle.std.specs.Prelude.{◌≡◌, ◌↔◌, ◌<◌, ◌+◌, IfOk, IsTrue, OnOk, Some, length};
ghost use Rattle.dd_graph.specs.View.{rank_of, view_of};
ghost use Rattle.dd_close.specs.Drafts.{IsBook};
ghost use Rattle.dd_close.specs.Orders.{Drafts, IsOrder, IsPlaced};

use crate::draft::Book;
use crate::node::{line_at, number_of};
use dd_graph::Graph;
use dd_peer::PeerVersion;
use dd_set::NoMemory;
use std::alloc::Global;

/// The positions of the closed labels by their ranks, up to this rank.
pub(crate) fn order_of(alloc: Global, g: &Graph, top: u32) -> Result<Vec<u32>, NoMemory>
    ensures len { IfOk result (λ order. length order.items ≡ top + 1) }
    ensures order { IfOk result (λ order. IsOrder (view_of g.now) order.items (length (view_of g.now).labels)) }
{
    g.known();
    let mut order = vec![in alloc; 0u32; top as usize + 1]?;
    for id in 0..g.table().len() {
        place(g, id, &mut order);
    }
    Ok(order)
}

/// Writes down the position at its label's rank.
fn place(g: &Graph, id: u32, order: &mut [u32])
    requires { id < length (view_of g.now).labels }
    ensures len { length order.new ≡ length order.old }
    ensures placed { IsPlaced (view_of g.now) id order.old order.new }
{
    if let Some(rank) = g.rank(id) {
        if (rank as usize) < order.len() {
            order[rank as usize] = id;
        }
    }
}

/// The lines of the labels in this order: of each of them a line within it, by its position.
pub(crate) fn draft_lines(
    alloc: Global,
    g: &Graph,
    version: &PeerVersion,
    book: &mut Book,
    order: &[u32],
) -> Result<Vec<u32>, NoMemory>
    requires book { IsBook (view_of g.now) book.old }
    requires axioms { (view_of g.now).closure.axioms ≡ version.now.axioms }
    requires order { IsOrder (view_of g.now) order.now (length (view_of g.now).labels) }
    ensures { IfOk result (λ lines. Drafts (view_of g.now) book.new lines.items (length order.now)) }
{
    g.known();
    let mut lines = vec![in alloc; 0u32; g.table().len() as usize]?;
    for rank in 0..order.len() {
        draft_one(alloc, g, version, book, order, &mut lines, rank)?;
    }
    Ok(lines)
}

/// The line of the label with this rank, if there is one.
fn draft_one(
    alloc: Global,
    g: &Graph,
    version: &PeerVersion,
    book: &mut Book,
    order: &[u32],
    lines: &mut [u32],
    rank: usize,
) -> Result<(), NoMemory>
    requires axioms { (view_of g.now).closure.axioms ≡ version.now.axioms }
    requires order { IsOrder (view_of g.now) order.now (length (view_of g.now).labels) }
    requires within { rank < length order.now }
    requires len { length lines.old ≡ length (view_of g.now).labels }
    requires drafts { Drafts (view_of g.now) book.old lines.old rank }
    ensures len { length lines.new ≡ length lines.old }
    ensures drafts { OnOk result (Drafts (view_of g.now) book.new lines.new (rank + 1)) }
{
    g.known();
    let id = order[rank];
    let bound = number_of(rank)?;
    if has_rank(g, id, bound) {
        let line = line_at(alloc, g, version, book, lines, id, bound)?;
        lines[id as usize] = line;
    }
    Ok(())
}

/// Whether the position is that of a label with this rank.
fn has_rank(g: &Graph, id: u32, rank: u32) -> bool
    ensures { IsTrue result ↔ (rank_of (view_of g.now) id ≡ Some rank) }
{
    g.known();
    if id < g.table().len() {
        return g.rank(id) == Some(rank);
    }
    false
}
