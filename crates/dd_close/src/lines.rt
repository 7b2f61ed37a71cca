//! The lines of a closed label.
ghost use Rattle.std.specs.Prelude.{◌≡◌, ◌<◌, ℕ, List, true, IfOk, Some, length};
ghost use Rattle.dd_graph.specs.View.{IsAt, concepts_in, is_some_rank, rank_of, view_of};
ghost use Rattle.dd_task.specs.Verdicts.{IsRightClosedBy};
ghost use Rattle.dd_close.specs.Drafts.{IsBook};
ghost use Rattle.dd_close.specs.Fits.{IsGraphFor};
ghost use Rattle.dd_close.specs.Orders.{HasDraft};
ghost use Rattle.dd_close.specs.Writes.{IsVersionOf};

use crate::draft::{Book, empty_book};
use crate::order::{draft_lines, order_of};
use crate::write::write_lines;
use bumpalo::Bump;
use dd_graph::Graph;
use dd_peer::{PeerVersion, Pinned};
use dd_set::NoMemory;
use dd_task::{Line, Prop, version_of};
use std::alloc::Global;

/// The lines that show that no element of the peer has the label with this position, which is closed: of that peer, in the
/// concepts of its closure, and over the propagations of the view, whose claims have the first numbers. No two lines have one
/// label.
pub fn lines_of(
    alloc: Global,
    p: &Pinned,
    g: &Graph,
    peer: u32,
    id: u32,
    view: &[Prop],
) -> Result<Vec<Line>, NoMemory>
    requires rank { is_some_rank (rank_of (view_of g.now) id) ≡ true }
    requires fits { IsGraphFor p.now peer view.now (view_of g.now) }
    ensures { IfOk result (λ lines. (l : List ℕ) → IsAt (view_of g.now) id l → IsRightClosedBy p.now peer view.now (view_of g.now).closure.concepts (concepts_in (view_of g.now) l) lines.items) }
{
    g.known();
    let version = peer_version(p, peer);
    let arena = Bump::new(alloc);
    let mut book = empty_book(alloc, &arena, g)?;
    let last = draft(alloc, g, version, &mut book, id)?;
    write_lines(alloc, p, g, peer, version, view, &book, last)
}

/// The peer's version.
fn peer_version(p: &Pinned, peer: u32) -> &PeerVersion
    requires { peer < length p.now.peers }
    ensures { IsVersionOf p.now peer result.now }
{
    match version_of(p, peer) {
        Some(version) => version,
        None => unreachable!(),
    }
}

/// A line within the label with this position, which is closed.
fn draft(
    alloc: Global,
    g: &Graph,
    version: &PeerVersion,
    book: &mut Book,
    id: u32,
) -> Result<u32, NoMemory>
    requires book { IsBook (view_of g.now) book.old }
    requires axioms { (view_of g.now).closure.axioms ≡ version.now.axioms }
    requires rank { is_some_rank (rank_of (view_of g.now) id) ≡ true }
    ensures { IfOk result (HasDraft (view_of g.now) book.new id) }
{
    g.known();
    let rank = rank_at(g, id);
    let order = order_of(alloc, g, rank)?;
    let lines = draft_lines(alloc, g, version, book, &order)?;
    Ok(lines[id as usize])
}

/// The rank of the label with this position, which is closed.
fn rank_at(g: &Graph, id: u32) -> u32
    requires { is_some_rank (rank_of (view_of g.now) id) ≡ true }
    ensures { rank_of (view_of g.now) id ≡ Some result }
{
    g.known();
    match g.rank(id) {
        Some(rank) => rank,
        None => unreachable!(),
    }
}
