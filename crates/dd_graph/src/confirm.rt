//! Whether all that the goal needs is done: then it is open, and else something is left.
ghost use Rattle.std.specs.Prelude.{◌≡◌, ◌<◌, ◌||◌, All, IfOk, IfSome, None, Ok, Some, length, map, true, false, nat_lt, vec_len};
ghost use Rattle.std.specs.Option.{option_map_or};
ghost use Rattle.std.specs.Prelude.{slice_get};
ghost use Rattle.dd_graph.specs.Goes.{Goes, IsBegun, is_begun, is_unfinished, unfinished_at, width_in};
ghost use Rattle.dd_graph.specs.Right.{open_at, rank_at};
ghost use Rattle.dd_graph.specs.View.{is_some_rank};
ghost use Rattle.dd_graph.specs.declared.node.Entry.{Entry};
ghost use Rattle.dd_graph.specs.Trail.{IsLeft, IsTrail, first_free, looked_at, needed_of, open_all, open_one, taken, with_all};

use crate::kernel::Kernel;
use crate::node::{Entry, Node};
use crate::read::is_left;
use crate::walk::Walk;
use dd_set::{Marked, NoMemory};
use std::alloc::Global;

impl<'b> Kernel<'b> {
    /// Opens the goal, where all that it needs is done. Else the position of a label that is reached and unfinished.
    pub(crate) fn confirm(&mut self, alloc: Global, walk: &Walk) -> Result<Option<u32>, NoMemory>
        requires begun { IsBegun self.old }
        requires unranked { rank_at self.old.entries.items self.old.goal ≡ None }
        ensures goes { Goes self.old self.new }
        ensures left { IfOk result (λ o. IfSome o (λ id. unfinished_at self.new id ≡ true)) }
        ensures opened { result ≡ Ok None → open_at self.new.entries.items self.new.goal ≡ true }
    {
        let mut list = Marked::new(alloc, self.table.len())?;
        list.add(self.goal);
        match self.first_left(&mut list, walk) {
            Some(id) => {
                self.mark(id);
                Ok(Some(id))
            }
            None => {
                open_each(&mut self.entries, list.as_slice());
                Ok(None)
            }
        }
    }

    /// The first label that is left, as the list grows by what each of its labels needs.
    fn first_left(&self, list: &mut Marked, walk: &Walk) -> Option<u32>
        requires bound { list.old.bound ≡ length self.now.table.list }
        requires trail { IsTrail self.now 0 list.old.list }
        ensures left { IfSome result (λ id. IsLeft self.now id) }
        ensures trail { result ≡ None → IsTrail self.now (length list.new.list) list.new.list }
    {
        let width = self.compiled.count();
        let _labels = self.table.len();
        let mut at = 0u32;
        while let Some(id) = list.get(at) {
            if is_left(&self.entries, id, width, self.closed) {
                return Some(id);
            }
            let hint = walk.preferred(id);
            look_at(&self.entries, hint, id, list);
            at += 1;
        }
        None
    }
}

/// Puts what the label at this position needs behind the others, unless it is open.
fn look_at(entries: &[Entry], hint: u32, id: u32, list: &mut Marked)
    requires within { (e : Entry) → slice_get entries.now id ≡ Some e → e.open ≡ false → All (λ t. t < list.old.bound) (needed_of entries.now hint e.node) }
    ensures { list.new ≡ record list.old { list = looked_at entries.now hint id list.old.list } }
{
    if let Some(entry) = entries.get(id as usize) {
        if !entry.open {
            add_needed(entries, hint, &entry.node, list);
        }
    }
}

fn add_needed(entries: &[Entry], hint: u32, node: &Node, list: &mut Marked)
    requires within { All (λ t. t < list.old.bound) (needed_of entries.now hint node.now) }
    ensures { list.new ≡ record list.old { list = with_all list.old.list (needed_of entries.now hint node.now) } }
{
    match node {
        Node::Fresh => {}
        Node::Clash(_) => {}
        Node::Larger { to } => {
            list.add(*to);
        }
        Node::Split { to, .. } => {
            if let Some(t) = preferred_of(entries, hint, to.as_slice()) {
                list.add(t);
            }
        }
        Node::Done { to } => add_seconds(to.as_slice(), list),
    }
}

/// The position with the place `hint`, where its label is not closed, and else the first such.
fn preferred_of(entries: &[Entry], hint: u32, ids: &[u32]) -> Option<u32>
    ensures { result ≡ taken entries.now hint ids.now }
{
    match ids.get(hint as usize) {
        Some(t) => {
            if has_rank(entries, *t) {
                first_unranked(entries, ids)
            } else {
                Some(*t)
            }
        }
        None => first_unranked(entries, ids),
    }
}

fn first_unranked(entries: &[Entry], ids: &[u32]) -> Option<u32>
    ensures { result ≡ first_free entries.now ids.now }
{
    for t in ids {
        if !has_rank(entries, *t) {
            return Some(*t);
        }
    }
    None
}

fn has_rank(entries: &[Entry], id: u32) -> bool
    ensures { result ≡ is_some_rank (rank_at entries.now id) }
{
    match entries.get(id as usize) {
        Some(entry) => entry.rank.is_some(),
        None => false,
    }
}

fn add_seconds(pairs: &[(u32, u32)], list: &mut Marked)
    requires within { All (λ p. p.1 < list.old.bound) pairs.now }
    ensures { list.new ≡ record list.old { list = with_all list.old.list (map (λ p. p.1) pairs.now) } }
{
    for pair in pairs {
        list.add(pair.1);
    }
}

/// Opens the labels at these positions.
fn open_each(entries: &mut Vec<Entry>, ids: &[u32])
    requires within { All (λ t. t < vec_len entries.old) ids.now }
    ensures { entries.new.items ≡ open_all entries.old.items ids.now }
{
    for id in ids {
        set_open(entries, *id);
    }
}

fn set_open(entries: &mut Vec<Entry>, id: u32)
    requires { id < vec_len entries.old }
    ensures { entries.new.items ≡ open_one entries.old.items id }
{
    let entry = &mut entries[id as usize];
    entry.open = true;
}
