//! Noting what was done at a label that is neither closed nor open.
ghost use Rattle.std.specs.Prelude.{◌≡◌, ◌≢◌, ◌<◌, ◌≤◌, ◌+◌, ℕ, List, [], ◌∷◌, ◌++◌, true, false, Some, OnOk, OnErr, length, slice_get, slice_set, vec_len};
ghost use Rattle.dd_set.specs.Words.{has};
ghost use Rattle.dd_rules.specs.Forced.{is_clash};
ghost use Rattle.dd_rules.specs.Numbers.{additions, calls_for, is_complete};
ghost use Rattle.dd_graph.specs.declared.node.Entry.{Entry};
ghost use Rattle.dd_graph.specs.declared.node.Node.TheVariants as node;
ghost use Rattle.dd_graph.specs.Goes.{AreChildren, AtLabel, Idles, IsFree, Sets, SetsBy};
ghost use Rattle.dd_graph.specs.Right.{IsClear, IsLeastAt, IsSuccessorAt, is_below, is_some_in, rank_at};
ghost use Rattle.dd_graph.specs.View.{is_settled, kernel_view, rules_at};

use crate::kernel::Kernel;
use crate::node::{Entry, Node};
use dd_concept::Items;
use dd_rules::{Clash, Step};
use dd_set::NoMemory;
use std::alloc::Global;

impl<'b> Kernel<'b> {
    /// The label has this clash, so it is closed.
    pub(crate) fn note_clash(&mut self, id: u32, clash: Clash)
        requires free { IsFree self.old id }
        requires clash { AtLabel self.old id (λ l. is_clash (rules_at (kernel_view self.old)) (has l) clash ≡ true) }
        ensures { SetsBy id (λ e. record e { node = node.Clash clash; rank = Some self.old.closed }) self.old self.new }
    {
        let _labels = self.table.len();
        set_closed(&mut self.entries, id, Node::Clash(clash), self.closed);
        self.closed += 1;
    }

    /// The label at `to` is the least saturated one that has this label, and is another.
    pub(crate) fn note_larger(&mut self, id: u32, to: u32)
        requires free { IsFree self.old id }
        requires larger { AtLabel self.old id (λ l. IsLeastAt (rules_at (kernel_view self.old)) self.old.table.list (has l) to × (slice_get self.old.table.list to ≢ Some l)) }
        ensures { SetsBy id (λ e. record e { node = node.Larger to }) self.old self.new }
    {
        set_node(&mut self.entries, id, Node::Larger { to });
    }

    /// The label calls for the step, which gives the labels at these positions.
    pub(crate) fn note_split(&mut self, id: u32, step: Step, to: Items<u32>)
        requires free { IsFree self.old id }
        requires clear { AtLabel self.old id (λ l. IsClear (rules_at (kernel_view self.old)) (has l)) }
        requires calls { AtLabel self.old id (λ l. calls_for (rules_at (kernel_view self.old)) (has l) step ≡ true) }
        requires many { length to ≡ length (additions (rules_at (kernel_view self.old)) step) }
        requires children { AtLabel self.old id (λ l. AreChildren (rules_at (kernel_view self.old)) self.old.table.list (has l) step to) }
        ensures { SetsBy id (λ e. record e { node = node.Split step to }) self.old self.new }
    {
        set_node(&mut self.entries, id, Node::Split { step, to });
    }

    /// The label is complete. None of its existential restrictions was looked at yet.
    pub(crate) fn note_done(&mut self, alloc: Global, id: u32)
        requires free { IsFree self.old id }
        requires clear { AtLabel self.old id (λ l. IsClear (rules_at (kernel_view self.old)) (has l)) }
        requires complete { AtLabel self.old id (λ l. is_complete (rules_at (kernel_view self.old)) (has l) ≡ true) }
        ensures { SetsBy id (λ e. record e { node = node.Done []; upto = 0 }) self.old self.new }
    {
        set_done(&mut self.entries, id, Items::new(alloc));
    }

    /// What the existential restriction with this number asks for is closed, so the label is.
    pub(crate) fn note_refuted(&mut self, id: u32, n: u32, at: u32, to: Items<(u32, u32)>)
        requires free { IsFree self.old id }
        requires clear { AtLabel self.old id (λ l. IsClear (rules_at (kernel_view self.old)) (has l)) }
        requires pair { to ≡ (n, at) ∷ [] }
        requires closed { is_below self.old.closed (rank_at self.old.entries.items at) ≡ true }
        requires follows { AtLabel self.old id (λ l. IsSuccessorAt (rules_at (kernel_view self.old)) self.old.table.list (has l) n at) }
        ensures { SetsBy id (λ e. record e { node = node.Done ((n, at) ∷ []); upto = 0; rank = Some self.old.closed }) self.old self.new }
    {
        let _labels = self.table.len();
        set_refuted(&mut self.entries, id, to, self.closed);
        self.closed += 1;
    }

    /// The next existential restriction of a Done label asks for the label at `at`.
    pub(crate) fn note_pair(&mut self, id: u32, n: u32, at: u32) -> Result<(), NoMemory>
        requires done { (e : Entry) × (to : List (ℕ × ℕ)) × (slice_get self.old.entries.items id ≡ Some e) × (is_settled e ≡ false) × (e.node ≡ node.Done to) × (e.upto ≤ n) }
        requires small { n < 4294967295 }
        requires follows { AtLabel self.old id (λ l. IsSuccessorAt (rules_at (kernel_view self.old)) self.old.table.list (has l) n at) }
        requires next { (e : Entry) → slice_get self.old.entries.items id ≡ Some e → AtLabel self.old id (λ l. (k : ℕ) → e.upto ≤ k → k < n → is_some_in (rules_at (kernel_view self.old)) (has l) k ≡ false) }
        ensures ok { OnOk result ((to : List (ℕ × ℕ)) (e : Entry) → slice_get self.old.entries.items id ≡ Some e → e.node ≡ node.Done to → Sets id (record e { node = node.Done (to ++ (n, at) ∷ []); upto = n + 1 }) self.old self.new) }
        ensures err { OnErr result (Idles self.old self.new) }
    {
        push_pair(&mut self.entries, id, n, at)?;
        Ok(())
    }

    /// The Done label has no further existential restriction.
    pub(crate) fn note_full(&mut self, id: u32, width: u32)
        requires done { (e : Entry) × (to : List (ℕ × ℕ)) × (slice_get self.old.entries.items id ≡ Some e) × (is_settled e ≡ false) × (e.node ≡ node.Done to) }
        requires last { (e : Entry) → slice_get self.old.entries.items id ≡ Some e → AtLabel self.old id (λ l. (k : ℕ) → e.upto ≤ k → is_some_in (rules_at (kernel_view self.old)) (has l) k ≡ false) }
        ensures { SetsBy id (λ e. record e { upto = width }) self.old self.new }
    {
        set_full(&mut self.entries, id, width);
    }

    /// The label is saturated and has no clash.
    pub(crate) fn note_clear(&mut self, id: u32)
        requires free { IsFree self.old id }
        requires clear { AtLabel self.old id (λ l. IsClear (rules_at (kernel_view self.old)) (has l)) }
        ensures { SetsBy id (λ e. record e { clear = true }) self.old self.new }
    {
        set_clear(&mut self.entries, id);
    }
}

fn set_node(entries: &mut Vec<Entry>, id: u32, node: Node)
    requires { id < vec_len entries.old }
    ensures { (e : Entry) → slice_get entries.old.items id ≡ Some e → entries.new.items ≡ slice_set entries.old.items id (record e { node = node }) }
{
    let entry = &mut entries[id as usize];
    entry.node = node;
}

fn set_closed(entries: &mut Vec<Entry>, id: u32, node: Node, rank: u32)
    requires { id < vec_len entries.old }
    ensures { (e : Entry) → slice_get entries.old.items id ≡ Some e → entries.new.items ≡ slice_set entries.old.items id (record e { node = node; rank = Some rank }) }
{
    let entry = &mut entries[id as usize];
    entry.node = node;
    entry.rank = Some(rank);
}

fn set_done(entries: &mut Vec<Entry>, id: u32, to: Items<(u32, u32)>)
    requires { id < vec_len entries.old }
    ensures { (e : Entry) → slice_get entries.old.items id ≡ Some e → entries.new.items ≡ slice_set entries.old.items id (record e { node = node.Done to; upto = 0 }) }
{
    let entry = &mut entries[id as usize];
    entry.node = Node::Done { to };
    entry.upto = 0;
}

fn set_clear(entries: &mut Vec<Entry>, id: u32)
    requires { id < vec_len entries.old }
    ensures { (e : Entry) → slice_get entries.old.items id ≡ Some e → entries.new.items ≡ slice_set entries.old.items id (record e { clear = true }) }
{
    let entry = &mut entries[id as usize];
    entry.clear = true;
}

fn set_full(entries: &mut Vec<Entry>, id: u32, width: u32)
    requires { id < vec_len entries.old }
    ensures { (e : Entry) → slice_get entries.old.items id ≡ Some e → entries.new.items ≡ slice_set entries.old.items id (record e { upto = width }) }
{
    let entry = &mut entries[id as usize];
    entry.upto = width;
}

fn set_refuted(entries: &mut Vec<Entry>, id: u32, to: Items<(u32, u32)>, rank: u32)
    requires { id < vec_len entries.old }
    ensures { (e : Entry) → slice_get entries.old.items id ≡ Some e → entries.new.items ≡ slice_set entries.old.items id (record e { node = node.Done to; upto = 0; rank = Some rank }) }
{
    let entry = &mut entries[id as usize];
    entry.node = Node::Done { to };
    entry.upto = 0;
    entry.rank = Some(rank);
}

fn push_pair(entries: &mut Vec<Entry>, id: u32, n: u32, at: u32) -> Result<(), NoMemory>
    requires within { id < vec_len entries.old }
    requires small { n < 4294967295 }
    requires done { (e : Entry) × (to : List (ℕ × ℕ)) × (slice_get entries.old.items id ≡ Some e) × (e.node ≡ node.Done to) }
    ensures ok { OnOk result ((to : List (ℕ × ℕ)) (e : Entry) → slice_get entries.old.items id ≡ Some e → e.node ≡ node.Done to → entries.new.items ≡ slice_set entries.old.items id (record e { node = node.Done (to ++ (n, at) ∷ []); upto = n + 1 })) }
    ensures err { OnErr result (entries.new.items ≡ entries.old.items) }
{
    let entry = &mut entries[id as usize];
    if let Node::Done { to } = &mut entry.node {
        to.push((n, at))?;
        entry.upto = n + 1;
    }
    Ok(())
}
