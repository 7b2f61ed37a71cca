//! One step at a label.
ghost use Rattle.std.specs.Prelude.{◌≡◌, ◌≢◌, ◌<◌, ◌≤◌, ℕ, List, true, false, Some, None, Ok, Err, IfOk, IfSome, OnOk, OnErr, IsTrue, length, slice_get};
ghost use Rattle.std.specs.Option.{option_map_or};
ghost use Rattle.dd_set.specs.Words.{has};
ghost use Rattle.dd_rules.specs.Numbers.{calls_for};
ghost use Rattle.dd_graph.specs.declared.node.Entry.{Entry};
ghost use Rattle.dd_graph.specs.declared.node.Node.TheVariants as node;
ghost use Rattle.dd_graph.specs.Goes.{Expands, Goes, Idles, IsBegun, IsDoneAt, IsFreshAt, IsFull, Lessens, unfinished_at, width_in};
ghost use Rattle.dd_graph.specs.Right.{IsClear, IsSuccessorAt, is_below, is_some_in, is_some_shape, rank_at};
ghost use Rattle.dd_graph.specs.View.{kernel_view, rules_at};

use crate::close::{can_close, is_under};
use crate::kernel::{Advice, Kernel, Stop};
use crate::node::{Entry, Node};
use dd_concept::Items;
use dd_rules::{Shape, Step};
use dd_set::{Bits, NoMemory};
use std::alloc::Global;

impl<'b> Kernel<'b> {
    /// One step at a label that is reached and unfinished. At a label that is clear the advice is taken if it passes its test.
    pub(crate) fn expand(&mut self, alloc: Global, id: u32, advice: Advice) -> Result<(), Stop>
        requires begun { IsBegun self.old }
        requires unfinished { unfinished_at self.old id ≡ true }
        ensures goes { Goes self.old self.new }
        ensures less { OnOk result (Lessens self.old self.new) }
        ensures full { result ≡ Err Stop.Spent → IsFull self.new }
    {
        if can_close(&self.entries, id, self.closed) {
            self.close(id);
            return Ok(());
        }
        if let Some(upto) = done_upto(&self.entries, id) {
            return self.pair(alloc, id, upto);
        }
        let Ok(label) = self.table.label(id).to_bits(alloc) else {
            return Err(Stop::NoMemory);
        };
        if is_clear(&self.entries, id) {
            return self.choose(alloc, id, &label, advice);
        }
        self.start(alloc, id, &label, advice)
    }

    /// The step at a Fresh label that is not known to be clear.
    fn start(&mut self, alloc: Global, id: u32, label: &Bits, advice: Advice) -> Result<(), Stop>
        requires begun { IsBegun self.old }
        requires width { label.now.width ≡ self.old.table.width }
        requires fresh { IsFreshAt self.old id label.now.words }
        ensures goes { Goes self.old self.new }
        ensures less { OnOk result (Lessens self.old self.new) }
        ensures full { result ≡ Err Stop.Spent → IsFull self.new }
    {
        if self.clear_up(alloc, id, label)? {
            return self.choose(alloc, id, label, advice);
        }
        Ok(())
    }

    /// The step at a clear label: it splits.
    fn split(&mut self, alloc: Global, id: u32, label: &Bits, step: Step) -> Result<(), Stop>
        requires begun { IsBegun self.old }
        requires width { label.now.width ≡ self.old.table.width }
        requires fresh { IsFreshAt self.old id label.now.words }
        requires clear { IsClear (rules_at (kernel_view self.old)) (has label.now.words) }
        requires calls { calls_for (rules_at (kernel_view self.old)) (has label.now.words) step ≡ true }
        ensures goes { Goes self.old self.new }
        ensures less { OnOk result (Lessens self.old self.new) }
        ensures full { result ≡ Err Stop.Spent → IsFull self.new }
    {
        let to = self.children(alloc, label, step)?;
        self.note_split(id, step, to);
        Ok(())
    }

    /// The first step that a clear label calls for, or the label is done.
    fn first(&mut self, alloc: Global, id: u32, label: &Bits) -> Result<(), Stop>
        requires begun { IsBegun self.old }
        requires width { label.now.width ≡ self.old.table.width }
        requires fresh { IsFreshAt self.old id label.now.words }
        requires clear { IsClear (rules_at (kernel_view self.old)) (has label.now.words) }
        ensures goes { Goes self.old self.new }
        ensures less { OnOk result (Lessens self.old self.new) }
        ensures full { result ≡ Err Stop.Spent → IsFull self.new }
    {
        let Ok(choice) = self.first_choice(label) else {
            return Err(Stop::NoMemory);
        };
        match choice {
            Some(step) => self.split(alloc, id, label, step),
            None => {
                self.note_done(alloc, id);
                Ok(())
            }
        }
    }

    /// Tells of a Fresh label whether it is clear now; else its clash is noted, or the label that it leads to.
    fn clear_up(&mut self, alloc: Global, id: u32, label: &Bits) -> Result<bool, Stop>
        requires begun { IsBegun self.old }
        requires width { label.now.width ≡ self.old.table.width }
        requires fresh { IsFreshAt self.old id label.now.words }
        ensures goes { Goes self.old self.new }
        ensures less { result ≡ Ok false → Lessens self.old self.new }
        ensures fresh { result ≡ Ok true → IsFreshAt self.new id label.now.words }
        ensures clear { result ≡ Ok true → IsClear (rules_at (kernel_view self.new)) (has label.now.words) }
        ensures full { result ≡ Err Stop.Spent → IsFull self.new }
    {
        if let Some(clash) = self.compiled.clash(label) {
            self.note_clash(id, clash);
            return Ok(false);
        }
        let Ok(mut more) = label.copy(alloc) else {
            return Err(Stop::NoMemory);
        };
        self.saturate(&mut more);
        if more.same(label) {
            self.note_clear(id);
            return Ok(true);
        }
        let to = self.put(alloc, &more, true)?;
        self.note_larger(id, to);
        Ok(false)
    }

    /// The step at a clear label: the advised one, if it passes its test, and else the first that the label calls for.
    fn choose(&mut self, alloc: Global, id: u32, label: &Bits, advice: Advice) -> Result<(), Stop>
        requires begun { IsBegun self.old }
        requires width { label.now.width ≡ self.old.table.width }
        requires fresh { IsFreshAt self.old id label.now.words }
        requires clear { IsClear (rules_at (kernel_view self.old)) (has label.now.words) }
        ensures goes { Goes self.old self.new }
        ensures less { OnOk result (Lessens self.old self.new) }
        ensures full { result ≡ Err Stop.Spent → IsFull self.new }
    {
        match advice {
            Advice::First => self.first(alloc, id, label),
            Advice::Take(step) => {
                if self.calls_for(label, step) {
                    return self.split(alloc, id, label, step);
                }
                self.first(alloc, id, label)
            }
            Advice::Refute(n) => {
                let Ok(found) = self.refuted(alloc, label, n) else {
                    return Err(Stop::NoMemory);
                };
                match found {
                    Some(at) => self.refute(alloc, id, label, n, at),
                    None => self.first(alloc, id, label),
                }
            }
        }
    }

    /// Closes a clear label by the existential restriction with this number, since what it asks for is closed.
    fn refute(&mut self, alloc: Global, id: u32, label: &Bits, n: u32, at: u32) -> Result<(), Stop>
        requires begun { IsBegun self.old }
        requires fresh { IsFreshAt self.old id label.now.words }
        requires clear { IsClear (rules_at (kernel_view self.old)) (has label.now.words) }
        requires follows { IsSuccessorAt (rules_at (kernel_view self.old)) self.old.table.list (has label.now.words) n at }
        requires closed { is_below self.old.closed (rank_at self.old.entries.items at) ≡ true }
        ensures goes { Goes self.old self.new }
        ensures less { OnOk result (Lessens self.old self.new) }
        ensures full { result ≢ Err Stop.Spent }
    {
        let mut pairs = Vec::new(alloc);
        if pairs.push((n, at)).is_err() {
            return Err(Stop::NoMemory);
        }
        self.note_refuted(id, n, at, Items::from_vec(pairs));
        Ok(())
    }

    /// The position of what the existential restriction with this number asks for, where there is one and it is closed.
    pub(crate) fn refuted(
        &self,
        alloc: Global,
        label: &Bits,
        n: u32,
    ) -> Result<Option<u32>, NoMemory>
        requires width { label.now.width ≡ self.now.table.width }
        ensures follows { IfOk result (λ o. IfSome o (λ t. IsSuccessorAt (rules_at (kernel_view self.now)) self.now.table.list (has label.now.words) n t)) }
        ensures closed { IfOk result (λ o. IfSome o (λ t. is_below self.now.closed (rank_at self.now.entries.items t) ≡ true)) }
    {
        if !self.restricts(label, n) {
            return Ok(None);
        }
        let next = self.compiled.successor(alloc, label, n)?;
        let Some(at) = self.table.find(&next) else {
            return Ok(None);
        };
        if is_under(&self.entries, at, self.closed) {
            return Ok(Some(at));
        }
        Ok(None)
    }

    /// Whether this is the number of an existential restriction of the label.
    pub(crate) fn restricts(&self, label: &Bits, n: u32) -> bool
        requires { label.now.width ≡ self.now.table.width }
        ensures restricts { result ≡ is_some_in (rules_at (kernel_view self.now)) (has label.now.words) n }
        ensures within { IsTrue result → n < length self.now.compiled.concepts }
    {
        if n >= self.compiled.count() {
            return false;
        }
        label.contains(n) && is_some(self.compiled.shape(n))
    }
}

fn is_some(shape: Shape) -> bool
    ensures { result ≡ is_some_shape shape }
{
    match shape {
        Shape::HasSome(_, _) => true,
        _ => false,
    }
}

/// Of a Done label, up to where its existential restrictions were looked at.
fn done_upto(entries: &[Entry], id: u32) -> Option<u32>
    requires { id < length entries.now }
    ensures some { IfSome result (λ upto. (e : Entry) × (to : List (ℕ × ℕ)) × (slice_get entries.now id ≡ Some e) × (e.node ≡ node.Done to) × (e.upto ≡ upto)) }
    ensures none { result ≡ None → (e : Entry) (to : List (ℕ × ℕ)) → slice_get entries.now id ≡ Some e → e.node ≢ node.Done to }
{
    let entry = &entries[id as usize];
    match entry.node {
        Node::Done { .. } => Some(entry.upto),
        _ => None,
    }
}

pub(crate) fn is_clear(entries: &[Entry], id: u32) -> bool
    requires { id < length entries.now }
    ensures { (e : Entry) → slice_get entries.now id ≡ Some e → result ≡ e.clear }
{
    entries[id as usize].clear
}
