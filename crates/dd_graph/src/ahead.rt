//! What a label asks of others is looked at before the label takes a step: where another cannot be, no step is needed.
ghost use Rattle.std.specs.Prelude.{◌≡◌, ◌<◌, true, Some, Err, IfOk, length, slice_get};
ghost use Rattle.dd_graph.specs.declared.node.Entry.{Entry};
ghost use Rattle.dd_graph.specs.declared.node.Node.TheVariants as node;
ghost use Rattle.dd_graph.specs.Goes.{Goes, IsBegun, IsFull, unfinished_at};

use crate::expand::is_clear;
use crate::kernel::{Advice, Kernel, Stop};
use crate::node::{Entry, Node};
use dd_set::{Bits, NoMemory};
use std::alloc::Global;

impl<'b> Kernel<'b> {
    /// The position to work at next: that of the label, or, where its existential restriction is to be refuted, that of what this
    /// asks for.
    pub(crate) fn place(&mut self, alloc: Global, id: u32, advice: Advice) -> Result<u32, Stop>
        requires begun { IsBegun self.old }
        requires unfinished { unfinished_at self.old id ≡ true }
        ensures goes { Goes self.old self.new }
        ensures unfinished { IfOk result (λ at. unfinished_at self.new at ≡ true) }
        ensures full { result ≡ Err Stop.Spent → IsFull self.new }
    {
        match advice {
            Advice::Refute(n) => self.ahead(alloc, id, n),
            _ => Ok(id),
        }
    }

    /// Puts what the existential restriction with this number asks for, where the label is clear and nothing was done at it. The
    /// position is the next one to work at: that of the label put, where something is left to do there.
    fn ahead(&mut self, alloc: Global, id: u32, n: u32) -> Result<u32, Stop>
        requires begun { IsBegun self.old }
        requires unfinished { unfinished_at self.old id ≡ true }
        ensures goes { Goes self.old self.new }
        ensures unfinished { IfOk result (λ at. unfinished_at self.new at ≡ true) }
        ensures full { result ≡ Err Stop.Spent → IsFull self.new }
    {
        if !is_fresh(&self.entries, id) || !is_clear(&self.entries, id) {
            return Ok(id);
        }
        let Ok(label) = self.table.label(id).to_bits(alloc) else {
            return Err(Stop::NoMemory);
        };
        if !self.restricts(&label, n) {
            return Ok(id);
        }
        let at = self.successor(alloc, &label, n)?;
        if self.is_unfinished(at) {
            return Ok(at);
        }
        Ok(id)
    }

    /// The number of an existential restriction of the label that asks for what cannot be, as far as this is seen at once.
    pub(crate) fn dead_end(&self, alloc: Global, label: &Bits) -> Result<Option<u32>, NoMemory> {
        if label.width() != self.table.width() {
            return Ok(None);
        }
        let mut from = 0;
        for _ in 0..self.compiled.count() {
            let Some(n) = self.next_some(label, from) else {
                return Ok(None);
            };
            let next = self.compiled.successor(alloc, label, n)?;
            if self.is_dead_end(next) {
                return Ok(Some(n));
            }
            from = n + 1;
        }
        Ok(None)
    }

    /// Whether the label is closed, or, where it was not met, clashes with what it forces or leads to a closed one.
    fn is_dead_end(&self, label: Bits) -> bool {
        if let Some(at) = self.table.find(&label) {
            return self.rank(at).is_some();
        }
        let mut more = label;
        if more.width() != self.table.width() {
            return false;
        }
        self.saturate(&mut more);
        if self.compiled.clash(&more).is_some() {
            return true;
        }
        match self.table.find(&more) {
            Some(at) => self.rank(at).is_some(),
            None => false,
        }
    }
}

fn is_fresh(entries: &[Entry], id: u32) -> bool
    requires { id < length entries.now }
    ensures { result ≡ true → (e : Entry) → slice_get entries.now id ≡ Some e → e.node ≡ node.Fresh }
{
    match entries[id as usize].node {
        Node::Fresh => true,
        _ => false,
    }
}
