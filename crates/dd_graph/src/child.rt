//! The labels that a clear label leads to.
ghost use Rattle.std.specs.Prelude.{◌≡◌, ◌<◌, true, false, Some, Err, IfOk, length, slice_get};
ghost use Rattle.dd_set.specs.Words.{has};
ghost use Rattle.dd_rules.specs.Numbers.{additions, calls_for};
ghost use Rattle.dd_graph.specs.Goes.{AreChildren, IsBegun, IsFull, IsReachedNow, Puts};
ghost use Rattle.dd_graph.specs.Right.{IsClear, IsLeastAt, IsSuccessorAt, adding, is_some_in};
ghost use Rattle.dd_graph.specs.View.{kernel_view, rules_at};

use crate::kernel::{Kernel, Stop};
use dd_concept::Items;
use dd_rules::Step;
use dd_set::Bits;
use std::alloc::Global;

impl<'b> Kernel<'b> {
    /// Puts what the existential restriction with this number asks for.
    pub(crate) fn successor(&mut self, alloc: Global, label: &Bits, n: u32) -> Result<u32, Stop>
        requires begun { IsBegun self.old }
        requires width { label.now.width ≡ self.old.table.width }
        requires reached { IsReachedNow self.old (has label.now.words) }
        requires clear { IsClear (rules_at (kernel_view self.old)) (has label.now.words) }
        requires restricts { is_some_in (rules_at (kernel_view self.old)) (has label.now.words) n ≡ true }
        requires within { n < length self.old.compiled.concepts }
        ensures puts { Puts self.old self.new }
        ensures follows { IfOk result (λ t. IsSuccessorAt (rules_at (kernel_view self.old)) self.new.table.list (has label.now.words) n t) }
        ensures full { result ≡ Err Stop.Spent → IsFull self.new }
    {
        let Ok(next) = self.compiled.successor(alloc, label, n) else {
            return Err(Stop::NoMemory);
        };
        self.put(alloc, &next, false)
    }

    /// Puts the labels that the step gives, in the order of its additions.
    pub(crate) fn children(
        &mut self,
        alloc: Global,
        label: &Bits,
        step: Step,
    ) -> Result<Items<u32>, Stop>
        requires begun { IsBegun self.old }
        requires width { label.now.width ≡ self.old.table.width }
        requires reached { IsReachedNow self.old (has label.now.words) }
        requires clear { IsClear (rules_at (kernel_view self.old)) (has label.now.words) }
        requires calls { calls_for (rules_at (kernel_view self.old)) (has label.now.words) step ≡ true }
        ensures puts { Puts self.old self.new }
        ensures many { IfOk result (λ to. length to ≡ length (additions (rules_at (kernel_view self.old)) step)) }
        ensures children { IfOk result (λ to. AreChildren (rules_at (kernel_view self.old)) self.new.table.list (has label.now.words) step to) }
        ensures full { result ≡ Err Stop.Spent → IsFull self.new }
    {
        let mut list = Vec::new(alloc);
        let mut k = 0u32;
        while let Some(c) = self.addition(step, k) {
            let to = self.child(alloc, label, step, k, c)?;
            if list.push(to).is_err() {
                return Err(Stop::NoMemory);
            }
            let Some(next) = k.checked_add(1) else {
                return Err(Stop::NoMemory);
            };
            k = next;
        }
        Ok(Items::from_vec(list))
    }

    /// Puts the least saturated label that has this one and the step's addition `c`, which has place `k`.
    fn child(
        &mut self,
        alloc: Global,
        label: &Bits,
        step: Step,
        k: u32,
        c: u32,
    ) -> Result<u32, Stop>
        requires begun { IsBegun self.old }
        requires width { label.now.width ≡ self.old.table.width }
        requires reached { IsReachedNow self.old (has label.now.words) }
        requires clear { IsClear (rules_at (kernel_view self.old)) (has label.now.words) }
        requires calls { calls_for (rules_at (kernel_view self.old)) (has label.now.words) step ≡ true }
        requires addition { slice_get (additions (rules_at (kernel_view self.old)) step) k ≡ Some c }
        ensures puts { Puts self.old self.new }
        ensures least { IfOk result (λ t. IsLeastAt (rules_at (kernel_view self.old)) self.new.table.list (adding c (has label.now.words)) t) }
        ensures full { result ≡ Err Stop.Spent → IsFull self.new }
    {
        self.compiled.known();
        let Ok(mut more) = label.copy(alloc) else {
            return Err(Stop::NoMemory);
        };
        self.saturate_added(&mut more, c);
        self.put(alloc, &more, true)
    }
}
