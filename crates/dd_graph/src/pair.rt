//! The next existential restriction of a label that is done.
ghost use Rattle.std.specs.Prelude.{◌≡◌, ◌<◌, ◌≤◌, ℕ, true, false, Some, None, Err, IfSome, OnOk, length, slice_get};
ghost use Rattle.dd_set.specs.Words.{has};
ghost use Rattle.dd_graph.specs.Goes.{Goes, IsBegun, IsDoneAt, IsFull, Lessens};
ghost use Rattle.dd_graph.specs.Right.{is_some_in};
ghost use Rattle.dd_graph.specs.View.{kernel_view, rules_at};

use crate::kernel::{Kernel, Stop};
use dd_set::Bits;
use std::alloc::Global;

impl<'b> Kernel<'b> {
    /// The next existential restriction of a Done label gets its pair, or there is none.
    pub(crate) fn pair(&mut self, alloc: Global, id: u32, upto: u32) -> Result<(), Stop>
        requires begun { IsBegun self.old }
        requires done { IsDoneAt self.old id upto }
        ensures goes { Goes self.old self.new }
        ensures less { OnOk result (Lessens self.old self.new) }
        ensures full { result ≡ Err Stop.Spent → IsFull self.new }
    {
        let Ok(label) = self.table.label(id).to_bits(alloc) else {
            return Err(Stop::NoMemory);
        };
        match self.next_some(&label, upto) {
            None => {
                let width = self.compiled.count();
                self.note_full(id, width);
                Ok(())
            }
            Some(n) => {
                let at = self.successor(alloc, &label, n)?;
                match self.note_pair(id, n, at) {
                    Ok(()) => Ok(()),
                    Err(_) => Err(Stop::NoMemory),
                }
            }
        }
    }

    /// The least number of an existential restriction of the label that is at least `from`.
    pub(crate) fn next_some(&self, label: &Bits, from: u32) -> Option<u32>
        requires { label.now.width ≡ self.now.table.width }
        ensures some { IfSome result (λ n. (from ≤ n) × (is_some_in (rules_at (kernel_view self.now)) (has label.now.words) n ≡ true)) }
        ensures between { IfSome result (λ n. (k : ℕ) → from ≤ k → k < n → is_some_in (rules_at (kernel_view self.now)) (has label.now.words) k ≡ false) }
        ensures within { IfSome result (λ n. n < length self.now.compiled.concepts) }
        ensures none { result ≡ None → (k : ℕ) → from ≤ k → is_some_in (rules_at (kernel_view self.now)) (has label.now.words) k ≡ false }
    {
        let _width = label.width();
        let mut at = from;
        while let Some(n) = label.next_from(at) {
            if self.restricts(label, n) {
                return Some(n);
            }
            at = n + 1;
        }
        None
    }
}
