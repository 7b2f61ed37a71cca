//! The peer's rules under the kernel's propagations.
ghost use Rattle.std.specs.Prelude.{◌≡◌, ◌<◌, true, None, Ok, IfOk, IfSome, length, slice_get};
ghost use Rattle.dd_set.specs.Words.{has};
ghost use Rattle.dd_rules.specs.Least.{IsLeastSaturated};
ghost use Rattle.dd_rules.specs.Numbers.{additions, calls_for, is_complete, is_saturated};
ghost use Rattle.dd_graph.specs.Right.{adding};
ghost use Rattle.dd_graph.specs.View.{kernel_view, rules_at};

use crate::kernel::Kernel;
use dd_rules::{Shape, Step};
use dd_set::{Bits, NoMemory};

impl<'b> Kernel<'b> {
    /// The step's addition with this place, if there are so many.
    pub(crate) fn addition(&self, step: Step, k: u32) -> Option<u32>
        ensures { result ≡ slice_get (additions (rules_at (kernel_view self.now)) step) k }
    {
        self.compiled.addition(&self.props, step, k)
    }

    /// Whether the label calls for the step.
    pub(crate) fn calls_for(&self, label: &Bits, step: Step) -> bool
        requires { label.now.width ≡ self.now.table.width }
        ensures { result ≡ calls_for (rules_at (kernel_view self.now)) (has label.now.words) step }
    {
        self.compiled.calls_for(label, &self.props, step)
    }

    /// A step that the label calls for, if there is one. `NoMemory` comes where there are 2^32 propagations or more.
    pub(crate) fn first_choice(&self, label: &Bits) -> Result<Option<Step>, NoMemory>
        requires { label.now.width ≡ self.now.table.width }
        ensures some { IfOk result (λ o. IfSome o (λ s. calls_for (rules_at (kernel_view self.now)) (has label.now.words) s ≡ true)) }
        ensures none { result ≡ Ok None → is_complete (rules_at (kernel_view self.now)) (has label.now.words) ≡ true }
    {
        if self.props.list.as_slice().len() > u32::MAX as usize {
            return Err(NoMemory);
        }
        Ok(self.compiled.first_choice(label, &self.props))
    }

    /// Adds what the label forces.
    pub(crate) fn saturate(&self, label: &mut Bits)
        requires { label.old.width ≡ self.now.table.width }
        ensures least { IsLeastSaturated (rules_at (kernel_view self.now)) (has label.old.words) (has label.new.words) }
        ensures width { label.new.width ≡ label.old.width }
    {
        self.compiled.saturate(label, &self.props);
    }

    /// Adds the number to a saturated label, and what it forces then.
    pub(crate) fn saturate_added(&self, label: &mut Bits, n: u32)
        requires width { label.old.width ≡ self.now.table.width }
        requires within { n < length self.now.compiled.concepts }
        requires saturated { is_saturated (rules_at (kernel_view self.now)) (has label.old.words) ≡ true }
        ensures least { IsLeastSaturated (rules_at (kernel_view self.now)) (adding n (has label.old.words)) (has label.new.words) }
        ensures width { label.new.width ≡ label.old.width }
    {
        self.compiled.saturate_added(label, n);
    }

    /// The step, where the label calls for it.
    pub(crate) fn called(&self, label: &Bits, step: Step) -> Option<Step> {
        if self.compiled.calls_for(label, &self.props, step) {
            Some(step)
        } else {
            None
        }
    }

    /// The form of the concept with this number. `top` where there is none.
    pub(crate) fn shape_of(&self, n: u32) -> Shape {
        if n < self.compiled.count() {
            self.compiled.shape(n)
        } else {
            Shape::Top
        }
    }

    /// The number of the concept's complement, where that is in the closure.
    pub(crate) fn complement_of(&self, n: u32) -> Option<u32> {
        if n < self.compiled.count() {
            self.compiled.complement(n)
        } else {
            None
        }
    }

    /// What the axiom with this index adds.
    pub(crate) fn sides_of(&self, index: u32) -> Option<(u32, u32)> {
        let left = self.addition(Step::Axiom { index }, 0)?;
        let right = self.addition(Step::Axiom { index }, 1)?;
        Some((left, right))
    }

    /// How many propagations there are, at most 2^32 - 1.
    pub(crate) fn prop_count(&self) -> u32 {
        let count = self.props.list.as_slice().len();
        if count < u32::MAX as usize {
            count as u32
        } else {
            u32::MAX
        }
    }

    /// The numbers of the propagation's onto target and of its complement.
    pub(crate) fn onto_of(&self, prop: u32) -> Option<(u32, u32)> {
        match self.props.list.as_slice().get(prop as usize) {
            Some(found) => Some((found.0, found.1)),
            None => None,
        }
    }
}
