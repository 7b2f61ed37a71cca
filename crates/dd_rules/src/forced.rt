ghost use Rattle.std.specs.Prelude.{◌≡◌, ◌↔◌, ◌<◌, ◌≤◌, true, false, not, [], IfSome, length, None, Some, slice_get};
ghost use Rattle.std.specs.List.{list_all, list_any};
ghost use Rattle.dd_set.specs.Words.{has};
ghost use Rattle.dd_rules.specs.Forced.{forces};
ghost use Rattle.dd_rules.specs.Numbers.{all_at, is_saturated, keeps_and, keeps_axiom};
ghost use Rattle.dd_rules.specs.Tables.{tabled_rules};
ghost use Rattle.dd_rules.specs.declared.shape.Shape.{Shape};
ghost use Rattle.dd_rules.specs.declared.tables.AxiomNumbers.{AxiomNumbers};

use crate::names;
use crate::shape::{Shape, Step};
use crate::tables::{AxiomNumbers, Tables, axiom_at, shape_at};
use dd_set::Bits;

impl Tables {
    /// A step that adds what each saturated label with these numbers has, if there is one.
    pub fn forced(&self, label: &Bits) -> Option<Step>
        requires { label.now.width ≤ length self.now.shapes }
        ensures some { IfSome result (λ s. forces (tabled_rules self.now []) (has label.now.words) s ≡ true) }
        ensures none { (result ≡ None) ↔ (is_saturated (tabled_rules self.now []) (has label.now.words) ≡ true) }
    {
        self.next_forced(label)
    }

    fn next_forced(&self, label: &Bits) -> Option<Step>
        requires { label.now.width ≤ length self.now.shapes }
        ensures some { IfSome result (λ s. forces (tabled_rules self.now []) (has label.now.words) s ≡ true) }
        ensures none { result ≡ None → is_saturated (tabled_rules self.now []) (has label.now.words) ≡ true }
    {
        if let Some(n) = open_and(&self.shapes, label) {
            return Some(Step::And { at: n });
        }
        match open_axiom(&self.axioms, label) {
            Some(k) => Some(Step::Axiom { index: k }),
            None => None,
        }
    }
}

/// A conjunction of the label one of whose parts it does not have.
fn open_and(shapes: &[Shape], label: &Bits) -> Option<u32>
    requires width { label.now.width ≤ length shapes.now }
    requires few { length shapes.now ≤ 4096 }
    ensures some { IfSome result (λ n. (s : Shape) × (slice_get shapes.now n ≡ Some s) × (keeps_and (has label.now.words) n s ≡ false)) }
    ensures none { result ≡ None → all_at (keeps_and (has label.now.words)) shapes.now ≡ true }
{
    let mut from = 0;
    while let Some(n) = label.next_from(from) {
        if !keeps_and(label, n, shape_at(shapes, n)) {
            return Some(n);
        }
        from = n + 1;
    }
    None
}

fn keeps_and(label: &Bits, n: u32, shape: Shape) -> bool
    ensures { result ≡ keeps_and (has label.now.words) n shape }
{
    match shape {
        Shape::And(left, right) => !label.contains(n)
            || label.contains(left) && label.contains(right),
        _ => true,
    }
}

/// An axiom that adds its right side to the label, since the label has the names of its left side.
fn open_axiom(axioms: &[AxiomNumbers], label: &Bits) -> Option<u32>
    requires { length axioms.now ≤ 4294967295 }
    ensures some { IfSome result (λ k. (a : AxiomNumbers) × (slice_get axioms.now k ≡ Some a) × (keeps_axiom (has label.now.words) a ≡ false)) }
    ensures none { result ≡ None → list_all (keeps_axiom (has label.now.words)) axioms.now ≡ true }
{
    let count = axioms.len() as u32;
    for k in 0..count {
        if !names::keeps_axiom(label, axiom_at(axioms, k)) {
            return Some(k);
        }
    }
    None
}
