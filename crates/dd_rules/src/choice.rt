ghost use Rattle.std.specs.Prelude.{◌≡◌, ◌↔◌, ◌<◌, ◌≤◌, ℕ, true, false, not, [], List, IfSome, length, None, Some, slice_get};
ghost use Rattle.std.specs.List.{list_all, list_any};
ghost use Rattle.dd_set.specs.Words.{has};
ghost use Rattle.dd_rules.specs.Numbers.{additions, all_at, calls_for, decides_axiom, decides_or, decides_prop, is_complete};
ghost use Rattle.dd_rules.specs.Tables.{prop_with, step_of_prop, tabled_rules};
ghost use Rattle.dd_rules.specs.declared.shape.Shape.{Shape};
ghost use Rattle.dd_rules.specs.declared.tables.AxiomNumbers.{AxiomNumbers};

use crate::names;
use crate::shape::{Shape, Step};
use crate::tables::{AxiomNumbers, Tables, axiom_at, shape_at};
use dd_concept::Items;
use dd_set::Bits;

impl Tables {
    /// A step that the label calls for, if there is one: disjunctions come first, then axioms, then propagations.
    pub fn first_choice(&self, label: &Bits, props: &[(u32, u32, Items<u32>)]) -> Option<Step>
        requires width { label.now.width ≤ length self.now.shapes }
        requires few { length props.now ≤ 4294967295 }
        ensures some { IfSome result (λ s. calls_for (tabled_rules self.now props.now) (has label.now.words) s ≡ true) }
        ensures none { (result ≡ None) ↔ (is_complete (tabled_rules self.now props.now) (has label.now.words) ≡ true) }
    {
        self.next_choice(label, props)
    }

    fn next_choice(&self, label: &Bits, props: &[(u32, u32, Items<u32>)]) -> Option<Step>
        requires width { label.now.width ≤ length self.now.shapes }
        requires few { length props.now ≤ 4294967295 }
        ensures some { IfSome result (λ s. calls_for (tabled_rules self.now props.now) (has label.now.words) s ≡ true) }
        ensures none { result ≡ None → is_complete (tabled_rules self.now props.now) (has label.now.words) ≡ true }
    {
        if let Some(n) = open_or(&self.shapes, label) {
            return Some(Step::Or { at: n });
        }
        if let Some(k) = open_axiom(&self.axioms, label) {
            return Some(Step::Axiom { index: k });
        }
        match open_prop(&self.joined, label, props) {
            Some(k) => Some(prop_step(label, props, k)),
            None => None,
        }
    }
}

/// A disjunction of the label neither of whose parts it has.
fn open_or(shapes: &[Shape], label: &Bits) -> Option<u32>
    requires width { label.now.width ≤ length shapes.now }
    requires few { length shapes.now ≤ 4096 }
    ensures some { IfSome result (λ n. (s : Shape) × (slice_get shapes.now n ≡ Some s) × (decides_or (has label.now.words) n s ≡ false)) }
    ensures none { result ≡ None → all_at (decides_or (has label.now.words)) shapes.now ≡ true }
{
    let mut from = 0;
    while let Some(n) = label.next_from(from) {
        if !decides_or(label, n, shape_at(shapes, n)) {
            return Some(n);
        }
        from = n + 1;
    }
    None
}

fn decides_or(label: &Bits, n: u32, shape: Shape) -> bool
    ensures { result ≡ decides_or (has label.now.words) n shape }
{
    match shape {
        Shape::Or(left, right) => !label.contains(n)
            || (label.contains(left) || label.contains(right)),
        _ => true,
    }
}

/// An axiom neither of whose sides the label has, where its left side is not a conjunction of names that the label lacks.
fn open_axiom(axioms: &[AxiomNumbers], label: &Bits) -> Option<u32>
    requires { length axioms.now ≤ 4294967295 }
    ensures some { IfSome result (λ k. (a : AxiomNumbers) × (slice_get axioms.now k ≡ Some a) × (decides_axiom (has label.now.words) a ≡ false)) }
    ensures none { result ≡ None → list_all (decides_axiom (has label.now.words)) axioms.now ≡ true }
{
    let count = axioms.len() as u32;
    for k in 0..count {
        if !names::decides_axiom(label, axiom_at(axioms, k)) {
            return Some(k);
        }
    }
    None
}

/// A propagation that the label does not decide.
fn open_prop(
    joined: &[Option<Items<Option<u32>>>],
    label: &Bits,
    props: &[(u32, u32, Items<u32>)],
) -> Option<u32>
    requires { length props.now ≤ 4294967295 }
    ensures some { IfSome result (λ k. (t : ℕ × ℕ × List ℕ) × (slice_get props.now k ≡ Some t) × (decides_prop (has label.now.words) (prop_with joined.now t) ≡ false)) }
    ensures none { result ≡ None → list_all (λ t. decides_prop (has label.now.words) (prop_with joined.now t)) props.now ≡ true }
{
    let count = props.len() as u32;
    for k in 0..count {
        if !names::decides_prop(label, joined, prop_at(props, k)) {
            return Some(k);
        }
    }
    None
}

/// The propagation with this number.
fn prop_at(props: &[(u32, u32, Items<u32>)], k: u32) -> &(u32, u32, Items<u32>)
    requires { k < length props.now }
    ensures { slice_get props.now k ≡ Some result.now }
{
    &props[k as usize]
}

/// The step of a propagation that the label does not decide: a cut where it does not have the onto target.
fn prop_step(label: &Bits, props: &[(u32, u32, Items<u32>)], k: u32) -> Step
    requires { k < length props.now }
    ensures { (t : ℕ × ℕ × List ℕ) → slice_get props.now k ≡ Some t → result ≡ step_of_prop (has label.now.words) k t }
{
    let onto = prop_at(props, k).0;
    if label.contains(onto) {
        return Step::Bridge { prop: k };
    }
    Step::Cut { on: onto }
}
