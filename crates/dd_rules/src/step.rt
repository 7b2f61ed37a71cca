ghost use Rattle.std.specs.Prelude.{◌≡◌, ◌∷◌, ◌==◌, ◌&&◌, ℕ, false, not, [], List, Option, None, Some, slice_get};
ghost use Rattle.std.specs.List.{find, list_any};
ghost use Rattle.std.specs.Option.{option_map_or};
ghost use Rattle.dd_set.specs.Words.{has};
ghost use Rattle.dd_rules.specs.Numbers.{additions, calls_for, decides_axiom, decides_or, decides_prop, is_open_or, or_numbers};
ghost use Rattle.dd_rules.specs.Tables.{prop_with, tabled_rules};
ghost use Rattle.dd_rules.specs.declared.shape.Shape.{Shape};
ghost use Rattle.dd_rules.specs.declared.tables.AxiomNumbers.{AxiomNumbers};

use crate::names;
use crate::shape::{Shape, Step};
use crate::tables::{AxiomNumbers, Tables};
use dd_concept::Items;
use dd_set::Bits;

impl Tables {
    /// Whether the label calls for the step.
    pub fn calls_for(&self, label: &Bits, props: &[(u32, u32, Items<u32>)], step: Step) -> bool
        ensures { result ≡ calls_for (tabled_rules self.now props.now) (has label.now.words) step }
    {
        match step {
            Step::And { .. } => false,
            Step::Or { at } => is_open_or(&self.shapes, label, at),
            Step::Axiom { index } => is_open_axiom(&self.axioms, label, index),
            Step::Cut { on } => !label.contains(on) && is_open_cut(&self.joined, label, props, on),
            Step::Bridge { prop } => is_open_bridge(&self.joined, label, props, prop),
        }
    }

    /// The number with the place `k` among those of which the step adds one.
    pub fn addition(&self, props: &[(u32, u32, Items<u32>)], step: Step, k: u32) -> Option<u32>
        ensures { result ≡ slice_get (additions (tabled_rules self.now props.now) step) k }
    {
        match step {
            Step::And { .. } => None,
            Step::Or { at } => or_number(&self.shapes, at, k),
            Step::Axiom { index } => axiom_number(&self.axioms, index, k),
            Step::Cut { on } => cut_number(props, on, k),
            Step::Bridge { prop } => bridge_number(props, prop, k),
        }
    }
}

fn is_open_or(shapes: &[Shape], label: &Bits, at: u32) -> bool
    ensures { result ≡ option_map_or (is_open_or (has label.now.words) at) (slice_get shapes.now at) false }
{
    match shapes.get(at as usize) {
        Some(shape) => is_open(label, at, *shape),
        None => false,
    }
}

fn is_open(label: &Bits, at: u32, shape: Shape) -> bool
    ensures { result ≡ is_open_or (has label.now.words) at shape }
{
    match shape {
        Shape::Or(left, right) => label.contains(at)
            && !(label.contains(left) || label.contains(right)),
        _ => false,
    }
}

fn is_open_axiom(axioms: &[AxiomNumbers], label: &Bits, index: u32) -> bool
    ensures { result ≡ option_map_or (λ a. not (decides_axiom (has label.now.words) a)) (slice_get axioms.now index) false }
{
    match axioms.get(index as usize) {
        Some(row) => !names::decides_axiom(label, row),
        None => false,
    }
}

fn is_open_cut(
    joined: &[Option<Items<Option<u32>>>],
    label: &Bits,
    props: &[(u32, u32, Items<u32>)],
    on: u32,
) -> bool
    ensures { result ≡ list_any (λ t. (t.0 == on) && not (decides_prop (has label.now.words) (prop_with joined.now t))) props.now }
{
    props.iter().any(|prop| is_cut(joined, label, prop, on))
}

fn is_cut(
    joined: &[Option<Items<Option<u32>>>],
    label: &Bits,
    prop: &(u32, u32, Items<u32>),
    on: u32,
) -> bool
    ensures { result ≡ ((prop.now.0 == on) && not (decides_prop (has label.now.words) (prop_with joined.now prop.now))) }
{
    prop.0 == on && !names::decides_prop(label, joined, prop)
}

fn is_open_bridge(
    joined: &[Option<Items<Option<u32>>>],
    label: &Bits,
    props: &[(u32, u32, Items<u32>)],
    k: u32,
) -> bool
    ensures { result ≡ option_map_or (λ t. has label.now.words t.0 && not (decides_prop (has label.now.words) (prop_with joined.now t))) (slice_get props.now k) false }
{
    match props.get(k as usize) {
        Some(prop) => is_bridge(joined, label, prop),
        None => false,
    }
}

fn is_bridge(
    joined: &[Option<Items<Option<u32>>>],
    label: &Bits,
    prop: &(u32, u32, Items<u32>),
) -> bool
    ensures { result ≡ (has label.now.words prop.now.0 && not (decides_prop (has label.now.words) (prop_with joined.now prop.now))) }
{
    label.contains(prop.0) && !names::decides_prop(label, joined, prop)
}

/// The first or the second of the numbers, by their place.
fn one_of(first: u32, second: u32, k: u32) -> Option<u32>
    ensures { result ≡ slice_get (first ∷ second ∷ []) k }
{
    match k {
        0 => Some(first),
        1 => Some(second),
        _ => None,
    }
}

fn or_number(shapes: &[Shape], at: u32, k: u32) -> Option<u32>
    ensures { result ≡ slice_get (option_map_or or_numbers (slice_get shapes.now at) []) k }
{
    match shapes.get(at as usize) {
        Some(shape) => part(*shape, k),
        None => None,
    }
}

fn part(shape: Shape, k: u32) -> Option<u32>
    ensures { result ≡ slice_get (or_numbers shape) k }
{
    match shape {
        Shape::Or(left, right) => one_of(left, right, k),
        _ => None,
    }
}

fn axiom_number(axioms: &[AxiomNumbers], index: u32, k: u32) -> Option<u32>
    ensures { result ≡ slice_get (option_map_or (λ (a : AxiomNumbers). a.left ∷ a.right ∷ []) (slice_get axioms.now index) []) k }
{
    match axioms.get(index as usize) {
        Some(row) => one_of(row.left, row.right, k),
        None => None,
    }
}

fn cut_number(props: &[(u32, u32, Items<u32>)], on: u32, k: u32) -> Option<u32>
    ensures { result ≡ slice_get (option_map_or (λ (t : ℕ × ℕ × List ℕ). on ∷ t.1 ∷ []) (find (λ (t : ℕ × ℕ × List ℕ). t.0 == on) props.now) []) k }
{
    for prop in props {
        if prop.0 == on {
            return one_of(on, prop.1, k);
        }
    }
    None
}

fn bridge_number(props: &[(u32, u32, Items<u32>)], at: u32, k: u32) -> Option<u32>
    ensures { result ≡ slice_get (option_map_or (λ (t : ℕ × ℕ × List ℕ). t.2) (slice_get props.now at) []) k }
{
    match props.get(at as usize) {
        Some(prop) => number_at(prop.2.as_slice(), k),
        None => None,
    }
}

fn number_at(numbers: &[u32], k: u32) -> Option<u32>
    ensures { result ≡ slice_get numbers.now k }
{
    match numbers.get(k as usize) {
        Some(n) => Some(*n),
        None => None,
    }
}
