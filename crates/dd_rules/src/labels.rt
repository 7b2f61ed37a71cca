ghost use Rattle.std.specs.Prelude.{◌≡◌, ◌↔◌, ◌<◌, ◌≤◌, ◌==◌, ◌||◌, ℕ, true, false, [], IfOk, IfSome, length, map, None, Some, slice_get};
ghost use Rattle.dd_concept.specs.Saturated.{IsSaturated, IsSat, clashes};
ghost use Rattle.dd_concept.specs.Steps.{IsComplete};
ghost use Rattle.dd_concept.specs.Successor as following;
ghost use Rattle.dd_concept.specs.declared.concept.Concept.{Concept};
ghost use Rattle.dd_concept.specs.declared.concept.Concept.TheVariants as concept;
ghost use Rattle.dd_set.specs.Words.{has};
ghost use Rattle.dd_rules.specs.Compiled.{AreProps, props_of, rules_in};
ghost use Rattle.dd_rules.specs.Forced.{adds_number, forces, is_clash};
ghost use Rattle.dd_rules.specs.Labels.{IsClashOf, IsStepOf, seen};
ghost use Rattle.dd_rules.specs.Least.{IsLeastSaturated};
ghost use Rattle.dd_rules.specs.Numbers.{IsSuccessor, additions, calls_for, concepts_at, has_clash, is_complete, is_saturated, rules_of, shape_of};
ghost use Rattle.dd_rules.specs.declared.props.Props.{Props};
ghost use Rattle.dd_rules.specs.declared.shape.Shape.TheVariants as shape;

use crate::clash::Clash;
use crate::compiled::Compiled;
use crate::props::Props;
use crate::shape::Step;
use dd_concept::NoMemory;
use dd_set::Bits;
use std::alloc::Global;

impl Compiled {
    /// A clash of the label, if there is one. A name is told by its own number.
    pub fn clash(&self, label: &Bits) -> Option<Clash>
        requires width { label.now.width ≡ length self.now.concepts }
        ensures some { (props : Props) → IfSome result (λ c. is_clash (rules_in self.now props) (has label.now.words) c ≡ true) }
        ensures none { (props : Props) → (result ≡ None) ↔ (has_clash (rules_in self.now props) (has label.now.words) ≡ false) }
        ensures concepts { IfSome result (IsClashOf (seen self.now label.now.words)) }
        ensures clear { (result ≡ None) ↔ (clashes (seen self.now label.now.words) ≡ false) }
    {
        self.tables().clash(label)
    }

    /// A step that adds what each saturated label with these concepts has, if there is one: an And step, or an Axiom step whose
    /// left side is a conjunction of names. It adds the parts, or the right side.
    pub fn forced(&self, label: &Bits, _props: &Props) -> Option<Step>
        requires width { label.now.width ≡ length self.now.concepts }
        ensures some { IfSome result (λ s. forces (rules_in self.now _props.now) (has label.now.words) s ≡ true) }
        ensures none { (result ≡ None) ↔ (is_saturated (rules_in self.now _props.now) (has label.now.words) ≡ true) }
        ensures adds { IfSome result (λ s. adds_number (rules_in self.now _props.now) (has label.now.words) s ≡ true) }
        ensures saturated { (result ≡ None) ↔ IsSaturated self.now.axioms (seen self.now label.now.words) }
    {
        self.tables().forced(label)
    }

    /// A step that the label calls for, if there is one: disjunctions come first, then axioms, then propagations.
    pub fn first_choice(&self, label: &Bits, props: &Props) -> Option<Step>
        requires width { label.now.width ≡ length self.now.concepts }
        requires props { AreProps self.now props.now }
        requires few { length props.now.list ≤ 4294967295 }
        ensures some { IfSome result (λ s. calls_for (rules_in self.now props.now) (has label.now.words) s ≡ true) }
        ensures none { (result ≡ None) ↔ (is_complete (rules_in self.now props.now) (has label.now.words) ≡ true) }
        ensures step { IfSome result (IsStepOf self.now props.now (seen self.now label.now.words)) }
        ensures complete { (result ≡ None) ↔ IsComplete self.now.axioms (props_of self.now.concepts props.now) (seen self.now label.now.words) }
    {
        self.tables().first_choice(label, props.list.as_slice())
    }

    /// Whether the label calls for the step: an Or, Axiom, Cut or Bridge step whose own disjunction, axiom or propagation it does
    /// not decide.
    pub fn calls_for(&self, label: &Bits, props: &Props, step: Step) -> bool
        requires props { AreProps self.now props.now }
        ensures { result ≡ calls_for (rules_in self.now props.now) (has label.now.words) step }
    {
        self.tables().calls_for(label, props.list.as_slice(), step)
    }

    /// The number with the place `k` among those of which the step adds one: the left part comes before the right one, the
    /// complement of an axiom's left side before the right side, an onto target before its complement, and into targets stand
    /// in the order of the propagation.
    pub fn addition(&self, props: &Props, step: Step, k: u32) -> Option<u32>
        requires props { AreProps self.now props.now }
        ensures { result ≡ slice_get (additions (rules_in self.now props.now) step) k }
    {
        self.tables().addition(props.list.as_slice(), step, k)
    }

    /// Adds what the label is forced to have, until there is nothing more.
    pub fn saturate(&self, label: &mut Bits, _props: &Props)
        requires width { label.old.width ≡ length self.now.concepts }
        ensures width { label.new.width ≡ label.old.width }
        ensures least { IsLeastSaturated (rules_in self.now _props.now) (has label.old.words) (has label.new.words) }
        ensures sat { IsSat self.now.axioms (seen self.now label.old.words) (seen self.now label.new.words) }
    {
        let _width = label.width();
        self.tables().saturate(label);
    }

    /// Adds the concept with the number `n` to a label that was saturated without it, and what the label is forced to have then.
    pub fn saturate_added(&self, label: &mut Bits, n: u32)
        requires width { label.old.width ≡ length self.now.concepts }
        requires number { n < length self.now.concepts }
        requires saturated { is_saturated (rules_of self.now.concepts self.now.axioms []) (has label.old.words) ≡ true }
        ensures width { label.new.width ≡ label.old.width }
        ensures least { (props : Props) → IsLeastSaturated (rules_in self.now props) (λ k. (k == n) || has label.old.words k) (has label.new.words) }
        ensures sat { IsSat self.now.axioms (concepts_at self.now.concepts (λ k. (k == n) || has label.old.words k)) (seen self.now label.new.words) }
    {
        let _width = label.width();
        self.tables().saturate_added(label, n);
    }

    /// What an element of the label passes on to a further one along a role: the concept of the `(some r C)` with number `at`,
    /// and each `E` of an `(all r E)` of the label.
    pub fn successor(&self, alloc: Global, label: &Bits, at: u32) -> Result<Bits, NoMemory>
        requires width { label.now.width ≡ length self.now.concepts }
        requires at { at < length self.now.concepts }
        ensures width { IfOk result (λ b. b.width ≡ label.now.width) }
        ensures numbers { IfOk result (λ b. (props : Props) (role c : ℕ) → slice_get (map (shape_of self.now.concepts) self.now.concepts) at ≡ Some (shape.HasSome role c) → IsSuccessor (rules_in self.now props) (has label.now.words) role c (has b.words)) }
        ensures passed { IfOk result (λ b. (role : ℕ) (c : Concept) → slice_get self.now.concepts at ≡ Some (concept.HasSome role c) → following.IsSuccessor (seen self.now label.now.words) role c (seen self.now b.words)) }
    {
        self.tables().successor(alloc, label, at)
    }
}
