ghost use Rattle.std.specs.Prelude.{◌≡◌, ◌<◌, ◌≤◌, ◌||◌, ◌==◌, ℕ, Bool, true, false, [], ◌∷◌, All, IfSome, length, None, Some, slice_get};
ghost use Rattle.std.specs.Int.{bit_at};
ghost use Rattle.dd_set.specs.Words.{IsWithin, has};
ghost use Rattle.dd_rules.specs.Forced.{IsForcedFrom};
ghost use Rattle.dd_rules.specs.Handled.{IsFired, IsHandled, IsHandledAt};
ghost use Rattle.dd_rules.specs.Least.{Implies, IsLeastSaturated};
ghost use Rattle.dd_rules.specs.Numbers.{is_saturated};
ghost use Rattle.dd_rules.specs.Tables.{IsAxiomWithin, IsShapeWithin, tabled_rules};
ghost use Rattle.dd_rules.specs.declared.shape.Shape.TheVariants.{And};
ghost use Rattle.dd_rules.specs.declared.tables.AxiomNumbers.{AxiomNumbers};

use crate::index::list_at;
use crate::names;
use crate::shape::Shape;
use crate::tables::{AxiomNumbers, Tables, axiom_at, shape_at};
use dd_set::{Bits, put_number};

/// As many words as the numbers of any closure want.
const WORDS: usize = 64;

impl Tables {
    /// Adds what the label is forced to have, until there is nothing more.
    pub fn saturate(&self, label: &mut Bits)
        requires { label.old.width ≡ length self.now.shapes }
        ensures least { IsLeastSaturated (tabled_rules self.now []) (has label.old.words) (has label.new.words) }
        ensures width { label.new.width ≡ label.old.width }
    {
        self.known();
        self.fire_plain(label);
        let mut handled = [0u64; WORDS];
        self.handle_rest(label, &mut handled);
    }

    /// Adds the number and what the label, which was saturated without it, is forced to have then.
    pub fn saturate_added(&self, label: &mut Bits, n: u32)
        requires width { label.old.width ≡ length self.now.shapes }
        requires number { n < label.old.width }
        requires saturated { is_saturated (tabled_rules self.now []) (has label.old.words) ≡ true }
        ensures least { IsLeastSaturated (tabled_rules self.now []) (λ k. (k == n) || has label.old.words k) (has label.new.words) }
        ensures width { label.new.width ≡ label.old.width }
    {
        self.known();
        let mut handled = [0u64; WORDS];
        copy_words(label.words(), &mut handled);
        label.insert(n);
        self.handle_rest(label, &mut handled);
    }

    /// What is known of every table. The call does nothing.
    fn known(&self)
        ensures { length self.now.shapes ≤ 4096 }
    {
        let _ = &self.index;
    }

    /// Adds the right sides of the axioms whose left side has no name.
    fn fire_plain(&self, label: &mut Bits)
        requires { label.old.width ≡ length self.now.shapes }
        ensures width { label.new.width ≡ label.old.width }
        ensures forced { IsForcedFrom (tabled_rules self.now []) (has label.old.words) (has label.new.words) }
        ensures unnamed { (k : ℕ) (a : AxiomNumbers) → slice_get self.now.axioms k ≡ Some a → a.joined ≡ Some [] → has label.new.words a.right ≡ true }
    {
        fire_all(&self.axioms, self.index.plain.as_slice(), label);
    }

    /// Handles the numbers of the label that are not handled yet, and those that come in.
    fn handle_rest(&self, label: &mut Bits, handled: &mut [u64])
        requires width { label.old.width ≡ length self.now.shapes }
        requires few { length self.now.shapes ≤ 4096 }
        requires words { length handled.old ≡ 64 }
        requires handled { IsHandled (tabled_rules self.now []) (has label.old.words) (has handled.old) }
        ensures least { IsLeastSaturated (tabled_rules self.now []) (has label.old.words) (has label.new.words) }
        ensures width { label.new.width ≡ label.old.width }
    {
        while let Some(n) = next_of(label.words(), handled) {
            self.handle(label, n);
            put_number(handled, n);
        }
    }

    /// Adds what the number, which the label has, forces.
    fn handle(&self, label: &mut Bits, n: u32)
        requires width { label.old.width ≡ length self.now.shapes }
        requires has { has label.old.words n ≡ true }
        requires below { n < label.old.width }
        ensures width { label.new.width ≡ label.old.width }
        ensures forced { IsForcedFrom (tabled_rules self.now []) (has label.old.words) (has label.new.words) }
        ensures handled { IsHandledAt (tabled_rules self.now []) n (has label.old.words) (has label.new.words) }
    {
        put_parts(shape_at(&self.shapes, n), label);
        fire_all(&self.axioms, list_at(&self.index.lists, n), label);
    }
}

/// Adds the parts of a conjunction.
fn put_parts(shape: Shape, label: &mut Bits)
    requires { IsShapeWithin label.old.width shape }
    ensures width { label.new.width ≡ label.old.width }
    ensures above { Implies (has label.old.words) (has label.new.words) }
    ensures parts { (a b : ℕ) → shape ≡ And a b → (has label.new.words a ≡ true) × (has label.new.words b ≡ true) }
    ensures least { (other : ℕ → Bool) → Implies (has label.old.words) other → ((a b : ℕ) → shape ≡ And a b → (other a ≡ true) × (other b ≡ true)) → Implies (has label.new.words) other }
{
    if let Shape::And(left, right) = shape {
        label.insert(left);
        label.insert(right);
    }
}

/// Adds the right sides of the axioms with these numbers whose names the label has.
fn fire_all(axioms: &[AxiomNumbers], ks: &[u32], label: &mut Bits)
    requires { All (IsAxiomWithin label.old.width) axioms.now }
    ensures width { label.new.width ≡ label.old.width }
    ensures fired { IsFired axioms.now ks.now (has label.old.words) (has label.new.words) }
{
    for k in ks {
        fire(axioms, *k, label);
    }
}

/// Adds the right side of the axiom if the label has the names of its left side.
fn fire(axioms: &[AxiomNumbers], k: u32, label: &mut Bits)
    requires { All (IsAxiomWithin label.old.width) axioms.now }
    ensures width { label.new.width ≡ label.old.width }
    ensures fired { IsFired axioms.now (k ∷ []) (has label.old.words) (has label.new.words) }
{
    if (k as usize) < axioms.len() {
        let row = axiom_at(axioms, k);
        if names::has_joined(label, &row.joined) {
            label.insert(row.right);
        }
    }
}

/// The first number of the label that is not handled.
fn next_of(words: &[u64], handled: &[u64]) -> Option<u32>
    requires words { length words.now ≤ length handled.now }
    requires few { length handled.now ≡ 64 }
    ensures some { IfSome result (λ n. (has words.now n ≡ true) × (has handled.now n ≡ false)) }
    ensures none { result ≡ None → IsWithin words.now handled.now }
{
    for i in 0..words.len() {
        if let Some(bit) = next_in(words[i], handled[i]) {
            return Some(i as u32 * 64 + bit);
        }
    }
    None
}

/// The lowest bit of the word that is not one of the other word.
fn next_in(word: u64, handled: u64) -> Option<u32>
    ensures some { IfSome result (λ j. (j < 64) × (bit_at word j ≡ 1) × (bit_at handled j ≡ 0)) }
    ensures none { result ≡ None → (j : ℕ) → j < 64 → bit_at word j ≡ 1 → bit_at handled j ≡ 1 }
{
    let rest = word & !handled;
    if rest == 0 {
        return None;
    }
    Some(rest.trailing_zeros())
}

/// Copies the words to the beginning of the other ones, in which there is no number.
fn copy_words(words: &[u64], handled: &mut [u64])
    requires words { length words.now ≤ length handled.old }
    requires empty { (k : ℕ) → has handled.old k ≡ false }
    ensures { (k : ℕ) → has handled.new k ≡ has words.now k }
{
    for i in 0..words.len() {
        handled[i] = words[i];
    }
}
