ghost use Rattle.std.specs.Prelude.{◌≡◌, ◌<◌, ◌≤◌, ◌||◌, ◌&&◌, ℕ, true, false, [], All, IfOk, length, Some, slice_get};
ghost use Rattle.dd_set.specs.Words.{has};
ghost use Rattle.dd_rules.specs.Numbers.{IsSuccessor, any_at, is_all};
ghost use Rattle.dd_rules.specs.Tables.{IsShapeWithin, shape_rules, tabled_rules};
ghost use Rattle.dd_rules.specs.declared.shape.Shape.TheVariants.{HasSome};

use crate::shape::Shape;
use crate::tables::{Tables, shape_at};
use dd_concept::NoMemory;
use dd_set::Bits;
use std::alloc::Global;

impl Tables {
    /// What an element of the label passes on to a further one along a role: the concept of `(some r C)` with number `at`, and
    /// each `E` of an `(all r E)` of the label.
    pub fn successor(&self, alloc: Global, label: &Bits, at: u32) -> Result<Bits, NoMemory>
        requires width { label.now.width ≡ length self.now.shapes }
        requires at { at < length self.now.shapes }
        ensures width { IfOk result (λ b. b.width ≡ label.now.width) }
        ensures passed { IfOk result (λ b. (role c : ℕ) → slice_get self.now.shapes at ≡ Some (HasSome role c) → IsSuccessor (tabled_rules self.now []) (has label.now.words) role c (has b.words)) }
    {
        let mut next = Bits::new(alloc, label.width())?;
        if let Shape::HasSome(role, c) = shape_at(&self.shapes, at) {
            next.insert(c);
            pass_all(&self.shapes, label, role, &mut next);
        }
        Ok(next)
    }
}

/// Puts each `E` of an `(all r E)` of the label into the other one.
fn pass_all(shapes: &[Shape], label: &Bits, role: u32, next: &mut Bits)
    requires parts { All (IsShapeWithin (length shapes.now)) shapes.now }
    requires few { length shapes.now ≤ 4096 }
    requires width { label.now.width ≡ length shapes.now }
    requires next_width { next.old.width ≡ length shapes.now }
    ensures width { next.new.width ≡ next.old.width }
    ensures passed { (k : ℕ) → has next.new.words k ≡ (has next.old.words k || any_at (λ n s. has label.now.words n && is_all role k s) shapes.now) }
{
    let mut from = 0;
    while let Some(n) = label.next_from(from) {
        pass(shape_at(shapes, n), role, next);
        from = n + 1;
    }
}

fn pass(shape: Shape, role: u32, next: &mut Bits)
    requires { IsShapeWithin next.old.width shape }
    ensures width { next.new.width ≡ next.old.width }
    ensures passed { (k : ℕ) → has next.new.words k ≡ (is_all role k shape || has next.old.words k) }
{
    if let Shape::HasAll(other, n) = shape {
        if role == other {
            next.insert(n);
        }
    }
}
