ghost use Rattle.std.specs.Prelude.{◌≡◌, ◌↔◌, ◌<◌, ◌≤◌, ◌&&◌, ◌%◌, ℕ, true, false, [], IfSome, length, None, Some, slice_get};
ghost use Rattle.dd_set.specs.Words.{has};
ghost use Rattle.dd_rules.specs.Forced.{is_clash};
ghost use Rattle.dd_rules.specs.Numbers.{any_at, clashes_at, has_clash, is_not};
ghost use Rattle.dd_rules.specs.Handled.{IsMarked};
ghost use Rattle.dd_rules.specs.Least.{Implies};
ghost use Rattle.dd_rules.specs.Tables.{shape_rules, tabled_rules};
ghost use Rattle.dd_rules.specs.declared.shape.Shape.TheVariants.{Not};

use crate::shape::Shape;
use crate::tables::{Tables, shape_at};
use dd_set::{Bits, has_number, put_number};

/// Names are marked by their numbers modulo this one, which is the most symbols that a program has.
const MARKS: u32 = 65_536;

/// As many words as there are marks.
const MARK_WORDS: usize = 1024;

/// Why no element has all concepts of a label.
#[derive(Clone, Copy)]
pub enum Clash {
    Bottom,
    /// This name and its complement.
    Name(u32),
}

impl Tables {
    /// A clash of the label, if there is one.
    pub fn clash(&self, label: &Bits) -> Option<Clash>
        requires { label.now.width ≤ length self.now.shapes }
        ensures some { IfSome result (λ c. is_clash (tabled_rules self.now []) (has label.now.words) c ≡ true) }
        ensures none { (result ≡ None) ↔ (has_clash (tabled_rules self.now []) (has label.now.words) ≡ false) }
    {
        clash_in(&self.shapes, label)
    }
}

fn clash_in(shapes: &[Shape], label: &Bits) -> Option<Clash>
    requires width { label.now.width ≤ length shapes.now }
    requires few { length shapes.now ≤ 4096 }
    ensures some { IfSome result (λ c. is_clash (shape_rules shapes.now) (has label.now.words) c ≡ true) }
    ensures none { result ≡ None → has_clash (shape_rules shapes.now) (has label.now.words) ≡ false }
{
    let mut marks = [0u64; MARK_WORDS];
    mark_all(shapes, label, &mut marks);
    marked_clash(shapes, label, &marks)
}

/// Marks the names whose complements the label has.
fn mark_all(shapes: &[Shape], label: &Bits, marks: &mut [u64])
    requires width { label.now.width ≤ length shapes.now }
    requires few { length shapes.now ≤ 4096 }
    requires words { length marks.old ≡ 1024 }
    ensures { IsMarked shapes.now (has label.now.words) (has marks.new) }
{
    let mut from = 0;
    while let Some(n) = label.next_from(from) {
        mark(shape_at(shapes, n), marks);
        from = n + 1;
    }
}

/// Marks the name that the concept is the complement of.
fn mark(shape: Shape, marks: &mut [u64])
    requires { length marks.old ≡ 1024 }
    ensures kept { Implies (has marks.old) (has marks.new) }
    ensures marked { (a : ℕ) → shape ≡ Not a → has marks.new (a % 65536) ≡ true }
    ensures words { length marks.new ≡ 1024 }
{
    if let Shape::Not(name) = shape {
        put_number(marks, name % MARKS);
    }
}

fn marked_clash(shapes: &[Shape], label: &Bits, marks: &[u64]) -> Option<Clash>
    requires width { label.now.width ≤ length shapes.now }
    requires few { length shapes.now ≤ 4096 }
    requires marked { IsMarked shapes.now (has label.now.words) (has marks.now) }
    ensures some { IfSome result (λ c. is_clash (shape_rules shapes.now) (has label.now.words) c ≡ true) }
    ensures none { result ≡ None → has_clash (shape_rules shapes.now) (has label.now.words) ≡ false }
{
    let mut from = 0;
    while let Some(n) = label.next_from(from) {
        if let Some(clash) = clash_at(shapes, label, marks, n, shape_at(shapes, n)) {
            return Some(clash);
        }
        from = n + 1;
    }
    None
}

/// The clash that the label's concept `n`, which has this shape, is part of, if there is one.
fn clash_at(shapes: &[Shape], label: &Bits, marks: &[u64], n: u32, shape: Shape) -> Option<Clash>
    requires width { label.now.width ≤ length shapes.now }
    requires few { length shapes.now ≤ 4096 }
    requires marked { IsMarked shapes.now (has label.now.words) (has marks.now) }
    requires has { has label.now.words n ≡ true }
    requires shape { slice_get shapes.now n ≡ Some shape }
    ensures some { IfSome result (λ c. is_clash (shape_rules shapes.now) (has label.now.words) c ≡ true) }
    ensures none { result ≡ None → clashes_at (shape_rules shapes.now) (has label.now.words) n shape ≡ false }
{
    match shape {
        Shape::Bottom => Some(Clash::Bottom),
        Shape::Name(name) => {
            if has_marked(shapes, label, marks, name) {
                Some(Clash::Name(name))
            } else {
                None
            }
        }
        _ => None,
    }
}

/// Whether the label has the complement of the name. The complements themselves are looked at for a marked name alone.
fn has_marked(shapes: &[Shape], label: &Bits, marks: &[u64], name: u32) -> bool
    requires width { label.now.width ≤ length shapes.now }
    requires few { length shapes.now ≤ 4096 }
    requires marked { IsMarked shapes.now (has label.now.words) (has marks.now) }
    ensures { result ≡ any_at (λ m s. has label.now.words m && is_not name s) shapes.now }
{
    if !has_number(marks, name % MARKS) {
        return false;
    }
    has_not(shapes, label, name)
}

/// Whether the label has the complement of the name.
fn has_not(shapes: &[Shape], label: &Bits, name: u32) -> bool
    requires width { label.now.width ≤ length shapes.now }
    requires few { length shapes.now ≤ 4096 }
    ensures { result ≡ any_at (λ m s. has label.now.words m && is_not name s) shapes.now }
{
    let mut from = 0;
    while let Some(n) = label.next_from(from) {
        if is_not_of(shape_at(shapes, n), name) {
            return true;
        }
        from = n + 1;
    }
    false
}

fn is_not_of(shape: Shape, name: u32) -> bool
    ensures { result ≡ is_not name shape }
{
    match shape {
        Shape::Not(other) => name == other,
        _ => false,
    }
}
