ghost use Rattle.std.specs.Prelude.{◌≡◌, ◌↔◌, IfOk, IsTrue};

use crate::NoMemory;
use crate::concept::{Axiom, Concept};
use crate::construct::{conjunction, disjunction, existential, negation, universal};
use std::alloc::Global;

/// Whether two concepts are the same tree.
pub fn same(a: &Concept, b: &Concept) -> bool
    ensures { IsTrue result ↔ (a.now ≡ b.now) }
{
    match (a, b) {
        (Concept::Top, Concept::Top) | (Concept::Bottom, Concept::Bottom) => true,
        (Concept::Name(n), Concept::Name(m)) => n == m,
        (Concept::Not(c), Concept::Not(d)) => same(c.get(), d.get()),
        (Concept::And(c, e), Concept::And(d, f)) => same(c.get(), d.get())
            && same(e.get(), f.get()),
        (Concept::Or(c, e), Concept::Or(d, f)) => same(c.get(), d.get()) && same(e.get(), f.get()),
        (Concept::HasSome(r, c), Concept::HasSome(s, d)) => r == s && same(c.get(), d.get()),
        (Concept::HasAll(r, c), Concept::HasAll(s, d)) => r == s && same(c.get(), d.get()),
        _ => false,
    }
}

/// Whether two axioms have the same two sides.
pub fn same_axiom(a: &Axiom, b: &Axiom) -> bool
    ensures { IsTrue result ↔ (a.now ≡ b.now) }
{
    same(&a.left, &b.left) && same(&a.right, &b.right)
}

/// Whether two lists have the same axioms in the same order.
pub fn same_axioms(a: &[Axiom], b: &[Axiom]) -> bool
    ensures { IsTrue result ↔ (a.now ≡ b.now) }
{
    if a.len() != b.len() {
        return false;
    }
    for k in 0..a.len() {
        if !same_axiom(&a[k], &b[k]) {
            return false;
        }
    }
    true
}

/// The same tree once more.
pub fn copy(alloc: Global, c: &Concept) -> Result<Concept, NoMemory>
    ensures { IfOk result (λ d. d ≡ c.now) }
{
    match c {
        Concept::Top => Ok(Concept::Top),
        Concept::Bottom => Ok(Concept::Bottom),
        Concept::Name(n) => Ok(Concept::Name(*n)),
        Concept::Not(d) => negation(alloc, copy(alloc, d.get())?),
        Concept::And(d, e) => conjunction(alloc, copy(alloc, d.get())?, copy(alloc, e.get())?),
        Concept::Or(d, e) => disjunction(alloc, copy(alloc, d.get())?, copy(alloc, e.get())?),
        Concept::HasSome(r, d) => existential(alloc, *r, copy(alloc, d.get())?),
        Concept::HasAll(r, d) => universal(alloc, *r, copy(alloc, d.get())?),
    }
}

/// The same two sides once more.
pub fn copy_axiom(alloc: Global, a: &Axiom) -> Result<Axiom, NoMemory>
    ensures { IfOk result (λ b. b ≡ a.now) }
{
    Ok(Axiom {
        left: copy(alloc, &a.left)?,
        right: copy(alloc, &a.right)?,
    })
}
