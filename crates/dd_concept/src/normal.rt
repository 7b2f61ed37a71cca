ghost use Rattle.std.specs.Prelude.{◌≡◌, IfOk};
ghost use Rattle.dd_concept.specs.Normal.{IsNormal, IsSmallFor, nnf_not_of, nnf_of};

use crate::NoMemory;
use crate::concept::Concept;
use crate::construct::{conjunction, disjunction, existential, negation, universal};
use std::alloc::Global;

/// The negation normal form: the same concept, with Not pushed down to the names.
pub fn nnf(alloc: Global, c: &Concept) -> Result<Concept, NoMemory>
    ensures form { IfOk result (λ d. d ≡ nnf_of c.now) }
    ensures normal { IfOk result IsNormal }
    ensures small { IfOk result (IsSmallFor c.now) }
{
    positive(alloc, c)
}

/// The negation normal form of the concept's complement.
pub fn nnf_not(alloc: Global, c: &Concept) -> Result<Concept, NoMemory>
    ensures form { IfOk result (λ d. d ≡ nnf_not_of c.now) }
    ensures normal { IfOk result IsNormal }
    ensures small { IfOk result (IsSmallFor c.now) }
{
    negative(alloc, c)
}

#[cycle(normal)]
fn positive(alloc: Global, c: &Concept) -> Result<Concept, NoMemory>
    ensures { IfOk result (λ d. d ≡ nnf_of c.now) }
{
    match c {
        Concept::Top => Ok(Concept::Top),
        Concept::Bottom => Ok(Concept::Bottom),
        Concept::Name(n) => Ok(Concept::Name(*n)),
        Concept::Not(d) => negative(alloc, d.get()),
        Concept::And(d, e) => {
            conjunction(alloc, positive(alloc, d.get())?, positive(alloc, e.get())?)
        }
        Concept::Or(d, e) => {
            disjunction(alloc, positive(alloc, d.get())?, positive(alloc, e.get())?)
        }
        Concept::HasSome(r, d) => existential(alloc, *r, positive(alloc, d.get())?),
        Concept::HasAll(r, d) => universal(alloc, *r, positive(alloc, d.get())?),
    }
}

#[cycle(normal)]
fn negative(alloc: Global, c: &Concept) -> Result<Concept, NoMemory>
    ensures { IfOk result (λ d. d ≡ nnf_not_of c.now) }
{
    match c {
        Concept::Top => Ok(Concept::Bottom),
        Concept::Bottom => Ok(Concept::Top),
        Concept::Name(n) => negation(alloc, Concept::Name(*n)),
        Concept::Not(d) => positive(alloc, d.get()),
        Concept::And(d, e) => {
            disjunction(alloc, negative(alloc, d.get())?, negative(alloc, e.get())?)
        }
        Concept::Or(d, e) => {
            conjunction(alloc, negative(alloc, d.get())?, negative(alloc, e.get())?)
        }
        Concept::HasSome(r, d) => universal(alloc, *r, negative(alloc, d.get())?),
        Concept::HasAll(r, d) => existential(alloc, *r, negative(alloc, d.get())?),
    }
}
