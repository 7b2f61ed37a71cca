ghost use Rattle.std.specs.Prelude.{◌≡◌, IfOk};

use crate::NoMemory;
use crate::concept::Concept;
use sqlite_items::Boxed;
use std::alloc::Global;

/// The complement of a concept.
pub fn negation(alloc: Global, c: Concept) -> Result<Concept, NoMemory>
    ensures { IfOk result (λ made. made ≡ Concept.Not c) }
{
    Ok(Concept::Not(Boxed::new(alloc, c)?))
}

/// What is in both concepts.
pub fn conjunction(alloc: Global, c: Concept, d: Concept) -> Result<Concept, NoMemory>
    ensures { IfOk result (λ made. made ≡ Concept.And c d) }
{
    let (c, d) = both(alloc, c, d)?;
    Ok(Concept::And(c, d))
}

/// What is in one of two concepts.
pub fn disjunction(alloc: Global, c: Concept, d: Concept) -> Result<Concept, NoMemory>
    ensures { IfOk result (λ made. made ≡ Concept.Or c d) }
{
    let (c, d) = both(alloc, c, d)?;
    Ok(Concept::Or(c, d))
}

/// The existential restriction: what has a successor along a role that is in the concept.
pub fn existential(alloc: Global, role: u32, c: Concept) -> Result<Concept, NoMemory>
    ensures { IfOk result (λ made. made ≡ Concept.HasSome role c) }
{
    Ok(Concept::HasSome(role, Boxed::new(alloc, c)?))
}

/// The universal restriction: what has successors along a role that are all in the concept.
pub fn universal(alloc: Global, role: u32, c: Concept) -> Result<Concept, NoMemory>
    ensures { IfOk result (λ made. made ≡ Concept.HasAll role c) }
{
    Ok(Concept::HasAll(role, Boxed::new(alloc, c)?))
}

fn both(alloc: Global, c: Concept, d: Concept) -> Result<(Boxed<Concept>, Boxed<Concept>), NoMemory>
    ensures { IfOk result (λ two. (two.0 ≡ c) × (two.1 ≡ d)) }
{
    Ok((Boxed::new(alloc, c)?, Boxed::new(alloc, d)?))
}
