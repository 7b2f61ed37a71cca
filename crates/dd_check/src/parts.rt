// The form of a concept, and its parts.
ghost use Rattle.std.specs.Prelude.{◌≡◌};
ghost use Rattle.std.specs.Option.{option_map};
ghost use Rattle.dd_concept.specs.Forms.{and_of, or_of, some_of};
ghost use Rattle.dd_concept.specs.Same.{is_same};
ghost use Rattle.dd_check.specs.Parts.{all_of, along_of, pair_of};

use dd_concept::{Concept, same};

/// Whether the two are the same concept.
pub(crate) fn is_one(c: &Concept, d: &Concept) -> bool
    ensures { result ≡ is_same c.now d.now }
{
    same(c, d)
}

pub(crate) fn is_top(c: &Concept) -> bool
    ensures { result ≡ is_same Concept.Top c.now }
{
    match c {
        Concept::Top => true,
        _ => false,
    }
}

pub(crate) fn is_bottom(c: &Concept) -> bool
    ensures { result ≡ is_same Concept.Bottom c.now }
{
    match c {
        Concept::Bottom => true,
        _ => false,
    }
}

pub(crate) fn is_name(c: &Concept, a: u32) -> bool
    ensures { result ≡ is_same (Concept.Name a) c.now }
{
    match c {
        Concept::Name(b) => a == *b,
        _ => false,
    }
}

/// Whether it is the complement of the name.
pub(crate) fn is_not_name(c: &Concept, a: u32) -> bool
    ensures { result ≡ is_same (Concept.Not (Concept.Name a)) c.now }
{
    match c {
        Concept::Not(d) => is_name(d.get(), a),
        _ => false,
    }
}

/// The parts of a conjunction.
pub(crate) fn conjuncts(c: &Concept) -> Option<(&Concept, &Concept)>
    ensures { option_map pair_of result ≡ and_of c.now }
{
    match c {
        Concept::And(d, e) => Some((d.get(), e.get())),
        _ => None,
    }
}

/// The parts of a disjunction.
pub(crate) fn disjuncts(c: &Concept) -> Option<(&Concept, &Concept)>
    ensures { option_map pair_of result ≡ or_of c.now }
{
    match c {
        Concept::Or(d, e) => Some((d.get(), e.get())),
        _ => None,
    }
}

/// The role and the part of an existential restriction.
pub(crate) fn some_parts(c: &Concept) -> Option<(u32, &Concept)>
    ensures { option_map along_of result ≡ some_of c.now }
{
    match c {
        Concept::HasSome(r, d) => Some((*r, d.get())),
        _ => None,
    }
}

/// The role and the part of a universal restriction.
pub(crate) fn all_parts(c: &Concept) -> Option<(u32, &Concept)>
    ensures { option_map along_of result ≡ all_of c.now }
{
    match c {
        Concept::HasAll(r, d) => Some((*r, d.get())),
        _ => None,
    }
}
