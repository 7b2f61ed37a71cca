// Whether a concept is the normal form of another, or of its complement, by walking both at once. No normal form is made.
ghost use Rattle.std.specs.Prelude.{◌≡◌};
ghost use Rattle.std.specs.Option.{option_map};
ghost use Rattle.dd_concept.specs.Same.{is_same};
ghost use Rattle.dd_check.specs.Parts.{along_of, joined_of, normal_by, pair_of, quantified_of};

use crate::parts::{
    all_parts, conjuncts, disjuncts, is_bottom, is_name, is_not_name, is_top, some_parts,
};
use dd_concept::Concept;

/// Whether the second is the normal form of the first where this is kept, and else of the first's complement.
pub(crate) fn is_normal_form(c: &Concept, a: &Concept, kept: bool) -> bool
    ensures { result ≡ is_same (normal_by kept c.now) a.now }
{
    match c {
        Concept::Top => is_whole(a, kept),
        Concept::Bottom => is_whole(a, !kept),
        Concept::Name(n) => is_literal(a, *n, kept),
        Concept::Not(d) => is_normal_form(d.get(), a, !kept),
        Concept::And(d, e) => match joined(a, kept) {
            Some((x, y)) => is_normal_form(d.get(), x, kept) && is_normal_form(e.get(), y, kept),
            None => false,
        },
        Concept::Or(d, e) => match joined(a, !kept) {
            Some((x, y)) => is_normal_form(d.get(), x, kept) && is_normal_form(e.get(), y, kept),
            None => false,
        },
        Concept::HasSome(r, d) => match quantified(a, kept) {
            Some((s, x)) => *r == s && is_normal_form(d.get(), x, kept),
            None => false,
        },
        Concept::HasAll(r, d) => match quantified(a, !kept) {
            Some((s, x)) => *r == s && is_normal_form(d.get(), x, kept),
            None => false,
        },
    }
}

// Whether it is top where that is kept, and else bottom.
fn is_whole(a: &Concept, kept: bool) -> bool
    ensures { result ≡ is_same (normal_by kept Concept.Top) a.now }
{
    if kept { is_top(a) } else { is_bottom(a) }
}

// Whether it is the name where that is kept, and else the name's complement.
fn is_literal(a: &Concept, n: u32, kept: bool) -> bool
    ensures { result ≡ is_same (normal_by kept (Concept.Name n)) a.now }
{
    if kept {
        is_name(a, n)
    } else {
        is_not_name(a, n)
    }
}

// The parts of a conjunction, or of a disjunction.
fn joined(a: &Concept, all: bool) -> Option<(&Concept, &Concept)>
    ensures { option_map pair_of result ≡ joined_of all a.now }
{
    if all { conjuncts(a) } else { disjuncts(a) }
}

// The role and the part of an existential restriction, or of a universal one.
fn quantified(a: &Concept, some: bool) -> Option<(u32, &Concept)>
    ensures { option_map along_of result ≡ quantified_of some a.now }
{
    if some { some_parts(a) } else { all_parts(a) }
}
