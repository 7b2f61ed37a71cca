ghost use Rattle.std.specs.Prelude.{◌≡◌};
ghost use Rattle.dd_interp.specs.Meaning.{all_along, in_name, meaning, some_along};

use crate::interp::Interp;
use dd_concept::Concept;

/// Whether the element `x` is one of the concept.
#[cycle(holds)]
pub fn holds(i: &Interp, x: u32, c: &Concept) -> bool
    ensures { result ≡ meaning i.now c.now x }
{
    match c {
        Concept::Top => true,
        Concept::Bottom => false,
        Concept::Name(a) => has_name(i.names.as_slice(), *a, x),
        Concept::Not(d) => !holds(i, x, d.get()),
        Concept::And(d, e) => holds(i, x, d.get()) && holds(i, x, e.get()),
        Concept::Or(d, e) => holds(i, x, d.get()) || holds(i, x, e.get()),
        Concept::HasSome(r, d) => has_some(i, *r, x, d.get()),
        Concept::HasAll(r, d) => has_all(i, *r, x, d.get()),
    }
}

fn has_name(names: &[(u32, u32)], a: u32, x: u32) -> bool
    ensures { result ≡ in_name names.now a x }
{
    names.iter().any(|p| p.0 == a && p.1 == x)
}

#[cycle(holds)]
fn has_some(i: &Interp, r: u32, x: u32, c: &Concept) -> bool
    ensures { result ≡ some_along i.now.roles r (meaning i.now c.now) x }
{
    for t in i.roles.as_slice() {
        if t.0 == r && t.1 == x && holds(i, t.2, c) {
            return true;
        }
    }
    false
}

#[cycle(holds)]
fn has_all(i: &Interp, r: u32, x: u32, c: &Concept) -> bool
    ensures { result ≡ all_along i.now.roles r (meaning i.now c.now) x }
{
    for t in i.roles.as_slice() {
        if t.0 == r && t.1 == x && !holds(i, t.2, c) {
            return false;
        }
    }
    true
}
