ghost use Rattle.std.specs.Prelude.{◌≡◌, ◌↔◌, IsTrue};

use crate::version::{PeerVersion, Pinned, Query, Rule};
use dd_concept::{Shared, same, same_axioms};

/// Whether two rules are the same.
pub fn same_rule(a: &Rule, b: &Rule) -> bool
    ensures { IsTrue result ↔ (a.now ≡ b.now) }
{
    a.from == b.from && same(&a.source, &b.source) && same(&a.target, &b.target)
}

/// Whether two versions say the same, in the same order.
pub fn same_version(a: &PeerVersion, b: &PeerVersion) -> bool
    ensures { IsTrue result ↔ (a.now ≡ b.now) }
{
    same_axioms(a.axioms.as_slice(), b.axioms.as_slice())
        && same_rules(a.into.as_slice(), b.into.as_slice())
        && same_rules(a.onto.as_slice(), b.onto.as_slice())
}

/// Whether two pinned sets have the same versions. They are compared by what they say.
pub fn same_pinned(a: &Pinned, b: &Pinned) -> bool
    ensures { IsTrue result ↔ (a.now ≡ b.now) }
{
    same_versions(a.peers.as_slice(), b.peers.as_slice())
}

/// Whether two queries are the same.
pub fn same_query(a: &Query, b: &Query) -> bool
    ensures { IsTrue result ↔ (a.now ≡ b.now) }
{
    a.peer == b.peer && same(&a.left, &b.left) && same(&a.right, &b.right)
}

fn same_rules(a: &[Rule], b: &[Rule]) -> bool
    ensures { IsTrue result ↔ (a.now ≡ b.now) }
{
    if a.len() != b.len() {
        return false;
    }
    for k in 0..a.len() {
        if !same_rule(&a[k], &b[k]) {
            return false;
        }
    }
    true
}

fn same_versions(a: &[Shared<PeerVersion>], b: &[Shared<PeerVersion>]) -> bool
    ensures { IsTrue result ↔ (a.now ≡ b.now) }
{
    if a.len() != b.len() {
        return false;
    }
    for k in 0..a.len() {
        if !same_version(a[k].get(), b[k].get()) {
            return false;
        }
    }
    true
}
