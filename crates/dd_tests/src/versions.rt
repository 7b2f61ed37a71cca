ghost use Rattle.std.specs.Prelude.{◌≡◌, IfOk, map};
ghost use Rattle.dd_tests.specs.Versions.{rule_of, version_of};

use dd_concept::{Concept, Items, NoMemory};
use dd_peer::{PeerVersion, Rule, Shared};
use std::alloc::Global;

/// Rules between names: the peer that each comes from, its source and its target.
pub fn rules(alloc: Global, sides: &[(u32, u32, u32)]) -> Result<Items<Rule>, NoMemory>
    ensures { IfOk result (λ rules. rules ≡ map rule_of sides.now) }
{
    let mut rules = Items::new(alloc);
    for (from, source, target) in sides {
        rules.push(Rule {
            from: *from,
            source: Concept::Name(*source),
            target: Concept::Name(*target),
        })?;
    }
    Ok(rules)
}

/// A version without axioms.
pub fn version(
    alloc: Global,
    into: &[(u32, u32, u32)],
    onto: &[(u32, u32, u32)],
) -> Result<PeerVersion, NoMemory>
    ensures { IfOk result (λ v. v ≡ version_of into.now onto.now) }
{
    let into = rules(alloc, into)?;
    let onto = rules(alloc, onto)?;
    Ok(PeerVersion {
        axioms: Items::new(alloc),
        into,
        onto,
    })
}

/// The same with one owner.
pub fn shared_version(
    alloc: Global,
    into: &[(u32, u32, u32)],
    onto: &[(u32, u32, u32)],
) -> Result<Shared<PeerVersion>, NoMemory>
    ensures { IfOk result (λ v. v ≡ version_of into.now onto.now) }
{
    Shared::new(alloc, version(alloc, into, onto)?)
}
