ghost use Rattle.std.specs.Prelude.{◌≡◌, ◌^◌, ◌<◌, length, slice_get};
ghost use Rattle.std.specs.Option.{option_copied};
ghost use Rattle.dd_peer.specs.Rules.{rules_from};
ghost use Rattle.dd_peer.specs.Versions.{IsNumbered};

use dd_concept::{Axiom, Concept, Items, Shared};

/// A bridge rule, seen from the peer that keeps it: `from` is the other peer, and `source` is a concept of that one.
#[derive(Drop)]
pub struct Rule {
    pub from: u32,
    pub source: Concept,
    pub target: Concept,
}

/// What a peer says at one moment: its axioms, its into rules and its onto rules, each in the order of the request.
#[derive(Drop)]
pub struct PeerVersion {
    pub axioms: Items<Axiom>,
    pub into: Items<Rule>,
    pub onto: Items<Rule>,
}

/// The versions that a pin names, one per peer.
#[derive(Drop)]
pub struct Pinned {
    pub peers: Items<Shared<PeerVersion>>,
}

/// One version number per peer: how many of its puts count.
#[derive(Drop)]
pub struct Pin {
    pub versions: Items<u32>,
}

/// Is each element of `left` at this peer one of `right`?
#[derive(Drop)]
pub struct Query {
    pub peer: u32,
    pub left: Concept,
    pub right: Concept,
}

impl PeerVersion {
    /// The into rule with position `k`, from 0, among those from this peer.
    pub fn into_of(&self, from: u32, k: u32) -> Option<&Rule>
        ensures { option_copied result ≡ slice_get (rules_from self.now.into from) k }
    {
        nth_from(self.into.as_slice(), from, k)
    }

    /// The onto rule with position `o`, from 0, among those from this peer.
    pub fn onto_of(&self, from: u32, o: u32) -> Option<&Rule>
        ensures { option_copied result ≡ slice_get (rules_from self.now.onto from) o }
    {
        nth_from(self.onto.as_slice(), from, o)
    }

    /// How many into rules come from this peer.
    pub fn into_count(&self, from: u32) -> u32
        requires { IsNumbered self.now }
        ensures { result ≡ length (rules_from self.now.into from) }
    {
        count_from(self.into.as_slice(), from)
    }

    /// How many onto rules come from this peer.
    pub fn onto_count(&self, from: u32) -> u32
        requires { IsNumbered self.now }
        ensures { result ≡ length (rules_from self.now.onto from) }
    {
        count_from(self.onto.as_slice(), from)
    }
}

fn nth_from(rules: &[Rule], from: u32, k: u32) -> Option<&Rule>
    ensures { option_copied result ≡ slice_get (rules_from rules.now from) k }
{
    let mut left = k;
    for rule in rules {
        if rule.from == from {
            if left == 0 {
                return Some(rule);
            }
            left -= 1;
        }
    }
    None
}

fn count_from(rules: &[Rule], from: u32) -> u32
    requires { length rules.now < 2 ^ 32 }
    ensures { result ≡ length (rules_from rules.now from) }
{
    rules.iter().filter(|rule| rule.from == from).count() as u32
}
