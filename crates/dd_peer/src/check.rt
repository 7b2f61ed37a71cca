ghost use Rattle.std.specs.Prelude.{◌≡◌, ◌==◌, ◌++◌, OnOk, position, nat_le};
ghost use Rattle.dd_peer.specs.Refusals.{IsAccepted, crowd_of, first_crowd, refusal_of, refused_by};
ghost use Rattle.dd_peer.specs.Rules.{rules_of};
ghost use Rattle.dd_peer.specs.Versions.{IsNumbered};

use crate::version::PeerVersion;
use thiserror::Error;

/// The most axioms of a version.
pub const MAX_AXIOMS: usize = 2000;

/// The most into rules, and the most onto rules, that a version has from one peer.
pub const MAX_RULES: u32 = 64;

/// Why a version is refused. Rules are numbered from 0 over the into rules and then the onto rules.
#[derive(Clone, Copy, Debug, PartialEq, Eq, Error)]
pub enum PeerErr {
    /// The first rule that comes from the peer itself.
    #[error("rule {rule} comes from the peer itself")]
    SamePeer { rule: u32 },
    /// The first rule that comes from no declared peer.
    #[error("rule {rule} comes from no declared peer")]
    UnknownPeer { rule: u32 },
    /// The number of axioms.
    #[error("there are {count} axioms, which are too many")]
    TooManyAxioms { count: u32 },
    /// The least peer with too many rules of a kind. `count` is the number of its into rules where these are too many,
    /// else of its onto rules.
    #[error("{count} rules of one kind come from peer {from}, which are too many")]
    TooManyRules { from: u32, count: u32 },
}

impl PeerVersion {
    /// Whether this may be a version of the peer `own` where `peers` peers are declared: the first error in the order of
    /// `PeerErr` where it may not.
    pub fn check(&self, peers: u32, own: u32) -> Result<(), PeerErr>
        requires { IsNumbered self.now }
        ensures first { result ≡ refused_by (refusal_of self.now peers own) }
        ensures accepted { OnOk result (IsAccepted self.now peers own) }
    {
        if let Some(rule) = first_from(self, own) {
            return Err(PeerErr::SamePeer { rule: rule as u32 });
        }
        if let Some(rule) = first_beyond(self, peers) {
            return Err(PeerErr::UnknownPeer { rule: rule as u32 });
        }
        let count = self.axioms.as_slice().len();
        if count > MAX_AXIOMS {
            return Err(PeerErr::TooManyAxioms {
                count: count as u32,
            });
        }
        match crowded(self, peers) {
            Some((from, count)) => Err(PeerErr::TooManyRules { from, count }),
            None => Ok(()),
        }
    }
}

fn first_from(v: &PeerVersion, own: u32) -> Option<usize>
    ensures { result ≡ position (λ r. r.from == own) (rules_of v.now) }
{
    let mut rules = v.into.as_slice().iter().chain(v.onto.as_slice().iter());
    rules.position(|rule| rule.from == own)
}

fn first_beyond(v: &PeerVersion, peers: u32) -> Option<usize>
    ensures { result ≡ position (λ r. nat_le peers r.from) (rules_of v.now) }
{
    let mut rules = v.into.as_slice().iter().chain(v.onto.as_slice().iter());
    rules.position(|rule| peers <= rule.from)
}

// The least peer below `peers` with too many rules, and their number.
fn crowded(v: &PeerVersion, peers: u32) -> Option<(u32, u32)>
    requires { IsNumbered v.now }
    ensures { result ≡ first_crowd v.now peers }
{
    for from in 0..peers {
        if let Some(count) = crowd(v, from) {
            return Some((from, count));
        }
    }
    None
}

fn crowd(v: &PeerVersion, from: u32) -> Option<u32>
    requires { IsNumbered v.now }
    ensures { result ≡ crowd_of v.now from }
{
    let into = v.into_count(from);
    if into > MAX_RULES {
        return Some(into);
    }
    let onto = v.onto_count(from);
    if onto > MAX_RULES {
        return Some(onto);
    }
    None
}
