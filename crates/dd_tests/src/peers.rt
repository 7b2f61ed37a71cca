ghost use Rattle.std.specs.Prelude.{⊤};

use crate::rows::{Failure, Row, check, check_one};
use crate::versions::{shared_version, version};
use dd_concept::NoMemory;
use dd_peer::{PeerErr, PeerVersion, Shared};
use std::alloc::Global;

/// The into and onto rules of a version of the peer 0 of three, and what its check answers.
struct Check {
    into: &'static [(u32, u32, u32)],
    onto: &'static [(u32, u32, u32)],
    answer: Result<(), PeerErr>,
}

impl Row for Check {
    ghost answers = { λ row yes. ⊤ };

    fn is_right(&self, alloc: Global) -> Result<bool, NoMemory> {
        let version = version(alloc, self.into, self.onto)?;
        let is_right = answers(&version, self.answer);
        drop(version);
        Ok(is_right)
    }
}

fn answers(v: &PeerVersion, wanted: Result<(), PeerErr>) -> bool {
    v.axioms.as_slice().is_empty()
        && v.into.as_slice().len() < 100
        && v.onto.as_slice().len() < 100
        && v.check(3, 0) == wanted
}

const FROM_0: (u32, u32, u32) = (0, 5, 6);

const FROM_1: (u32, u32, u32) = (1, 5, 6);

const FROM_2: (u32, u32, u32) = (2, 5, 6);

const FROM_3: (u32, u32, u32) = (3, 5, 6);

const CROWD: &[(u32, u32, u32)] = &[FROM_1; 65];

const MOST: &[(u32, u32, u32)] = &[FROM_1; 64];

const CHECKS: &[Check] = &[
    Check {
        into: &[FROM_1, FROM_2],
        onto: &[FROM_1],
        answer: Ok(()),
    },
    Check {
        into: &[FROM_1, FROM_3],
        onto: &[FROM_1, FROM_0],
        answer: Err(PeerErr::SamePeer { rule: 3 }),
    },
    Check {
        into: &[FROM_1],
        onto: &[FROM_2, FROM_3],
        answer: Err(PeerErr::UnknownPeer { rule: 2 }),
    },
    Check {
        into: CROWD,
        onto: &[FROM_2],
        answer: Err(PeerErr::TooManyRules { from: 1, count: 65 }),
    },
    Check {
        into: &[FROM_2],
        onto: CROWD,
        answer: Err(PeerErr::TooManyRules { from: 1, count: 65 }),
    },
    Check {
        into: MOST,
        onto: MOST,
        answer: Ok(()),
    },
];

#[test]
fn the_first_cause_is_told(rt: HostRuntime) -> Result<(), Failure> {
    check(rt.alloc(), CHECKS)
}

/// Only a type that threads may pass on and share fits.
fn crosses_threads<T: Send + Sync>(_value: &T) -> bool {
    true
}

fn is_that_version(shared: &Shared<PeerVersion>) -> bool {
    crosses_threads(shared)
        && shared.get().into_of(1, 1).is_some()
        && shared.get().into_of(1, 2).is_none()
}

fn shares(first: &Shared<PeerVersion>) -> Result<bool, NoMemory> {
    let second = first.share()?;
    let is_right = is_that_version(&second);
    drop(second);
    Ok(is_right)
}

fn owners_share(alloc: Global) -> Result<bool, NoMemory> {
    let first = shared_version(alloc, &[FROM_1, FROM_2, FROM_1], &[FROM_1])?;
    let is_right = shares(&first);
    drop(first);
    is_right
}

#[test]
fn owners_share_one_version(rt: HostRuntime) -> Result<(), Failure> {
    check_one(owners_share(rt.alloc()))
}
