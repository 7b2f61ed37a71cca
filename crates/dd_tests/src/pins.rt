ghost use Rattle.std.specs.Prelude.{⊤};

use crate::rows::{Failure, Row, check, check_one};
use crate::versions::rules;
use dd_concept::{Axiom, Concept, Items, NoMemory};
use dd_peer::{PeerErr, PeerVersion, Pin, Pinned};
use dd_pin::{MAX_PUTS, PutErr, Registry};
use std::alloc::Global;

/// A put of a version with so many axioms and these into rules, and what it answers.
#[derive(Clone, Copy)]
struct Put {
    peer: u32,
    axioms: usize,
    into: &'static [(u32, u32, u32)],
    answer: Result<u32, PeerErr>,
}

/// Puts, the pin after them, and a pin with the numbers of axioms of the versions that it names, where it is one.
struct Puts {
    peers: u32,
    puts: &'static [Put],
    pin: &'static [u32],
    asked: &'static [u32],
    named: Option<&'static [usize]>,
}

impl Row for Puts {
    ghost answers = { λ row yes. ⊤ };

    fn is_right(&self, alloc: Global) -> Result<bool, NoMemory> {
        let mut registry = registry_of(alloc, self.peers)?;
        let found = is_told(alloc, &mut registry, self);
        drop(registry);
        found
    }
}

fn registry_of(alloc: Global, peers: u32) -> Result<Registry, NoMemory> {
    if peers < 1 || 64 < peers {
        return Err(NoMemory);
    }
    Registry::new(alloc, peers)
}

fn is_told(alloc: Global, registry: &mut Registry, row: &Puts) -> Result<bool, NoMemory> {
    for put in row.puts {
        if !is_answered(alloc, registry, put)? {
            return Ok(false);
        }
    }
    Ok(ends_with(alloc, registry, row.pin)? && names(alloc, registry, row.asked, row.named)?)
}

fn is_answered(alloc: Global, registry: &mut Registry, put: &Put) -> Result<bool, NoMemory> {
    let version = version_with(alloc, put.axioms, put.into)?;
    match kept(alloc, registry, put.peer, version) {
        Ok(number) => Ok(put.answer == Ok(number)),
        Err(PutErr::Peer(e)) => Ok(put.answer == Err(e)),
        Err(PutErr::VersionsFull) => Ok(false),
        Err(PutErr::NoMemory) => Err(NoMemory),
    }
}

fn version_with(
    alloc: Global,
    count: usize,
    into: &[(u32, u32, u32)],
) -> Result<PeerVersion, NoMemory> {
    Ok(PeerVersion {
        axioms: axioms(alloc, count)?,
        into: rules(alloc, into)?,
        onto: Items::new(alloc),
    })
}

fn axioms(alloc: Global, count: usize) -> Result<Items<Axiom>, NoMemory> {
    let mut axioms = Items::new(alloc);
    for _ in 0..count {
        axioms.push(Axiom {
            left: Concept::Name(0),
            right: Concept::Name(1),
        })?;
    }
    Ok(axioms)
}

fn kept(
    alloc: Global,
    registry: &mut Registry,
    peer: u32,
    version: PeerVersion,
) -> Result<u32, PutErr> {
    if registry.peers() <= peer || version.axioms.len() > 9000 || version.into.len() > 9000 {
        return Err(PutErr::NoMemory);
    }
    if version.onto.is_empty() {
        registry.put(alloc, peer, version)
    } else {
        Err(PutErr::NoMemory)
    }
}

fn ends_with(alloc: Global, registry: &Registry, wanted: &[u32]) -> Result<bool, NoMemory> {
    let pin = registry.pin(alloc)?;
    let is_right = pin.versions.as_slice() == wanted;
    drop(pin);
    Ok(is_right)
}

fn names(
    alloc: Global,
    registry: &Registry,
    asked: &[u32],
    wanted: Option<&[usize]>,
) -> Result<bool, NoMemory> {
    let pin = Pin {
        versions: Items::from_slice(alloc, asked)?,
    };
    let found = found(alloc, registry, &pin, wanted);
    drop(pin);
    found
}

fn found(
    alloc: Global,
    registry: &Registry,
    pin: &Pin,
    wanted: Option<&[usize]>,
) -> Result<bool, NoMemory> {
    if !registry.has(pin) {
        return Ok(wanted.is_none());
    }
    let pinned = registry.pinned(alloc, pin)?;
    let is_right = match wanted {
        Some(counts) => have_axioms(&pinned, counts),
        None => false,
    };
    drop(pinned);
    Ok(is_right)
}

fn have_axioms(pinned: &Pinned, counts: &[usize]) -> bool {
    let versions = pinned.peers.as_slice();
    if versions.len() != counts.len() {
        return false;
    }
    for k in 0..versions.len() {
        if versions[k].get().axioms.len() != counts[k] {
            return false;
        }
    }
    true
}

const ONE_AXIOM: Put = Put {
    peer: 0,
    axioms: 1,
    into: &[],
    answer: Ok(1),
};

const IN_WINDOW: &[Put] = &[
    ONE_AXIOM,
    Put {
        peer: 0,
        axioms: 0,
        into: &[],
        answer: Ok(2),
    },
];

const OF_TWO: &[Put] = &[
    Put {
        peer: 1,
        axioms: 3,
        into: &[],
        answer: Ok(1),
    },
    ONE_AXIOM,
    Put {
        peer: 0,
        axioms: 4,
        into: &[(1, 5, 6), (0, 5, 6)],
        answer: Err(PeerErr::SamePeer { rule: 1 }),
    },
    Put {
        peer: 0,
        axioms: 2,
        into: &[(1, 5, 6)],
        answer: Ok(2),
    },
    Put {
        peer: 1,
        axioms: 4,
        into: &[(2, 5, 6)],
        answer: Err(PeerErr::UnknownPeer { rule: 0 }),
    },
];

const ROWS: &[Puts] = &[
    Puts {
        peers: 1,
        puts: &[],
        pin: &[0],
        asked: &[0],
        named: Some(&[0]),
    },
    Puts {
        peers: 1,
        puts: IN_WINDOW,
        pin: &[2],
        asked: &[1],
        named: Some(&[1]),
    },
    Puts {
        peers: 1,
        puts: IN_WINDOW,
        pin: &[2],
        asked: &[2],
        named: Some(&[0]),
    },
    Puts {
        peers: 1,
        puts: IN_WINDOW,
        pin: &[2],
        asked: &[3],
        named: None,
    },
    Puts {
        peers: 1,
        puts: IN_WINDOW,
        pin: &[2],
        asked: &[1, 0],
        named: None,
    },
    Puts {
        peers: 2,
        puts: OF_TWO,
        pin: &[2, 1],
        asked: &[1, 1],
        named: Some(&[1, 3]),
    },
    Puts {
        peers: 2,
        puts: OF_TWO,
        pin: &[2, 1],
        asked: &[2, 0],
        named: Some(&[2, 0]),
    },
    Puts {
        peers: 2,
        puts: OF_TWO,
        pin: &[2, 1],
        asked: &[1, 2],
        named: None,
    },
];

#[test]
fn pins_name_what_was_put(rt: HostRuntime) -> Result<(), Failure> {
    check(rt.alloc(), ROWS)
}

#[test]
fn a_full_registry_takes_no_version(rt: HostRuntime) -> Result<(), Failure> {
    check_one(is_full(rt.alloc()))
}

/// Whether the last of 4,096 puts gets that number, and one more is refused, by its version's cause before the full history.
fn is_full(alloc: Global) -> Result<bool, NoMemory> {
    let mut registry = registry_of(alloc, 1)?;
    let is_right = fills(alloc, &mut registry);
    drop(registry);
    is_right
}

fn fills(alloc: Global, registry: &mut Registry) -> Result<bool, NoMemory> {
    for k in 0..4096 {
        let put = Put {
            peer: 0,
            axioms: 0,
            into: &[],
            answer: Ok(k + 1),
        };
        if !is_answered(alloc, registry, &put)? {
            return Ok(false);
        }
    }
    Ok(is_refused(alloc, registry)? && ends_with(alloc, registry, &[4096])? && MAX_PUTS == 4096)
}

fn is_refused(alloc: Global, registry: &mut Registry) -> Result<bool, NoMemory> {
    let faulty = Put {
        peer: 0,
        axioms: 2001,
        into: &[],
        answer: Err(PeerErr::TooManyAxioms { count: 2001 }),
    };
    if !is_answered(alloc, registry, &faulty)? {
        return Ok(false);
    }
    let version = version_with(alloc, 0, &[])?;
    match kept(alloc, registry, 0, version) {
        Err(PutErr::VersionsFull) => Ok(true),
        _ => Ok(false),
    }
}
