ghost use Rattle.std.specs.Prelude.{◌+◌, ◌^◌, ◌<◌, All, IsTrue, length, ⊤};

use crate::rows::{Failure, Row, check};
use crate::versions::shared_version;
use dd_concept::{Axiom, Concept, Items, NoMemory, universal};
use dd_interp::Interp;
use dd_peer::{PeerVersion, Pinned, Query, Shared};
use dd_world::{World, WorldFault, check_world, judge_world};
use std::alloc::Global;

const A: u32 = 0;

const B: u32 = 1;

const G: u32 = 3;

const H: u32 = 4;

/// The links of a world of peers with one element each, the names of each peer, and whether that world shows that A is not
/// below B at the first of two peers.
struct Judged {
    links: &'static [(u32, u32, u32, u32)],
    names: &'static [&'static [(u32, u32)]],
    answer: Result<(), WorldFault>,
}

impl Row for Judged {
    ghost answers = { λ row yes. ⊤ };

    fn is_right(&self, alloc: Global) -> Result<bool, NoMemory> {
        let world = world_of(alloc, self.links, self.names)?;
        let is_right = is_judged(alloc, &world, self.answer);
        drop(world);
        is_right
    }
}

fn is_judged(
    alloc: Global,
    world: &World,
    wanted: Result<(), WorldFault>,
) -> Result<bool, NoMemory> {
    let pinned = two_peers(alloc)?;
    let is_judged = judges(alloc, &pinned, world, wanted);
    drop(pinned);
    is_judged
}

fn judges(
    alloc: Global,
    pinned: &Pinned,
    world: &World,
    wanted: Result<(), WorldFault>,
) -> Result<bool, NoMemory> {
    match pinned.peers.as_slice() {
        [first, second] => {
            if !is_short(first.get()) || !is_short(second.get()) {
                return Ok(false);
            }
            let query = query();
            let is_judged = both_judge(alloc, pinned, &query, world, wanted);
            drop(query);
            is_judged
        }
        _ => Ok(false),
    }
}

/// Whether the plain judge and the quick one answer so.
fn both_judge(
    alloc: Global,
    pinned: &Pinned,
    query: &Query,
    world: &World,
    wanted: Result<(), WorldFault>,
) -> Result<bool, NoMemory>
    requires peers { length pinned.now.peers < 2 ^ 32 }
    requires axioms { All (λ v. length v.axioms < 2 ^ 32) pinned.now.peers }
    requires rules { All (λ v. length v.into + length v.onto < 2 ^ 32) pinned.now.peers }
{
    if check_world(pinned, query, world) != wanted {
        return Ok(false);
    }
    Ok(judge_world(alloc, pinned, query, world)? == wanted)
}

fn is_short(version: &PeerVersion) -> bool
    ensures axioms { IsTrue result → length version.now.axioms < 2 ^ 32 }
    ensures rules { IsTrue result → length version.now.into + length version.now.onto < 2 ^ 32 }
{
    version.axioms.as_slice().len() < 100
        && version.into.as_slice().len() < 100
        && version.onto.as_slice().len() < 100
}

fn query() -> Query {
    Query {
        peer: 0,
        left: Concept::Name(A),
        right: Concept::Name(B),
    }
}

/// The into rule and the onto rule of each of two peers: the other peer, the source and the target.
const RULES: &[((u32, u32, u32), (u32, u32, u32))] = &[
    ((1, H, B), (1, G, A)),
    ((0, B, H), (0, A, G)),
];

fn add_peer(
    alloc: Global,
    peers: &mut Items<Shared<PeerVersion>>,
    into: (u32, u32, u32),
    onto: (u32, u32, u32),
) -> Result<(), NoMemory> {
    peers.push(shared_version(alloc, &[into], &[onto])?)
}

fn two_peers(alloc: Global) -> Result<Pinned, NoMemory> {
    let mut peers = Items::new(alloc);
    for (into, onto) in RULES {
        add_peer(alloc, &mut peers, *into, *onto)?;
    }
    Ok(Pinned { peers })
}

/// Adds one element, in these names.
fn add_local(
    alloc: Global,
    locals: &mut Items<Interp>,
    names: &[(u32, u32)],
) -> Result<(), NoMemory> {
    let names = Items::from_slice(alloc, names)?;
    locals.push(Interp {
        size: 1,
        names,
        roles: Items::new(alloc),
    })
}

fn world_of(
    alloc: Global,
    links: &[(u32, u32, u32, u32)],
    names: &[&[(u32, u32)]],
) -> Result<World, NoMemory> {
    let links = Items::from_slice(alloc, links)?;
    let locals = locals(alloc, names)?;
    Ok(World { locals, links })
}

fn locals(alloc: Global, names: &[&[(u32, u32)]]) -> Result<Items<Interp>, NoMemory> {
    let mut locals = Items::new(alloc);
    for each in names {
        add_local(alloc, &mut locals, each)?;
    }
    Ok(locals)
}

const WORLDS: &[Judged] = &[
    Judged {
        links: &[(0, 1, 0, 0), (1, 0, 0, 0)],
        names: &[&[(A, 0)], &[(G, 0)]],
        answer: Ok(()),
    },
    Judged {
        links: &[(0, 1, 0, 0)],
        names: &[&[(A, 0)], &[(G, 0)]],
        answer: Err(WorldFault::Onto { peer: 0, index: 0 }),
    },
    Judged {
        links: &[(0, 1, 0, 0)],
        names: &[&[(A, 0), (B, 0)], &[(G, 0)]],
        answer: Err(WorldFault::Into { peer: 1, index: 0 }),
    },
    Judged {
        links: &[(0, 0, 0, 0)],
        names: &[&[(A, 0)], &[(G, 0)]],
        answer: Err(WorldFault::Shape),
    },
    Judged {
        links: &[(0, 1, 0, 0), (1, 0, 0, 0)],
        names: &[&[(A, 0), (B, 0)], &[(G, 0), (H, 0)]],
        answer: Err(WorldFault::NotCounter),
    },
];

#[test]
fn links_carry_rules_between_two_peers(rt: HostRuntime) -> Result<(), Failure> {
    check(rt.alloc(), WORLDS)
}

const R: u32 = 0;

/// The elements of the one peer of a world, in these names and roles, and whether that world shows that not every element
/// is in A, where each element of A leads to those of B alone.
struct Alone {
    size: u32,
    names: &'static [(u32, u32)],
    roles: &'static [(u32, u32, u32)],
    answer: Result<(), WorldFault>,
}

impl Row for Alone {
    ghost answers = { λ row yes. ⊤ };

    fn is_right(&self, alloc: Global) -> Result<bool, NoMemory> {
        let world = lonely(alloc, self.size, self.names, self.roles)?;
        let is_right = is_judged_alone(alloc, &world, self.answer);
        drop(world);
        is_right
    }
}

fn lonely(
    alloc: Global,
    size: u32,
    names: &[(u32, u32)],
    roles: &[(u32, u32, u32)],
) -> Result<World, NoMemory> {
    let mut locals = Items::new(alloc);
    add_local_of(alloc, &mut locals, size, names, roles)?;
    Ok(World {
        locals,
        links: Items::new(alloc),
    })
}

fn add_local_of(
    alloc: Global,
    locals: &mut Items<Interp>,
    size: u32,
    names: &[(u32, u32)],
    roles: &[(u32, u32, u32)],
) -> Result<(), NoMemory> {
    let names = Items::from_slice(alloc, names)?;
    let roles = Items::from_slice(alloc, roles)?;
    locals.push(Interp { size, names, roles })
}

fn is_judged_alone(
    alloc: Global,
    world: &World,
    wanted: Result<(), WorldFault>,
) -> Result<bool, NoMemory> {
    let pinned = one_peer(alloc)?;
    let is_judged = judges_alone(alloc, &pinned, world, wanted);
    drop(pinned);
    is_judged
}

fn judges_alone(
    alloc: Global,
    pinned: &Pinned,
    world: &World,
    wanted: Result<(), WorldFault>,
) -> Result<bool, NoMemory> {
    match pinned.peers.as_slice() {
        [first] => {
            if !is_short(first.get()) {
                return Ok(false);
            }
            let query = Query {
                peer: 0,
                left: Concept::Top,
                right: Concept::Name(A),
            };
            let is_judged = both_judge(alloc, pinned, &query, world, wanted);
            drop(query);
            is_judged
        }
        _ => Ok(false),
    }
}

fn one_peer(alloc: Global) -> Result<Pinned, NoMemory> {
    let mut peers = Items::new(alloc);
    peers.push(Shared::new(alloc, version_alone(alloc)?)?)?;
    Ok(Pinned { peers })
}

fn version_alone(alloc: Global) -> Result<PeerVersion, NoMemory> {
    let mut axioms = Items::new(alloc);
    axioms.push(axiom_alone(alloc)?)?;
    Ok(PeerVersion {
        axioms,
        into: Items::new(alloc),
        onto: Items::new(alloc),
    })
}

fn axiom_alone(alloc: Global) -> Result<Axiom, NoMemory> {
    Ok(Axiom {
        left: Concept::Name(A),
        right: universal(alloc, R, Concept::Name(B))?,
    })
}

const ALONE: &[Alone] = &[
    Alone {
        size: 2,
        names: &[(A, 0), (B, 1)],
        roles: &[(R, 0, 1)],
        answer: Ok(()),
    },
    Alone {
        size: 3,
        names: &[(A, 0), (A, 1), (B, 1)],
        roles: &[(R, 0, 1), (R, 0, 2)],
        answer: Err(WorldFault::Axiom { peer: 0, index: 0 }),
    },
    Alone {
        size: 2,
        names: &[(A, 1), (A, 0)],
        roles: &[],
        answer: Err(WorldFault::NotCounter),
    },
    Alone {
        size: 4294967295,
        names: &[(A, 0)],
        roles: &[],
        answer: Ok(()),
    },
    Alone {
        size: 0,
        names: &[],
        roles: &[],
        answer: Err(WorldFault::NotCounter),
    },
    Alone {
        size: 1,
        names: &[(A, 0)],
        roles: &[(R, 0, 1)],
        answer: Err(WorldFault::Shape),
    },
];

#[test]
fn elements_are_judged_where_no_list_mentions_them(rt: HostRuntime) -> Result<(), Failure> {
    check(rt.alloc(), ALONE)
}
