ghost use Rattle.std.specs.Prelude.{⊤};
ghost use Rattle.dd_interp.specs.Satisfies.{IsShaped};

use crate::rows::{Failure, Row, check, check_one};
use crate::versions::{shared_version, version};
use dd_concept::{Axiom, Concept, Items, NoMemory, Shared, same};
use dd_interp::{Interp, is_shaped};
use dd_peer::{PeerVersion, Pinned, Query};
use dd_set::Bits;
use dd_task::{
    Budget, Goal, Job, Key, Prop, SpentRun, copy_goal, copy_key, copy_prop, copy_spent, demands_of,
    extra_of, goal_of, same_job, same_key,
};
use dd_text::{CERT, Symbols, read_concept};
use std::alloc::Global;

const A: u32 = 0;

const B: u32 = 1;

const C: u32 = 2;

const G: u32 = 3;

const H: u32 = 4;

/// The symbols with the names A, B, C, G and H and the role r, numbered in this order.
pub fn numbered(alloc: Global) -> Result<Symbols, NoMemory> {
    let mut symbols = Symbols::new(alloc)?;
    match concept(
        alloc,
        &mut symbols,
        b"(and A (and B (and C (and G (some r H)))))",
    ) {
        Ok(read) => {
            drop(read);
            Ok(symbols)
        }
        Err(e) => {
            drop(symbols);
            Err(e)
        }
    }
}

/// The concept of a text, and bottom where it has none.
pub fn concept(alloc: Global, symbols: &mut Symbols, text: &[u8]) -> Result<Concept, NoMemory> {
    match read_concept(alloc, symbols, CERT, text) {
        Ok(read) => Ok(read),
        Err(_) => Ok(Concept::Bottom),
    }
}

/// The concepts of these texts.
pub fn concepts(
    alloc: Global,
    symbols: &mut Symbols,
    texts: &[&[u8]],
) -> Result<Items<Concept>, NoMemory> {
    let mut concepts = Items::new(alloc);
    for text in texts {
        concepts.push(concept(alloc, symbols, text)?)?;
    }
    Ok(concepts)
}

/// Two peers: the first has A below B and B below C, the second keeps an into rule from B to H and an onto rule from A to G, both
/// from the first.
pub fn two_peers(alloc: Global) -> Result<Pinned, NoMemory> {
    let mut peers = Items::new(alloc);
    push_first(alloc, &mut peers)?;
    peers.push(shared_version(alloc, &[(0, B, H)], &[(0, A, G)])?)?;
    Ok(Pinned { peers })
}

fn push_first(alloc: Global, peers: &mut Items<Shared<PeerVersion>>) -> Result<(), NoMemory> {
    let mut first = version(alloc, &[], &[])?;
    push_axiom(&mut first.axioms, A, B)?;
    push_axiom(&mut first.axioms, B, C)?;
    peers.push(Shared::new(alloc, first)?)
}

fn push_axiom(axioms: &mut Items<Axiom>, left: u32, right: u32) -> Result<(), NoMemory> {
    axioms.push(Axiom {
        left: Concept::Name(left),
        right: Concept::Name(right),
    })
}

/// The job that asks whether G is below H at the second peer.
fn job(alloc: Global, verdicts: u32) -> Result<Job, NoMemory> {
    let relevant = Items::from_slice(alloc, &[0, 1])?;
    Ok(Job {
        pinned: two_peers(alloc)?,
        query: Query {
            peer: 1,
            left: Concept::Name(G),
            right: Concept::Name(H),
        },
        relevant,
        budget: Budget {
            expansions: 1,
            verdicts,
        },
    })
}

/// A key of the job, or the root's where the set is none, and its goal.
struct Sought {
    into_set: Option<&'static [u32]>,
    peer: u32,
    label: &'static [&'static [u8]],
}

impl Row for Sought {
    ghost answers = { λ row yes. ⊤ };

    fn is_right(&self, alloc: Global) -> Result<bool, NoMemory> {
        let key = key(alloc, self.into_set)?;
        let is_right = is_goal_of(alloc, self, &key);
        drop(key);
        is_right
    }
}

fn key(alloc: Global, into_set: Option<&[u32]>) -> Result<Key, NoMemory> {
    match into_set {
        Some(into_set) => Ok(Key::Asked {
            from: 0,
            to: 1,
            onto: 0,
            into_set: Items::from_slice(alloc, into_set)?,
        }),
        None => Ok(Key::Root),
    }
}

fn is_goal_of(alloc: Global, row: &Sought, key: &Key) -> Result<bool, NoMemory> {
    let again = copy_key(alloc, key)?;
    let is_right = same_key(&again, key);
    let found = found_goal(alloc, &again);
    drop(again);
    let found = found?;
    let is_goal = is_goal(alloc, row, &found);
    drop(found);
    Ok(is_goal? && is_right)
}

fn found_goal(alloc: Global, key: &Key) -> Result<Goal, NoMemory> {
    let job = job(alloc, 1)?;
    let found = goal_of(alloc, &job, key);
    drop(job);
    let found = found?;
    let again = copy_goal(alloc, &found);
    drop(found);
    again
}

fn is_goal(alloc: Global, row: &Sought, goal: &Goal) -> Result<bool, NoMemory> {
    Ok(goal.peer == row.peer && are_texts(alloc, goal.label.as_slice(), row.label)?)
}

/// Whether these are the concepts of the texts.
fn are_texts(alloc: Global, found: &[Concept], texts: &[&[u8]]) -> Result<bool, NoMemory> {
    let mut symbols = numbered(alloc)?;
    let wanted = concepts(alloc, &mut symbols, texts);
    drop(symbols);
    let wanted = wanted?;
    let are_same = are_same(found, wanted.as_slice());
    drop(wanted);
    Ok(are_same)
}

fn are_same(found: &[Concept], wanted: &[Concept]) -> bool {
    found.len() == wanted.len() && found.iter().zip(wanted.iter()).all(|(c, d)| same(c, d))
}

const GOALS: &[Sought] = &[
    Sought {
        into_set: None,
        peer: 1,
        label: &[b"G", b"(not H)"],
    },
    Sought {
        into_set: Some(&[0]),
        peer: 0,
        label: &[b"A", b"(not B)"],
    },
    Sought {
        into_set: Some(&[]),
        peer: 0,
        label: &[b"A"],
    },
];

#[test]
fn keys_stand_for_goals(rt: HostRuntime) -> Result<(), Failure> {
    check(rt.alloc(), GOALS)
}

/// The names of a model of the second peer with three elements, and the into sets of the keys that it raises.
struct Raised {
    names: &'static [(u32, u32)],
    sets: &'static [&'static [u32]],
}

impl Row for Raised {
    ghost answers = { λ row yes. ⊤ };

    fn is_right(&self, alloc: Global) -> Result<bool, NoMemory> {
        let model = Interp {
            size: 3,
            names: Items::from_slice(alloc, self.names)?,
            roles: Items::new(alloc),
        };
        let are_right = is_shaped(&model) && raises(alloc, &model, self.sets)?;
        drop(model);
        Ok(are_right)
    }
}

fn raises(alloc: Global, model: &Interp, sets: &[&[u32]]) -> Result<bool, NoMemory>
    requires { IsShaped model.now }
{
    let pinned = two_peers(alloc)?;
    let keys = demands_of(alloc, &pinned, 1, model);
    drop(pinned);
    let keys = keys?;
    let are_right = are_keys(alloc, keys.as_slice(), sets);
    drop(keys);
    are_right
}

fn are_keys(alloc: Global, keys: &[Key], sets: &[&[u32]]) -> Result<bool, NoMemory> {
    if keys.len() != sets.len() {
        return Ok(false);
    }
    for k in 0..keys.len() {
        if !is_key(alloc, &keys[k], sets[k])? {
            return Ok(false);
        }
    }
    Ok(true)
}

fn is_key(alloc: Global, found: &Key, set: &[u32]) -> Result<bool, NoMemory> {
    let wanted = key(alloc, Some(set))?;
    let is_same = same_key(found, &wanted);
    drop(wanted);
    Ok(is_same)
}

const RAISED: &[Raised] = &[
    Raised {
        names: &[(G, 0), (G, 1), (H, 1), (G, 2)],
        sets: &[&[0], &[]],
    },
    Raised {
        names: &[(H, 0), (A, 1)],
        sets: &[],
    },
];

#[test]
fn models_raise_keys(rt: HostRuntime) -> Result<(), Failure> {
    check(rt.alloc(), RAISED)
}

/// The further concepts of the closure of each peer.
const EXTRA: &[&[&[u8]]] = &[
    &[b"(not B)", b"A"],
    &[b"H", b"(not H)", b"G", b"(not G)", b"G", b"(not H)"],
];

fn are_extra(alloc: Global) -> Result<bool, NoMemory> {
    let job = job(alloc, 1)?;
    let are_right = match is_extra(alloc, &job, 0, EXTRA[0]) {
        Ok(true) => is_extra(alloc, &job, 1, EXTRA[1]),
        other => other,
    };
    drop(job);
    are_right
}

fn is_extra(alloc: Global, job: &Job, peer: u32, texts: &[&[u8]]) -> Result<bool, NoMemory> {
    let found = extra_of(alloc, job, peer)?;
    let is_right = are_texts(alloc, found.as_slice(), texts);
    drop(found);
    is_right
}

#[test]
fn a_closure_has_what_rules_and_queries_ask(rt: HostRuntime) -> Result<(), Failure> {
    check_one(are_extra(rt.alloc()))
}

fn are_compared(alloc: Global) -> Result<bool, NoMemory> {
    let first = job(alloc, 1)?;
    let are_right = is_compared(alloc, &first);
    drop(first);
    are_right
}

fn is_compared(alloc: Global, first: &Job) -> Result<bool, NoMemory> {
    let again = job(alloc, 1)?;
    let is_same = same_job(first, &again);
    drop(again);
    let other = job(alloc, 2)?;
    let is_other = !same_job(first, &other);
    drop(other);
    Ok(is_same && is_other)
}

#[test]
fn jobs_are_compared_by_what_they_say(rt: HostRuntime) -> Result<(), Failure> {
    check_one(are_compared(rt.alloc()))
}

fn label(alloc: Global, n: u32) -> Result<Bits, NoMemory> {
    let mut label = Bits::new(alloc, 2)?;
    if n < label.width() {
        label.insert(n);
    }
    Ok(label)
}

fn prop(alloc: Global) -> Result<Prop, NoMemory> {
    Ok(Prop {
        from: 0,
        onto: 0,
        into_set: Items::from_slice(alloc, &[0])?,
        line: 7,
    })
}

/// A run of one label that was spent.
fn run(alloc: Global) -> Result<SpentRun, NoMemory> {
    let mut labels = Items::new(alloc);
    labels.push(label(alloc, 1)?)?;
    let mut props = Items::new(alloc);
    props.push(prop(alloc)?)?;
    let next = label(alloc, 0)?;
    Ok(SpentRun {
        peer: 1,
        goals: Items::new(alloc),
        props,
        concepts: Items::new(alloc),
        labels,
        next,
    })
}

fn is_copied(alloc: Global) -> Result<bool, NoMemory> {
    let first = run(alloc)?;
    let again = copy_spent(alloc, &first);
    drop(first);
    let again = again?;
    let is_right = is_run(alloc, &again);
    drop(again);
    is_right
}

fn is_run(alloc: Global, run: &SpentRun) -> Result<bool, NoMemory> {
    match (run.props.as_slice(), run.labels.as_slice()) {
        ([prop], [label]) => {
            let is_right = run.peer == 1 && label.contains(1) && run.next.contains(0);
            Ok(is_right && is_prop(alloc, prop)?)
        }
        _ => Ok(false),
    }
}

fn is_prop(alloc: Global, prop: &Prop) -> Result<bool, NoMemory> {
    let again = copy_prop(alloc, prop)?;
    let is_right = again.line == 7 && again.into_set.as_slice() == [0].as_slice();
    drop(again);
    Ok(is_right)
}

#[test]
fn spent_runs_are_copied(rt: HostRuntime) -> Result<(), Failure> {
    check_one(is_copied(rt.alloc()))
}
