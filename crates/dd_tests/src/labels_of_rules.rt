ghost use Rattle.std.specs.Prelude.{◌≡◌, ◌≤◌, [], All, IfOk, length, ⊤};
ghost use Rattle.dd_concept.specs.Normal.{IsNormal};
ghost use Rattle.dd_rules.specs.Compiled.{AreProps};

use crate::rows::{Failure, Row, check};
use dd_concept::{Axiom, Concept, Items, NoMemory, nnf, nnf_not};
use dd_rules::{Clash, Compiled, Props, Step};
use dd_set::{Bits, numbers_of};
use dd_text::{REQUEST, Symbols, read_axiom};
use std::alloc::Global;

/// A peer's axioms, and an ask whose left side and whose right side's complement are in the closure too.
pub struct Peer {
    pub axioms: &'static [&'static [u8]],
    pub ask: &'static [u8],
}

/// What is asked of a label.
enum Asked {
    /// Its numbers, once it is saturated.
    Saturated,
    /// The same, once this number came into the label, which was saturated.
    Added(u32),
    /// The numbers of its Successor label.
    Passed(u32),
    Clash,
    Forced,
    Choice,
    /// One of the numbers that a step adds, by its place.
    Addition(Step, u32),
}

/// A label of a peer by numbers, and what is answered.
struct OnLabel {
    peer: &'static Peer,
    label: &'static [u32],
    asked: Asked,
    answer: &'static [u32],
}

impl Row for OnLabel {
    ghost answers = { λ row yes. ⊤ };

    fn is_right(&self, alloc: Global) -> Result<bool, NoMemory> {
        let compiled = compiled(alloc, self.peer)?;
        let found = found(alloc, &compiled, self);
        drop(compiled);
        let found = found?;
        let is_right = found.as_slice() == self.answer;
        drop(found);
        Ok(is_right)
    }
}

/// The same with its own symbols.
pub fn compiled(alloc: Global, peer: &Peer) -> Result<Compiled, NoMemory> {
    let mut symbols = Symbols::new(alloc)?;
    let found = compiled_with(alloc, &mut symbols, peer);
    drop(symbols);
    found
}

/// The peer, compiled. Names get their numbers in the order in which they occur.
pub fn compiled_with(
    alloc: Global,
    symbols: &mut Symbols,
    peer: &Peer,
) -> Result<Compiled, NoMemory> {
    let mut axioms = Vec::new(alloc);
    if let Err(e) = read_all(alloc, symbols, &mut axioms, peer.axioms) {
        drop(axioms);
        return Err(e);
    }
    let found = compiled_from(alloc, symbols, &axioms, peer.ask);
    drop(axioms);
    found
}

fn read_all(
    alloc: Global,
    symbols: &mut Symbols,
    axioms: &mut Vec<Axiom>,
    texts: &[&'static [u8]],
) -> Result<(), NoMemory> {
    for text in texts {
        axioms.push(read(alloc, symbols, text)?)?;
    }
    Ok(())
}

fn read(alloc: Global, symbols: &mut Symbols, text: &[u8]) -> Result<Axiom, NoMemory> {
    match read_axiom(alloc, symbols, REQUEST, text) {
        Ok(found) => Ok(found),
        Err(_) => Err(NoMemory),
    }
}

fn compiled_from(
    alloc: Global,
    symbols: &mut Symbols,
    axioms: &[Axiom],
    ask: &[u8],
) -> Result<Compiled, NoMemory> {
    let ask = read(alloc, symbols, ask)?;
    let goal = goal(alloc, &ask);
    drop(ask);
    let goal = goal?;
    let found = Compiled::new(alloc, axioms, &goal);
    drop(goal);
    match found {
        Ok(compiled) => Ok(compiled),
        Err(_) => Err(NoMemory),
    }
}

fn goal(alloc: Global, ask: &Axiom) -> Result<Vec<Concept>, NoMemory>
    ensures { IfOk result (λ v. All IsNormal v.items) }
{
    let mut goal = Vec::new(alloc);
    goal.push(nnf(alloc, &ask.left)?)?;
    goal.push(nnf_not(alloc, &ask.right)?)?;
    Ok(goal)
}

/// Puts the numbers that are below the label's width into it.
pub fn put(label: &mut Bits, numbers: &[u32])
    ensures { label.new.width ≡ label.old.width }
{
    for n in numbers {
        if *n < label.width() {
            label.insert(*n);
        }
    }
}

fn found(alloc: Global, compiled: &Compiled, row: &OnLabel) -> Result<Vec<u32>, NoMemory> {
    let mut label = Bits::new(alloc, compiled.count())?;
    put(&mut label, row.label);
    let found = with_props(alloc, compiled, &mut label, &row.asked);
    drop(label);
    found
}

/// No propagation.
pub fn no_props(alloc: Global) -> Props
    ensures { result.list ≡ [] }
{
    Props {
        list: Items::new(alloc),
    }
}

/// What is answered where no propagation is there.
fn with_props(
    alloc: Global,
    compiled: &Compiled,
    label: &mut Bits,
    asked: &Asked,
) -> Result<Vec<u32>, NoMemory>
    requires { label.old.width ≡ length compiled.now.concepts }
{
    let props = no_props(alloc);
    let found = told(alloc, compiled, label, &props, asked);
    drop(props);
    found
}

fn told(
    alloc: Global,
    compiled: &Compiled,
    label: &mut Bits,
    props: &Props,
    asked: &Asked,
) -> Result<Vec<u32>, NoMemory>
    requires width { label.old.width ≡ length compiled.now.concepts }
    requires props { AreProps compiled.now props.now }
    requires few { length props.now.list ≤ 4294967295 }
{
    match asked {
        Asked::Saturated => {
            compiled.saturate(label, props);
            return numbers_of(alloc, label);
        }
        Asked::Added(n) => {
            add(compiled, label, props, *n);
            return numbers_of(alloc, label);
        }
        Asked::Passed(at) => return passed(alloc, compiled, label, *at),
        Asked::Clash => return clash_told(alloc, compiled.clash(label)),
        Asked::Forced => return step_told(alloc, compiled.forced(label, props)),
        Asked::Choice => return step_told(alloc, compiled.first_choice(label, props)),
        Asked::Addition(step, k) => {
            return number_told(alloc, compiled.addition(props, *step, *k));
        }
    }
}

fn add(compiled: &Compiled, label: &mut Bits, props: &Props, n: u32)
    requires { label.old.width ≡ length compiled.now.concepts }
{
    if compiled.forced(label, props).is_none() && n < label.width() {
        compiled.saturate_added(label, n);
    }
}

fn passed(alloc: Global, compiled: &Compiled, label: &Bits, at: u32) -> Result<Vec<u32>, NoMemory>
    requires { label.now.width ≡ length compiled.now.concepts }
{
    if at >= label.width() {
        return Ok(Vec::new(alloc));
    }
    let next = compiled.successor(alloc, label, at)?;
    let found = numbers_of(alloc, &next);
    drop(next);
    found
}

fn number_told(alloc: Global, number: Option<u32>) -> Result<Vec<u32>, NoMemory> {
    match number {
        Some(n) => Vec::from_slice(alloc, &[n]),
        None => Ok(Vec::new(alloc)),
    }
}

/// A clash in two numbers: 0 and 0 for bottom, 1 and the name's own number for a name.
fn clash_told(alloc: Global, clash: Option<Clash>) -> Result<Vec<u32>, NoMemory> {
    match clash {
        Some(Clash::Bottom) => Vec::from_slice(alloc, &[0, 0]),
        Some(Clash::Name(name)) => Vec::from_slice(alloc, &[1, name]),
        None => Ok(Vec::new(alloc)),
    }
}

/// A step in two numbers: that of its kind, in the order of `Step`, and its own.
fn step_told(alloc: Global, step: Option<Step>) -> Result<Vec<u32>, NoMemory> {
    match step {
        Some(step) => Vec::from_slice(alloc, &numbers_of_step(step)),
        None => Ok(Vec::new(alloc)),
    }
}

fn numbers_of_step(step: Step) -> [u32; 2] {
    match step {
        Step::And { at } => [0, at],
        Step::Or { at } => [1, at],
        Step::Axiom { index } => [2, index],
        Step::Cut { on } => [3, on],
        Step::Bridge { prop } => [4, prop],
    }
}

/// Its concepts are (not A), B, (not B), C, A, (not C).
pub const CHAIN: Peer = Peer {
    axioms: &[b"(implies A B)", b"(implies B C)"],
    ask: b"(implies A C)",
};

/// Its concepts are (not A), (or B D), B, D, (and (some r A) (all r B)), (some r A), A, (all r B), top.
pub const CASES: Peer = Peer {
    axioms: &[b"(implies A (or B D))"],
    ask: b"(implies (and (some r A) (all r B)) bottom)",
};

/// Its concepts are bottom, A, (not A), B.
const ALWAYS: Peer = Peer {
    axioms: &[b"(implies top A)", b"(implies A B)"],
    ask: b"(implies bottom top)",
};

const ON_LABELS: &[OnLabel] = &[
    OnLabel {
        peer: &CHAIN,
        label: &[4, 5],
        asked: Asked::Saturated,
        answer: &[1, 3, 4, 5],
    },
    OnLabel {
        peer: &CHAIN,
        label: &[5],
        asked: Asked::Added(4),
        answer: &[1, 3, 4, 5],
    },
    OnLabel {
        peer: &CHAIN,
        label: &[4, 5],
        asked: Asked::Clash,
        answer: &[],
    },
    OnLabel {
        peer: &CHAIN,
        label: &[1, 3, 4, 5],
        asked: Asked::Clash,
        answer: &[1, 2],
    },
    OnLabel {
        peer: &CHAIN,
        label: &[4, 5],
        asked: Asked::Forced,
        answer: &[2, 0],
    },
    OnLabel {
        peer: &CHAIN,
        label: &[1, 3, 4, 5],
        asked: Asked::Forced,
        answer: &[],
    },
    OnLabel {
        peer: &CHAIN,
        label: &[1, 3, 4, 5],
        asked: Asked::Choice,
        answer: &[],
    },
    OnLabel {
        peer: &CHAIN,
        label: &[],
        asked: Asked::Addition(Step::Axiom { index: 1 }, 0),
        answer: &[2],
    },
    OnLabel {
        peer: &CHAIN,
        label: &[],
        asked: Asked::Addition(Step::Axiom { index: 1 }, 1),
        answer: &[3],
    },
    OnLabel {
        peer: &CASES,
        label: &[4],
        asked: Asked::Forced,
        answer: &[0, 4],
    },
    OnLabel {
        peer: &CASES,
        label: &[4],
        asked: Asked::Saturated,
        answer: &[4, 5, 7],
    },
    OnLabel {
        peer: &CASES,
        label: &[4, 5, 7],
        asked: Asked::Passed(5),
        answer: &[2, 6],
    },
    OnLabel {
        peer: &CASES,
        label: &[1, 6],
        asked: Asked::Choice,
        answer: &[1, 1],
    },
    OnLabel {
        peer: &CASES,
        label: &[],
        asked: Asked::Addition(Step::Or { at: 1 }, 1),
        answer: &[3],
    },
    OnLabel {
        peer: &CASES,
        label: &[1, 2, 6],
        asked: Asked::Choice,
        answer: &[],
    },
    OnLabel {
        peer: &ALWAYS,
        label: &[],
        asked: Asked::Saturated,
        answer: &[1, 3],
    },
    OnLabel {
        peer: &ALWAYS,
        label: &[0, 1, 3],
        asked: Asked::Clash,
        answer: &[0, 0],
    },
];

#[test]
fn labels_follow_the_rules_of_their_peer(rt: HostRuntime) -> Result<(), Failure> {
    check(rt.alloc(), ON_LABELS)
}
