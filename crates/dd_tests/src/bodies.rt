ghost use Rattle.std.specs.Prelude.{⊤, ◌≡◌, ◌<◌, ◌≤◌, length};
ghost use Rattle.dd_rules.specs.Compiled.{AreProps};

use crate::graphs::{CYCLE, PASSED, SPENT, SPLIT, TOP, decide, graph_of};
use crate::labels_of_rules::{CASES, CHAIN, Peer, compiled, no_props, put};
use crate::rows::{Failure, Row, check};
use bumpalo::Bump;
use dd_concept::NoMemory;
use dd_graph::Decided;
use dd_rules::{Compiled, Props, Shape, Step};
use dd_set::Bits;
use std::alloc::Global;

/// A label of a peer. What is forced is put into it in two ways, and it is decided in two ways.
struct Both {
    peer: &'static Peer,
    label: &'static [u32],
}

impl Row for Both {
    ghost answers = { λ row yes. ⊤ };

    fn is_right(&self, alloc: Global) -> Result<bool, NoMemory> {
        let compiled = compiled(alloc, self.peer)?;
        let found = are_same(alloc, &compiled, self);
        drop(compiled);
        found
    }
}

fn are_same(alloc: Global, compiled: &Compiled, row: &Both) -> Result<bool, NoMemory> {
    let mut label = Bits::new(alloc, compiled.count())?;
    put(&mut label, row.label);
    let are_forced = forces_same(alloc, compiled, &label);
    let is_met = is_met(alloc, compiled, &label);
    drop(label);
    Ok(are_forced? && is_met? == is_open(alloc, row)?)
}

/// Whether the queue and the plain loop put the same into the label.
fn forces_same(alloc: Global, compiled: &Compiled, label: &Bits) -> Result<bool, NoMemory>
    requires { label.now.width ≡ length compiled.now.concepts }
{
    let props = no_props(alloc);
    let found = forces_same_with(alloc, compiled, &props, label);
    drop(props);
    found
}

fn forces_same_with(
    alloc: Global,
    compiled: &Compiled,
    props: &Props,
    label: &Bits,
) -> Result<bool, NoMemory>
    requires width { label.now.width ≡ length compiled.now.concepts }
    requires props { AreProps compiled.now props.now }
{
    let mut one = label.copy(alloc)?;
    let mut other = label.copy(alloc)?;
    compiled.saturate(&mut one, props);
    force(compiled, props, &mut other);
    let is_same = one.same(&other);
    drop(one);
    drop(other);
    Ok(is_same)
}

/// Puts what is forced into the label, one step after another. Each adds a number.
fn force(compiled: &Compiled, props: &Props, label: &mut Bits)
    requires width { label.old.width ≡ length compiled.now.concepts }
    requires props { AreProps compiled.now props.now }
    ensures { label.new.width ≡ label.old.width }
{
    for _ in 0..label.width() {
        match compiled.forced(label, props) {
            Some(step) => force_one(compiled, props, label, step),
            None => return,
        }
    }
}

fn force_one(compiled: &Compiled, props: &Props, label: &mut Bits, step: Step)
    requires { AreProps compiled.now props.now }
    ensures { label.new.width ≡ label.old.width }
{
    match step {
        Step::And { at } => take_parts(compiled, label, at),
        _ => take(label, compiled.addition(props, step, 1)),
    }
}

fn take_parts(compiled: &Compiled, label: &mut Bits, at: u32)
    ensures { label.new.width ≡ label.old.width }
{
    if at >= compiled.count() {
        return;
    }
    match compiled.shape(at) {
        Shape::And(left, right) => {
            take(label, Some(left));
            take(label, Some(right));
        }
        _ => {}
    }
}

fn take(label: &mut Bits, number: Option<u32>)
    ensures { label.new.width ≡ label.old.width }
{
    if let Some(n) = number {
        if n < label.width() {
            label.insert(n);
        }
    }
}

/// Whether the graph finds that an element can have the label.
fn is_open(alloc: Global, row: &Both) -> Result<bool, NoMemory> {
    let arena = Bump::new(alloc);
    let mut graph = graph_of(alloc, &arena, row.peer)?;
    let mut label = Bits::new(alloc, graph.compiled().count())?;
    put(&mut label, row.label);
    let found = decide(alloc, &mut graph, &label, 1000);
    drop(label);
    drop(graph);
    match found? {
        Decided::Closed { .. } => Ok(false),
        Decided::Open { .. } => Ok(true),
        Decided::Spent { next } => {
            drop(next);
            Err(NoMemory)
        }
    }
}

/// Whether a plain search finds that an element can have the label.
fn is_met(alloc: Global, compiled: &Compiled, label: &Bits) -> Result<bool, NoMemory>
    requires { label.now.width ≡ length compiled.now.concepts }
{
    let props = no_props(alloc);
    let mut path = Vec::new(alloc);
    let found = meets(1000, alloc, compiled, &props, &mut path, label);
    drop(path);
    drop(props);
    found
}

/// The plain search. What is decided is the first choice, and a label that stands on the path from the first one is met there.
#[cycle(meets)]
fn meets(
    fuel: u32,
    alloc: Global,
    compiled: &Compiled,
    props: &Props,
    path: &mut Vec<Bits>,
    label: &Bits,
) -> Result<bool, NoMemory>
    requires width { label.now.width ≡ length compiled.now.concepts }
    requires props { AreProps compiled.now props.now }
    requires few { length props.now.list ≤ 4294967295 }
{
    if fuel == 0 {
        return Err(NoMemory);
    }
    let mut full = label.copy(alloc)?;
    compiled.saturate(&mut full, props);
    let found = meets_full(fuel - 1, alloc, compiled, props, path, &full);
    drop(full);
    found
}

#[cycle(meets)]
fn meets_full(
    fuel: u32,
    alloc: Global,
    compiled: &Compiled,
    props: &Props,
    path: &mut Vec<Bits>,
    full: &Bits,
) -> Result<bool, NoMemory>
    requires width { full.now.width ≡ length compiled.now.concepts }
    requires props { AreProps compiled.now props.now }
    requires few { length props.now.list ≤ 4294967295 }
{
    if fuel == 0 {
        return Err(NoMemory);
    }
    if compiled.clash(full).is_some() {
        return Ok(false);
    }
    match compiled.first_choice(full, props) {
        Some(step) => meets_some(fuel - 1, alloc, compiled, props, path, full, step),
        None => meets_all(fuel - 1, alloc, compiled, props, path, full),
    }
}

#[cycle(meets)]
fn meets_some(
    fuel: u32,
    alloc: Global,
    compiled: &Compiled,
    props: &Props,
    path: &mut Vec<Bits>,
    full: &Bits,
    step: Step,
) -> Result<bool, NoMemory>
    requires width { full.now.width ≡ length compiled.now.concepts }
    requires props { AreProps compiled.now props.now }
    requires few { length props.now.list ≤ 4294967295 }
{
    if fuel == 0 {
        return Err(NoMemory);
    }
    for k in 0..2 {
        let mut more = full.copy(alloc)?;
        take(&mut more, compiled.addition(props, step, k));
        let found = meets(fuel - 1, alloc, compiled, props, path, &more);
        drop(more);
        if found? {
            return Ok(true);
        }
    }
    Ok(false)
}

#[cycle(meets)]
fn meets_all(
    fuel: u32,
    alloc: Global,
    compiled: &Compiled,
    props: &Props,
    path: &mut Vec<Bits>,
    full: &Bits,
) -> Result<bool, NoMemory>
    requires width { full.now.width ≡ length compiled.now.concepts }
    requires props { AreProps compiled.now props.now }
    requires few { length props.now.list ≤ 4294967295 }
{
    if fuel == 0 {
        return Err(NoMemory);
    }
    for n in 0..compiled.count() {
        if full.contains(n) && is_some(compiled.shape(n)) {
            if !meets_next(fuel - 1, alloc, compiled, props, path, full, n)? {
                return Ok(false);
            }
        }
    }
    Ok(true)
}

fn is_some(shape: Shape) -> bool {
    match shape {
        Shape::HasSome(_, _) => true,
        _ => false,
    }
}

fn stands_on(path: &[Bits], label: &Bits) -> bool {
    for other in path {
        if other.width() == label.width() && other.same(label) {
            return true;
        }
    }
    false
}

#[cycle(meets)]
fn meets_next(
    fuel: u32,
    alloc: Global,
    compiled: &Compiled,
    props: &Props,
    path: &mut Vec<Bits>,
    full: &Bits,
    n: u32,
) -> Result<bool, NoMemory>
    requires width { full.now.width ≡ length compiled.now.concepts }
    requires within { n < length compiled.now.concepts }
    requires props { AreProps compiled.now props.now }
    requires few { length props.now.list ≤ 4294967295 }
{
    if fuel == 0 {
        return Err(NoMemory);
    }
    let next = compiled.successor(alloc, full, n)?;
    if stands_on(path.as_slice(), &next) {
        drop(next);
        return Ok(true);
    }
    let there = next.copy(alloc)?;
    path.push(there)?;
    let found = meets(fuel - 1, alloc, compiled, props, path, &next);
    drop(next);
    if let Some(last) = path.pop() {
        drop(last);
    }
    found
}

/// Each element has something to choose.
const CHOICES: Peer = Peer {
    axioms: &[
        b"(implies (some r A) (or B C))",
        b"(implies top (some r A))",
        b"(implies B (all r C))",
        b"(implies C (not A))",
    ],
    ask: b"(implies (and B (some r (not A))) bottom)",
};

const LABELS: &[Both] = &[
    Both {
        peer: &TOP,
        label: &[0],
    },
    Both {
        peer: &CHAIN,
        label: &[4, 5],
    },
    Both {
        peer: &CHAIN,
        label: &[0, 3],
    },
    Both {
        peer: &CASES,
        label: &[4, 8],
    },
    Both {
        peer: &CASES,
        label: &[4, 6],
    },
    Both {
        peer: &CYCLE,
        label: &[2, 3],
    },
    Both {
        peer: &SPENT,
        label: &[3, 4],
    },
    Both {
        peer: &SPLIT,
        label: &[7, 8],
    },
    Both {
        peer: &SPLIT,
        label: &[7],
    },
    Both {
        peer: &PASSED,
        label: &[5, 6],
    },
    Both {
        peer: &CHOICES,
        label: &[0],
    },
    Both {
        peer: &CHOICES,
        label: &[3, 5],
    },
    Both {
        peer: &CHOICES,
        label: &[],
    },
    Both {
        peer: &CHOICES,
        label: &[8, 9, 10, 11],
    },
];

#[test]
fn quick_bodies_find_what_plain_ones_do(rt: HostRuntime) -> Result<(), Failure> {
    check(rt.alloc(), LABELS)
}
