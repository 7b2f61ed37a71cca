ghost use Rattle.std.specs.Prelude.{⊤};

use crate::labels_of_rules::{CASES, CHAIN, Peer, compiled, no_props, put};
use crate::rows::{Failure, Row, check};
use bumpalo::Bump;
use dd_concept::{Items, NoMemory};
use dd_graph::{Decided, Graph, Node};
use dd_interp::{Interp, holds, is_shaped};
use dd_open::interp_of;
use dd_rules::Step;
use dd_set::{Bits, numbers_of};
use std::alloc::Global;

/// What is answered of a label.
#[derive(Clone, Copy)]
enum Wanted {
    /// It is closed, and so many labels were closed before it.
    Closed(u32),
    /// It is open, and its model has so many elements.
    Open(u32),
    Spent,
}

/// A label by its numbers, the most new labels, what is answered, and how many labels there are then.
#[derive(Clone, Copy)]
struct Call {
    label: &'static [u32],
    budget: u32,
    answer: Wanted,
    labels: u32,
}

/// Calls on one graph of a peer, one after another.
struct OnGraph {
    peer: &'static Peer,
    calls: &'static [Call],
}

impl Row for OnGraph {
    ghost answers = { λ row yes. ⊤ };

    fn is_right(&self, alloc: Global) -> Result<bool, NoMemory> {
        let arena = Bump::new(alloc);
        let mut graph = graph_of(alloc, &arena, self.peer)?;
        let found = are_answered(alloc, &mut graph, self.peer, self.calls);
        drop(graph);
        found
    }
}

pub fn graph_of<'b>(alloc: Global, arena: &'b Bump, peer: &Peer) -> Result<Graph<'b>, NoMemory> {
    Graph::new(alloc, arena, compiled(alloc, peer)?, no_props(alloc))
}

fn are_answered(
    alloc: Global,
    graph: &mut Graph<'_>,
    peer: &Peer,
    calls: &[Call],
) -> Result<bool, NoMemory> {
    for call in calls {
        if !is_answered(alloc, graph, peer, call)? {
            return Ok(false);
        }
    }
    Ok(true)
}

fn is_answered(
    alloc: Global,
    graph: &mut Graph<'_>,
    peer: &Peer,
    call: &Call,
) -> Result<bool, NoMemory> {
    let mut label = Bits::new(alloc, graph.compiled().count())?;
    put(&mut label, call.label);
    let before = graph.table().len();
    let found = decide(alloc, graph, &label, call.budget);
    let is_right = match found {
        Ok(decided) => is_told(alloc, graph, peer, &label, before, decided, call),
        Err(e) => Err(e),
    };
    drop(label);
    Ok(is_right? && graph.table().len() == call.labels)
}

/// The answer, where the label has the width of the graph's labels.
pub fn decide(
    alloc: Global,
    graph: &mut Graph<'_>,
    label: &Bits,
    budget: u32,
) -> Result<Decided, NoMemory> {
    if label.width() == graph.compiled().count() {
        graph.decide(alloc, label, budget)
    } else {
        Err(NoMemory)
    }
}

fn is_told(
    alloc: Global,
    graph: &Graph<'_>,
    peer: &Peer,
    label: &Bits,
    before: u32,
    found: Decided,
    call: &Call,
) -> Result<bool, NoMemory> {
    match (found, call.answer) {
        (Decided::Closed { id, rank }, Wanted::Closed(wanted)) => {
            Ok(rank == wanted && is_closed(graph, label, id, rank))
        }
        (Decided::Open { id }, Wanted::Open(size)) => {
            is_modelled(alloc, graph, peer, label, id, size)
        }
        (Decided::Spent { next }, Wanted::Spent) => {
            let is_next = graph.table().find(&next).is_none();
            drop(next);
            Ok(is_next && graph.table().len().saturating_sub(before) == call.budget)
        }
        _ => Ok(false),
    }
}

/// Whether the label stands at this position with this rank, and its node says why it is closed.
fn is_closed(graph: &Graph<'_>, label: &Bits, id: u32, rank: u32) -> bool {
    graph.table().find(label) == Some(id)
        && rank_at(graph, id) == Some(rank)
        && !is_open(graph, id)
        && has_cause(graph, id, rank)
}

fn rank_at(graph: &Graph<'_>, id: u32) -> Option<u32> {
    if id < graph.table().len() {
        graph.rank(id)
    } else {
        None
    }
}

fn is_open(graph: &Graph<'_>, id: u32) -> bool {
    id < graph.table().len() && graph.is_open(id)
}

fn has_cause(graph: &Graph<'_>, id: u32, rank: u32) -> bool {
    if id >= graph.table().len() {
        return false;
    }
    match graph.node(id) {
        Node::Fresh => false,
        Node::Clash(_) => true,
        Node::Larger { to } => is_below(graph, *to, rank),
        Node::Split { to, .. } => to.as_slice().iter().all(|t| is_below(graph, *t, rank)),
        Node::Done { to } => to.as_slice().iter().any(|p| is_below(graph, p.1, rank)),
    }
}

fn is_below(graph: &Graph<'_>, id: u32, rank: u32) -> bool {
    match rank_at(graph, id) {
        Some(other) => other < rank,
        None => false,
    }
}

/// Whether the label stands at this position and is open, and has a model of this size.
fn is_modelled(
    alloc: Global,
    graph: &Graph<'_>,
    peer: &Peer,
    label: &Bits,
    id: u32,
    size: u32,
) -> Result<bool, NoMemory> {
    if graph.table().find(label) != Some(id) || rank_at(graph, id).is_some() {
        return Ok(false);
    }
    if id >= graph.table().len() {
        return Ok(false);
    }
    if !graph.is_open(id) {
        return Ok(false);
    }
    let (model, x, elements) = interp_of(alloc, graph, id)?;
    let is_sized = model.size == size && elements.len() == size as usize && is_shaped(&model);
    drop(elements);
    let is_right = fits(alloc, graph, peer, label, &model, x);
    drop(model);
    Ok(is_right? && is_sized)
}

/// Whether the axioms hold in the model, and the label at its element x.
fn fits(
    alloc: Global,
    graph: &Graph<'_>,
    peer: &Peer,
    label: &Bits,
    model: &Interp,
    x: u32,
) -> Result<bool, NoMemory> {
    let Ok(axioms) = u32::try_from(peer.axioms.len()) else {
        return Err(NoMemory);
    };
    for index in 0..axioms {
        for y in 0..model.size {
            if !has_side(alloc, graph, model, y, index)? {
                return Ok(false);
            }
        }
    }
    has_label(alloc, graph, label, model, x)
}

/// Whether the element is one of the complement of the axiom's left side, or of its right side.
fn has_side(
    alloc: Global,
    graph: &Graph<'_>,
    model: &Interp,
    x: u32,
    index: u32,
) -> Result<bool, NoMemory> {
    for k in 0..2 {
        let side = graph
            .compiled()
            .addition(graph.props(), Step::Axiom { index }, k);
        if is_one_of(alloc, graph, model, x, side)? {
            return Ok(true);
        }
    }
    Ok(false)
}

fn has_label(
    alloc: Global,
    graph: &Graph<'_>,
    label: &Bits,
    model: &Interp,
    x: u32,
) -> Result<bool, NoMemory> {
    let numbers = numbers_of(alloc, label)?;
    let found = are_had(alloc, graph, &numbers, model, x);
    drop(numbers);
    found
}

fn are_had(
    alloc: Global,
    graph: &Graph<'_>,
    numbers: &[u32],
    model: &Interp,
    x: u32,
) -> Result<bool, NoMemory> {
    for n in numbers {
        if !is_one_of(alloc, graph, model, x, Some(*n))? {
            return Ok(false);
        }
    }
    Ok(true)
}

/// Whether the element is one of the concept with this number.
fn is_one_of(
    alloc: Global,
    graph: &Graph<'_>,
    model: &Interp,
    x: u32,
    number: Option<u32>,
) -> Result<bool, NoMemory> {
    match number {
        Some(n) => {
            if n >= graph.compiled().count() {
                return Ok(false);
            }
            let made = graph.compiled().concept(alloc, n)?;
            let yes = holds(model, x, &made);
            drop(made);
            Ok(yes)
        }
        None => Ok(false),
    }
}

/// Its concepts are top.
pub const TOP: Peer = Peer {
    axioms: &[],
    ask: b"(implies top bottom)",
};

/// Its concepts are (not A), (some r A), A, top.
pub const CYCLE: Peer = Peer {
    axioms: &[b"(implies A (some r A))"],
    ask: b"(implies A bottom)",
};

/// Its concepts are (not A), (some r B), B, A, (not C).
pub const SPENT: Peer = Peer {
    axioms: &[b"(implies A (some r B))"],
    ask: b"(implies A C)",
};

/// Its concepts are (not A), (or B D), B, D, (not B), E, (not D), A, (not E).
pub const SPLIT: Peer = Peer {
    axioms: &[b"(implies A (or B D))", b"(implies B E)", b"(implies D E)"],
    ask: b"(implies A E)",
};

/// Its concepts are (not A), (some r B), B, (not B), bottom, A, (not C).
pub const PASSED: Peer = Peer {
    axioms: &[b"(implies A (some r B))", b"(implies B bottom)"],
    ask: b"(implies A C)",
};

const ON_GRAPHS: &[OnGraph] = &[
    OnGraph {
        peer: &TOP,
        calls: &[Call {
            label: &[0],
            budget: 1,
            answer: Wanted::Open(1),
            labels: 1,
        }],
    },
    OnGraph {
        peer: &CHAIN,
        calls: &[
            Call {
                label: &[4, 5],
                budget: 1,
                answer: Wanted::Spent,
                labels: 1,
            },
            Call {
                label: &[4, 5],
                budget: 1,
                answer: Wanted::Closed(1),
                labels: 2,
            },
            Call {
                label: &[4, 5],
                budget: 0,
                answer: Wanted::Closed(1),
                labels: 2,
            },
            Call {
                label: &[4],
                budget: 2,
                answer: Wanted::Open(1),
                labels: 4,
            },
        ],
    },
    OnGraph {
        peer: &CASES,
        calls: &[Call {
            label: &[4, 8],
            budget: 4,
            answer: Wanted::Open(2),
            labels: 4,
        }],
    },
    OnGraph {
        peer: &CYCLE,
        calls: &[Call {
            label: &[2, 3],
            budget: 100,
            answer: Wanted::Open(2),
            labels: 4,
        }],
    },
    OnGraph {
        peer: &SPENT,
        calls: &[Call {
            label: &[3, 4],
            budget: 3,
            answer: Wanted::Open(2),
            labels: 3,
        }],
    },
    OnGraph {
        peer: &SPENT,
        calls: &[
            Call {
                label: &[3, 4],
                budget: 1,
                answer: Wanted::Spent,
                labels: 1,
            },
            Call {
                label: &[3, 4],
                budget: 1,
                answer: Wanted::Spent,
                labels: 2,
            },
            Call {
                label: &[3, 4],
                budget: 1,
                answer: Wanted::Open(2),
                labels: 3,
            },
        ],
    },
    OnGraph {
        peer: &SPLIT,
        calls: &[Call {
            label: &[7, 8],
            budget: 4,
            answer: Wanted::Closed(3),
            labels: 4,
        }],
    },
    OnGraph {
        peer: &PASSED,
        calls: &[Call {
            label: &[5, 6],
            budget: 4,
            answer: Wanted::Closed(3),
            labels: 4,
        }],
    },
];

#[test]
fn labels_are_decided_within_their_budgets(rt: HostRuntime) -> Result<(), Failure> {
    check(rt.alloc(), ON_GRAPHS)
}
