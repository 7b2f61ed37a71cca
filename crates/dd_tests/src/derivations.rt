ghost use Rattle.std.specs.Prelude.{⊤};

use crate::rows::{Failure, Row, check};
use crate::tasks::{concept, concepts, numbered, two_peers};
use dd_answer::{Answer, copy_answer, weight};
use dd_check::{LineFault, check_lines};
use dd_concept::{Concept, Items, NoMemory};
use dd_peer::{Pinned, Query};
use dd_task::{Line, Why};
use dd_text::Symbols;
use std::alloc::Global;

/// The reason of a line.
enum Reason {
    Bottom,
    Clash(u32),
    And(u32, u32),
    Or(u32, u32, u32),
    Axiom(u32, u32, u32),
    Cut(&'static [u8], u32, u32),
    Successor(u32, u32),
    Bridge(u32, u32, &'static [u32], u32, &'static [u32]),
}

/// A line: its peer, its label and its reason.
struct Step(u32, &'static [&'static [u8]], Reason);

/// A question about a peer of two, lines, and what is said of them where the first peer has (implies A B) and (implies B C), and
/// the second keeps an into rule from B to H and an onto rule from A to G, both from the first.
struct Derivation {
    peer: u32,
    left: &'static [u8],
    right: &'static [u8],
    steps: &'static [Step],
    answer: Result<(), LineFault>,
}

impl Row for Derivation {
    ghost answers = { λ row yes. ⊤ };

    fn is_right(&self, alloc: Global) -> Result<bool, NoMemory> {
        let mut symbols = numbered(alloc)?;
        let is_right = is_judged(alloc, &mut symbols, self);
        drop(symbols);
        is_right
    }
}

fn is_judged(alloc: Global, symbols: &mut Symbols, row: &Derivation) -> Result<bool, NoMemory> {
    let lines = lines(alloc, symbols, row.steps)?;
    let answer = Answer::Yes(lines);
    let again = copy_answer(alloc, &answer);
    drop(answer);
    let again = again?;
    let is_right = is_answer_judged(alloc, symbols, row, &again);
    drop(again);
    is_right
}

fn is_answer_judged(
    alloc: Global,
    symbols: &mut Symbols,
    row: &Derivation,
    answer: &Answer,
) -> Result<bool, NoMemory> {
    match answer {
        Answer::Yes(lines) => {
            if weight(answer) != row.steps.len() as u64 {
                return Ok(false);
            }
            are_judged(alloc, symbols, row, lines.as_slice())
        }
        _ => Ok(false),
    }
}

fn are_judged(
    alloc: Global,
    symbols: &mut Symbols,
    row: &Derivation,
    lines: &[Line],
) -> Result<bool, NoMemory> {
    let query = query(alloc, symbols, row)?;
    let is_right = are_judged_at(alloc, row, &query, lines);
    drop(query);
    is_right
}

fn are_judged_at(
    alloc: Global,
    row: &Derivation,
    query: &Query,
    lines: &[Line],
) -> Result<bool, NoMemory> {
    let pinned = two_peers(alloc)?;
    let is_right = are_few_judged(&pinned, query, lines, row.answer);
    drop(pinned);
    Ok(is_right)
}

fn are_few_judged(
    pinned: &Pinned,
    query: &Query,
    lines: &[Line],
    answer: Result<(), LineFault>,
) -> bool {
    lines.len() < 100 && check_lines(pinned, query, lines) == answer
}

fn query(alloc: Global, symbols: &mut Symbols, row: &Derivation) -> Result<Query, NoMemory> {
    let left = concept(alloc, symbols, row.left)?;
    Ok(Query {
        peer: row.peer,
        left,
        right: concept(alloc, symbols, row.right)?,
    })
}

fn lines(alloc: Global, symbols: &mut Symbols, steps: &[Step]) -> Result<Items<Line>, NoMemory> {
    let mut lines = Items::new(alloc);
    for step in steps {
        lines.push(line(alloc, symbols, step)?)?;
    }
    Ok(lines)
}

fn line(alloc: Global, symbols: &mut Symbols, step: &Step) -> Result<Line, NoMemory> {
    let label = concepts(alloc, symbols, step.1)?;
    Ok(Line {
        peer: step.0,
        label,
        why: why(alloc, symbols, &step.2)?,
    })
}

fn why(alloc: Global, symbols: &mut Symbols, reason: &Reason) -> Result<Why, NoMemory> {
    match reason {
        Reason::Bottom => Ok(Why::Bottom),
        Reason::Clash(name) => Ok(Why::Clash { name: *name }),
        Reason::And(at, cite) => Ok(Why::And {
            at: *at,
            cite: *cite,
        }),
        Reason::Or(at, left, right) => Ok(Why::Or {
            at: *at,
            left: *left,
            right: *right,
        }),
        Reason::Axiom(index, left, right) => Ok(Why::Axiom {
            index: *index,
            left: *left,
            right: *right,
        }),
        Reason::Cut(on, yes, no) => Ok(Why::Cut {
            on: concept(alloc, symbols, on)?,
            yes: *yes,
            no: *no,
        }),
        Reason::Successor(at, cite) => Ok(Why::Successor {
            at: *at,
            cite: *cite,
        }),
        Reason::Bridge(from, onto, into_set, cite, each) => {
            bridge(alloc, *from, *onto, into_set, *cite, each)
        }
    }
}

fn bridge(
    alloc: Global,
    from: u32,
    onto: u32,
    into_set: &[u32],
    cite: u32,
    each: &[u32],
) -> Result<Why, NoMemory> {
    let into_set = Items::from_slice(alloc, into_set)?;
    Ok(Why::Bridge {
        from,
        onto,
        into_set,
        cite,
        each: Items::from_slice(alloc, each)?,
    })
}

const CLASH: Step = Step(0, &[b"A", b"(not A)"], Reason::Clash(0));

const DERIVATIONS: &[Derivation] = &[
    // A chain of axioms.
    Derivation {
        peer: 0,
        left: b"A",
        right: b"C",
        steps: &[
            CLASH,
            Step(0, &[b"B", b"(not B)"], Reason::Clash(1)),
            Step(0, &[b"C", b"(not C)"], Reason::Clash(2)),
            Step(0, &[b"B", b"(not C)"], Reason::Axiom(1, 1, 2)),
            Step(0, &[b"A", b"(not C)"], Reason::Axiom(0, 0, 3)),
        ],
        answer: Ok(()),
    },
    Derivation {
        peer: 0,
        left: b"A",
        right: b"C",
        steps: &[
            CLASH,
            Step(0, &[b"B", b"(not B)"], Reason::Clash(1)),
            Step(0, &[b"C", b"(not C)"], Reason::Clash(2)),
            Step(0, &[b"B", b"(not C)"], Reason::Axiom(1, 1, 2)),
            Step(0, &[b"A", b"(not C)"], Reason::Axiom(0, 0, 2)),
        ],
        answer: Err(LineFault { at: 4 }),
    },
    // A bridge by hand.
    Derivation {
        peer: 1,
        left: b"G",
        right: b"H",
        steps: &[
            CLASH,
            Step(0, &[b"B", b"(not B)"], Reason::Clash(1)),
            Step(0, &[b"A", b"(not B)"], Reason::Axiom(0, 0, 1)),
            Step(1, &[b"H", b"(not H)"], Reason::Clash(4)),
            Step(1, &[b"G", b"(not H)"], Reason::Bridge(0, 0, &[0], 2, &[3])),
        ],
        answer: Ok(()),
    },
    Derivation {
        peer: 1,
        left: b"G",
        right: b"H",
        steps: &[
            CLASH,
            Step(0, &[b"B", b"(not B)"], Reason::Clash(1)),
            Step(0, &[b"A", b"(not B)"], Reason::Axiom(0, 0, 3)),
            Step(1, &[b"H", b"(not H)"], Reason::Clash(4)),
            Step(1, &[b"G", b"(not H)"], Reason::Bridge(0, 0, &[0], 2, &[3])),
        ],
        answer: Err(LineFault { at: 2 }),
    },
    Derivation {
        peer: 1,
        left: b"G",
        right: b"H",
        steps: &[],
        answer: Err(LineFault { at: 0 }),
    },
    Derivation {
        peer: 0,
        left: b"G",
        right: b"H",
        steps: &[
            CLASH,
            Step(0, &[b"B", b"(not B)"], Reason::Clash(1)),
            Step(0, &[b"A", b"(not B)"], Reason::Axiom(0, 0, 1)),
            Step(1, &[b"H", b"(not H)"], Reason::Clash(4)),
            Step(1, &[b"G", b"(not H)"], Reason::Bridge(0, 0, &[0], 2, &[3])),
        ],
        answer: Err(LineFault { at: 5 }),
    },
    Derivation {
        peer: 1,
        left: b"G",
        right: b"H",
        steps: &[
            CLASH,
            Step(0, &[b"B", b"(not B)"], Reason::Clash(1)),
            Step(0, &[b"A", b"(not B)"], Reason::Axiom(0, 0, 1)),
            Step(1, &[b"H", b"(not H)"], Reason::Clash(4)),
            Step(
                1,
                &[b"G", b"(not H)"],
                Reason::Bridge(0, 0, &[0, 0], 2, &[3, 3]),
            ),
        ],
        answer: Err(LineFault { at: 4 }),
    },
    // The rules that the first peer keeps from the second are none.
    Derivation {
        peer: 0,
        left: b"A",
        right: b"B",
        steps: &[
            CLASH,
            Step(1, &[b"B", b"(not B)"], Reason::Clash(1)),
            Step(0, &[b"A", b"(not B)"], Reason::Bridge(1, 0, &[], 1, &[])),
        ],
        answer: Err(LineFault { at: 2 }),
    },
    // A line that cites itself.
    Derivation {
        peer: 0,
        left: b"A",
        right: b"bottom",
        steps: &[Step(0, &[b"A", b"top"], Reason::Axiom(0, 0, 0))],
        answer: Err(LineFault { at: 0 }),
    },
    // Conjunctions, disjunctions and bottom.
    Derivation {
        peer: 0,
        left: b"(or bottom (and A (not A)))",
        right: b"bottom",
        steps: &[
            CLASH,
            Step(0, &[b"bottom"], Reason::Bottom),
            Step(0, &[b"(and A (not A))", b"top"], Reason::And(0, 0)),
            Step(0, &[b"(or bottom (and A (not A)))"], Reason::Or(0, 1, 2)),
        ],
        answer: Err(LineFault { at: 3 }),
    },
    Derivation {
        peer: 0,
        left: b"(or bottom (and A (not A)))",
        right: b"bottom",
        steps: &[
            CLASH,
            Step(0, &[b"bottom"], Reason::Bottom),
            Step(0, &[b"(and A (not A))"], Reason::And(0, 0)),
            Step(0, &[b"(or bottom (and A (not A)))"], Reason::Or(0, 1, 2)),
        ],
        answer: Ok(()),
    },
    Derivation {
        peer: 0,
        left: b"(or bottom (and A (not A)))",
        right: b"bottom",
        steps: &[
            CLASH,
            Step(0, &[b"bottom"], Reason::Bottom),
            Step(0, &[b"(and A (not A))"], Reason::And(0, 0)),
            Step(0, &[b"(or bottom (and A (not A)))"], Reason::Or(1, 1, 2)),
        ],
        answer: Err(LineFault { at: 3 }),
    },
    // A successor, and what all along the role have.
    Derivation {
        peer: 0,
        left: b"(and (some r A) (all r (not A)))",
        right: b"bottom",
        steps: &[
            CLASH,
            Step(
                0,
                &[b"(some r A)", b"(all r (not A))"],
                Reason::Successor(0, 0),
            ),
            Step(0, &[b"(and (some r A) (all r (not A)))"], Reason::And(0, 1)),
        ],
        answer: Ok(()),
    },
    Derivation {
        peer: 0,
        left: b"(and (some r A) (all s (not A)))",
        right: b"bottom",
        steps: &[
            CLASH,
            Step(
                0,
                &[b"(some r A)", b"(all s (not A))"],
                Reason::Successor(0, 0),
            ),
            Step(0, &[b"(and (some r A) (all s (not A)))"], Reason::And(0, 1)),
        ],
        answer: Err(LineFault { at: 1 }),
    },
    // A cut, and a right side whose complement is a conjunction.
    Derivation {
        peer: 0,
        left: b"top",
        right: b"(or A (not A))",
        steps: &[
            CLASH,
            Step(0, &[b"(and (not A) A)"], Reason::And(0, 0)),
            Step(
                0,
                &[b"top", b"(and (not A) A)"],
                Reason::Cut(b"(some r B)", 1, 1),
            ),
        ],
        answer: Ok(()),
    },
    Derivation {
        peer: 0,
        left: b"top",
        right: b"(or A (not A))",
        steps: &[
            CLASH,
            Step(0, &[b"(and (not A) A)"], Reason::And(0, 0)),
            Step(
                0,
                &[b"top", b"(and (not A) A)"],
                Reason::Cut(b"(some r B)", 1, 0),
            ),
        ],
        answer: Err(LineFault { at: 2 }),
    },
];

#[test]
fn derivations_are_judged_by_their_first_fault(rt: HostRuntime) -> Result<(), Failure> {
    check(rt.alloc(), DERIVATIONS)
}
