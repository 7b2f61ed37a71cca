ghost use Rattle.std.specs.Prelude.{IsTrue, ⊤};
ghost use Rattle.dd_text.specs.Text.{has_symbols};

use crate::rows::{Failure, Row, check, check_one};
use dd_concept::{Axiom, Concept, NoMemory};
use dd_text::{
    Limits, REQUEST, Symbols, TextErr, print_axiom, print_concept, read_axiom, read_concept,
};
use std::alloc::Global;

/// A text, and 0 where it is read and printed back, 1 where it is not printed back, else the cause with its number.
struct Reading {
    text: &'static [u8],
    outcome: u64,
}

impl Row for Reading {
    ghost answers = { λ row yes. ⊤ };

    fn is_right(&self, alloc: Global) -> Result<bool, NoMemory> {
        let limits = Limits { nodes: 4, depth: 3 };
        Ok(outcome(alloc, limits, self.text)? == self.outcome)
    }
}

fn outcome(alloc: Global, limits: Limits, text: &[u8]) -> Result<u64, NoMemory> {
    let mut symbols = Symbols::new(alloc)?;
    let outcome = reads(alloc, &mut symbols, limits, text);
    drop(symbols);
    Ok(outcome)
}

fn reads(alloc: Global, symbols: &mut Symbols, limits: Limits, text: &[u8]) -> u64 {
    match read_concept(alloc, symbols, limits, text) {
        Ok(c) => {
            let outcome = printed(alloc, symbols, &c, text);
            drop(c);
            outcome
        }
        Err(e) => cause(&e),
    }
}

fn printed(alloc: Global, symbols: &Symbols, c: &Concept, text: &[u8]) -> u64
    requires { IsTrue (has_symbols symbols.now c.now) }
{
    match print_concept(alloc, symbols, c) {
        Ok(printed) => u64::from(printed.as_slice() != text),
        Err(_) => 3,
    }
}

fn cause(e: &TextErr) -> u64 {
    match e {
        TextErr::Bad { at } => 1_000 + u64::from(*at),
        TextErr::TooLarge { nodes } => 100 + u64::from(*nodes),
        TextErr::TooDeep { depth } => 200 + u64::from(*depth),
        TextErr::SymbolsFull => 2,
        TextErr::NoMemory => 3,
    }
}

const READINGS: &[Reading] = &[
    Reading {
        text: b"(and (not A) bottom)",
        outcome: 0,
    },
    Reading {
        text: b"topper",
        outcome: 0,
    },
    Reading {
        text: b"",
        outcome: 1_001,
    },
    Reading {
        text: b"not",
        outcome: 1_004,
    },
    Reading {
        text: b"(and not B)",
        outcome: 1_009,
    },
    Reading {
        text: b"A B",
        outcome: 1_002,
    },
    Reading {
        text: b"(not  A)",
        outcome: 1_006,
    },
    Reading {
        text: b"(some top A)",
        outcome: 1_010,
    },
    Reading {
        text: b"(not A))",
        outcome: 1_008,
    },
    Reading {
        text: b"(some sees (all r-1 (or A B)))",
        outcome: 105,
    },
    Reading {
        text: b"(not (not (not A)))",
        outcome: 204,
    },
];

#[test]
fn reads_concepts_and_tells_where_other_texts_fail(rt: HostRuntime) -> Result<(), Failure> {
    check(rt.alloc(), READINGS)
}

/// A text made of pieces, each with how many copies of it follow one another, and its outcome by the limits of requests.
struct Pieces {
    pieces: &'static [(&'static [u8], u8)],
    outcome: u64,
}

impl Row for Pieces {
    ghost answers = { λ row yes. ⊤ };

    fn is_right(&self, alloc: Global) -> Result<bool, NoMemory> {
        let text = joined(alloc, self.pieces)?;
        let outcome = outcome(alloc, REQUEST, text.as_slice());
        drop(text);
        Ok(outcome? == self.outcome)
    }
}

fn joined(alloc: Global, pieces: &[(&[u8], u8)]) -> Result<Vec<u8>, NoMemory> {
    let mut text = Vec::new(alloc);
    for (piece, copies) in pieces {
        add(&mut text, piece, *copies)?;
    }
    Ok(text)
}

fn add(text: &mut Vec<u8>, piece: &[u8], copies: u8) -> Result<(), NoMemory> {
    for _ in 0..copies {
        text.extend_from_slice(piece)?;
    }
    Ok(())
}

/// The opening of a conjunction and its left part, of 31 nodes.
const BROAD: &[u8] =
    b"(and (or (or (or (or A B) (or A B)) (or (or A B) (or A B))) (or (or (or A B) (or A B)) (or (or A B) (or A B)))) ";

const EIGHT: &[u8] = b"(not (or (or A B) (or A B)))";

const PIECES: &[Pieces] = &[
    Pieces {
        pieces: &[(b"(not ", 63), (b"A", 1), (b")", 63)],
        outcome: 0,
    },
    Pieces {
        pieces: &[(b"(not ", 64), (b"A", 1), (b")", 64)],
        outcome: 265,
    },
    Pieces {
        pieces: &[(BROAD, 31), (EIGHT, 1), (b")", 31)],
        outcome: 0,
    },
    Pieces {
        pieces: &[(BROAD, 31), (b"(not ", 1), (EIGHT, 1), (b")", 32)],
        outcome: 1_101,
    },
    Pieces {
        pieces: &[(b"A", 64)],
        outcome: 0,
    },
    Pieces {
        pieces: &[(b"A", 65)],
        outcome: 1_065,
    },
];

#[test]
fn reads_concepts_to_the_limits_of_requests(rt: HostRuntime) -> Result<(), Failure> {
    check(rt.alloc(), PIECES)
}

/// Whether an axiom is read, and printed back as it was.
fn is_printed_back(alloc: Global, symbols: &mut Symbols, text: &[u8]) -> bool {
    match read_axiom(alloc, symbols, REQUEST, text) {
        Ok(a) => {
            let is_printed = is_printed(alloc, symbols, &a, text);
            drop(a);
            is_printed
        }
        Err(_) => false,
    }
}

fn is_printed(alloc: Global, symbols: &Symbols, a: &Axiom, text: &[u8]) -> bool
    requires left { IsTrue (has_symbols symbols.now a.now.left) }
    requires right { IsTrue (has_symbols symbols.now a.now.right) }
{
    match print_axiom(alloc, symbols, a) {
        Ok(printed) => printed.as_slice() == text,
        Err(_) => false,
    }
}

fn numbers_cat_and_pet(alloc: Global) -> Result<bool, NoMemory> {
    let mut symbols = Symbols::new(alloc)?;
    let text = b"(implies (some has Cat) (and Pet (all has Cat)))";
    let is_printed_back = is_printed_back(alloc, &mut symbols, text);
    let is_second = symbols.name_count() == 2 && symbols.name_number(b"Pet") == 1;
    drop(symbols);
    Ok(is_printed_back && is_second)
}

#[test]
fn numbers_the_symbols_of_an_axiom_in_the_order_of_its_text(
    rt: HostRuntime,
) -> Result<(), Failure> {
    check_one(numbers_cat_and_pet(rt.alloc()))
}
