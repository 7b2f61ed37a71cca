ghost use Rattle.std.specs.Prelude.{◌<◌, ⊤, length};

use crate::labels_of_rules::{CASES, CHAIN, Peer, compiled_with};
use crate::rows::{Failure, Row, check, check_one};
use dd_concept::{Axiom, Concept, NoMemory, same};
use dd_rules::{CompileErr, Compiled, MAX_CONCEPTS, Shape};
use dd_text::{REQUEST, Symbols, read_concept};
use std::alloc::Global;

/// What is asked of a peer's closure.
enum Asked {
    Count,
    /// The number of a concept.
    Number(&'static [u8]),
    /// Whether the concept with this number is this one: 1 for yes, 0 for no.
    Concept(u32, &'static [u8]),
    Shape(u32),
    Complement(u32),
}

/// A peer, and what is answered.
struct OnClosure {
    peer: &'static Peer,
    asked: Asked,
    answer: &'static [u32],
}

impl Row for OnClosure {
    ghost answers = { λ row yes. ⊤ };

    fn is_right(&self, alloc: Global) -> Result<bool, NoMemory> {
        let mut symbols = Symbols::new(alloc)?;
        let found = found(alloc, &mut symbols, self);
        drop(symbols);
        let found = found?;
        let is_right = found.as_slice() == self.answer;
        drop(found);
        Ok(is_right)
    }
}

fn found(alloc: Global, symbols: &mut Symbols, row: &OnClosure) -> Result<Vec<u32>, NoMemory> {
    let compiled = compiled_with(alloc, symbols, row.peer)?;
    let found = told(alloc, symbols, &compiled, &row.asked);
    drop(compiled);
    found
}

fn told(
    alloc: Global,
    symbols: &mut Symbols,
    compiled: &Compiled,
    asked: &Asked,
) -> Result<Vec<u32>, NoMemory> {
    match asked {
        Asked::Count => return Vec::from_slice(alloc, &[compiled.count()]),
        Asked::Number(text) => return number_of(alloc, symbols, compiled, text),
        Asked::Concept(n, text) => return is_concept(alloc, symbols, compiled, *n, text),
        Asked::Shape(n) => return shape_of(alloc, compiled, *n),
        Asked::Complement(n) => return complement_of(alloc, compiled, *n),
    }
}

fn read(alloc: Global, symbols: &mut Symbols, text: &[u8]) -> Result<Concept, NoMemory> {
    match read_concept(alloc, symbols, REQUEST, text) {
        Ok(found) => Ok(found),
        Err(_) => Err(NoMemory),
    }
}

fn number_of(
    alloc: Global,
    symbols: &mut Symbols,
    compiled: &Compiled,
    text: &[u8],
) -> Result<Vec<u32>, NoMemory> {
    let asked = read(alloc, symbols, text)?;
    let number = compiled.number(&asked);
    drop(asked);
    number_told(alloc, number)
}

fn number_told(alloc: Global, number: Option<u32>) -> Result<Vec<u32>, NoMemory> {
    match number {
        Some(n) => Vec::from_slice(alloc, &[n]),
        None => Ok(Vec::new(alloc)),
    }
}

fn is_concept(
    alloc: Global,
    symbols: &mut Symbols,
    compiled: &Compiled,
    n: u32,
    text: &[u8],
) -> Result<Vec<u32>, NoMemory> {
    if n >= compiled.count() {
        return Ok(Vec::new(alloc));
    }
    let made = compiled.concept(alloc, n)?;
    let yes = is_read(alloc, symbols, &made, text);
    drop(made);
    let yes = yes?;
    Vec::from_slice(alloc, &[yes as u32])
}

fn is_read(
    alloc: Global,
    symbols: &mut Symbols,
    made: &Concept,
    text: &[u8],
) -> Result<bool, NoMemory> {
    let wanted = read(alloc, symbols, text)?;
    let yes = same(made, &wanted);
    drop(wanted);
    Ok(yes)
}

fn shape_of(alloc: Global, compiled: &Compiled, n: u32) -> Result<Vec<u32>, NoMemory> {
    if n >= compiled.count() {
        return Ok(Vec::new(alloc));
    }
    Vec::from_slice(alloc, &numbers_of(compiled.shape(n)))
}

/// A form in three numbers: its place in `Shape`, and its own.
fn numbers_of(shape: Shape) -> [u32; 3] {
    match shape {
        Shape::Top => [0, 0, 0],
        Shape::Bottom => [1, 0, 0],
        Shape::Name(a) => [2, a, 0],
        Shape::Not(a) => [3, a, 0],
        Shape::And(c, d) => [4, c, d],
        Shape::Or(c, d) => [5, c, d],
        Shape::HasSome(r, c) => [6, r, c],
        Shape::HasAll(r, c) => [7, r, c],
    }
}

fn complement_of(alloc: Global, compiled: &Compiled, n: u32) -> Result<Vec<u32>, NoMemory> {
    if n >= compiled.count() {
        return Ok(Vec::new(alloc));
    }
    number_told(alloc, compiled.complement(n))
}

const CLOSURES: &[OnClosure] = &[
    OnClosure {
        peer: &CHAIN,
        asked: Asked::Count,
        answer: &[6],
    },
    OnClosure {
        peer: &CHAIN,
        asked: Asked::Number(b"(not A)"),
        answer: &[0],
    },
    OnClosure {
        peer: &CHAIN,
        asked: Asked::Number(b"B"),
        answer: &[1],
    },
    OnClosure {
        peer: &CHAIN,
        asked: Asked::Number(b"(not B)"),
        answer: &[2],
    },
    OnClosure {
        peer: &CHAIN,
        asked: Asked::Number(b"C"),
        answer: &[3],
    },
    OnClosure {
        peer: &CHAIN,
        asked: Asked::Number(b"A"),
        answer: &[4],
    },
    OnClosure {
        peer: &CHAIN,
        asked: Asked::Number(b"(not C)"),
        answer: &[5],
    },
    OnClosure {
        peer: &CHAIN,
        asked: Asked::Number(b"(and A B)"),
        answer: &[],
    },
    OnClosure {
        peer: &CHAIN,
        asked: Asked::Concept(2, b"(not B)"),
        answer: &[1],
    },
    OnClosure {
        peer: &CHAIN,
        asked: Asked::Concept(2, b"B"),
        answer: &[0],
    },
    OnClosure {
        peer: &CHAIN,
        asked: Asked::Shape(2),
        answer: &[3, 1, 0],
    },
    OnClosure {
        peer: &CHAIN,
        asked: Asked::Shape(4),
        answer: &[2, 0, 0],
    },
    OnClosure {
        peer: &CHAIN,
        asked: Asked::Complement(0),
        answer: &[4],
    },
    OnClosure {
        peer: &CASES,
        asked: Asked::Count,
        answer: &[9],
    },
    OnClosure {
        peer: &CASES,
        asked: Asked::Concept(4, b"(and (some r A) (all r B))"),
        answer: &[1],
    },
    OnClosure {
        peer: &CASES,
        asked: Asked::Shape(1),
        answer: &[5, 2, 3],
    },
    OnClosure {
        peer: &CASES,
        asked: Asked::Shape(4),
        answer: &[4, 5, 7],
    },
    OnClosure {
        peer: &CASES,
        asked: Asked::Shape(7),
        answer: &[7, 0, 2],
    },
    OnClosure {
        peer: &CASES,
        asked: Asked::Complement(1),
        answer: &[],
    },
];

#[test]
fn a_closure_has_its_concepts_in_their_order(rt: HostRuntime) -> Result<(), Failure> {
    check(rt.alloc(), CLOSURES)
}

/// So many axioms, each from a name to the next one: each gives two concepts.
fn chain(alloc: Global, count: u32) -> Result<Vec<Axiom>, NoMemory> {
    let mut axioms = Vec::new(alloc);
    for n in 0..count {
        axioms.push(Axiom {
            left: Concept::Name(n),
            right: Concept::Name(n.wrapping_add(1)),
        })?;
    }
    Ok(axioms)
}

/// What the second axiom of a chain adds to a label.
fn second_sides(alloc: Global, axioms: &[Axiom]) -> Result<(u32, u32), NoMemory>
    requires { 1 < length axioms.now }
{
    let Ok(compiled) = Compiled::new(alloc, axioms, &[]) else {
        return Err(NoMemory);
    };
    let sides = compiled.sides(1);
    drop(compiled);
    Ok(sides)
}

fn has_sides(alloc: Global) -> Result<bool, NoMemory> {
    let axioms = chain(alloc, 2)?;
    if axioms.len() < 2 {
        return Ok(false);
    }
    let sides = second_sides(alloc, &axioms);
    drop(axioms);
    let (left, right) = sides?;
    Ok(left == 2 && right == 3)
}

#[test]
fn an_axiom_adds_its_sides(rt: HostRuntime) -> Result<(), Failure> {
    check_one(has_sides(rt.alloc()))
}

/// The number of concepts of a chain, and whether the closure has them or they are too many.
fn size(alloc: Global, count: u32) -> Result<(bool, u32), NoMemory> {
    let axioms = chain(alloc, count)?;
    let found = Compiled::new(alloc, &axioms, &[]);
    drop(axioms);
    match found {
        Ok(compiled) => {
            let size = compiled.count();
            drop(compiled);
            Ok((true, size))
        }
        Err(CompileErr::ClosureFull { count }) => Ok((false, count)),
        Err(CompileErr::NoMemory) => Err(NoMemory),
    }
}

fn is_full_above(alloc: Global) -> Result<bool, NoMemory> {
    let (fits, most) = size(alloc, MAX_CONCEPTS / 2)?;
    let (too, more) = size(alloc, MAX_CONCEPTS / 2 + 1)?;
    Ok(fits && most == MAX_CONCEPTS && !too && more == MAX_CONCEPTS + 2)
}

#[test]
fn a_closure_is_full_above_its_most_concepts(rt: HostRuntime) -> Result<(), Failure> {
    check_one(is_full_above(rt.alloc()))
}
