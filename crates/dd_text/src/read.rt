ghost use Rattle.std.specs.Prelude.{◌≡◌, ◌<◌, ◌≤◌, IfErr, IfOk, IsTrue, OnOk, length};
ghost use Rattle.dd_text.specs.Text.{has_symbols};
ghost use Rattle.dd_text.specs.Limits.{AreWithin, OverSides, refusal_of};
ghost use Rattle.dd_text.specs.Reads.{IsSmall, ReadsAxiom, ReadsConcept, told};
ghost use Rattle.dd_text.specs.declared.read.TextErr.TheVariants as err;

use crate::build::{BuildErr, build_axiom, build_concept};
use crate::parts::{Part, ScanErr, Sides, scan_axiom, scan_whole};
use crate::symbols::Symbols;
use dd_concept::{Axiom, Concept};
use std::alloc::Global;
use thiserror::Error;

/// The most nodes that a concept may have, and how deep it may be. A role is no node; a concept without parts has depth 1.
#[derive(Clone, Copy)]
pub struct Limits {
    pub nodes: u32,
    pub depth: u32,
}

/// The limits of a concept in a request.
pub const REQUEST: Limits = Limits {
    nodes: 1_000,
    depth: 64,
};

/// The limits of a concept in a certificate, where negation normal forms stand.
pub const CERT: Limits = Limits {
    nodes: 2_000,
    depth: 65,
};

/// Why a text is refused. Where several hold, the first in this order is told. A number above 4,294,967,295 is told as that.
#[derive(Debug, Drop, Error)]
pub enum TextErr {
    /// The text is not in the grammar: `at` is the least number of its first bytes with which no text of the grammar
    /// begins, or one more than all its bytes where it was cut.
    #[error("the text leaves the grammar at byte {at}")]
    Bad { at: u32 },
    #[error("a concept of {nodes} nodes is too large")]
    TooLarge { nodes: u32 },
    #[error("a concept of depth {depth} is too deep")]
    TooDeep { depth: u32 },
    #[error("there are as many symbols as there may be")]
    SymbolsFull,
    #[error("out of memory")]
    NoMemory,
}

fn capped(n: usize) -> u32
    ensures { result ≡ told n }
{
    n.min(4_294_967_295) as u32
}

fn check_nodes(limits: Limits, part: &Part) -> Result<(), TextErr>
    ensures ok { OnOk result (length part.now.signs ≤ limits.nodes) }
    ensures over { IfErr result (λ e. limits.nodes < length part.now.signs) }
    ensures err { IfErr result (λ e. e ≡ err.TooLarge (told (length part.now.signs))) }
{
    let nodes = part.signs.as_slice().len();
    if nodes > limits.nodes as usize {
        return Err(TextErr::TooLarge {
            nodes: capped(nodes),
        });
    }
    Ok(())
}

fn check_depth(limits: Limits, part: &Part) -> Result<(), TextErr>
    ensures ok { OnOk result (part.now.depth ≤ limits.depth) }
    ensures over { IfErr result (λ e. limits.depth < part.now.depth) }
    ensures err { IfErr result (λ e. e ≡ err.TooDeep (told part.now.depth)) }
{
    if part.depth > limits.depth as usize {
        return Err(TextErr::TooDeep {
            depth: capped(part.depth),
        });
    }
    Ok(())
}

fn refusal(e: BuildErr) -> TextErr
    ensures { result ≡ refusal_of e }
{
    match e {
        BuildErr::SymbolsFull => TextErr::SymbolsFull,
        BuildErr::NoMemory => TextErr::NoMemory,
    }
}

/// Reads a concept. Its new symbols are added in the order of the text; an error leaves the symbols as they were.
pub fn read_concept(
    alloc: Global,
    symbols: &mut Symbols,
    limits: Limits,
    text: &[u8],
) -> Result<Concept, TextErr>
    ensures reads { ReadsConcept symbols.old limits text.now symbols.new result }
    ensures small { IfOk result (IsSmall limits) }
    ensures numbered { IfOk result (λ c. IsTrue (has_symbols symbols.new c)) }
{
    let part = match scan_whole(alloc, text) {
        Ok(part) => part,
        Err(ScanErr::Bad { at }) => return Err(TextErr::Bad { at: capped(at) }),
        Err(ScanErr::NoMemory) => return Err(TextErr::NoMemory),
    };
    if let Err(e) = check_nodes(limits, &part) {
        return Err(e);
    }
    if let Err(e) = check_depth(limits, &part) {
        return Err(e);
    }
    let mark = symbols.mark();
    match build_concept(alloc, symbols, part.signs) {
        Ok(c) => Ok(c),
        Err(e) => {
            symbols.back(mark);
            Err(refusal(e))
        }
    }
}

fn check_sides(limits: Limits, sides: &Sides) -> Result<(), TextErr>
    ensures ok { OnOk result (AreWithin limits sides.now) }
    ensures err { IfErr result (OverSides limits sides.now) }
{
    if let Err(e) = check_nodes(limits, &sides.left) {
        return Err(e);
    }
    if let Err(e) = check_nodes(limits, &sides.right) {
        return Err(e);
    }
    if let Err(e) = check_depth(limits, &sides.left) {
        return Err(e);
    }
    if let Err(e) = check_depth(limits, &sides.right) {
        return Err(e);
    }
    Ok(())
}

/// Reads an axiom. The limits hold for each side, of which the left one is tested first. Its new symbols are added in the
/// order of the text; an error leaves the symbols as they were.
pub fn read_axiom(
    alloc: Global,
    symbols: &mut Symbols,
    limits: Limits,
    text: &[u8],
) -> Result<Axiom, TextErr>
    ensures reads { ReadsAxiom symbols.old limits text.now symbols.new result }
    ensures small { IfOk result (λ a. IsSmall limits a.left × IsSmall limits a.right) }
    ensures numbered { IfOk result (λ a. IsTrue (has_symbols symbols.new a.left) × IsTrue (has_symbols symbols.new a.right)) }
{
    let sides = match scan_axiom(alloc, text) {
        Ok(sides) => sides,
        Err(ScanErr::Bad { at }) => return Err(TextErr::Bad { at: capped(at) }),
        Err(ScanErr::NoMemory) => return Err(TextErr::NoMemory),
    };
    if let Err(e) = check_sides(limits, &sides) {
        return Err(e);
    }
    let before = symbols.mark();
    match build_axiom(alloc, symbols, sides.left.signs, sides.right.signs) {
        Ok(a) => Ok(a),
        Err(e) => {
            symbols.back(before);
            Err(refusal(e))
        }
    }
}
