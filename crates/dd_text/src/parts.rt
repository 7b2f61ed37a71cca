ghost use Rattle.std.specs.Prelude.{◌≡◌, ◌≤◌, false, IfOk, IfErr, length, drop, nat_eq};
ghost use Rattle.std.specs.List.{common_prefix_len};
ghost use Rattle.dd_text.specs.Names.{is_byte_of_name};
ghost use Rattle.dd_text.specs.Grammar.{IsConceptText, IsAxiomText};
ghost use Rattle.dd_text.specs.Parts.{IsBefore, IsWholeAxiom, IsWholeConcept, LeavesBefore, LeavesGrammar, axiom_head};

use crate::grammar::{Sign, scan_concept};
use dd_concept::Items;
use std::alloc::Global;

/// What an axiom's text begins with.
const HEAD: &[u8; 9] = b"(implies ";

/// A concept that was read, as its nodes in the order of the text.
#[derive(Drop)]
pub struct Part {
    pub signs: Items<Sign>,
    pub depth: usize,
}

/// A concept, and how many bytes stand up to the byte after it.
#[derive(Drop)]
pub struct Before {
    pub part: Part,
    pub read: usize,
}

/// The sides of an axiom.
#[derive(Drop)]
pub struct Sides {
    pub left: Part,
    pub right: Part,
}

#[derive(Drop)]
pub enum ScanErr {
    /// The text is not in the grammar: with its first `at` bytes no text of the grammar begins.
    Bad { at: usize },
    NoMemory,
}

/// Reads a text that is to be a concept.
pub fn scan_whole(alloc: Global, text: &[u8]) -> Result<Part, ScanErr>
    ensures ok { IfOk result (IsWholeConcept text.now) }
    ensures err { IfErr result (LeavesGrammar IsConceptText text.now) }
{
    let Ok(scanned) = scan_concept(alloc, text) else {
        return Err(ScanErr::NoMemory);
    };
    if !scanned.whole {
        return Err(ScanErr::Bad {
            at: scanned.read + 1,
        });
    }
    if scanned.read < text.len() {
        return Err(ScanErr::Bad {
            at: scanned.read + 1,
        });
    }
    Ok(Part {
        signs: scanned.signs,
        depth: scanned.depth,
    })
}

fn scan_before(alloc: Global, text: &[u8], end: u8) -> Result<Before, ScanErr>
    requires { is_byte_of_name end ≡ false }
    ensures ok { IfOk result (IsBefore end text.now) }
    ensures within { IfOk result (λ b. b.read ≤ length text.now) }
    ensures err { IfErr result (LeavesBefore end text.now) }
{
    let Ok(scanned) = scan_concept(alloc, text) else {
        return Err(ScanErr::NoMemory);
    };
    let read = scanned.read;
    if !scanned.whole {
        return Err(ScanErr::Bad { at: read + 1 });
    }
    if read == text.len() {
        return Err(ScanErr::Bad { at: read + 1 });
    }
    if text[read] != end {
        return Err(ScanErr::Bad { at: read + 1 });
    }
    let part = Part {
        signs: scanned.signs,
        depth: scanned.depth,
    };
    Ok(Before {
        part,
        read: read + 1,
    })
}

fn head_len(text: &[u8]) -> usize
    ensures { result ≡ common_prefix_len nat_eq axiom_head text.now }
{
    for (i, byte) in HEAD.iter().enumerate() {
        if i == text.len() {
            return i;
        }
        if text[i] != *byte {
            return i;
        }
    }
    9
}

fn tail(text: &[u8], from: usize) -> &[u8]
    requires { from ≤ length text.now }
    ensures { result.now ≡ drop from text.now }
{
    &text[from..]
}

/// Reads a text that is to be an axiom.
pub fn scan_axiom(alloc: Global, text: &[u8]) -> Result<Sides, ScanErr>
    ensures ok { IfOk result (IsWholeAxiom text.now) }
    ensures err { IfErr result (LeavesGrammar IsAxiomText text.now) }
{
    let head = head_len(text);
    if head < 9 {
        return Err(ScanErr::Bad { at: head + 1 });
    }
    let left = match scan_before(alloc, tail(text, 9), b' ') {
        Ok(left) => left,
        Err(ScanErr::Bad { at }) => return Err(ScanErr::Bad { at: 9 + at }),
        Err(ScanErr::NoMemory) => return Err(ScanErr::NoMemory),
    };
    let second = 9 + left.read;
    let right = match scan_before(alloc, tail(text, second), b')') {
        Ok(right) => right,
        Err(ScanErr::Bad { at }) => return Err(ScanErr::Bad { at: second + at }),
        Err(ScanErr::NoMemory) => return Err(ScanErr::NoMemory),
    };
    let end = second + right.read;
    if end < text.len() {
        return Err(ScanErr::Bad { at: end + 1 });
    }
    Ok(Sides {
        left: left.part,
        right: right.part,
    })
}
