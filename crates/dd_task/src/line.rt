// Lines with their reasons, and propagations.
use dd_concept::{Concept, Items};

/// The claim that no element of the peer has all concepts of the label, and its reason.
#[derive(Drop)]
pub struct Line {
    pub peer: u32,
    pub label: Items<Concept>,
    pub why: Why,
}

/// Why a line holds. `at` is a position in the line's label, `index` that of an axiom of the peer, and each other number is
/// that of an earlier line, but for those of `Clash` and the first three of `Bridge`.
#[derive(Drop)]
pub enum Why {
    Bottom,
    Clash {
        name: u32,
    },
    And {
        at: u32,
        cite: u32,
    },
    Or {
        at: u32,
        left: u32,
        right: u32,
    },
    Axiom {
        index: u32,
        left: u32,
        right: u32,
    },
    Cut {
        on: Concept,
        yes: u32,
        no: u32,
    },
    Successor {
        at: u32,
        cite: u32,
    },
    Bridge {
        from: u32,
        onto: u32,
        into_set: Items<u32>,
        cite: u32,
        each: Items<u32>,
    },
}

/// A key whose goal was proved impossible, and the number of the line that proves it.
#[derive(Drop)]
pub struct Prop {
    pub from: u32,
    pub onto: u32,
    pub into_set: Items<u32>,
    pub line: u32,
}
