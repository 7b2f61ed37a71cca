//! What the graph keeps. Each fact of it is one that every value has.
ghost use Rattle.std.specs.Prelude.{◌≡◌, length, vec_len};
ghost use Rattle.dd_rules.specs.Compiled.{AreProps, rules_in};
ghost use Rattle.dd_graph.specs.ConceptSet.{fit_prop};
ghost use Rattle.dd_graph.specs.Right.{AreEntries};
ghost use Rattle.dd_graph.specs.Reached.{AreReached};

use crate::node::Entry;
use dd_rules::{Compiled, Props, Step};
use dd_set::Bits;
use dd_table::Table;

/// The labels of a peer, what was done at each, and what the present call may still do.
#[derive(Drop)]
pub struct Kernel<'b> {
    pub(crate) compiled: Compiled,
    pub(crate) props: Props,
    pub(crate) table: Table<'b>,
    pub(crate) entries: Vec<Entry>,
    /// How many labels have a rank.
    pub(crate) closed: u32,
    /// The position of the label that the present call is about.
    pub(crate) goal: u32,
    /// Which labels are known to be reached from that one.
    pub(crate) reached: Vec<bool>,
    /// How many labels the present call may still put.
    pub(crate) left: u32,
    /// The label for which there was no room.
    pub(crate) next: Option<Bits>,
    ghost wide: { table.width ≡ length compiled.concepts },
    ghost fit: { AreProps compiled props } by { fit_prop compiled props },
    ghost right: { AreEntries (rules_in compiled props) table.list entries.items closed },
    ghost marked: { vec_len reached ≡ length table.list },
    ghost from_goal: { AreReached (rules_in compiled props) table.list reached.items goal },
}

/// Why a call of the kernel ends early.
#[derive(Clone, Copy)]
pub enum Stop {
    /// A new label had no room.
    Spent,
    NoMemory,
}

/// What to do at a label next, if it passes the kernel's tests.
#[derive(Clone, Copy)]
pub enum Advice {
    /// The first step that the label calls for.
    First,
    Take(Step),
    /// The label that the existential restriction with this number asks for is closed, or will be at its next step.
    Refute(u32),
}
