//! The graph of a peer's labels, as it is read.
ghost use Rattle.std.specs.Prelude.{◌≡◌, ◌+◌, ◌^◌, ◌<◌, ◌≤◌, [], true, IfOk, Some, length};
ghost use Rattle.dd_concept.specs.Closed.{IsClosedFor};
ghost use Rattle.dd_concept.specs.Normal.{IsNormal};
ghost use Rattle.dd_concept.specs.Same.{has as has_concept};
ghost use Rattle.dd_concept.specs.declared.concept.Concept.{Concept};
ghost use Rattle.dd_rules.specs.Closure.{are_distinct};
ghost use Rattle.dd_rules.specs.Compiled.{AreProps};
ghost use Rattle.dd_graph.specs.Decided.{IsSpent, NewAreReached, OnClosed, OnOpen, OnSpent};
ghost use Rattle.dd_graph.specs.Last.{NextHasWidth};
ghost use Rattle.dd_graph.specs.View.{IsAt, IsGraph, Keeps, is_open_at, node_at, props_at, rank_of, view_of};

use crate::decided::Decided;
use crate::kernel::Kernel;
use crate::node::Node;
use crate::walk::Walk;
use bumpalo::Bump;
use dd_rules::{Compiled, Props};
use dd_set::{Bits, NoMemory};
use dd_table::Table;
use std::alloc::Global;

/// The graph of a peer's labels. It grows from call to call.
#[derive(Drop)]
pub struct Graph<'b> {
    pub(crate) kernel: Kernel<'b>,
    walk: Walk,
}

impl<'b> Graph<'b> {
    /// No labels yet. Their words will lie in the arena.
    pub fn new(
        alloc: Global,
        arena: &'b Bump,
        compiled: Compiled,
        props: Props,
    ) -> Result<Graph<'b>, NoMemory>
        requires { AreProps compiled props }
        ensures { IfOk result (λ g. view_of g ≡ record { closure = compiled; props = props; labels = []; entries = []; closed = 0 }) }
    {
        let table = Table::new(alloc, arena, compiled.count())?;
        Ok(Graph {
            kernel: Kernel {
                compiled,
                props,
                table,
                entries: Vec::new(alloc),
                closed: 0,
                goal: 0,
                reached: Vec::new(alloc),
                left: 0,
                next: None,
            },
            walk: Walk::new(alloc),
        })
    }

    /// What holds of every graph. The call does nothing.
    pub fn known(&self)
        ensures graph { IsGraph (view_of self.now) }
        ensures few { length (view_of self.now).closure.concepts ≤ 4096 }
        ensures distinct { are_distinct (view_of self.now).closure.concepts ≡ true }
        ensures closed { IsClosedFor (view_of self.now).closure.axioms (props_at (view_of self.now)) (view_of self.now).closure.concepts }
        ensures normal { (c : Concept) → has_concept (view_of self.now).closure.concepts c ≡ true → IsNormal c }
    {
        self.kernel.compiled.known();
        let _labels = self.kernel.table.len();
    }

    /// The labels.
    pub fn table(&self) -> &Table<'b>
        ensures labels { result.now.list ≡ (view_of self.now).labels }
        ensures width { result.now.width ≡ length (view_of self.now).closure.concepts }
    {
        &self.kernel.table
    }

    /// The peer's closure.
    pub fn compiled(&self) -> &Compiled
        ensures { result.now ≡ (view_of self.now).closure }
    {
        &self.kernel.compiled
    }

    /// The propagations into the peer.
    pub fn props(&self) -> &Props
        ensures { result.now ≡ (view_of self.now).props }
    {
        &self.kernel.props
    }

    /// What was done at the label.
    pub fn node(&self, id: u32) -> &Node
        requires { id < length (view_of self.now).labels }
        ensures { result.now ≡ node_at (view_of self.now) id }
    {
        &self.kernel.entries[id as usize].node
    }

    /// How many labels were closed before this one, where it is closed.
    pub fn rank(&self, id: u32) -> Option<u32>
        requires { id < length (view_of self.now).labels }
        ensures { result ≡ rank_of (view_of self.now) id }
    {
        self.kernel.entries[id as usize].rank
    }

    /// Whether the label is part of a complete open part of the graph.
    pub fn is_open(&self, id: u32) -> bool
        requires { id < length (view_of self.now).labels }
        ensures { result ≡ is_open_at (view_of self.now) id }
    {
        self.kernel.entries[id as usize].open
    }
    /// Decides whether an element can have the label. The call puts at most `budget` new labels, and the answer's position is
    /// that of the label itself, and not that of a larger one.
    ///
    /// Labels that are there already cost nothing. After `Spent` or want of memory the graph may have more labels, and the
    /// call may be made again.
    pub fn decide(&mut self, alloc: Global, label: &Bits, budget: u32) -> Result<Decided, NoMemory>
        requires width { label.now.width ≡ length (view_of self.old).closure.concepts }
        ensures kept { Keeps (view_of self.old) (view_of self.new) }
        ensures few { length (view_of self.new).labels ≤ length (view_of self.old).labels + budget }
        ensures reached { NewAreReached (view_of self.old) (view_of self.new) label.now.words }
        ensures closed { IfOk result (OnClosed (λ id rank. IsAt (view_of self.new) id label.now.words × (rank_of (view_of self.new) id ≡ Some rank))) }
        ensures open { IfOk result (OnOpen (λ id. IsAt (view_of self.new) id label.now.words × (is_open_at (view_of self.new) id ≡ true))) }
        ensures spent { IfOk result (OnSpent (λ next. IsSpent (view_of self.old) (view_of self.new) label.now.words budget next)) }
        ensures next_width { IfOk result (NextHasWidth (length (view_of self.old).closure.concepts)) }
        ensures enough { IfOk result (OnSpent (λ next. budget < 2 ^ length (view_of self.old).closure.concepts)) }
    {
        self.kernel.decide(alloc, &mut self.walk, label, budget)
    }
}
