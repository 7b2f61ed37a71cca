//! The search: labels are expanded until the goal is closed or open.
ghost use Rattle.std.specs.Prelude.{◌≡◌, ◌≢◌, ◌+◌, ◌^◌, ◌<◌, ◌≤◌, Err, None, Ok, Some, IfOk, IfSome, IsTrue, OnOk, length, slice_get, true, false};
ghost use Rattle.dd_graph.specs.Decided.{IsSpent, NewAreReached, OnClosed, OnOpen, OnSpent};
ghost use Rattle.dd_graph.specs.Goes.{Goes, IsBegun, IsFull, Lessens, unfinished_at};
ghost use Rattle.dd_graph.specs.Last.{IsLast, NextHasWidth};
ghost use Rattle.dd_graph.specs.Right.{open_at, rank_at};
ghost use Rattle.dd_graph.specs.View.{IsAt, Keeps, is_open_at, kernel_view, rank_of};

use crate::decided::Decided;
use crate::kernel::{Kernel, Stop};
use crate::walk::Walk;
use dd_set::{Bits, NoMemory};
use std::alloc::Global;

impl<'b> Kernel<'b> {
    /// Decides whether an element can have the label.
    pub(crate) fn decide(
        &mut self,
        alloc: Global,
        walk: &mut Walk,
        label: &Bits,
        budget: u32,
    ) -> Result<Decided, NoMemory>
        requires width { label.now.width ≡ length (kernel_view self.old).closure.concepts }
        ensures kept { Keeps (kernel_view self.old) (kernel_view self.new) }
        ensures few { length (kernel_view self.new).labels ≤ length (kernel_view self.old).labels + budget }
        ensures reached { NewAreReached (kernel_view self.old) (kernel_view self.new) label.now.words }
        ensures closed { IfOk result (OnClosed (λ id rank. IsAt (kernel_view self.new) id label.now.words × (rank_of (kernel_view self.new) id ≡ Some rank))) }
        ensures open { IfOk result (OnOpen (λ id. IsAt (kernel_view self.new) id label.now.words × (is_open_at (kernel_view self.new) id ≡ true))) }
        ensures spent { IfOk result (OnSpent (λ next. IsSpent (kernel_view self.old) (kernel_view self.new) label.now.words budget next)) }
        ensures next_width { IfOk result (NextHasWidth (length (kernel_view self.old).closure.concepts)) }
        ensures enough { IfOk result (OnSpent (λ next. budget < 2 ^ length (kernel_view self.old).closure.concepts)) }
    {
        walk.restart();
        self.compiled.known();
        label.width();
        match self.begin(alloc, label, budget)? {
            Some(id) => {
                let decided = self.settle(alloc, walk, id)?;
                self.table.len();
                Ok(decided)
            }
            None => Ok(Decided::Spent {
                next: label.copy(alloc)?,
            }),
        }
    }

    /// The answer about the goal, which is at this position.
    fn settle(&mut self, alloc: Global, walk: &mut Walk, id: u32) -> Result<Decided, NoMemory>
        requires begun { IsBegun self.old }
        requires goal { self.old.goal ≡ id }
        ensures goes { Goes self.old self.new }
        ensures closed { IfOk result (OnClosed (λ i rank. (i ≡ id) × (rank_at self.new.entries.items id ≡ Some rank))) }
        ensures open { IfOk result (OnOpen (λ i. (i ≡ id) × (open_at self.new.entries.items id ≡ true))) }
        ensures spent { IfOk result (OnSpent (IsLast self.new)) }
        ensures next_width { IfOk result (NextHasWidth self.new.table.width) }
    {
        match self.search(alloc, walk) {
            Ok(true) => match self.rank(self.goal) {
                Some(rank) => Ok(Decided::Closed { id, rank }),
                None => unreachable!(),
            },
            Ok(false) => Ok(Decided::Open { id }),
            Err(Stop::Spent) => Ok(Decided::Spent {
                next: self.last_label(alloc)?,
            }),
            Err(Stop::NoMemory) => Err(NoMemory),
        }
    }

    /// The label for which there was no room.
    fn last_label(&self, alloc: Global) -> Result<Bits, NoMemory>
        requires { IsFull self.now }
        ensures last { IfOk result (λ next. IsLast self.now next.words) }
        ensures width { IfOk result (λ next. next.width ≡ self.now.table.width) }
    {
        match &self.next {
            Some(next) => {
                next.width();
                next.copy(alloc)
            }
            None => unreachable!(),
        }
    }

    /// Expands labels until the goal is closed or open, and tells whether it is closed.
    fn search(&mut self, alloc: Global, walk: &mut Walk) -> Result<bool, Stop>
        requires begun { IsBegun self.old }
        ensures goes { Goes self.old self.new }
        ensures closed { result ≡ Ok true → rank_at self.new.entries.items self.new.goal ≢ None }
        ensures opened { result ≡ Ok false → open_at self.new.entries.items self.new.goal ≡ true }
        ensures full { result ≡ Err Stop.Spent → IsFull self.new }
    {
        while self.rank(self.goal).is_none() {
            if !self.turn(alloc, walk)? {
                return Ok(false);
            }
        }
        Ok(true)
    }

    /// One turn of the search, and whether the goal is not open yet.
    fn turn(&mut self, alloc: Global, walk: &mut Walk) -> Result<bool, Stop>
        requires begun { IsBegun self.old }
        requires unranked { rank_at self.old.entries.items self.old.goal ≡ None }
        ensures goes { Goes self.old self.new }
        ensures less { result ≡ Ok true → Lessens self.old self.new }
        ensures opened { result ≡ Ok false → open_at self.new.entries.items self.new.goal ≡ true }
        ensures full { result ≡ Err Stop.Spent → IsFull self.new }
    {
        match self.next_left(alloc, walk) {
            Ok(Some(id)) => {
                let Ok(advice) = walk.advice(alloc, self, id) else {
                    return Err(Stop::NoMemory);
                };
                let at = self.place(alloc, id, advice)?;
                self.expand(alloc, at, advice)?;
                match walk.settled(self, at) {
                    Ok(()) => Ok(true),
                    Err(_) => Err(Stop::NoMemory),
                }
            }
            Ok(None) => Ok(false),
            Err(_) => Err(Stop::NoMemory),
        }
    }

    /// A label that is reached and unfinished: the walk's next one if it is, or one that the check of the goal tells. None: the
    /// goal is open.
    fn next_left(&mut self, alloc: Global, walk: &mut Walk) -> Result<Option<u32>, NoMemory>
        requires begun { IsBegun self.old }
        requires unranked { rank_at self.old.entries.items self.old.goal ≡ None }
        ensures goes { Goes self.old self.new }
        ensures left { IfOk result (λ o. IfSome o (λ id. unfinished_at self.new id ≡ true)) }
        ensures opened { result ≡ Ok None → open_at self.new.entries.items self.new.goal ≡ true }
    {
        if let Some(id) = walk.next(self)? {
            if self.is_unfinished(id) {
                return Ok(Some(id));
            }
        }
        match self.confirm(alloc, walk)? {
            Some(id) => {
                walk.resume(id)?;
                Ok(Some(id))
            }
            None => Ok(None),
        }
    }
}
