//! Putting a label: it is found in the table, or added where there is room.
ghost use Rattle.std.specs.Prelude.{◌≡◌, ◌<◌, ◌≤◌, ℕ, List, [], ◌∷◌, ◌++◌, true, false, None, Some, Err, IfOk, IfSome, IsTrue, OnErr, length, slice_get};
ghost use Rattle.dd_set.specs.Words.{has};
ghost use Rattle.dd_rules.specs.Numbers.{is_saturated};
ghost use Rattle.dd_table.specs.Labels.{has_label};
ghost use Rattle.dd_graph.specs.Goes.{Adds, Idles, IsBegun, IsFull, IsReachedNow, Marks, Puts};
ghost use Rattle.dd_graph.specs.Reached.{AreReached, IsReachedIn};
ghost use Rattle.dd_graph.specs.Right.{IsClear};
ghost use Rattle.dd_graph.specs.View.{kernel_view, rules_at};

use crate::kernel::{Kernel, Stop};
use crate::node::{Entry, Node};
use dd_set::{Bits, NoMemory};
use std::alloc::Global;

impl<'b> Kernel<'b> {
    /// The position of the label, which is added where it is new. One that has a clash is closed at once.
    pub(crate) fn put(&mut self, alloc: Global, label: &Bits, saturated: bool) -> Result<u32, Stop>
        requires begun { IsBegun self.old }
        requires width { label.now.width ≡ self.old.table.width }
        requires reached { IsReachedNow self.old (has label.now.words) }
        requires saturated { saturated ≡ true → is_saturated (rules_at (kernel_view self.old)) (has label.now.words) ≡ true }
        ensures puts { Puts self.old self.new }
        ensures found { IfOk result (λ id. slice_get self.new.table.list id ≡ Some label.now.words) }
        ensures full { result ≡ Err Stop.Spent → IsFull self.new }
    {
        if let Some(id) = self.table.find(label) {
            self.mark(id);
            return Ok(id);
        }
        if self.left == 0 {
            return Err(self.keep_next(alloc, label));
        }
        match self.add(alloc, label, saturated) {
            Ok(id) => Ok(id),
            Err(_) => Err(Stop::NoMemory),
        }
    }

    /// Adds the label, which is not there yet, and closes it where it has a clash.
    pub(crate) fn add(
        &mut self,
        alloc: Global,
        label: &Bits,
        saturated: bool,
    ) -> Result<u32, NoMemory>
        requires near { self.old.goal ≤ length self.old.table.list }
        requires width { label.now.width ≡ self.old.table.width }
        requires absent { has_label self.old.table.list label.now.words ≡ false }
        requires room { 0 < self.old.left }
        requires reached { AreReached (rules_at (kernel_view self.old)) (self.old.table.list ++ label.now.words ∷ []) (self.old.reached.items ++ true ∷ []) self.old.goal }
        requires saturated { saturated ≡ true → is_saturated (rules_at (kernel_view self.old)) (has label.now.words) ≡ true }
        ensures puts { IfOk result (λ id. Puts self.old self.new × (id ≡ length self.old.table.list)) }
        ensures found { IfOk result (λ id. slice_get self.new.table.list id ≡ Some label.now.words) }
        ensures err { OnErr result (Idles self.old self.new) }
    {
        match self.compiled.clash(label) {
            Some(clash) => {
                let id = self.append(alloc, label, false)?;
                self.note_clash(id, clash);
                Ok(id)
            }
            None => {
                let id = self.append(alloc, label, saturated)?;
                Ok(id)
            }
        }
    }

    /// The label at this position is reached.
    pub(crate) fn mark(&mut self, id: u32)
        requires within { id < length self.old.table.list }
        requires reached { (g l : List ℕ) → slice_get self.old.table.list id ≡ Some l → slice_get self.old.table.list self.old.goal ≡ Some g → IsReachedIn (rules_at (kernel_view self.old)) (has g) (has l) }
        ensures { Marks id self.old self.new }
    {
        let marks = &mut self.reached;
        marks[id as usize] = true;
    }

    /// Adds the label, which is not there yet.
    fn append(&mut self, alloc: Global, label: &Bits, clear: bool) -> Result<u32, NoMemory>
        requires width { label.now.width ≡ self.old.table.width }
        requires absent { has_label self.old.table.list label.now.words ≡ false }
        requires room { 0 < self.old.left }
        requires reached { AreReached (rules_at (kernel_view self.old)) (self.old.table.list ++ label.now.words ∷ []) (self.old.reached.items ++ true ∷ []) self.old.goal }
        requires clear { clear ≡ true → IsClear (rules_at (kernel_view self.old)) (has label.now.words) }
        ensures adds { IfOk result (λ id. Adds label.now.words clear self.old self.new × (id ≡ length self.old.table.list)) }
        ensures err { OnErr result (Idles self.old self.new) }
    {
        self.entries.reserve(1)?;
        self.reached.reserve(1)?;
        let (id, _) = self.table.intern(alloc, label)?;
        self.entries.push_reserved(Entry {
            node: Node::Fresh,
            rank: None,
            open: false,
            upto: 0,
            clear,
        });
        self.reached.push_reserved(true);
        self.left -= 1;
        Ok(id)
    }

    /// Keeps the label, for which there is no room.
    fn keep_next(&mut self, alloc: Global, label: &Bits) -> Stop
        requires begun { IsBegun self.old }
        requires width { label.now.width ≡ self.old.table.width }
        requires absent { has_label self.old.table.list label.now.words ≡ false }
        requires room { self.old.left ≡ 0 }
        requires reached { IsReachedNow self.old (has label.now.words) }
        ensures puts { Puts self.old self.new }
        ensures full { result ≡ Stop.Spent → IsFull self.new }
    {
        match label.copy(alloc) {
            Ok(next) => {
                self.next = Some(next);
                Stop::Spent
            }
            Err(_) => Stop::NoMemory,
        }
    }
}
