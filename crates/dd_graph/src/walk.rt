//! Which label is taken next: depth first, and what closes is told to the labels that lead to it. All of this is advice, so
//! the contracts promise no more than that the kernel stays right.
ghost use Rattle.dd_graph.specs.Goes.{Goes, IsBegun};

use crate::kernel::{Advice, Kernel};
use crate::order::Order;
use dd_set::NoMemory;
use std::alloc::Global;

/// The labels on the way from the goal to the one that is worked at, and who leads to a label.
#[derive(Drop)]
pub(crate) struct Walk {
    /// The positions on the way.
    stack: Vec<u32>,
    /// What is kept of each label, as far as there is something.
    notes: Vec<Note>,
    /// Labels, each with the edge before that leads to the same one, counted from 1.
    edges: Vec<(u32, usize)>,
    /// Labels that were closed and whose leaders were not told.
    untold: Vec<u32>,
    order: Order,
}

/// What the walk keeps of a label.
#[derive(Clone, Copy)]
struct Note {
    /// Whether it is or was on the way.
    seen: bool,
    /// Its place on the way, counted from 1.
    place: usize,
    /// The newest edge that leads to it, counted from 1.
    edge: usize,
    /// How many of its children have an edge from it.
    linked: u32,
    /// The child of a split that is taken first.
    prefer: u32,
}

const BLANK: Note = Note {
    seen: false,
    place: 0,
    edge: 0,
    linked: 0,
    prefer: 0,
};

impl Walk {
    pub(crate) fn new(alloc: Global) -> Walk {
        Walk {
            stack: Vec::new(alloc),
            notes: Vec::new(alloc),
            edges: Vec::new(alloc),
            untold: Vec::new(alloc),
            order: Order::new(alloc),
        }
    }

    /// A call begins: no label is on the way.
    pub(crate) fn restart(&mut self) {
        self.stack.clear();
        for note in self.notes.iter_mut() {
            note.seen = false;
            note.place = 0;
        }
    }

    /// The label comes next, wherever the walk was.
    pub(crate) fn resume(&mut self, id: u32) -> Result<(), NoMemory> {
        self.cut(0);
        self.step_to(id)
    }

    /// The child of a split that was taken first.
    pub(crate) fn preferred(&self, id: u32) -> u32 {
        self.note(id).prefer
    }

    /// The next label to work at, if the walk knows one.
    pub(crate) fn next(&mut self, kernel: &Kernel<'_>) -> Result<Option<u32>, NoMemory> {
        if self.stack.is_empty() && !self.note(kernel.goal).seen {
            self.step_to(kernel.goal)?;
        }
        let bound = self.stack.len().saturating_add(kernel.table.len() as usize);
        for _ in 0..bound {
            let Some(id) = self.top() else {
                return Ok(None);
            };
            match self.next_child(kernel, id) {
                Some(child) => self.step_to(child)?,
                None => {
                    if kernel.is_unfinished(id) {
                        return Ok(Some(id));
                    }
                    self.step_back();
                }
            }
        }
        Ok(None)
    }

    /// What to do at the label, where it is saturated.
    pub(crate) fn advice(
        &mut self,
        alloc: Global,
        kernel: &Kernel<'_>,
        id: u32,
    ) -> Result<Advice, NoMemory> {
        let Some(label) = kernel.saturated_at(alloc, id)? else {
            return Ok(Advice::First);
        };
        if let Some(n) = kernel.dead_end(alloc, &label)? {
            return Ok(Advice::Refute(n));
        }
        match self.order.choose(alloc, kernel, &label)? {
            Some(choice) => {
                let mut note = self.note(id);
                note.prefer = choice.child;
                self.set_note(id, note)?;
                Ok(Advice::Take(choice.step))
            }
            None => Ok(Advice::First),
        }
    }

    fn top(&self) -> Option<u32> {
        match self.stack.as_slice().last() {
            Some(id) => Some(*id),
            None => None,
        }
    }

    fn note(&self, id: u32) -> Note {
        match self.notes.get(id as usize) {
            Some(note) => *note,
            None => BLANK,
        }
    }

    fn set_note(&mut self, id: u32, note: Note) -> Result<(), NoMemory> {
        let at = id as usize;
        if self.notes.len() <= at {
            self.notes.resize(at + 1, BLANK)?;
        }
        if let Some(old) = self.notes.get_mut(at) {
            *old = note;
        }
        Ok(())
    }

    /// A child of the label that is needed, may be open and was not seen.
    fn next_child(&self, kernel: &Kernel<'_>, id: u32) -> Option<u32> {
        if !kernel.is_undecided(id) {
            return None;
        }
        if kernel.is_split(id) {
            let child = self.child_of_split(kernel, id)?;
            return self.unseen(kernel, child);
        }
        for k in 0..u32::MAX {
            let child = kernel.child_at(id, k)?;
            if let Some(found) = self.unseen(kernel, child) {
                return Some(found);
            }
        }
        None
    }

    fn unseen(&self, kernel: &Kernel<'_>, child: u32) -> Option<u32> {
        if kernel.is_undecided(child) && !self.note(child).seen {
            Some(child)
        } else {
            None
        }
    }

    /// The preferred child of a split, where it is not closed, and else the first that is not.
    fn child_of_split(&self, kernel: &Kernel<'_>, id: u32) -> Option<u32> {
        if let Some(child) = kernel.child_at(id, self.note(id).prefer) {
            if kernel.rank(child).is_none() {
                return Some(child);
            }
        }
        for k in 0..u32::MAX {
            let child = kernel.child_at(id, k)?;
            if kernel.rank(child).is_none() {
                return Some(child);
            }
        }
        None
    }

    /// The label is the last on the way.
    fn step_to(&mut self, id: u32) -> Result<(), NoMemory> {
        self.stack.push(id)?;
        let mut note = self.note(id);
        note.seen = true;
        note.place = self.stack.len();
        self.set_note(id, note)
    }

    fn step_back(&mut self) {
        if let Some(id) = self.stack.pop() {
            if let Some(note) = self.notes.get_mut(id as usize) {
                note.place = 0;
            }
        }
    }

    /// Leaves this many labels on the way. Those that go were not seen.
    fn cut(&mut self, keep: usize) {
        let more = self.stack.len().saturating_sub(keep);
        for _ in 0..more {
            if let Some(id) = self.stack.pop() {
                if let Some(note) = self.notes.get_mut(id as usize) {
                    note.place = 0;
                    note.seen = false;
                }
            }
        }
    }

    /// A step was taken at the label: what was closed is told to the labels that lead to it.
    pub(crate) fn settled(&mut self, kernel: &mut Kernel<'_>, id: u32) -> Result<(), NoMemory>
        requires { IsBegun kernel.old }
        ensures { Goes kernel.old kernel.new }
    {
        self.link(kernel, id)?;
        kernel.close(id);
        if kernel.rank(id).is_none() {
            return Ok(());
        }
        self.untold.clear();
        self.untold.push(id)?;
        let bound = kernel.table.len();
        let mut keep = self.stack.len();
        for _ in 0..bound {
            let Some(closed) = self.untold.pop() else {
                break;
            };
            keep = self.before(closed, keep);
            self.tell(kernel, closed)?;
        }
        self.cut(keep);
        Ok(())
    }

    /// The lower of the number and the number of labels on the way before this one.
    fn before(&self, id: u32, keep: usize) -> usize {
        let place = self.note(id).place;
        if place == 0 || place > keep {
            keep
        } else {
            place - 1
        }
    }

    /// Closes the labels that lead to this one, as far as they can be closed.
    fn tell(&mut self, kernel: &mut Kernel<'_>, closed: u32) -> Result<(), NoMemory>
        requires { IsBegun kernel.old }
        ensures { Goes kernel.old kernel.new }
    {
        let bound = self.edges.len();
        let mut edge = self.note(closed).edge;
        for _ in 0..bound {
            let Some((leader, before)) = self.edge(edge) else {
                return Ok(());
            };
            if kernel.close(leader) {
                self.untold.push(leader)?;
            }
            edge = before;
        }
        Ok(())
    }

    fn edge(&self, edge: usize) -> Option<(u32, usize)> {
        if edge == 0 {
            return None;
        }
        match self.edges.get(edge - 1) {
            Some(found) => Some(*found),
            None => None,
        }
    }

    /// Notes that the label leads to its children, as far as that was not noted.
    fn link(&mut self, kernel: &Kernel<'_>, id: u32) -> Result<(), NoMemory> {
        for k in self.note(id).linked..u32::MAX {
            let Some(child) = kernel.child_at(id, k) else {
                return Ok(());
            };
            self.link_to(id, child)?;
        }
        Ok(())
    }

    fn link_to(&mut self, id: u32, child: u32) -> Result<(), NoMemory> {
        let mut to = self.note(child);
        self.edges.push((id, to.edge))?;
        to.edge = self.edges.len();
        self.set_note(child, to)?;
        let mut from = self.note(id);
        from.linked = from.linked.saturating_add(1);
        self.set_note(id, from)
    }
}
