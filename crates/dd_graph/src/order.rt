//! Which step a label takes: the one with the fewest ways out, and among these the one that leaves the least to the others. All
//! of this is advice.
use crate::kernel::Kernel;
use dd_rules::{Shape, Step};
use dd_set::{Bits, NoMemory};
use std::alloc::Global;

/// A disjunction of no more leaves than these is looked at.
const MOST_LEAVES: u32 = 64;

/// How deep a concept is looked into.
const MOST_DEEP: u32 = 8;

/// A step that a label calls for, and where its leaves stand.
#[derive(Clone, Copy)]
struct Pending {
    step: Step,
    from: usize,
    to: usize,
}

/// An end of a nest of disjunctions that may still hold, and the addition of the step that it belongs to.
#[derive(Clone, Copy)]
struct Leaf {
    number: u32,
    child: u32,
}

/// A step, how many leaves it has, how much it leaves to the others, and its best child.
#[derive(Clone, Copy)]
pub(crate) struct Choice {
    pub(crate) step: Step,
    pub(crate) child: u32,
    leaves: usize,
    score: u64,
}

/// The steps of one label.
#[derive(Drop)]
pub(crate) struct Order {
    /// The axioms that a label may call for that has none of their names.
    axioms: Vec<u32>,
    /// Whether the axioms were looked at.
    ready: bool,
    pending: Vec<Pending>,
    leaves: Vec<Leaf>,
    /// Per number how much it would help as a leaf.
    weights: Vec<u64>,
    /// Concepts whose leaves are looked for.
    todo: Vec<u32>,
}

impl Order {
    pub(crate) fn new(alloc: Global) -> Order {
        Order {
            axioms: Vec::new(alloc),
            ready: false,
            pending: Vec::new(alloc),
            leaves: Vec::new(alloc),
            weights: Vec::new(alloc),
            todo: Vec::new(alloc),
        }
    }

    /// The step that a saturated label takes best, if one was found.
    pub(crate) fn choose(
        &mut self,
        alloc: Global,
        kernel: &Kernel<'_>,
        label: &Bits,
    ) -> Result<Option<Choice>, NoMemory> {
        self.prepare(alloc, kernel)?;
        self.pending.clear();
        self.leaves.clear();
        self.add_disjunctions(kernel, label)?;
        self.add_axioms(kernel, label)?;
        self.add_propagations(kernel, label)?;
        self.weigh(kernel)?;
        Ok(self.best(kernel))
    }

    /// Looks once which axioms a label without names calls for.
    fn prepare(&mut self, alloc: Global, kernel: &Kernel<'_>) -> Result<(), NoMemory> {
        if self.ready {
            return Ok(());
        }
        let none = Bits::new(alloc, kernel.compiled.count())?;
        for index in 0..u32::MAX {
            if kernel.sides_of(index).is_none() {
                break;
            }
            if kernel.called(&none, Step::Axiom { index }).is_some() {
                self.axioms.push(index)?;
            }
        }
        self.ready = true;
        Ok(())
    }

    fn add_disjunctions(&mut self, kernel: &Kernel<'_>, label: &Bits) -> Result<(), NoMemory> {
        for n in 0..kernel.compiled.count() {
            if label.contains(n) && is_open_or(kernel, label, n) {
                self.add(kernel, label, Step::Or { at: n })?;
            }
        }
        Ok(())
    }

    fn add_axioms(&mut self, kernel: &Kernel<'_>, label: &Bits) -> Result<(), NoMemory> {
        for i in 0..self.axioms.len() {
            let Some(index) = self.axiom(i) else {
                break;
            };
            if is_open_axiom(kernel, label, index) {
                self.add(kernel, label, Step::Axiom { index })?;
            }
        }
        Ok(())
    }

    fn axiom(&self, i: usize) -> Option<u32> {
        match self.axioms.get(i) {
            Some(index) => Some(*index),
            None => None,
        }
    }

    fn add_propagations(&mut self, kernel: &Kernel<'_>, label: &Bits) -> Result<(), NoMemory> {
        for prop in 0..kernel.prop_count() {
            if let Some(step) = open_prop(kernel, label, prop) {
                self.add(kernel, label, step)?;
            }
        }
        Ok(())
    }

    /// Adds the step, with the leaves of its additions.
    fn add(&mut self, kernel: &Kernel<'_>, label: &Bits, step: Step) -> Result<(), NoMemory> {
        let from = self.leaves.len();
        for child in 0..MOST_LEAVES {
            let Some(number) = kernel.addition(step, child) else {
                break;
            };
            self.add_leaves(kernel, label, Leaf { number, child })?;
        }
        let to = self.leaves.len();
        self.pending.push(Pending { step, from, to })?;
        Ok(())
    }

    /// Adds the ends of the addition's nest of disjunctions that may hold.
    fn add_leaves(
        &mut self,
        kernel: &Kernel<'_>,
        label: &Bits,
        leaf: Leaf,
    ) -> Result<(), NoMemory> {
        self.todo.clear();
        self.todo.push(leaf.number)?;
        for _ in 0..MOST_LEAVES {
            let Some(number) = self.todo.pop() else {
                return Ok(());
            };
            match kernel.shape_of(number) {
                Shape::Or(left, right) => {
                    self.todo.push(right)?;
                    self.todo.push(left)?;
                }
                _ => {
                    if !is_dead(kernel, label, number, MOST_DEEP) {
                        self.leaves.push(Leaf { number, ..leaf })?;
                    }
                }
            }
        }
        Ok(())
    }

    /// Gives each leaf a weight for each step that it is a leaf of: the more, the fewer leaves the step has.
    fn weigh(&mut self, kernel: &Kernel<'_>) -> Result<(), NoMemory> {
        self.weights.clear();
        self.weights.resize(kernel.compiled.count() as usize, 0)?;
        for i in 0..self.pending.len() {
            let Some(step) = self.step(i) else {
                break;
            };
            self.weigh_step(step);
        }
        Ok(())
    }

    fn weigh_step(&mut self, step: Pending) {
        let weight = weight_of(step.to.saturating_sub(step.from));
        for k in step.from..step.to {
            self.add_weight(k, weight);
        }
    }

    fn step(&self, i: usize) -> Option<Pending> {
        match self.pending.get(i) {
            Some(step) => Some(*step),
            None => None,
        }
    }

    fn add_weight(&mut self, k: usize, weight: u64) {
        if let Some(leaf) = self.leaves.get(k) {
            if let Some(old) = self.weights.get_mut(leaf.number as usize) {
                *old = old.saturating_add(weight);
            }
        }
    }

    /// The step with the fewest leaves, and among these the one with the greatest score.
    fn best(&self, kernel: &Kernel<'_>) -> Option<Choice> {
        let mut best: Option<Choice> = None;
        for i in 0..self.pending.len() {
            let Some(step) = self.step(i) else {
                break;
            };
            if step.to.saturating_sub(step.from) <= least_of(&best) {
                best = better(best, self.choice_of(kernel, step));
            }
        }
        best
    }

    fn choice_of(&self, kernel: &Kernel<'_>, pending: Pending) -> Choice {
        let mut score = 0u64;
        let mut child = 0;
        let mut weight = 0;
        for k in pending.from..pending.to {
            let Some(leaf) = self.leaves.get(k) else {
                break;
            };
            score = score.saturating_add(log_of(self.weight_of_complement(kernel, leaf.number)));
            let own = self.weight(leaf.number);
            if own > weight {
                weight = own;
                child = leaf.child;
            }
        }
        Choice {
            step: pending.step,
            child,
            leaves: pending.to.saturating_sub(pending.from),
            score,
        }
    }

    fn weight(&self, n: u32) -> u64 {
        match self.weights.get(n as usize) {
            Some(weight) => *weight,
            None => 0,
        }
    }

    fn weight_of_complement(&self, kernel: &Kernel<'_>, n: u32) -> u64 {
        match kernel.complement_of(n) {
            Some(m) => self.weight(m),
            None => 0,
        }
    }
}

fn least_of(best: &Option<Choice>) -> usize {
    match best {
        Some(choice) => choice.leaves,
        None => usize::MAX,
    }
}

fn better(best: Option<Choice>, other: Choice) -> Option<Choice> {
    match best {
        Some(choice) => {
            if other.leaves == choice.leaves && other.score <= choice.score {
                Some(choice)
            } else {
                Some(other)
            }
        }
        None => Some(other),
    }
}

/// 4 to the power of minus the number of leaves, times 2^40.
fn weight_of(leaves: usize) -> u64 {
    if leaves < 20 {
        (1u64 << 40) >> (2 * leaves)
    } else {
        1
    }
}

/// Sixteen times the binary logarithm of 1 + 8 w, where the weight is w times 2^40.
fn log_of(weight: u64) -> u64 {
    let sum = weight.saturating_mul(8).saturating_add(1 << 40);
    let whole = sum.ilog2();
    let part = if whole < 4 {
        0
    } else {
        (sum >> (whole - 4)) & 15
    };
    ((whole as u64) * 16 + part).saturating_sub(640)
}

fn is_open_or(kernel: &Kernel<'_>, label: &Bits, n: u32) -> bool {
    match kernel.shape_of(n) {
        Shape::Or(left, right) => !label.contains(left) && !label.contains(right),
        _ => false,
    }
}

fn is_open_axiom(kernel: &Kernel<'_>, label: &Bits, index: u32) -> bool {
    match kernel.sides_of(index) {
        Some((left, right)) => !label.contains(left) && !label.contains(right),
        None => false,
    }
}

/// The step of a propagation that the label calls for.
fn open_prop(kernel: &Kernel<'_>, label: &Bits, prop: u32) -> Option<Step> {
    let (onto, not_onto) = kernel.onto_of(prop)?;
    if label.contains(not_onto) {
        return None;
    }
    if label.contains(onto) {
        return kernel.called(label, Step::Bridge { prop });
    }
    kernel.called(label, Step::Cut { on: onto })
}

/// Whether the concept cannot be added without a clash, as far as this is seen at once.
fn is_dead(kernel: &Kernel<'_>, label: &Bits, n: u32, deep: u32) -> bool {
    if let Some(m) = kernel.complement_of(n) {
        if label.contains(m) {
            return true;
        }
    }
    if deep == 0 {
        return false;
    }
    match kernel.shape_of(n) {
        Shape::Bottom => true,
        Shape::And(left, right) => {
            is_dead(kernel, label, left, deep - 1) || is_dead(kernel, label, right, deep - 1)
        }
        Shape::Or(left, right) => {
            is_dead(kernel, label, left, deep - 1) && is_dead(kernel, label, right, deep - 1)
        }
        _ => false,
    }
}
