//! The line of a step, by lines for each of its cases.
ghost use Rattle.std.specs.Prelude.{◌≡◌, ◌∷◌, ◌||◌, ℕ, true, [], IfOk, List, Some, length, slice_get};
ghost use Rattle.std.specs.Option.{option_map};
ghost use Rattle.dd_graph.specs.View.{rules_at, view_of};
ghost use Rattle.dd_rules.specs.Numbers.{additions};
ghost use Rattle.dd_set.specs.Words.{has};
ghost use Rattle.dd_close.specs.Drafts.{CitesEach, IsBook, Makes, has_premise, is_number, is_step, premise};

use crate::draft::{Book, Reason, note};
use crate::sets::{line_within, parts_of};
use dd_concept::Items;
use dd_graph::Graph;
use dd_rules::Step;
use dd_set::{Bits, NoMemory};
use std::alloc::Global;

/// The number that a label has to have for the step.
fn premise_of(g: &Graph, step: Step) -> Option<u32>
    ensures { result ≡ premise (rules_at (view_of g.now)) step }
{
    g.known();
    match step {
        Step::Or { at } => Some(at),
        Step::Bridge { prop } => onto_of(g.props().list.as_slice(), prop),
        _ => None,
    }
}

/// The number of the propagation's onto target.
fn onto_of(props: &[(u32, u32, Items<u32>)], prop: u32) -> Option<u32>
    ensures { result ≡ option_map (λ (p : ℕ × ℕ × List ℕ). p.0) (slice_get props.now prop) }
{
    match props.get(prop as usize) {
        Some(found) => Some(found.0),
        None => None,
    }
}

/// A list of two numbers.
pub(crate) fn pair_of(alloc: Global, first: u32, second: u32) -> Result<Items<u32>, NoMemory>
    ensures { IfOk result (λ ns. ns ≡ first ∷ second ∷ []) }
{
    let mut pair = Items::new(alloc);
    pair.push(first)?;
    pair.push(second)?;
    Ok(pair)
}

/// A line within the set, by a step that it calls for, given a line for each addition: one of these, where that is within the set
/// already, and else one of the step's own.
pub(crate) fn choice_line(
    alloc: Global,
    g: &Graph,
    book: &mut Book,
    set: &Bits,
    step: Step,
    cites: Items<u32>,
) -> Result<u32, NoMemory>
    requires book { IsBook (view_of g.now) book.old }
    requires width { set.now.width ≡ length (view_of g.now).closure.concepts }
    requires step { is_step (rules_at (view_of g.now)) step ≡ true }
    requires posed { has_premise (rules_at (view_of g.now)) (has set.now.words) step ≡ true }
    requires many { length cites ≡ length (additions (rules_at (view_of g.now)) step) }
    requires cited { CitesEach (rules_at (view_of g.now)) book.old.table.list (length book.old.table.list) (has set.now.words) step cites }
    ensures { IfOk result (Makes (view_of g.now) book.old book.new (has set.now.words)) }
{
    match line_within(book, cites.as_slice(), set) {
        Some(line) => Ok(line),
        None => new_choice(alloc, g, book, set, step, cites),
    }
}

/// The step's own line: it has what the cited labels have of the set, and the step's premise.
fn new_choice(
    alloc: Global,
    g: &Graph,
    book: &mut Book,
    set: &Bits,
    step: Step,
    cites: Items<u32>,
) -> Result<u32, NoMemory>
    requires book { IsBook (view_of g.now) book.old }
    requires width { set.now.width ≡ length (view_of g.now).closure.concepts }
    requires step { is_step (rules_at (view_of g.now)) step ≡ true }
    requires posed { has_premise (rules_at (view_of g.now)) (has set.now.words) step ≡ true }
    requires many { length cites ≡ length (additions (rules_at (view_of g.now)) step) }
    requires cited { CitesEach (rules_at (view_of g.now)) book.old.table.list (length book.old.table.list) (has set.now.words) step cites }
    ensures { IfOk result (Makes (view_of g.now) book.old book.new (has set.now.words)) }
{
    let mut label = parts_of(alloc, book, cites.as_slice(), set)?;
    add_premise(premise_of(g, step), set, &mut label);
    note(alloc, g, book, &label, Reason::Choice { step, cites })
}

/// Adds the number, which the set has.
fn add_premise(premise: Option<u32>, set: &Bits, label: &mut Bits)
    requires width { label.old.width ≡ set.now.width }
    requires inside { (n : ℕ) → premise ≡ Some n → has set.now.words n ≡ true }
    ensures width { label.new.width ≡ label.old.width }
    ensures with { (k : ℕ) → has label.new.words k ≡ (is_number premise k || has label.old.words k) }
{
    let _width = set.width();
    if let Some(n) = premise {
        label.insert(n);
    }
}
