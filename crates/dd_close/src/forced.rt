//! What a label is forced to have, and from a line within that a line within the label itself.
ghost use Rattle.std.specs.Prelude.{◌≡◌, ◌<◌, false, true, IfOk, OnOk, Some, length, slice_get};
ghost use Rattle.dd_graph.specs.View.{rules_at, view_of};
ghost use Rattle.dd_rules.specs.Forced.{forces};
ghost use Rattle.dd_rules.specs.Numbers.{is_saturated};
ghost use Rattle.dd_set.specs.Words.{has};
ghost use Rattle.dd_close.specs.Drafts.{IsBook, IsLine, Makes};
ghost use Rattle.dd_rules.specs.declared.shape.Step.TheVariants as way;
ghost use Rattle.dd_close.specs.Logs.{AddsForced, Climbs, IsLog, Reaches, by_forced};

use crate::choose::{choice_line, pair_of};
use crate::draft::{Book, Reason, note};
use crate::left::refute;
use crate::sets::{add_part, is_line_within};
use dd_concept::Axiom;
use dd_graph::Graph;
use dd_peer::PeerVersion;
use dd_rules::{Shape, Step};
use dd_set::{Bits, NoMemory};
use std::alloc::Global;

/// A forced step, with the label before it.
#[derive(Drop)]
pub(crate) struct Forced {
    pub(crate) before: Bits,
    pub(crate) step: Step,
}

/// Adds what the forced step adds.
fn add_forced(g: &Graph, step: Step, label: &mut Bits)
    requires width { label.old.width ≡ length (view_of g.now).closure.concepts }
    requires forced { forces (rules_at (view_of g.now)) (has label.old.words) step ≡ true }
    ensures width { label.new.width ≡ label.old.width }
    ensures adds { AddsForced (rules_at (view_of g.now)) step (has label.old.words) (has label.new.words) }
{
    g.known();
    match step {
        Step::And { at } => add_parts(g, at, label),
        Step::Axiom { index } => {
            let (_, right) = g.compiled().sides(index);
            label.insert(right);
        }
        _ => {}
    }
}

/// Adds the parts of the conjunction.
fn add_parts(g: &Graph, at: u32, label: &mut Bits)
    requires width { label.old.width ≡ length (view_of g.now).closure.concepts }
    requires forced { forces (rules_at (view_of g.now)) (has label.old.words) (way.And at) ≡ true }
    ensures width { label.new.width ≡ label.old.width }
    ensures adds { AddsForced (rules_at (view_of g.now)) (way.And at) (has label.old.words) (has label.new.words) }
{
    g.known();
    if let Shape::And(left, right) = g.compiled().shape(at) {
        label.insert(left);
        label.insert(right);
    }
}

/// One more forced step.
fn climb_one(
    alloc: Global,
    g: &Graph,
    label: &mut Bits,
    log: &mut Vec<Forced>,
) -> Result<(), NoMemory>
    requires width { label.old.width ≡ length (view_of g.now).closure.concepts }
    requires unsaturated { is_saturated (rules_at (view_of g.now)) (has label.old.words) ≡ false }
    ensures width { label.new.width ≡ label.old.width }
    ensures climbs { OnOk result (Climbs (rules_at (view_of g.now)) label.old label.new log.old.items log.new.items) }
{
    let Some(step) = g.compiled().forced(label, g.props()) else {
        unreachable!();
    };
    log.push(Forced {
        before: label.copy(alloc)?,
        step,
    })?;
    add_forced(g, step, label);
    let _width = label.width();
    Ok(())
}

/// The forced steps until the line is within the label.
fn climb(
    alloc: Global,
    g: &Graph,
    book: &Book,
    line: u32,
    label: &mut Bits,
) -> Result<Vec<Forced>, NoMemory>
    requires there { line < length book.now.table.list }
    requires width { label.old.width ≡ length (view_of g.now).closure.concepts }
    requires book_width { book.now.table.width ≡ length (view_of g.now).closure.concepts }
    requires reaches { Reaches (rules_at (view_of g.now)) book.now line (has label.old.words) }
    ensures log { IfOk result (λ log. IsLog (rules_at (view_of g.now)) label.old.width (has label.old.words) log.items (has label.new.words)) }
    ensures within { OnOk result (IsLine book.now (has label.new.words) line) }
{
    let mut log = Vec::new(alloc);
    while !is_line_within(book, line, label) {
        climb_one(alloc, g, label, &mut log)?;
    }
    Ok(log)
}

/// From a line within the label with what a forced step adds one within the label before it.
fn fall_one(
    alloc: Global,
    g: &Graph,
    version: &PeerVersion,
    book: &mut Book,
    forced: &Forced,
    line: u32,
) -> Result<u32, NoMemory>
    requires book { IsBook (view_of g.now) book.old }
    requires axioms { (view_of g.now).closure.axioms ≡ version.now.axioms }
    requires width { forced.now.before.width ≡ length (view_of g.now).closure.concepts }
    requires forced { forces (rules_at (view_of g.now)) (has forced.now.before.words) forced.now.step ≡ true }
    requires line { IsLine book.old (by_forced (rules_at (view_of g.now)) forced.now) line }
    ensures { IfOk result (Makes (view_of g.now) book.old book.new (has forced.now.before.words)) }
{
    if is_line_within(book, line, &forced.before) {
        return Ok(line);
    }
    match forced.step {
        Step::And { at } => and_line(alloc, g, book, &forced.before, at, line),
        Step::Axiom { index } => {
            right_line(alloc, g, version, book, &forced.before, index, line)
        }
        _ => unreachable!(),
    }
}

/// A line within a label that has the conjunction, given one within the label with its parts.
fn and_line(
    alloc: Global,
    g: &Graph,
    book: &mut Book,
    set: &Bits,
    at: u32,
    line: u32,
) -> Result<u32, NoMemory>
    requires book { IsBook (view_of g.now) book.old }
    requires width { set.now.width ≡ length (view_of g.now).closure.concepts }
    requires forced { forces (rules_at (view_of g.now)) (has set.now.words) (way.And at) ≡ true }
    requires line { IsLine book.old (by_forced (rules_at (view_of g.now)) (record { before = set.now; step = way.And at })) line }
    ensures { IfOk result (Makes (view_of g.now) book.old book.new (has set.now.words)) }
{
    let mut label = Bits::new(alloc, set.width())?;
    add_part(alloc, book, line, set, &mut label)?;
    label.insert(at);
    note(alloc, g, book, &label, Reason::And { at, cite: line })
}

/// A line within a label that has the names of the axiom's left side, given one within the label with its right side.
fn right_line(
    alloc: Global,
    g: &Graph,
    version: &PeerVersion,
    book: &mut Book,
    set: &Bits,
    index: u32,
    line: u32,
) -> Result<u32, NoMemory>
    requires book { IsBook (view_of g.now) book.old }
    requires axioms { (view_of g.now).closure.axioms ≡ version.now.axioms }
    requires width { set.now.width ≡ length (view_of g.now).closure.concepts }
    requires forced { forces (rules_at (view_of g.now)) (has set.now.words) (way.Axiom index) ≡ true }
    requires line { IsLine book.old (by_forced (rules_at (view_of g.now)) (record { before = set.now; step = way.Axiom index })) line }
    ensures { IfOk result (Makes (view_of g.now) book.old book.new (has set.now.words)) }
{
    g.known();
    let (left, _) = g.compiled().sides(index);
    let axiom = axiom_at(version.axioms.as_slice(), index);
    let cite = refute(alloc, &axiom.left, g, book, left, set)?;
    let cites = pair_of(alloc, cite, line)?;
    choice_line(alloc, g, book, set, Step::Axiom { index }, cites)
}

fn axiom_at(axioms: &[Axiom], k: u32) -> &Axiom
    requires { k < length axioms.now }
    ensures { slice_get axioms.now k ≡ Some result.now }
{
    &axioms[k as usize]
}

/// From a line within the label at the end of the forced steps one within the label at their beginning.
fn fall(
    alloc: Global,
    g: &Graph,
    version: &PeerVersion,
    book: &mut Book,
    log: &[Forced],
    line: u32,
    _base: &Bits,
    _top: &Bits,
) -> Result<u32, NoMemory>
    requires book { IsBook (view_of g.now) book.old }
    requires axioms { (view_of g.now).closure.axioms ≡ version.now.axioms }
    requires log { IsLog (rules_at (view_of g.now)) (length (view_of g.now).closure.concepts) (has _base.now.words) log.now (has _top.now.words) }
    requires line { IsLine book.old (has _top.now.words) line }
    ensures { IfOk result (Makes (view_of g.now) book.old book.new (has _base.now.words)) }
{
    let mut at = log.len();
    let mut found = line;
    while at > 0 {
        at -= 1;
        found = fall_one(alloc, g, version, book, &log[at], found)?;
    }
    Ok(found)
}

/// From a line within each saturated label that has the set a line within the set.
pub(crate) fn descend(
    alloc: Global,
    g: &Graph,
    version: &PeerVersion,
    book: &mut Book,
    set: &Bits,
    line: u32,
) -> Result<u32, NoMemory>
    requires book { IsBook (view_of g.now) book.old }
    requires axioms { (view_of g.now).closure.axioms ≡ version.now.axioms }
    requires width { set.now.width ≡ length (view_of g.now).closure.concepts }
    requires there { line < length book.old.table.list }
    requires reaches { Reaches (rules_at (view_of g.now)) book.old line (has set.now.words) }
    ensures { IfOk result (Makes (view_of g.now) book.old book.new (has set.now.words)) }
{
    let mut label = set.copy(alloc)?;
    let log = climb(alloc, g, book, line, &mut label)?;
    fall(alloc, g, version, book, &log, line, set, &label)
}
