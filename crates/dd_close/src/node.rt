//! The line of a closed label, by what was done at it, given the lines of labels that were closed before.
ghost use Rattle.std.specs.Prelude.{◌≡◌, ◌<◌, ◌&&◌, ℕ, List, All, IfOk, IfSome, None, Some, false, length, slice_get, true};
ghost use Rattle.std.specs.List.{list_any};
ghost use Rattle.dd_graph.specs.Right.{IsLeastAt, IsSuccessorAt, adding, is_below, is_some_in};
ghost use Rattle.dd_graph.specs.View.{IsAt, rank_of, rules_at, view_of};
ghost use Rattle.dd_rules.specs.Numbers.{additions, calls_for};
ghost use Rattle.dd_rules.specs.declared.shape.Shape.TheVariants as shape;
ghost use Rattle.dd_set.specs.Words.{has};
ghost use Rattle.dd_close.specs.Drafts.{IsBook, IsLine, Makes, passes};
ghost use Rattle.dd_close.specs.Nodes.{AreLeast, AreLines, HasLine, HaveLines, IsClosedPair, Splits, is_wanted, wants};

use crate::choose::choice_line;
use crate::draft::{Book, Reason, note};
use crate::forced::descend;
use crate::left::clash_line;
use dd_concept::Items;
use dd_graph::{Graph, Node};
use dd_peer::PeerVersion;
use dd_rules::{Shape, Step};
use dd_set::{Bits, NoMemory};
use dd_table::LabelView;
use std::alloc::Global;

/// A line within the set, given that of the least saturated label with the set.
fn larger_line(
    alloc: Global,
    g: &Graph,
    version: &PeerVersion,
    book: &mut Book,
    lines: &[u32],
    set: &Bits,
    t: u32,
) -> Result<u32, NoMemory>
    requires book { IsBook (view_of g.now) book.old }
    requires axioms { (view_of g.now).closure.axioms ≡ version.now.axioms }
    requires width { set.now.width ≡ length (view_of g.now).closure.concepts }
    requires least { IsLeastAt (rules_at (view_of g.now)) (view_of g.now).labels (has set.now.words) t }
    requires line { HasLine (view_of g.now) book.old lines.now t }
    ensures { IfOk result (Makes (view_of g.now) book.old book.new (has set.now.words)) }
{
    descend(alloc, g, version, book, set, lines[t as usize])
}

/// A line within the set with the number `n`, given that of the least saturated label with these.
fn child_line(
    alloc: Global,
    g: &Graph,
    version: &PeerVersion,
    book: &mut Book,
    lines: &[u32],
    set: &Bits,
    n: u32,
    t: u32,
) -> Result<u32, NoMemory>
    requires book { IsBook (view_of g.now) book.old }
    requires axioms { (view_of g.now).closure.axioms ≡ version.now.axioms }
    requires width { set.now.width ≡ length (view_of g.now).closure.concepts }
    requires number { n < length (view_of g.now).closure.concepts }
    requires least { IsLeastAt (rules_at (view_of g.now)) (view_of g.now).labels (adding n (has set.now.words)) t }
    requires line { HasLine (view_of g.now) book.old lines.now t }
    ensures { IfOk result (Makes (view_of g.now) book.old book.new (adding n (has set.now.words))) }
{
    let mut base = set.copy(alloc)?;
    base.insert(n);
    larger_line(alloc, g, version, book, lines, &base, t)
}

/// A line for each addition of the step.
fn split_cites(
    alloc: Global,
    g: &Graph,
    version: &PeerVersion,
    book: &mut Book,
    lines: &[u32],
    set: &Bits,
    step: Step,
    to: &[u32],
) -> Result<Items<u32>, NoMemory>
    requires book { IsBook (view_of g.now) book.old }
    requires axioms { (view_of g.now).closure.axioms ≡ version.now.axioms }
    requires width { set.now.width ≡ length (view_of g.now).closure.concepts }
    requires calls { calls_for (rules_at (view_of g.now)) (has set.now.words) step ≡ true }
    requires many { length to.now ≡ length (additions (rules_at (view_of g.now)) step) }
    requires least { AreLeast (view_of g.now) (has set.now.words) step to.now }
    requires lines { HaveLines (view_of g.now) book.old lines.now to.now }
    ensures { IfOk result (λ cites. Splits (view_of g.now) book.old book.new (has set.now.words) step cites (length to.now)) }
{
    g.known();
    let mut cites = Items::new(alloc);
    for i in 0..to.len() {
        let k = number_of(i)?;
        let n = added(g, step, k);
        let line = child_line(alloc, g, version, book, lines, set, n, to[i])?;
        cites.push(line)?;
    }
    Ok(cites)
}

/// The number of a place. `NoMemory` comes for one from 2^32 on.
pub(crate) fn number_of(place: usize) -> Result<u32, NoMemory>
    ensures { IfOk result (λ k. k ≡ place) }
{
    let Ok(k) = u32::try_from(place) else {
        return Err(NoMemory);
    };
    Ok(k)
}

/// The step's addition with this place.
fn added(g: &Graph, step: Step, k: u32) -> u32
    requires { k < length (additions (rules_at (view_of g.now)) step) }
    ensures { slice_get (additions (rules_at (view_of g.now)) step) k ≡ Some result }
{
    g.known();
    match g.compiled().addition(g.props(), step, k) {
        Some(n) => n,
        None => unreachable!(),
    }
}

/// A line within the set, which calls for the step.
fn split_line(
    alloc: Global,
    g: &Graph,
    version: &PeerVersion,
    book: &mut Book,
    lines: &[u32],
    set: &Bits,
    step: Step,
    to: &[u32],
) -> Result<u32, NoMemory>
    requires book { IsBook (view_of g.now) book.old }
    requires axioms { (view_of g.now).closure.axioms ≡ version.now.axioms }
    requires width { set.now.width ≡ length (view_of g.now).closure.concepts }
    requires calls { calls_for (rules_at (view_of g.now)) (has set.now.words) step ≡ true }
    requires many { length to.now ≡ length (additions (rules_at (view_of g.now)) step) }
    requires least { AreLeast (view_of g.now) (has set.now.words) step to.now }
    requires lines { HaveLines (view_of g.now) book.old lines.now to.now }
    ensures { IfOk result (Makes (view_of g.now) book.old book.new (has set.now.words)) }
{
    let cites = split_cites(alloc, g, version, book, lines, set, step, to)?;
    choice_line(alloc, g, book, set, step, cites)
}

fn is_wanted(role: u32, part: u32, label: &LabelView, shape: Shape) -> bool
    ensures { result ≡ is_wanted role part label.now.words shape }
{
    match shape {
        Shape::HasAll(other, n) => role == other && (n != part && label.contains(n)),
        _ => false,
    }
}

/// The universal restrictions of the set that pass on along the role what the label has beside the part.
fn passing(
    alloc: Global,
    g: &Graph,
    set: &Bits,
    role: u32,
    part: u32,
    label: &LabelView,
) -> Result<Bits, NoMemory>
    requires width { set.now.width ≡ length (view_of g.now).closure.concepts }
    ensures width { IfOk result (λ b. b.width ≡ set.now.width) }
    ensures passing { IfOk result (λ b. (k : ℕ) → has b.words k ≡ (has set.now.words k && wants (rules_at (view_of g.now)) role part label.now.words k)) }
{
    let mut passing = Bits::new(alloc, set.width())?;
    let mut from = 0;
    while let Some(n) = set.next_from(from) {
        if is_wanted(role, part, label, g.compiled().shape(n)) {
            passing.insert(n);
        }
        from = n + 1;
    }
    Ok(passing)
}

/// A line within the set, which has the existential restriction `n`, given one within what that asks of an element along its role.
fn successor_line(
    alloc: Global,
    g: &Graph,
    book: &mut Book,
    set: &Bits,
    n: u32,
    line: u32,
) -> Result<u32, NoMemory>
    requires book { IsBook (view_of g.now) book.old }
    requires width { set.now.width ≡ length (view_of g.now).closure.concepts }
    requires restricts { is_some_in (rules_at (view_of g.now)) (has set.now.words) n ≡ true }
    requires within { n < length (view_of g.now).closure.concepts }
    requires there { line < length book.old.table.list }
    requires line { (role : ℕ) (part : ℕ) → slice_get (rules_at (view_of g.now)).shapes n ≡ Some (shape.HasSome role part) → IsLine book.old (passes (rules_at (view_of g.now)) (has set.now.words) role part) line }
    ensures { IfOk result (Makes (view_of g.now) book.old book.new (has set.now.words)) }
{
    let Shape::HasSome(role, part) = g.compiled().shape(n) else {
        unreachable!();
    };
    let cited = book.table.label(line);
    let mut label = passing(alloc, g, set, role, part, &cited)?;
    label.insert(n);
    note(
        alloc,
        g,
        book,
        &label,
        Reason::Successor { at: n, cite: line },
    )
}

fn is_closed(g: &Graph, id: u32, bound: u32) -> bool
    requires { id < length (view_of g.now).labels }
    ensures { result ≡ is_below bound (rank_of (view_of g.now) id) }
{
    match g.rank(id) {
        Some(rank) => rank < bound,
        None => false,
    }
}

/// The first pair that leads to a label with a rank below the bound.
fn closed_pair(g: &Graph, to: &[(u32, u32)], bound: u32) -> (u32, u32)
    requires within { All (λ p. p.1 < length (view_of g.now).labels) to.now }
    requires closed { list_any (λ p. is_below bound (rank_of (view_of g.now) p.1)) to.now ≡ true }
    ensures { IsClosedPair (view_of g.now) to.now bound result }
{
    match first_closed(g, to, bound) {
        Some(pair) => pair,
        None => unreachable!(),
    }
}

fn first_closed(g: &Graph, to: &[(u32, u32)], bound: u32) -> Option<(u32, u32)>
    requires within { All (λ p. p.1 < length (view_of g.now).labels) to.now }
    ensures some { IfSome result (IsClosedPair (view_of g.now) to.now bound) }
    ensures none { result ≡ None → list_any (λ p. is_below bound (rank_of (view_of g.now) p.1)) to.now ≡ false }
{
    for pair in to {
        if is_closed(g, pair.1, bound) {
            return Some(*pair);
        }
    }
    None
}

/// A line within the set, one of whose existential restrictions asks for what cannot be had.
fn done_line(
    alloc: Global,
    g: &Graph,
    book: &mut Book,
    lines: &[u32],
    set: &Bits,
    to: &[(u32, u32)],
    bound: u32,
) -> Result<u32, NoMemory>
    requires book { IsBook (view_of g.now) book.old }
    requires width { set.now.width ≡ length (view_of g.now).closure.concepts }
    requires pairs { (i : ℕ) (n : ℕ) (t : ℕ) → slice_get to.now i ≡ Some (n, t) → IsSuccessorAt (rules_at (view_of g.now)) (view_of g.now).labels (has set.now.words) n t }
    requires closed { list_any (λ p. is_below bound (rank_of (view_of g.now) p.1)) to.now ≡ true }
    requires lines { AreLines (view_of g.now) book.old lines.now bound }
    ensures { IfOk result (Makes (view_of g.now) book.old book.new (has set.now.words)) }
{
    let (n, t) = closed_pair(g, to, bound);
    successor_line(alloc, g, book, set, n, lines[t as usize])
}

/// A line within the label at this position, which has this rank, given the lines of labels with smaller ones.
pub(crate) fn line_at(
    alloc: Global,
    g: &Graph,
    version: &PeerVersion,
    book: &mut Book,
    lines: &[u32],
    id: u32,
    rank: u32,
) -> Result<u32, NoMemory>
    requires book { IsBook (view_of g.now) book.old }
    requires axioms { (view_of g.now).closure.axioms ≡ version.now.axioms }
    requires within { id < length (view_of g.now).labels }
    requires ranked { rank_of (view_of g.now) id ≡ Some rank }
    requires lines { AreLines (view_of g.now) book.old lines.now rank }
    ensures { IfOk result (λ m. (l : List ℕ) → IsAt (view_of g.now) id l → Makes (view_of g.now) book.old book.new (has l) m) }
{
    g.known();
    let set = g.table().label(id).to_bits(alloc)?;
    match g.node(id) {
        Node::Fresh => unreachable!(),
        Node::Clash(clash) => clash_line(alloc, g, book, *clash),
        Node::Larger { to } => larger_line(alloc, g, version, book, lines, &set, *to),
        Node::Split { step, to } => {
            split_line(alloc, g, version, book, lines, &set, *step, to.as_slice())
        }
        Node::Done { to } => done_line(alloc, g, book, lines, &set, to.as_slice(), rank),
    }
}
