//! Lines that refute the complement of a conjunction of names in labels that have the names.
ghost use Rattle.std.specs.Prelude.{◌≡◌, ◌<◌, ◌==◌, ◌||◌, ℕ, Bool, true, false, IfOk, Some, length, slice_get};
ghost use Rattle.std.specs.Option.{option_map_or};
ghost use Rattle.dd_concept.specs.Normal.{nnf_not_of};
ghost use Rattle.dd_concept.specs.Same.{has as has_concept};
ghost use Rattle.dd_concept.specs.declared.concept.Concept.TheVariants.{And, Bottom, Name, Not};
ghost use Rattle.dd_graph.specs.Right.{adding};
ghost use Rattle.dd_graph.specs.View.{rules_at, view_of};
ghost use Rattle.dd_rules.specs.Forced.{is_clash};
ghost use Rattle.dd_rules.specs.Numbers.{has_joined, joined_of, number_of, place_of};
ghost use Rattle.dd_rules.specs.declared.clash.Clash.TheVariants as way_out;
ghost use Rattle.dd_rules.specs.declared.shape.Shape.TheVariants.{Or};
ghost use Rattle.dd_set.specs.Words.{has};
ghost use Rattle.dd_close.specs.Drafts.{IsBook, IsLine, Makes};
ghost use Rattle.dd_close.specs.Parts.{IsClashLabel};

use crate::choose::{choice_line, pair_of};
use crate::draft::{Book, Reason, note};
use dd_concept::{Concept, negation};
use dd_graph::Graph;
use dd_rules::{Clash, Shape, Step};
use dd_set::{Bits, NoMemory};
use std::alloc::Global;

/// Adds the concept to the set.
fn add_concept(g: &Graph, c: &Concept, set: &mut Bits)
    requires width { set.old.width ≡ length (view_of g.now).closure.concepts }
    requires inside { has_concept (view_of g.now).closure.concepts c.now ≡ true }
    ensures width { set.new.width ≡ set.old.width }
    ensures with { (k : ℕ) → has set.new.words k ≡ ((k == place_of (view_of g.now).closure.concepts c.now) || has set.old.words k) }
{
    if let Some(n) = g.compiled().number(c) {
        set.insert(n);
    }
}

/// The label of `bottom` alone.
fn bottom_label(alloc: Global, g: &Graph) -> Result<Bits, NoMemory>
    requires there { has_concept (view_of g.now).closure.concepts Bottom ≡ true }
    ensures width { IfOk result (λ b. b.width ≡ length (view_of g.now).closure.concepts) }
    ensures label { IfOk result (λ b. IsClashLabel (rules_at (view_of g.now)) way_out.Bottom (has b.words)) }
{
    g.known();
    let mut label = Bits::new(alloc, g.compiled().count())?;
    add_concept(g, &Concept::Bottom, &mut label);
    Ok(label)
}

/// The label of the name and its complement.
fn name_label(alloc: Global, g: &Graph, name: u32) -> Result<Bits, NoMemory>
    requires there { has_concept (view_of g.now).closure.concepts (Name name) ≡ true }
    requires complement { has_concept (view_of g.now).closure.concepts (Not (Name name)) ≡ true }
    ensures width { IfOk result (λ b. b.width ≡ length (view_of g.now).closure.concepts) }
    ensures label { IfOk result (λ b. IsClashLabel (rules_at (view_of g.now)) (way_out.Name name) (has b.words)) }
{
    g.known();
    let complement = negation(alloc, Concept::Name(name))?;
    let mut label = Bits::new(alloc, g.compiled().count())?;
    add_concept(g, &complement, &mut label);
    add_concept(g, &Concept::Name(name), &mut label);
    Ok(label)
}

/// The label that has the clash and nothing else.
fn clash_label(alloc: Global, g: &Graph, clash: Clash) -> Result<Bits, NoMemory>
    requires there { is_clash (rules_at (view_of g.now)) (λ _. true) clash ≡ true }
    ensures width { IfOk result (λ b. b.width ≡ length (view_of g.now).closure.concepts) }
    ensures label { IfOk result (λ b. IsClashLabel (rules_at (view_of g.now)) clash (has b.words)) }
{
    g.known();
    match clash {
        Clash::Bottom => bottom_label(alloc, g),
        Clash::Name(name) => name_label(alloc, g, name),
    }
}

/// The line of a clash, which is within each label that has it.
pub(crate) fn clash_line(
    alloc: Global,
    g: &Graph,
    book: &mut Book,
    clash: Clash,
) -> Result<u32, NoMemory>
    requires book { IsBook (view_of g.now) book.old }
    requires there { is_clash (rules_at (view_of g.now)) (λ _. true) clash ≡ true }
    ensures { IfOk result (λ m. (p : ℕ → Bool) → is_clash (rules_at (view_of g.now)) p clash ≡ true → Makes (view_of g.now) book.old book.new p m) }
{
    let label = clash_label(alloc, g, clash)?;
    note(alloc, g, book, &label, Reason::Clash(clash))
}

/// A line within the set with the number `n`, which is that of the complement of a conjunction of names that the set has.
pub(crate) fn refute(
    alloc: Global,
    c: &Concept,
    g: &Graph,
    book: &mut Book,
    n: u32,
    set: &Bits,
) -> Result<u32, NoMemory>
    requires book { IsBook (view_of g.now) book.old }
    requires width { set.now.width ≡ length (view_of g.now).closure.concepts }
    requires number { slice_get (view_of g.now).closure.concepts n ≡ Some (nnf_not_of c.now) }
    requires names { has_joined (has set.now.words) (joined_of (view_of g.now).closure.concepts c.now) ≡ true }
    ensures { IfOk result (Makes (view_of g.now) book.old book.new (adding n (has set.now.words))) }
{
    match c {
        Concept::Top => refute_top(alloc, g, book, n, set),
        Concept::Name(name) => refute_name(alloc, g, book, *name, n, set),
        Concept::And(d, e) => {
            let (x, y) = or_parts(g, d.get(), e.get(), n);
            let left = refute(alloc, d.get(), g, book, x, set)?;
            let right = refute(alloc, e.get(), g, book, y, set)?;
            refute_or(alloc, g, book, n, left, right, set)
        }
        _ => unreachable!(),
    }
}

/// The numbers of the complements of the two concepts, by that of their conjunction's complement.
fn or_parts(g: &Graph, _d: &Concept, _e: &Concept, n: u32) -> (u32, u32)
    requires { slice_get (view_of g.now).closure.concepts n ≡ Some (nnf_not_of (And _d.now _e.now)) }
    ensures shape { slice_get (rules_at (view_of g.now)).shapes n ≡ Some (Or result.0 result.1) }
    ensures left { slice_get (view_of g.now).closure.concepts result.0 ≡ Some (nnf_not_of _d.now) }
    ensures right { slice_get (view_of g.now).closure.concepts result.1 ≡ Some (nnf_not_of _e.now) }
{
    g.known();
    match g.compiled().shape(n) {
        Shape::Or(x, y) => (x, y),
        _ => unreachable!(),
    }
}

/// A line within the set with the number `n` of `bottom`.
fn refute_top(
    alloc: Global,
    g: &Graph,
    book: &mut Book,
    _n: u32,
    _set: &Bits,
) -> Result<u32, NoMemory>
    requires book { IsBook (view_of g.now) book.old }
    requires number { slice_get (view_of g.now).closure.concepts _n ≡ Some Bottom }
    ensures { IfOk result (Makes (view_of g.now) book.old book.new (adding _n (has _set.now.words))) }
{
    g.known();
    clash_line(alloc, g, book, Clash::Bottom)
}

/// A line within the set with the number `n` of the complement of a name that the set has.
fn refute_name(
    alloc: Global,
    g: &Graph,
    book: &mut Book,
    name: u32,
    _n: u32,
    _set: &Bits,
) -> Result<u32, NoMemory>
    requires book { IsBook (view_of g.now) book.old }
    requires number { slice_get (view_of g.now).closure.concepts _n ≡ Some (Not (Name name)) }
    requires name { option_map_or (has _set.now.words) (number_of (view_of g.now).closure.concepts (Name name)) false ≡ true }
    ensures { IfOk result (Makes (view_of g.now) book.old book.new (adding _n (has _set.now.words))) }
{
    g.known();
    clash_line(alloc, g, book, Clash::Name(name))
}

/// A line within the set with the disjunction `n`, given one for each of its parts.
fn refute_or(
    alloc: Global,
    g: &Graph,
    book: &mut Book,
    n: u32,
    left: u32,
    right: u32,
    set: &Bits,
) -> Result<u32, NoMemory>
    requires book { IsBook (view_of g.now) book.old }
    requires width { set.now.width ≡ length (view_of g.now).closure.concepts }
    requires within { n < length (view_of g.now).closure.concepts }
    requires parts { (x : ℕ) × (y : ℕ) × (slice_get (rules_at (view_of g.now)).shapes n ≡ Some (Or x y)) × IsLine book.old (adding x (has set.now.words)) left × IsLine book.old (adding y (has set.now.words)) right }
    ensures { IfOk result (Makes (view_of g.now) book.old book.new (adding n (has set.now.words))) }
{
    let mut wide = set.copy(alloc)?;
    wide.insert(n);
    let cites = pair_of(alloc, left, right)?;
    choice_line(alloc, g, book, &wide, Step::Or { at: n }, cites)
}
