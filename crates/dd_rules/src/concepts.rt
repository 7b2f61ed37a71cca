ghost use Rattle.std.specs.Prelude.{◌≡◌, ◌<◌, ◌≤◌, ℕ, [], All, IfOk, List, Some, false, length, map, slice_get, true};
ghost use Rattle.dd_concept.specs.Closed.{HasParts, IsClosedFor};
ghost use Rattle.dd_concept.specs.Normal.{IsNormal};
ghost use Rattle.dd_concept.specs.Same.{has};
ghost use Rattle.dd_concept.specs.declared.concept.Concept.{Concept};
ghost use Rattle.dd_concept.specs.declared.concept.Concept.TheViews.{out-Concept};
ghost use Rattle.dd_rules.specs.Closure.{are_distinct, closure_of};
ghost use Rattle.dd_rules.specs.Compiled.{concept_at};
ghost use Rattle.dd_rules.specs.Concepts.{IsCollected};
ghost use Rattle.dd_rules.specs.Numbers.{axiom_numbers, joined_of, not_shape, number_of, shape_of};
ghost use Rattle.dd_rules.specs.Sources.{IsSources};
ghost use Rattle.dd_rules.specs.Trees.{IsRows, concept_of, trees};
ghost use Rattle.dd_rules.specs.Walks.{IsWalk, numbered};

use crate::complement::{complement_rows, entry_at};
use crate::row::Row;
use crate::shape::Shape;
use crate::source::{AxiomRows, Sources};
use crate::tables::AxiomNumbers;
use crate::tree::find;
use crate::walk::{Walk, row_at};
use dd_concept::{
    Axiom, Concept, Items, NoMemory, conjunction, disjunction, existential, negation, universal,
};
use indexmap::IndexSet;
use std::alloc::Global;
use std::marker::Model;

/// The concepts of a closure as rows, each with its number, and the axioms.
#[derive(Drop)]
pub struct Concepts {
    rows: IndexSet<Row>,
    order: Vec<u32>,
    numbers: Vec<Option<u32>>,
    axioms: Vec<AxiomRows>,
}

impl Model for Concepts {
    ghost use Rattle.dd_rules.specs.Compiled.{Closure, closure_code};

    ghost Value = { Closure };

    ghost coded = { closure_code };

    ghost use Rattle.dd_rules.specs.Concepts.{IsClosure, closure_by};

    ghost view = { λ s. closure_by s.rows.keys s.order.items s.axioms.items };

    ghost invariant = { λ s. IsClosure s.rows.keys s.order.items s.numbers.items s.axioms.items };
}

/// The concepts that a walk has numbered, which are the closure.
pub fn kept(sources: Sources, walk: Walk, axioms: &[Axiom], extra: &[Concept]) -> Concepts
    requires sources { IsSources axioms.now extra.now sources }
    requires walk { IsWalk (trees sources.rows.keys) walk }
    requires few { length walk.order.items ≤ 4096 }
    requires normal { All IsNormal extra.now }
    requires closure { numbered (trees sources.rows.keys) walk ≡ closure_of axioms.now extra.now }
    ensures concepts { result.concepts ≡ closure_of axioms.now extra.now }
    ensures axioms { result.axioms ≡ axioms.now }
{
    Concepts {
        rows: sources.rows,
        order: walk.order,
        numbers: walk.numbers,
        axioms: sources.axioms,
    }
}

/// The concept of a row, as a new tree.
fn build(alloc: Global, rows: &IndexSet<Row>, n: u32) -> Result<Concept, NoMemory>
    requires rows { IsRows rows.now.keys }
    requires within { n < length rows.now.keys }
    ensures { IfOk result (λ c. c ≡ concept_at (trees rows.now.keys) n) }
{
    match row_at(rows, n) {
        Row::Top => Ok(Concept::Top),
        Row::Bottom => Ok(Concept::Bottom),
        Row::Name(a) => Ok(Concept::Name(a)),
        Row::Not(part) => negation(alloc, build(alloc, rows, part)?),
        Row::And(left, right) => {
            let c = build(alloc, rows, left)?;
            let d = build(alloc, rows, right)?;
            conjunction(alloc, c, d)
        }
        Row::Or(left, right) => {
            let c = build(alloc, rows, left)?;
            let d = build(alloc, rows, right)?;
            disjunction(alloc, c, d)
        }
        Row::HasSome(role, part) => existential(alloc, role, build(alloc, rows, part)?),
        Row::HasAll(role, part) => universal(alloc, role, build(alloc, rows, part)?),
    }
}

/// The closure's number of the row's concept.
fn number_at(numbers: &[Option<u32>], n: u32) -> Option<u32>
    requires { n < length numbers.now }
    ensures { slice_get numbers.now n ≡ Some result }
{
    numbers[n as usize]
}

/// The closure's number of a row's concept that is in the closure.
fn place_at(numbers: &[Option<u32>], n: u32) -> u32
    requires { n < length numbers.now }
    ensures { (k : ℕ) → slice_get numbers.now n ≡ Some (Some k) → result ≡ k }
{
    match number_at(numbers, n) {
        Some(k) => k,
        None => 0,
    }
}

/// The form of the complement of a row's concept.
fn complement_of(row: Row) -> Shape
    ensures { (concepts : List Concept) → result ≡ not_shape (out-Concept (concept_of concepts row)) }
{
    match row {
        Row::Name(a) => Shape::Not(a),
        _ => Shape::Top,
    }
}

/// The form of a row's concept by numbers of the closure.
fn shape_at(rows: &IndexSet<Row>, numbers: &[Option<u32>], n: u32) -> Shape
    requires rows { IsRows rows.now.keys }
    requires numbers { length numbers.now ≡ length rows.now.keys }
    requires within { n < length rows.now.keys }
    ensures { (concepts : List Concept) → numbers.now ≡ map (number_of concepts) (trees rows.now.keys) → HasParts concepts → has concepts (concept_at (trees rows.now.keys) n) ≡ true → result ≡ shape_of concepts (concept_at (trees rows.now.keys) n) }
{
    match row_at(rows, n) {
        Row::Top => Shape::Top,
        Row::Bottom => Shape::Bottom,
        Row::Name(a) => Shape::Name(a),
        Row::Not(part) => complement_of(row_at(rows, part)),
        Row::And(left, right) => Shape::And(place_at(numbers, left), place_at(numbers, right)),
        Row::Or(left, right) => Shape::Or(place_at(numbers, left), place_at(numbers, right)),
        Row::HasSome(role, part) => Shape::HasSome(role, place_at(numbers, part)),
        Row::HasAll(role, part) => Shape::HasAll(role, place_at(numbers, part)),
    }
}

/// Puts the numbers of a concept's names behind the list, where it is a conjunction of names; else it tells that it is none.
fn collect(
    rows: &IndexSet<Row>,
    numbers: &[Option<u32>],
    n: u32,
    list: &mut Vec<Option<u32>>,
) -> Result<bool, NoMemory>
    requires rows { IsRows rows.now.keys }
    requires numbers { length numbers.now ≡ length rows.now.keys }
    requires within { n < length rows.now.keys }
    ensures { (concepts : List Concept) → numbers.now ≡ map (number_of concepts) (trees rows.now.keys) → IfOk result (IsCollected concepts (concept_at (trees rows.now.keys) n) list.old.items list.new.items) }
{
    match row_at(rows, n) {
        Row::Top => Ok(true),
        Row::Name(_) => {
            list.push(number_at(numbers, n))?;
            Ok(true)
        }
        Row::And(left, right) => {
            if !collect(rows, numbers, left, list)? {
                return Ok(false);
            }
            collect(rows, numbers, right, list)
        }
        _ => Ok(false),
    }
}

/// The numbers of the names of a row's concept, where it is a conjunction of names.
fn joined_at(
    alloc: Global,
    rows: &IndexSet<Row>,
    numbers: &[Option<u32>],
    n: u32,
) -> Result<Option<Items<Option<u32>>>, NoMemory>
    requires rows { IsRows rows.now.keys }
    requires numbers { length numbers.now ≡ length rows.now.keys }
    requires within { n < length rows.now.keys }
    ensures { (concepts : List Concept) → numbers.now ≡ map (number_of concepts) (trees rows.now.keys) → IfOk result (λ o. o ≡ joined_of concepts (concept_at (trees rows.now.keys) n)) }
{
    let mut list = Vec::new(alloc);
    if collect(rows, numbers, n, &mut list)? {
        return Ok(Some(Items::from_vec(list)));
    }
    Ok(None)
}

impl Concepts {
    /// The concept with this number, as a new tree.
    pub fn concept(&self, alloc: Global, n: u32) -> Result<Concept, NoMemory>
        requires { n < length self.now.concepts }
        ensures { IfOk result (λ c. slice_get self.now.concepts n ≡ Some c) }
    {
        build(alloc, &self.rows, self.order[n as usize])
    }

    /// The number of the concept, if it is in the closure.
    pub fn number(&self, c: &Concept) -> Option<u32>
        ensures { result ≡ number_of self.now.concepts c.now }
    {
        match find(&self.rows, c) {
            Some(n) => number_at(&self.numbers, n),
            None => None,
        }
    }

    /// The concepts by their forms.
    pub fn shapes(&self, alloc: Global) -> Result<Vec<Shape>, NoMemory>
        ensures { IfOk result (λ v. v.items ≡ map (shape_of self.now.concepts) self.now.concepts) }
    {
        let mut list = Vec::new(alloc);
        for n in &self.order {
            list.push(shape_at(&self.rows, &self.numbers, *n))?;
        }
        Ok(list)
    }

    /// Per concept the numbers of its names, where it is a conjunction of names.
    pub fn joined(&self, alloc: Global) -> Result<Vec<Option<Items<Option<u32>>>>, NoMemory>
        ensures { IfOk result (λ v. v.items ≡ map (joined_of self.now.concepts) self.now.concepts) }
    {
        let mut list = Vec::new(alloc);
        for n in &self.order {
            let joined = joined_at(alloc, &self.rows, &self.numbers, *n)?;
            list.push(joined)?;
        }
        Ok(list)
    }

    /// The axioms by numbers.
    pub fn axioms(&self, alloc: Global) -> Result<Vec<AxiomNumbers>, NoMemory>
        ensures { IfOk result (λ v. v.items ≡ map (axiom_numbers self.now.concepts) self.now.axioms) }
    {
        let mut list = Vec::new(alloc);
        for s in &self.axioms {
            let joined = joined_at(alloc, &self.rows, &self.numbers, s.left)?;
            list.push(AxiomNumbers {
                left: place_at(&self.numbers, s.not_left),
                right: place_at(&self.numbers, s.normal_right),
                joined,
            })?;
        }
        Ok(list)
    }

    /// Per concept the number of its complement in normal form, if that is there.
    pub fn complements(&self, alloc: Global) -> Result<Vec<Option<u32>>, NoMemory> {
        let rows = complement_rows(alloc, &self.rows)?;
        let mut list = Vec::new(alloc);
        for n in &self.order {
            let complement = match entry_at(&rows, *n) {
                Some(row) => entry_at(&self.numbers, row),
                None => None,
            };
            list.push(complement)?;
        }
        Ok(list)
    }

    /// What is known of the closure. The call does nothing.
    pub fn known(&self)
        ensures few { length self.now.concepts ≤ 4096 }
        ensures distinct { are_distinct self.now.concepts ≡ true }
        ensures closed { IsClosedFor self.now.axioms [] self.now.concepts }
        ensures normal { (c : Concept) → has self.now.concepts c ≡ true → IsNormal c }
    {
        let _ = &self.rows;
    }
}
