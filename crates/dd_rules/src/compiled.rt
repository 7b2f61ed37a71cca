ghost use Rattle.std.specs.Prelude.{◌≡◌, ◌<◌, ◌≤◌, ℕ, true, [], Err, All, IfOk, IfSome, length, map, slice_get, Some};
ghost use Rattle.dd_concept.specs.Closed.{IsClosedFor};
ghost use Rattle.dd_concept.specs.Normal.{IsNormal};
ghost use Rattle.dd_concept.specs.Same.{has};
ghost use Rattle.dd_concept.specs.declared.concept.Concept.{Concept};
ghost use Rattle.dd_rules.specs.Closure.{are_distinct, closure_of};
ghost use Rattle.dd_rules.specs.Compiled.{sides_numbers};
ghost use Rattle.dd_rules.specs.Numbers.{number_of, shape_of};
ghost use Rattle.dd_rules.specs.Tabled.{IsTabled};
ghost use Rattle.dd_rules.specs.declared.compiled.CompileErr.TheVariants.{ClosureFull};

use crate::complement::entry_at;
use crate::concepts::{Concepts, kept};
use crate::shape::Shape;
use crate::source::{rows_of, walked};
use crate::tables::{Tables, axiom_at, shape_at};
use dd_concept::{Axiom, Concept, NoMemory};
use std::alloc::Global;
use std::marker::Model;
use thiserror::Error;

/// The most concepts of a closure.
pub const MAX_CONCEPTS: u32 = 4096;

/// Why a peer was not compiled.
#[derive(Clone, Copy, Debug, PartialEq, Eq, Error)]
pub enum CompileErr {
    /// The number of concepts in the closure.
    #[error("the closure has {count} concepts, which are too many")]
    ClosureFull { count: u32 },
    #[error("out of memory")]
    NoMemory,
}

/// The closure of a peer, each concept with a number, and the peer's axioms.
#[derive(Drop)]
pub struct Compiled {
    concepts: Concepts,
    tables: Tables,
    complements: Vec<Option<u32>>,
}

impl Model for Compiled {
    ghost use Rattle.dd_rules.specs.Compiled.{Closure, closure_code};
    ghost use Rattle.dd_rules.specs.Tabled.{IsTabled};

    ghost Value = { Closure };

    ghost coded = { closure_code };

    ghost view = { λ s. s.concepts };

    ghost invariant = { λ s. IsTabled s.concepts s.tables };
}

impl Compiled {
    /// The closure of the axioms' sides and of `extra`.
    pub fn new(alloc: Global, axioms: &[Axiom], extra: &[Concept]) -> Result<Compiled, CompileErr>
        requires { All IsNormal extra.now }
        ensures concepts { IfOk result (λ c. c.concepts ≡ closure_of axioms.now extra.now) }
        ensures few { IfOk result (λ c. length c.concepts ≤ 4096) }
        ensures axioms { IfOk result (λ c. c.axioms ≡ axioms.now) }
        ensures full { (n : ℕ) → result ≡ Err (ClosureFull n) → (n ≡ length (closure_of axioms.now extra.now)) × (4096 < n) }
    {
        let Ok(sources) = rows_of(alloc, axioms, extra) else {
            return Err(CompileErr::NoMemory);
        };
        let Ok(walk) = walked(alloc, &sources) else {
            return Err(CompileErr::NoMemory);
        };
        let count = walk.order.len();
        if count > u32::MAX as usize {
            return Err(CompileErr::NoMemory);
        }
        if count > MAX_CONCEPTS as usize {
            return Err(CompileErr::ClosureFull {
                count: count as u32,
            });
        }
        let Ok(compiled) = with_tables(alloc, kept(sources, walk, axioms, extra)) else {
            return Err(CompileErr::NoMemory);
        };
        Ok(compiled)
    }

    /// What is known of every closure. The call does nothing.
    pub fn known(&self)
        ensures few { length self.now.concepts ≤ 4096 }
        ensures distinct { are_distinct self.now.concepts ≡ true }
        ensures closed { IsClosedFor self.now.axioms [] self.now.concepts }
        ensures normal { (c : Concept) → has self.now.concepts c ≡ true → IsNormal c }
    {
        self.concepts.known();
    }

    /// The number of concepts.
    pub fn count(&self) -> u32
        ensures { result ≡ length self.now.concepts }
    {
        self.tables.shapes.len() as u32
    }

    /// The concept with this number, as a new tree.
    pub fn concept(&self, alloc: Global, n: u32) -> Result<Concept, NoMemory>
        requires { n < length self.now.concepts }
        ensures { IfOk result (λ c. slice_get self.now.concepts n ≡ Some c) }
    {
        self.concepts.concept(alloc, n)
    }

    /// The number of the concept, if it is in the closure.
    pub fn number(&self, c: &Concept) -> Option<u32>
        ensures { result ≡ number_of self.now.concepts c.now }
    {
        self.concepts.number(c)
    }

    /// The concept with this number, by its form.
    pub fn shape(&self, n: u32) -> Shape
        requires { n < length self.now.concepts }
        ensures { slice_get (map (shape_of self.now.concepts) self.now.concepts) n ≡ Some result }
    {
        shape_at(&self.tables.shapes, n)
    }

    /// The numbers of what an axiom adds to a label: the normal forms of its left side's complement and of its right side.
    pub fn sides(&self, index: u32) -> (u32, u32)
        requires { index < length self.now.axioms }
        ensures { slice_get (map (sides_numbers self.now.concepts) self.now.axioms) index ≡ Some result }
    {
        let row = axiom_at(&self.tables.axioms, index);
        (row.left, row.right)
    }

    /// The number of the normal form of the concept's complement, where that is in the closure. A hint for a search.
    pub fn complement(&self, n: u32) -> Option<u32>
        requires { n < length self.now.concepts }
        ensures { IfSome result (λ m. m < length self.now.concepts) }
    {
        let Some(m) = entry_at(&self.complements, n) else {
            return None;
        };
        if m < self.count() {
            return Some(m);
        }
        None
    }

    /// The tables of the closure.
    pub(crate) fn tables(&self) -> &Tables
        ensures { IsTabled self.now result.now }
    {
        &self.tables
    }
}

/// The tables of the closure.
fn tables_of(alloc: Global, concepts: &Concepts) -> Result<Tables, NoMemory>
    ensures { IfOk result (IsTabled concepts.now) }
{
    concepts.known();
    let shapes = concepts.shapes(alloc)?;
    let axioms = concepts.axioms(alloc)?;
    let joined = concepts.joined(alloc)?;
    Tables::new(alloc, shapes, axioms, joined)
}

/// The closure with its tables.
fn with_tables(alloc: Global, concepts: Concepts) -> Result<Compiled, NoMemory>
    ensures { IfOk result (λ c. c ≡ concepts) }
{
    let tables = tables_of(alloc, &concepts)?;
    let complements = concepts.complements(alloc)?;
    Ok(Compiled {
        concepts,
        tables,
        complements,
    })
}
