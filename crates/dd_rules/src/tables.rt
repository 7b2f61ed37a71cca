ghost use Rattle.std.specs.Prelude.{◌≡◌, ◌<◌, ◌≤◌, All, IfOk, length, slice_get, Some};
ghost use Rattle.dd_rules.specs.Tables.{IsShapeWithin, IsAxiomWithin};

use crate::index::{Index, index_of};
use crate::shape::Shape;
use dd_concept::{Items, NoMemory};
use std::alloc::Global;
use std::marker::Model;

/// An axiom: the numbers of what it adds to a label, and those of the names of a left side that is a conjunction of names. A
/// name that is no concept of the closure has none.
#[derive(Drop)]
pub struct AxiomNumbers {
    pub left: u32,
    pub right: u32,
    pub joined: Option<Items<Option<u32>>>,
}

/// The concepts of a peer by their forms, its axioms by numbers, and of each concept the numbers of the names that it is a
/// conjunction of.
#[derive(Drop)]
pub(crate) struct Tables {
    pub shapes: Vec<Shape>,
    pub axioms: Vec<AxiomNumbers>,
    pub joined: Vec<Option<Items<Option<u32>>>>,
    pub index: Index,
}

impl Model for Tables {
    ghost use Rattle.std.specs.Prelude.{◌≡◌, ◌≤◌, All, length};
    ghost use Rattle.dd_rules.specs.Index.{IsIndex};
    ghost use Rattle.dd_rules.specs.Tables.{Numbered, IsShapeWithin, IsAxiomWithin};

    ghost Value = { Numbered };

    ghost view = { λ t. record { shapes = t.shapes.items; axioms = t.axioms.items; joined = t.joined.items } };

    ghost invariant = { λ t. (length t.shapes.items ≤ 4096) × (length t.axioms.items ≤ 4294967295) × All (IsShapeWithin (length t.shapes.items)) t.shapes.items × All (IsAxiomWithin (length t.shapes.items)) t.axioms.items × IsIndex t.axioms.items t.index.lists.items t.index.plain × (length t.index.lists.items ≡ length t.shapes.items) };
}

impl Tables {
    /// The tables of these concepts and axioms.
    pub fn new(
        alloc: Global,
        shapes: Vec<Shape>,
        axioms: Vec<AxiomNumbers>,
        joined: Vec<Option<Items<Option<u32>>>>,
    ) -> Result<Tables, NoMemory>
        requires few { length shapes.items ≤ 4096 }
        requires parts { All (IsShapeWithin (length shapes.items)) shapes.items }
        requires sides { All (IsAxiomWithin (length shapes.items)) axioms.items }
        ensures { IfOk result (λ t. t ≡ record { shapes = shapes.items; axioms = axioms.items; joined = joined.items }) }
    {
        if axioms.len() > u32::MAX as usize {
            return Err(NoMemory);
        }
        let index = index_of(alloc, shapes.len() as u32, &axioms)?;
        Ok(Tables {
            shapes,
            axioms,
            joined,
            index,
        })
    }
}

/// The concept with this number, by its form.
pub(crate) fn shape_at(shapes: &[Shape], n: u32) -> Shape
    requires { n < length shapes.now }
    ensures { slice_get shapes.now n ≡ Some result }
{
    shapes[n as usize]
}

/// The axiom with this number.
pub(crate) fn axiom_at(axioms: &[AxiomNumbers], k: u32) -> &AxiomNumbers
    requires { k < length axioms.now }
    ensures { slice_get axioms.now k ≡ Some result.now }
{
    &axioms[k as usize]
}
