ghost use Rattle.std.specs.Prelude.{◌≡◌, ◌<◌, All, IfOk, OnOk, [], flat_map, length};
ghost use Rattle.dd_rules.specs.Sources.{AreSidesBelow, IsAxiomRow, IsConceptRow, IsSources, Pairs, parts_of_all, parts_of_row, parts_of_sides};
ghost use Rattle.dd_rules.specs.Trees.{Appends, IsRows, trees};
ghost use Rattle.dd_rules.specs.Walks.{IsWalk, numbered, with_all};

use crate::row::{Form, Row};
use crate::tree::add;
use crate::walk::{Walk, start, visit};
use dd_concept::{Axiom, Concept, NoMemory};
use indexmap::IndexSet;
use std::alloc::Global;

/// The rows of an axiom's sides, and of what it adds to a label.
#[derive(Clone, Copy)]
pub struct AxiomRows {
    pub left: u32,
    pub right: u32,
    pub not_left: u32,
    pub normal_right: u32,
}

/// The concepts that a closure comes from, as rows.
#[derive(Drop)]
pub struct Sources {
    pub rows: IndexSet<Row>,
    pub axioms: Vec<AxiomRows>,
    pub extra: Vec<u32>,
}

fn add_axiom(rows: &mut IndexSet<Row>, a: &Axiom) -> Result<AxiomRows, NoMemory>
    requires { IsRows rows.old.keys }
    ensures axiom { IfOk result (IsAxiomRow (trees rows.new.keys) a.now) }
    ensures grows { OnOk result (Appends (trees rows.old.keys) (trees rows.new.keys)) }
    ensures rows { OnOk result (IsRows rows.new.keys) }
{
    let left = add(rows, Form::Itself, &a.left)?;
    let right = add(rows, Form::Itself, &a.right)?;
    let not_left = add(rows, Form::Complement, &a.left)?;
    let normal_right = add(rows, Form::Normal, &a.right)?;
    Ok(AxiomRows {
        left,
        right,
        not_left,
        normal_right,
    })
}

fn add_axioms(
    rows: &mut IndexSet<Row>,
    list: &mut Vec<AxiomRows>,
    axioms: &[Axiom],
) -> Result<(), NoMemory>
    requires rows { IsRows rows.old.keys }
    requires empty { list.old.items ≡ [] }
    ensures axioms { OnOk result (Pairs (IsAxiomRow (trees rows.new.keys)) axioms.now list.new.items) }
    ensures rows { OnOk result (IsRows rows.new.keys) }
{
    for a in axioms {
        let row = add_axiom(rows, a)?;
        list.push(row)?;
    }
    Ok(())
}

fn add_extra(
    rows: &mut IndexSet<Row>,
    list: &mut Vec<u32>,
    extra: &[Concept],
) -> Result<(), NoMemory>
    requires rows { IsRows rows.old.keys }
    requires empty { list.old.items ≡ [] }
    ensures extra { OnOk result (Pairs (IsConceptRow (trees rows.new.keys)) extra.now list.new.items) }
    ensures grows { OnOk result (Appends (trees rows.old.keys) (trees rows.new.keys)) }
    ensures rows { OnOk result (IsRows rows.new.keys) }
{
    for c in extra {
        let row = add(rows, Form::Itself, c)?;
        list.push(row)?;
    }
    Ok(())
}

/// The axioms and the further concepts as rows.
pub fn rows_of(alloc: Global, axioms: &[Axiom], extra: &[Concept]) -> Result<Sources, NoMemory>
    ensures { IfOk result (IsSources axioms.now extra.now) }
{
    let mut made = Sources {
        rows: IndexSet::new(alloc),
        axioms: Vec::new(alloc),
        extra: Vec::new(alloc),
    };
    add_axioms(&mut made.rows, &mut made.axioms, axioms)?;
    add_extra(&mut made.rows, &mut made.extra, extra)?;
    Ok(made)
}

fn visit_axioms(rows: &IndexSet<Row>, walk: &mut Walk, axioms: &[AxiomRows]) -> Result<(), NoMemory>
    requires rows { IsRows rows.now.keys }
    requires walk { IsWalk (trees rows.now.keys) walk.old }
    requires below { All (AreSidesBelow (length rows.now.keys)) axioms.now }
    ensures order { OnOk result (numbered (trees rows.now.keys) walk.new ≡ with_all (numbered (trees rows.now.keys) walk.old) (flat_map (parts_of_sides (trees rows.now.keys)) axioms.now)) }
    ensures walk { OnOk result (IsWalk (trees rows.now.keys) walk.new) }
{
    for a in axioms {
        visit(rows, walk, a.not_left)?;
        visit(rows, walk, a.normal_right)?;
    }
    Ok(())
}

fn visit_extra(rows: &IndexSet<Row>, walk: &mut Walk, extra: &[u32]) -> Result<(), NoMemory>
    requires rows { IsRows rows.now.keys }
    requires walk { IsWalk (trees rows.now.keys) walk.old }
    requires below { All (λ n. n < length rows.now.keys) extra.now }
    ensures order { OnOk result (numbered (trees rows.now.keys) walk.new ≡ with_all (numbered (trees rows.now.keys) walk.old) (flat_map (parts_of_row (trees rows.now.keys)) extra.now)) }
    ensures walk { OnOk result (IsWalk (trees rows.now.keys) walk.new) }
{
    for n in extra {
        visit(rows, walk, *n)?;
    }
    Ok(())
}

/// The walk over all of them, in their order.
pub fn walked(alloc: Global, s: &Sources) -> Result<Walk, NoMemory>
    requires rows { IsRows s.now.rows.keys }
    requires axioms { All (AreSidesBelow (length s.now.rows.keys)) s.now.axioms.items }
    requires extra { All (λ n. n < length s.now.rows.keys) s.now.extra.items }
    ensures order { IfOk result (λ w. numbered (trees s.now.rows.keys) w ≡ with_all [] (parts_of_all (trees s.now.rows.keys) s.now.axioms.items s.now.extra.items)) }
    ensures walk { IfOk result (IsWalk (trees s.now.rows.keys)) }
{
    let mut walk = start(alloc, &s.rows)?;
    visit_axioms(&s.rows, &mut walk, &s.axioms)?;
    visit_extra(&s.rows, &mut walk, &s.extra)?;
    Ok(walk)
}
