//! The model that an open label has.
ghost use Rattle.std.specs.Prelude.{◌≡◌, ◌<◌, ◌+◌, All, Some, OnOk, IfOk, true, length, slice_get};
ghost use Rattle.dd_concept.specs.Normal.{IsNormal};
ghost use Rattle.dd_graph.specs.View.{is_open_at, view_of};
ghost use Rattle.dd_open.specs.Models.{IsModelAt};
ghost use Rattle.dd_open.specs.Builds.{Builds, GoesOn};

use crate::elements::Elements;
use crate::names::add_names;
use crate::resolve::resolve;
use crate::roles::add_roles;
use dd_concept::Items;
use dd_graph::{Graph, Node};
use dd_interp::Interp;
use dd_set::{NoMemory, numbers_in};
use std::alloc::Global;

/// Adds what the label of the element x says of it.
fn add_element(
    alloc: Global,
    g: &Graph,
    elements: &mut Elements,
    names: &mut Vec<(u32, u32)>,
    roles: &mut Vec<(u32, u32, u32)>,
    x: u32,
    _goal: u32,
) -> Result<(), NoMemory>
    requires bound { elements.old.marked.bound ≡ length (view_of g.now).labels }
    requires there { x < length elements.old.marked.list }
    requires builds { Builds (view_of g.now) _goal elements.old.marked.list names.old.items roles.old.items x }
    ensures bound { elements.new.marked.bound ≡ elements.old.marked.bound }
    ensures builds { OnOk result (Builds (view_of g.now) _goal elements.new.marked.list names.new.items roles.new.items (x + 1)) }
    ensures grown { OnOk result (GoesOn elements.old.marked.list elements.new.marked.list) }
{
    g.known();
    let at = match elements.marked.get(x) {
        Some(at) => at,
        None => unreachable!(),
    };
    let label = g.table().label(at);
    let numbers = numbers_in(alloc, label.width(), label.words())?;
    add_names(g.compiled(), names, &numbers, x)?;
    match g.node(at) {
        Node::Done { to } => add_roles(g, elements, roles, x, to.list.as_slice(), _goal),
        _ => unreachable!(),
    }
}

/// Adds what the labels of all elements say of them, those among them that come meanwhile.
fn fill(
    alloc: Global,
    g: &Graph,
    elements: &mut Elements,
    names: &mut Vec<(u32, u32)>,
    roles: &mut Vec<(u32, u32, u32)>,
    _goal: u32,
) -> Result<(), NoMemory>
    requires bound { elements.old.marked.bound ≡ length (view_of g.now).labels }
    requires builds { Builds (view_of g.now) _goal elements.old.marked.list names.old.items roles.old.items 0 }
    ensures builds { OnOk result (Builds (view_of g.now) _goal elements.new.marked.list names.new.items roles.new.items (length elements.new.marked.list)) }
    ensures grown { OnOk result (GoesOn elements.old.marked.list elements.new.marked.list) }
{
    let mut x = 0;
    while x < elements.marked.len() {
        add_element(alloc, g, elements, names, roles, x, _goal)?;
        x += 1;
    }
    Ok(())
}

/// A model of the axioms and the propagations with an element that has the label `id`, that element, and of each element the
/// position of its label. The model is lean by these labels.
pub fn interp_of(alloc: Global, g: &Graph, id: u32) -> Result<(Interp, u32, Items<u32>), NoMemory>
    requires within { id < length (view_of g.now).labels }
    requires open { is_open_at (view_of g.now) id ≡ true }
    ensures { IfOk result (λ r. IsModelAt (view_of g.now) id r.0 r.1 r.2) }
{
    g.known();
    let mut elements = Elements::new(alloc, g.table().len())?;
    let mut names = Vec::new(alloc);
    let mut roles = Vec::new(alloc);
    let x = elements.place(resolve(g, id));
    fill(alloc, g, &mut elements, &mut names, &mut roles, id)?;
    let size = elements.marked.len();
    let positions = Vec::from_slice(alloc, elements.marked.as_slice())?;
    Ok((
        Interp {
            size,
            names: Items { list: names },
            roles: Items { list: roles },
        },
        x,
        Items { list: positions },
    ))
}
