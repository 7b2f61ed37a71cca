//! The pairs of roles of a model in the making.
ghost use Rattle.std.specs.Prelude.{◌≡◌, ◌<◌, true, All, Some, OnOk, length, slice_get};
ghost use Rattle.dd_interp.specs.Lean.{IsAsked};
ghost use Rattle.dd_set.specs.Words.{has};
ghost use Rattle.dd_graph.specs.Right.{is_some_shape};
ghost use Rattle.dd_graph.specs.View.{is_open_at, rules_at, view_of};
ghost use Rattle.dd_open.specs.Models.{labels_of};
ghost use Rattle.dd_open.specs.Builds.{AddsRole, AreElements, ArePairs, Meets};

use crate::elements::Elements;
use crate::resolve::resolve;
use dd_graph::Graph;
use dd_rules::Shape;
use dd_set::NoMemory;

/// Adds the element that the label at position `t` leads to, and the pair of the role of the restriction with the number `n`.
fn add_role(
    g: &Graph,
    elements: &mut Elements,
    roles: &mut Vec<(u32, u32, u32)>,
    x: u32,
    n: u32,
    t: u32,
) -> Result<(), NoMemory>
    requires bound { elements.old.marked.bound ≡ length (view_of g.now).labels }
    requires number { n < length (view_of g.now).closure.concepts }
    requires restricts { (s : Shape) → slice_get (rules_at (view_of g.now)).shapes n ≡ Some s → is_some_shape s ≡ true }
    requires within { t < length (view_of g.now).labels }
    requires open { is_open_at (view_of g.now) t ≡ true }
    ensures bound { elements.new.marked.bound ≡ elements.old.marked.bound }
    ensures adds { OnOk result (AddsRole (view_of g.now) x (n, t) elements.old.marked.list elements.new.marked.list roles.old.items roles.new.items) }
{
    let Shape::HasSome(role, _) = g.compiled().shape(n) else {
        unreachable!();
    };
    let to = elements.place(resolve(g, t));
    roles.push((role, x, to))?;
    Ok(())
}

/// Adds what the pairs of the element x ask for.
pub(crate) fn add_roles(
    g: &Graph,
    elements: &mut Elements,
    roles: &mut Vec<(u32, u32, u32)>,
    x: u32,
    pairs: &[(u32, u32)],
    _goal: u32,
) -> Result<(), NoMemory>
    requires bound { elements.old.marked.bound ≡ length (view_of g.now).labels }
    requires each { AreElements (view_of g.now) _goal elements.old.marked.list }
    requires asked { All (IsAsked (labels_of (view_of g.now) elements.old.marked.list)) roles.old.items }
    requires pairs { ArePairs (view_of g.now) elements.old.marked.list x pairs.now }
    ensures bound { elements.new.marked.bound ≡ elements.old.marked.bound }
    ensures meets { OnOk result (Meets (view_of g.now) _goal x pairs.now (length pairs.now) elements.old.marked.list elements.new.marked.list roles.old.items roles.new.items) }
{
    g.known();
    let mut i = 0;
    while i < pairs.len() {
        let (n, t) = pairs[i];
        add_role(g, elements, roles, x, n, t)?;
        i += 1;
    }
    Ok(())
}
