ghost use Rattle.dd_graph.specs.View.{view_of};
ghost use Rattle.dd_open.specs.NotBoth.{ClosedHaveNoModel};

use dd_graph::Graph;

/// No element of a model has all concepts of a label with a rank. The call does nothing.
pub fn closed_has_no_model(g: &Graph)
    ensures { ClosedHaveNoModel (view_of g.now) }
{
    g.known();
}
