ghost use Rattle.dd_world.specs.World.{CountersRefute};

/// The law that a query with a countermodel does not follow. The call does nothing.
pub fn counters_refute()
    ensures { CountersRefute }
{}
