ghost use Rattle.dd_read.specs.Laws.{TestsDecide};

/// The law that the tests of a line find one thing. The call does nothing.
pub fn tests_decide()
    ensures { TestsDecide }
{}
