ghost use Rattle.dd_run.specs.Fit.{GoalsOfKeysAreFit};
ghost use Rattle.dd_run.specs.Given.{ClosuresComeFromGiven};

/// Each concept of a relevant peer's closure comes from a concept that the job gives. The call does nothing.
pub fn closures_come_from_given()
    ensures { ClosuresComeFromGiven }
{}

/// The goal of a key is within the closure of its peer, where the peer that keeps its rules is relevant. The call does nothing.
pub fn goals_of_keys_are_fit()
    ensures { GoalsOfKeysAreFit }
{}
