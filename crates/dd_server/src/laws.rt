ghost use Rattle.dd_server.specs.Laws.{RelevantVersions};
ghost use Rattle.dd_server.specs.Verdicts.{VerdictsHold};

/// The law that what is answered rests on the versions of the relevant peers alone. The call does nothing.
pub fn relevant_versions()
    ensures { RelevantVersions }
{}

/// The law that each verdict that is replied says what holds, be it searched for or found in the cache. The call does nothing.
pub fn verdicts_hold()
    ensures { VerdictsHold }
{}
