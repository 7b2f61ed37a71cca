ghost use Rattle.dd_interp.specs.NormalForms.{NormalFormsKeepMeaning};

/// The law of the negation normal form. The call does nothing.
pub fn normal_keeps_meaning()
    ensures { NormalFormsKeepMeaning }
{}
