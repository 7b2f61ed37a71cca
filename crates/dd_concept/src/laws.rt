ghost use Rattle.dd_concept.specs.Laws.{NormalFormsStay};

/// The law of normal forms of normal forms. The call does nothing.
pub fn normal_forms_stay()
    ensures { NormalFormsStay }
{}
