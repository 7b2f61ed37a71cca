// Labels that may have a concept more, which is written in normal form and is not made.
ghost use Rattle.std.specs.Prelude.{◌≡◌, ◌∷◌, map};
ghost use Rattle.std.specs.Option.{option_copied};
ghost use Rattle.dd_concept.specs.Same.{has, is_same, is_within};
ghost use Rattle.dd_task.specs.Claims.{claim_of};
ghost use Rattle.dd_task.specs.Lines.{cites_within};
ghost use Rattle.dd_check.specs.Written.{label_cited, written};

use crate::normal::is_normal_form;
use crate::parts::is_one;
use dd_concept::{Concept, contains};
use dd_task::Line;

/// How a concept is written into a label: as it stands, in normal form, or its complement in normal form.
#[derive(Clone, Copy)]
pub(crate) enum Form {
    Plain,
    Normal,
    Complement,
}

/// Whether the second is the first, written in this form.
pub(crate) fn is_written(form: Form, c: &Concept, d: &Concept) -> bool
    ensures first { result ≡ is_same (written form c.now) d.now }
    ensures second { result ≡ is_same d.now (written form c.now) }
{
    is_written_once(form, c, d)
}

fn is_written_once(form: Form, c: &Concept, d: &Concept) -> bool
    ensures { result ≡ is_same (written form c.now) d.now }
{
    match form {
        Form::Plain => is_one(c, d),
        Form::Normal => is_normal_form(c, d, true),
        Form::Complement => is_normal_form(c, d, false),
    }
}

/// Whether the label has the concept, written in this form.
pub(crate) fn has_written(label: &[Concept], form: Form, c: &Concept) -> bool
    ensures { result ≡ has label.now (written form c.now) }
{
    label.iter().any(|d| is_written(form, c, d))
}

/// Whether the label with the concept, written in this form, has d.
fn has_with(label: &[Concept], form: Form, c: &Concept, d: &Concept) -> bool
    ensures { result ≡ has (written form c.now ∷ label.now) d.now }
{
    is_written(form, c, d) || contains(label, d)
}

/// Whether the first label is within the second one with the concept, written in this form.
pub(crate) fn is_within_with(cited: &[Concept], label: &[Concept], form: Form, c: &Concept) -> bool
    ensures { result ≡ is_within cited.now (written form c.now ∷ label.now) }
{
    cited.iter().all(|d| has_with(label, form, c, d))
}

fn has_with_both(label: &[Concept], c: &Concept, d: &Concept, e: &Concept) -> bool
    ensures { result ≡ has (c.now ∷ d.now ∷ label.now) e.now }
{
    is_one(c, e) || is_one(d, e) || contains(label, e)
}

/// Whether the first label is within the second one with these two concepts.
pub(crate) fn is_within_with_both(
    cited: &[Concept],
    label: &[Concept],
    c: &Concept,
    d: &Concept,
) -> bool
    ensures { result ≡ is_within cited.now (c.now ∷ d.now ∷ label.now) }
{
    cited.iter().all(|e| has_with_both(label, c, d, e))
}

/// The label of the line with this number, where it is there and is one of the peer.
pub(crate) fn cited_label(before: &[Line], peer: u32, n: u32) -> Option<&[Concept]>
    ensures { option_copied result ≡ label_cited (map claim_of before.now) peer n }
{
    let line = before.get(n as usize)?;
    if line.peer == peer {
        Some(line.label.as_slice())
    } else {
        None
    }
}

/// Whether the line with this number is one of the peer, within the label with the concept, written in this form.
pub(crate) fn cites_with(
    before: &[Line],
    peer: u32,
    n: u32,
    label: &[Concept],
    form: Form,
    c: &Concept,
) -> bool
    ensures { result ≡ cites_within (map claim_of before.now) peer n (written form c.now ∷ label.now) }
{
    match cited_label(before, peer, n) {
        Some(cited) => is_within_with(cited, label, form, c),
        None => false,
    }
}
