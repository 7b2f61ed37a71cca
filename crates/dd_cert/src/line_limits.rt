ghost use Rattle.std.specs.Prelude.{◌≡◌, ◌∷◌, []};
ghost use Rattle.dd_cert.specs.Derivations.{numbers_of_line, numbers_of_why};
ghost use Rattle.dd_cert.specs.Steps.{walk, past_bridge, past_line, past_number};

use crate::form::{LineForm, WhyForm};
use crate::limits::pass_number;
use crate::read::CertErr;

/// How many numbers there are, where none is too large. As in `limits`, each function goes on from a place, and gives the
/// place behind what it has passed.
pub fn pass_lines(mut place: u32, lines: &[LineForm]) -> Result<u32, CertErr>
    ensures { result ≡ walk past_line place lines.now }
{
    for line in lines {
        place = pass_line(place, line)?;
    }
    Ok(place)
}

fn pass_line(place: u32, line: &LineForm) -> Result<u32, CertErr>
    ensures { result ≡ walk past_number place (numbers_of_line line.now) }
{
    let next = pass_number(place, line.peer)?;
    pass_why(next, &line.why)
}

fn pass_why(place: u32, why: &WhyForm) -> Result<u32, CertErr>
    ensures { result ≡ walk past_number place (numbers_of_why why.now) }
{
    match why {
        WhyForm::Bottom => Ok(place),
        WhyForm::Clash { .. } => Ok(place),
        WhyForm::And { at, cite } => pass_two(place, *at, *cite),
        WhyForm::Or { at, left, right } => pass_three(place, *at, *left, *right),
        WhyForm::Axiom { index, left, right } => pass_three(place, *index, *left, *right),
        WhyForm::Cut { yes, no, .. } => pass_two(place, *no, *yes),
        WhyForm::Successor { at, cite } => pass_two(place, *at, *cite),
        WhyForm::Bridge {
            from,
            onto,
            into_set,
            cite,
            each,
        } => pass_bridge(
            place,
            *from,
            *onto,
            into_set.as_slice(),
            *cite,
            each.as_slice(),
        ),
    }
}

fn pass_two(place: u32, first: u64, second: u64) -> Result<u32, CertErr>
    ensures { result ≡ walk past_number place (first ∷ second ∷ []) }
{
    let next = pass_number(place, first)?;
    let last = pass_number(next, second)?;
    Ok(last)
}

fn pass_three(place: u32, first: u64, second: u64, third: u64) -> Result<u32, CertErr>
    ensures { result ≡ walk past_number place (first ∷ second ∷ third ∷ []) }
{
    let next = pass_number(place, first)?;
    let later = pass_number(next, second)?;
    let last = pass_number(later, third)?;
    Ok(last)
}

/// Those of a bridge: the cited line, those cited for each into rule, the other peer, the into rules and the onto rule.
fn pass_bridge(
    place: u32,
    from: u64,
    onto: u64,
    into_set: &[u64],
    cite: u64,
    each: &[u64],
) -> Result<u32, CertErr>
    ensures { result ≡ past_bridge place from onto into_set.now cite each.now }
{
    let place = pass_number(place, cite)?;
    let place = pass_each(place, each)?;
    let place = pass_number(place, from)?;
    let place = pass_each(place, into_set)?;
    pass_number(place, onto)
}

fn pass_each(mut place: u32, numbers: &[u64]) -> Result<u32, CertErr>
    ensures { result ≡ walk past_number place numbers.now }
{
    for n in numbers {
        place = pass_number(place, *n)?;
    }
    Ok(place)
}
