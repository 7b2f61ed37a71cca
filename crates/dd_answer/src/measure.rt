// How much an answer holds.
ghost use Rattle.std.specs.Prelude.{◌≡◌, ◌+◌, length, sum_by};
ghost use Rattle.dd_answer.specs.Weight.{capped, content_of, weight_of};

use crate::answer::Answer;
use dd_interp::Interp;
use dd_world::World;

/// How much the answer holds: the lines of a derivation, or the elements, name pairs, role triples and links of a world, and
/// the largest number of a u64 where there are more. Any other answer holds nothing.
pub fn weight(a: &Answer) -> u64
    ensures { result ≡ weight_of a.now }
{
    match a {
        Answer::Yes(lines) => lines.as_slice().len() as u64,
        Answer::No(world) => weight_of_world(world),
        Answer::RunSpent(_) | Answer::VerdictsSpent(_) | Answer::Memory => 0,
    }
}

fn weight_of_world(w: &World) -> u64
    ensures { result ≡ capped (sum_by content_of w.now.locals + length w.now.links) }
{
    weight_of_locals(w.locals.as_slice()).saturating_add(w.links.as_slice().len() as u64)
}

fn weight_of_locals(locals: &[Interp]) -> u64
    ensures { result ≡ capped (sum_by content_of locals.now) }
{
    let mut total = 0u64;
    for local in locals {
        total = with_content(total, local);
    }
    total
}

fn with_content(total: u64, i: &Interp) -> u64
    ensures { result ≡ capped (total + content_of i.now) }
{
    let elements = total.saturating_add(i.size as u64);
    let names = elements.saturating_add(i.names.as_slice().len() as u64);
    names.saturating_add(i.roles.as_slice().len() as u64)
}
