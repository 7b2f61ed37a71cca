// Equal answers once more.
ghost use Rattle.std.specs.Prelude.{◌≡◌, IfOk};

use crate::NoMemory;
use crate::answer::Answer;
use dd_concept::Items;
use dd_interp::Interp;
use dd_task::{Line, copy_line, copy_spent};
use dd_world::World;
use std::alloc::Global;

/// An equal answer.
pub fn copy_answer(alloc: Global, a: &Answer) -> Result<Answer, NoMemory>
    ensures { IfOk result (λ b. b ≡ a.now) }
{
    match a {
        Answer::Yes(lines) => Ok(Answer::Yes(copy_lines(alloc, lines.as_slice())?)),
        Answer::No(world) => Ok(Answer::No(copy_world(alloc, world)?)),
        Answer::RunSpent(run) => Ok(Answer::RunSpent(copy_spent(alloc, run)?)),
        Answer::VerdictsSpent(count) => Ok(Answer::VerdictsSpent(*count)),
        Answer::Memory => Ok(Answer::Memory),
    }
}

fn copy_lines(alloc: Global, lines: &[Line]) -> Result<Items<Line>, NoMemory>
    ensures { IfOk result (λ ls. ls ≡ lines.now) }
{
    let mut copies = Items::new(alloc);
    for line in lines {
        copies.push(copy_line(alloc, line)?)?;
    }
    Ok(copies)
}

fn copy_world(alloc: Global, w: &World) -> Result<World, NoMemory>
    ensures { IfOk result (λ v. v ≡ w.now) }
{
    let locals = copy_locals(alloc, w.locals.as_slice())?;
    Ok(World {
        locals,
        links: Items::from_slice(alloc, w.links.as_slice())?,
    })
}

fn copy_locals(alloc: Global, locals: &[Interp]) -> Result<Items<Interp>, NoMemory>
    ensures { IfOk result (λ is. is ≡ locals.now) }
{
    let mut copies = Items::new(alloc);
    for local in locals {
        copies.push(copy_interp(alloc, local)?)?;
    }
    Ok(copies)
}

fn copy_interp(alloc: Global, i: &Interp) -> Result<Interp, NoMemory>
    ensures { IfOk result (λ j. j ≡ i.now) }
{
    let names = Items::from_slice(alloc, i.names.as_slice())?;
    Ok(Interp {
        size: i.size,
        names,
        roles: Items::from_slice(alloc, i.roles.as_slice())?,
    })
}
