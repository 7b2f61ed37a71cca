//! The run of a ticket.
ghost use Rattle.std.specs.Prelude.{IfOk};
ghost use Rattle.dd_task.specs.Verdicts.{IsRight};
ghost use Rattle.dd_work.specs.Fit.{IsFit};

use crate::NoMemory;
use dd_board::Ticket;
use dd_run::{goals_of_keys_are_fit, verdict_of};
use dd_task::Verdict;
use std::alloc::Global;

/// A verdict on the ticket's goal that is right under the propagations that the ticket has.
pub fn run(alloc: Global, ticket: &Ticket) -> Result<Verdict, NoMemory>
    requires { IsFit ticket.now.job }
    ensures { IfOk result (IsRight ticket.now.job ticket.now.goal ticket.now.view) }
{
    goals_of_keys_are_fit();
    verdict_of(alloc, ticket.job(), ticket.goal(), ticket.view())
}
