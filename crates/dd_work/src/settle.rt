ghost use Rattle.std.specs.Prelude.{◌≡◌, ◌<◌, true, false, IfOk, OnOk};
ghost use Rattle.dd_board.specs.Boards.{AreLegal};
ghost use Rattle.dd_board.specs.Takes.{IsSettled};
ghost use Rattle.dd_work.specs.Fit.{AreFit};
ghost use Rattle.dd_work.specs.Settled.{ExtendEach, HasNothingHeld};
ghost use Rattle.dd_work.specs.Turns.{IsOut, left};
ghost use Rattle.dd_task.specs.Verdicts.{IsRight};

use crate::NoMemory;
use crate::running::run;
use dd_board::{Board, Take, Ticket};
use dd_task::Verdict;
use std::alloc::Global;

/// Takes a ticket, runs its goal and posts the verdict, until no session is going. The sessions stay, each with its events so
/// far before those that come. Without memory the ticket that is out is given back, and the call may be made again.
pub fn settle_alone(alloc: Global, board: &mut Board) -> Result<(), NoMemory>
    requires fit { AreFit board.old }
    requires free { HasNothingHeld board.old }
    ensures settled { OnOk result (IsSettled board.new) }
    ensures free { HasNothingHeld board.new }
    ensures extends { ExtendEach board.old board.new }
    ensures legal { AreLegal board.new }
{
    let settled = settle(alloc, board);
    let _legal = board.sessions();
    settled
}

fn settle(alloc: Global, board: &mut Board) -> Result<(), NoMemory>
    requires fit { AreFit board.old }
    requires free { HasNothingHeld board.old }
    ensures settled { OnOk result (IsSettled board.new) }
    ensures free { HasNothingHeld board.new }
    ensures extends { ExtendEach board.old board.new }
{
    loop {
        if !turn(alloc, board)? {
            return Ok(());
        }
    }
}

// One task is taken and answered, or no session is going.
fn turn(alloc: Global, board: &mut Board) -> Result<bool, NoMemory>
    requires fit { AreFit board.old }
    requires free { HasNothingHeld board.old }
    ensures extends { ExtendEach board.old board.new }
    ensures free { HasNothingHeld board.new }
    ensures fewer { IfOk result (λ more. more ≡ true → left board.new < left board.old) }
    ensures settled { IfOk result (λ more. more ≡ false → IsSettled board.new) }
{
    match board.take(alloc, 0)? {
        Take::Ticket(ticket) => {
            let _goal = ticket.goal();
            answer(alloc, board, ticket)?;
            Ok(true)
        }
        Take::Busy => Ok(false),
        Take::Settled => Ok(false),
    }
}

fn answer(alloc: Global, board: &mut Board, ticket: Ticket) -> Result<(), NoMemory>
    requires fit { AreFit board.old }
    requires out { IsOut board.old ticket }
    ensures extends { ExtendEach board.old board.new }
    ensures free { HasNothingHeld board.new }
    ensures fewer { OnOk result (left board.new < left board.old) }
{
    match run(alloc, &ticket) {
        Ok(verdict) => post(alloc, board, ticket, verdict),
        Err(e) => {
            give_back(board, ticket);
            Err(e)
        }
    }
}

fn post(alloc: Global, board: &mut Board, ticket: Ticket, verdict: Verdict) -> Result<(), NoMemory>
    requires right { IsRight ticket.job ticket.goal ticket.view verdict }
    requires out { IsOut board.old ticket }
    ensures extends { ExtendEach board.old board.new }
    ensures free { HasNothingHeld board.new }
    ensures fewer { OnOk result (left board.new < left board.old) }
{
    match board.post(alloc, ticket, verdict) {
        Ok(_) => Ok(()),
        Err((ticket, _)) => {
            give_back(board, ticket);
            Err(NoMemory)
        }
    }
}

// Gives the ticket back.
fn give_back(board: &mut Board, ticket: Ticket)
    requires out { IsOut board.old ticket }
    ensures extends { ExtendEach board.old board.new }
    ensures free { HasNothingHeld board.new }
{
    board.give_back(ticket);
}
