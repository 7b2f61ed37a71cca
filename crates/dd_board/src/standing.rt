// How a session stands, and which task is to be taken next.
ghost use Rattle.std.specs.Prelude.{◌≡◌, ◌↔◌, IsTrue, ◌<◌, ◌^◌, length, map, position, slice_get, Some};
ghost use Rattle.dd_board.specs.Sessions.{AreKept, IsKept, is_awaited, may_be_taken, session_view};
ghost use Rattle.dd_board.specs.Standing.{IsGoing, IsOutcome, has_proof, is_proved};
ghost use Rattle.dd_board.specs.Stands.{IsFound, IsSearched, IsStand, Stirs};

use crate::event::{Outcome, TaskState};
use crate::session::{Session, Slot};

/// A session that is over, or the next task of one that is going, or a task that it waits for.
#[derive(Clone, Copy)]
pub(crate) enum Stand {
    Over(Outcome),
    Due(u32),
    Waits(u32),
}

/// The session and task to be taken, or that nothing may be taken while something is awaited, or that no session is going.
#[derive(Clone, Copy)]
pub(crate) enum Found {
    Due(u32, u32),
    Busy,
    Settled,
}

pub(crate) fn outcome_of(s: &Session) -> Outcome
    requires { IsKept s.now }
    ensures { IsOutcome (session_view s.now) result }
{
    match stand_of(s) {
        Stand::Over(outcome) => outcome,
        Stand::Due(_) => Outcome::Going,
        Stand::Waits(_) => Outcome::Going,
    }
}

pub(crate) fn is_going(s: &Session) -> bool
    requires { IsKept s.now }
    ensures { IsTrue result ↔ IsGoing (session_view s.now) }
{
    match outcome_of(s) {
        Outcome::Proved => false,
        Outcome::SpentRun => false,
        Outcome::Quiet => false,
        Outcome::SpentVerdicts => false,
        Outcome::Going => true,
    }
}

pub(crate) fn stand_of(s: &Session) -> Stand
    requires { IsKept s.now }
    ensures { IsStand (session_view s.now) result }
{
    if has_proved_root(s) {
        return Stand::Over(Outcome::Proved);
    }
    if s.has_spent {
        return Stand::Over(Outcome::SpentRun);
    }
    let Some(next) = awaited(s) else {
        return Stand::Over(Outcome::Quiet);
    };
    if s.posts >= s.job.get().budget.verdicts as u64 {
        return Stand::Over(Outcome::SpentVerdicts);
    }
    next
}

fn has_proved_root(s: &Session) -> bool
    ensures { result ≡ has_proof (session_view s.now) }
{
    match s.tasks.as_slice().first() {
        Some(slot) => is_proved_state(&slot.state),
        None => false,
    }
}

fn is_proved_state(state: &TaskState) -> bool
    ensures { result ≡ is_proved state.now }
{
    match state {
        TaskState::Unknown => false,
        TaskState::Open { .. } => false,
        TaskState::Proved { .. } => true,
    }
}

// The next task, or one that is waited for.
fn awaited(s: &Session) -> Option<Stand>
    requires { IsKept s.now }
    ensures { Stirs (session_view s.now) result }
{
    if let Some(t) = first_due(s.tasks.as_slice()) {
        return Some(Stand::Due(t as u32));
    }
    match first_out(s.tasks.as_slice()) {
        Some(t) => Some(Stand::Waits(t as u32)),
        None => None,
    }
}

fn first_due(tasks: &[Slot]) -> Option<usize>
    ensures { result ≡ position may_be_taken tasks.now }
{
    tasks.iter().position(|slot| is_takeable(slot))
}

fn first_out(tasks: &[Slot]) -> Option<usize>
    ensures { result ≡ position is_awaited tasks.now }
{
    tasks
        .iter()
        .position(|slot| slot.is_wanted && slot.holder.is_some())
}

fn is_takeable(slot: &Slot) -> bool
    ensures { result ≡ may_be_taken slot.now }
{
    slot.is_wanted && slot.holder.is_none() && slot.is_due
}

fn session_at(sessions: &[Session], n: usize) -> &Session
    requires { n < length sessions.now }
    ensures { slice_get sessions.now n ≡ Some result.now }
{
    &sessions[n]
}

/// The first session and task that may be taken.
pub(crate) fn find(sessions: &[Session]) -> Found
    requires kept { AreKept sessions.now }
    requires few { length sessions.now < 2 ^ 32 }
    ensures { IsFound (map session_view sessions.now) result }
{
    let mut busy = false;
    for n in 0..sessions.len() {
        match stand_of(session_at(sessions, n)) {
            Stand::Over(_) => {}
            Stand::Due(t) => return Found::Due(n as u32, t),
            Stand::Waits(_) => {
                busy = true;
            }
        }
    }
    if busy {
        return Found::Busy;
    }
    Found::Settled
}
