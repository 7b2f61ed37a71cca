// What is read of a session: its tasks, and what they were opened with.
ghost use Rattle.std.specs.Prelude.{◌≡◌, ◌<◌, length, option_map, slice_get, option_and_then};
ghost use Rattle.dd_board.specs.Boards.{OfSession, tasks_in};
ghost use Rattle.dd_union.specs.Pieces.{IsPartBy, lent_opening, opened_by, opening_at, opening_in, peer_at, raised_at, raised_in};

use dd_board::{Board, Event, TaskState};
use dd_interp::Interp;
use dd_task::Key;

/// The model and the element that the task was opened with, where it is open.
pub(crate) fn opening(b: &Board, session: u32, t: u32) -> Option<(&Interp, u32)>
    requires there { session < length b.now }
    requires task { t < tasks_in b.now session }
    ensures { OfSession (λ v. option_map lent_opening result ≡ opening_at v t) b.now session }
{
    opening_of(b.journal(session), b.state(session, t))
}

fn opening_of<'a>(journal: &'a [Event], state: &TaskState) -> Option<(&'a Interp, u32)>
    ensures { option_map lent_opening result ≡ opening_in journal.now state.now }
{
    match state {
        TaskState::Open { event, .. } => opened_at(journal, *event),
        _ => None,
    }
}

fn opened_at(journal: &[Event], n: u32) -> Option<(&Interp, u32)>
    ensures { option_map lent_opening result ≡ option_and_then opened_by (slice_get journal.now n) }
{
    match journal.get(n as usize) {
        Some(event) => opened_with(event),
        None => None,
    }
}

fn opened_with(event: &Event) -> Option<(&Interp, u32)>
    ensures { option_map lent_opening result ≡ opened_by event.now }
{
    match event {
        Event::Opened { model, at, .. } => Some((model, *at)),
        _ => None,
    }
}

/// The same where the task is wanted as well, so that it is a part.
pub(crate) fn part(b: &Board, session: u32, t: u32) -> Option<(&Interp, u32)>
    requires there { session < length b.now }
    requires task { t < tasks_in b.now session }
    ensures { OfSession (λ v. IsPartBy v t (option_map lent_opening result)) b.now session }
{
    if b.is_wanted(session, t) {
        return opening(b, session, t);
    }
    None
}

/// The tasks that the task raised.
pub(crate) fn raised(b: &Board, session: u32, t: u32) -> &[u32]
    requires there { session < length b.now }
    requires task { t < tasks_in b.now session }
    ensures { OfSession (λ v. result.now ≡ raised_at v t) b.now session }
{
    raised_of(b.state(session, t))
}

fn raised_of(state: &TaskState) -> &[u32]
    ensures { result.now ≡ raised_in state.now }
{
    match state {
        TaskState::Open { raised, .. } => raised.as_slice(),
        _ => &[],
    }
}

/// The peer whose elements the task asks about.
pub(crate) fn peer(b: &Board, session: u32, t: u32) -> u32
    requires there { session < length b.now }
    requires task { t < tasks_in b.now session }
    ensures { OfSession (λ v. result ≡ peer_at v t) b.now session }
{
    match b.key(session, t) {
        Key::Root => b.job(session).query.peer,
        Key::Asked { from, .. } => *from,
    }
}
