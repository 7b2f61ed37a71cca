// Whether a ticket is that of its task's holder.
ghost use Rattle.std.specs.Prelude.{◌≡◌, ◌↔◌, ◌<◌, ◌≤◌, IsTrue, None, Some, length, map, option_map, slice_get, take};
ghost use Rattle.std.specs.Option.{option_copied};
ghost use Rattle.dd_board.specs.Boards.{task_at};
ghost use Rattle.dd_board.specs.Holders.{HasHolder, IsHeldOn, IsHolderOf, NotTakenAs, number_in};
ghost use Rattle.dd_board.specs.Posts.{IsFirstDifference, IsTaken, holder_now, props_now};
ghost use Rattle.dd_board.specs.Sessions.{session_view, task_of};
ghost use Rattle.dd_board.specs.View.{into_peer};
ghost use Rattle.dd_board.specs.declared.ticket.Posted.{Posted as PostedView};

use crate::session::{Session, Slot};
use crate::ticket::{Posted, Ticket};
use dd_task::{Prop, same_job, same_key};

/// Why the ticket is not that of its task's holder, if it is not.
pub(crate) fn refusal(sessions: &[Session], t: &Ticket) -> Option<Posted>
    ensures taken { result ≡ None → IsTaken (map session_view sessions.now) t.now }
    ensures refused { (p : PostedView) → result ≡ Some p → NotTakenAs (map session_view sessions.now) t.now p }
{
    let view = difference(props_at(sessions, t), t.view());
    if !is_held(sessions, t) {
        return Some(not_taken(sessions, t, view));
    }
    if view < t.view().len() {
        return Some(not_taken(sessions, t, view));
    }
    None
}

fn not_taken(sessions: &[Session], t: &Ticket, view: usize) -> Posted
    requires { view ≤ length t.now.view }
    ensures { result ≡ PostedView.NotTaken (holder_now (map session_view sessions.now) t.now) t.now.number view }
{
    Posted::NotTaken {
        holder: holder_of(slot_at(sessions, t)),
        number: t.number,
        view: view as u32,
    }
}

fn holder_of(slot: Option<&Slot>) -> Option<u32>
    ensures { result ≡ number_in (option_map task_of (option_copied slot.entry)) }
{
    match slot {
        Some(slot) => number_of(slot),
        None => None,
    }
}

fn number_of(slot: &Slot) -> Option<u32>
    ensures { result ≡ number_in (Some (task_of slot.now)) }
{
    match slot.holder {
        Some(h) => Some(h.number),
        None => None,
    }
}

fn slot_at<'a>(sessions: &'a [Session], t: &Ticket) -> Option<&'a Slot>
    ensures { option_map task_of (option_copied result) ≡ task_at (map session_view sessions.now) t.now.session t.now.task }
{
    match sessions.get(t.session as usize) {
        Some(s) => s.tasks.as_slice().get(t.task as usize),
        None => None,
    }
}

fn props_at<'a>(sessions: &'a [Session], t: &Ticket) -> &'a [Prop]
    ensures { result.now ≡ props_now (map session_view sessions.now) t.now }
{
    match sessions.get(t.session as usize) {
        Some(s) => props_into(s, t.goal.peer),
        None => &[],
    }
}

/// The propagations into the peer.
pub(crate) fn props_into(s: &Session, peer: u32) -> &[Prop]
    ensures { result.now ≡ into_peer s.now.props peer }
{
    match s.props.as_slice().get(peer as usize) {
        Some(list) => list.as_slice(),
        None => &[],
    }
}

// The first place at which the propagations differ from the view, or the view's length.
fn difference(props: &[Prop], view: &[Prop]) -> usize
    ensures { IsFirstDifference props.now view.now result }
{
    for k in 0..view.len() {
        if !is_same_at(props, view, k) {
            return k;
        }
    }
    view.len()
}

fn is_same_at(props: &[Prop], view: &[Prop], k: usize) -> bool
    requires { k < length view.now }
    ensures { IsTrue result ↔ (slice_get props.now k ≡ slice_get view.now k) }
{
    match props.get(k) {
        Some(prop) => same_prop(prop, &view[k]),
        None => false,
    }
}

fn same_prop(a: &Prop, b: &Prop) -> bool
    ensures { IsTrue result ↔ (a.now ≡ b.now) }
{
    a.from == b.from && a.onto == b.onto && a.line == b.line && same_set(a, b)
}

fn same_set(a: &Prop, b: &Prop) -> bool
    ensures { IsTrue result ↔ (a.now.into_set ≡ b.now.into_set) }
{
    a.into_set.as_slice() == b.into_set.as_slice()
}

fn session_of(sessions: &[Session], n: u32) -> Option<&Session>
    ensures { option_copied result ≡ slice_get sessions.now n }
{
    sessions.get(n as usize)
}

// Whether the task is held by the ticket, and the job is the ticket's.
fn is_held(sessions: &[Session], t: &Ticket) -> bool
    ensures { IsTrue result ↔ IsHeldOn (map session_view sessions.now) t.now }
{
    match session_of(sessions, t.session()) {
        Some(s) => has_holder(s, t),
        None => false,
    }
}

fn has_holder(s: &Session, t: &Ticket) -> bool
    ensures { IsTrue result ↔ HasHolder (session_view s.now) t.now }
{
    match s.tasks.as_slice().get(t.task as usize) {
        Some(slot) => is_holder(slot, t) && same_job(s.job.get(), t.job.get()),
        None => false,
    }
}

fn is_holder(slot: &Slot, t: &Ticket) -> bool
    ensures { IsTrue result ↔ IsHolderOf (task_of slot.now) t.now }
{
    match slot.holder {
        Some(h) => {
            h.number == t.number
                && h.seen as usize == t.view.as_slice().len()
                && same_key(&slot.key, &t.key)
        }
        None => false,
    }
}
