// A task is taken.
ghost use Rattle.std.specs.Prelude.{◌≡◌, ◌+◌, ◌^◌, ◌<◌, ◌≤◌, [], IfOk, OnErr, OnOk, Some, length, slice_get, vec_capacity};
ghost use Rattle.dd_task.specs.Goals.{goal_for, peer_of};
ghost use Rattle.dd_board.specs.Draws.{IsDrawnFrom, IsFilled, IsKeyAt, MayHold};
ghost use Rattle.dd_board.specs.Sessions.{IsKept, session_view};
ghost use Rattle.dd_board.specs.Standing.{IsGoing};
ghost use Rattle.dd_board.specs.Stands.{IsNext};
ghost use Rattle.dd_board.specs.Steps.{apply};
ghost use Rattle.dd_board.specs.View.{into_peer, props_for};
ghost use Rattle.dd_board.specs.declared.event.Event.TheVariants.{Take};

use crate::NoMemory;
use crate::event::Event;
use crate::giving::{note, set_holder};
use crate::holding::props_into;
use crate::session::{Holding, Session, Slot};
use crate::ticket::Ticket;
use dd_concept::Items;
use dd_task::{Goal, Key, Prop, copy_key, copy_prop, goal_of};
use std::alloc::Global;

/// A ticket for the task `t` of this session, whose number is `n`.
pub(crate) fn take_next(
    alloc: Global,
    s: &mut Session,
    n: u32,
    t: u32,
    worker: u32,
) -> Result<Ticket, NoMemory>
    requires kept { IsKept s.old }
    requires going { IsGoing (session_view s.old) }
    requires next { IsNext (session_view s.old) t }
    ensures taken { IfOk result (λ ticket. IsDrawnFrom (session_view s.old) (session_view s.new) n t worker ticket) }
    ensures same { OnErr result (session_view s.new ≡ session_view s.old) }
    ensures kept { IsKept s.new }
{
    make_room(s)?;
    let ticket = draw(alloc, s, n, t)?;
    hold(s, t, worker, ticket.view().len() as u32);
    Ok(ticket)
}

// Room for the event of a take, and for the one that ends the ticket, and numbers for both.
fn make_room(s: &mut Session) -> Result<(), NoMemory>
    requires { IsKept s.old }
    ensures room { OnOk result (MayHold s.new) }
    ensures same { session_view s.new ≡ session_view s.old }
    ensures kept { IsKept s.new }
{
    if s.next == u32::MAX {
        return Err(NoMemory);
    }
    if s.journal.len() as u64 + s.held + 2 > u32::MAX as u64 {
        return Err(NoMemory);
    }
    reserve(&mut s.journal, s.held as usize + 2)
}

fn reserve(journal: &mut Vec<Event>, more: usize) -> Result<(), NoMemory>
    ensures room { OnOk result (length journal.old.items + more ≤ vec_capacity journal.new) }
    ensures items { journal.new.items ≡ journal.old.items }
    ensures capacity { vec_capacity journal.old ≤ vec_capacity journal.new }
{
    journal.reserve(more)
}

// The ticket, which is not out yet.
fn draw(alloc: Global, s: &Session, n: u32, t: u32) -> Result<Ticket, NoMemory>
    requires kept { IsKept s.now }
    requires next { IsNext (session_view s.now) t }
    ensures { IfOk result (IsFilled (session_view s.now) n t) }
{
    let key = copy_key(alloc, &slot_in(s, t).key)?;
    let goal = goal_of(alloc, s.job.get(), &key)?;
    let view = copy_view(alloc, props_into(s, goal.peer))?;
    fill(s, n, t, key, goal, view)
}

/// The task.
pub(crate) fn slot_in(s: &Session, t: u32) -> &Slot
    requires { t < length s.now.tasks }
    ensures { slice_get s.now.tasks t ≡ Some result.now }
{
    &s.tasks.as_slice()[t as usize]
}

fn copy_view(alloc: Global, props: &[Prop]) -> Result<Items<Prop>, NoMemory>
    ensures { IfOk result (λ ps. ps ≡ props.now) }
{
    let mut copies = Items::new(alloc);
    for p in props {
        copies.push(copy_prop(alloc, p)?)?;
    }
    Ok(copies)
}

fn fill(
    s: &Session,
    n: u32,
    t: u32,
    key: Key,
    goal: Goal,
    view: Items<Prop>,
) -> Result<Ticket, NoMemory>
    requires kept { IsKept s.now }
    requires slot { IsKeyAt (session_view s.now) t key }
    requires goal { goal ≡ goal_for s.now.job key }
    requires view { view ≡ into_peer s.now.props (peer_of s.now.job key) }
    ensures { IfOk result (IsFilled (session_view s.now) n t) }
{
    if view.len() > u32::MAX as usize {
        return Err(NoMemory);
    }
    Ok(Ticket {
        session: n,
        task: t,
        number: s.next,
        job: s.job.share()?,
        key,
        goal,
        view,
    })
}

// The task has the next number, and all propagations were seen.
fn hold(s: &mut Session, t: u32, worker: u32, seen: u32)
    requires kept { IsKept s.old }
    requires room { MayHold s.old }
    requires going { IsGoing (session_view s.old) }
    requires next { IsNext (session_view s.old) t }
    requires sees { (next : IsNext (session_view s.old) t) → seen ≡ length (props_for (session_view s.old) next.task) }
    ensures after { session_view s.new ≡ apply (session_view s.old) (Take t worker s.old.next seen) [] }
    ensures kept { IsKept s.new }
{
    let number = s.next;
    set_holder(&mut s.tasks, t, Some(Holding { number, seen }));
    s.held += 1;
    s.next += 1;
    note(
        &mut s.journal,
        Event::Take {
            task: t,
            worker,
            number,
            seen,
        },
    );
}
