// A ticket is given back, and all of them are.
ghost use Rattle.std.specs.Prelude.{◌≡◌, ◌<◌, ◌++◌, ◌∷◌, [], Some, length, map, slice_get, vec_capacity};
ghost use Rattle.dd_board.specs.Allowed.{IsHeld};
ghost use Rattle.dd_board.specs.Releases.{give_held, released};
ghost use Rattle.dd_board.specs.Sessions.{AreKept, IsKept, session_view, with_holder};
ghost use Rattle.dd_board.specs.Steps.{apply};
ghost use Rattle.dd_board.specs.View.{change_at};
ghost use Rattle.dd_board.specs.declared.event.Event.{Event as EventView};
ghost use Rattle.dd_board.specs.declared.event.Event.TheVariants.{Give};
ghost use Rattle.dd_board.specs.declared.session.Slot.{Slot as SlotView};

use crate::event::Event;
use crate::session::{Holding, Session, Slot};
use dd_concept::Items;

/// Gives the task back.
pub(crate) fn give(s: &mut Session, task: u32, number: u32)
    requires kept { IsKept s.old }
    requires held { IsHeld (session_view s.old) task number }
    ensures after { session_view s.new ≡ apply (session_view s.old) (Give task number) [] }
    ensures kept { IsKept s.new }
{
    set_holder(&mut s.tasks, task, None);
    s.held -= 1;
    note(&mut s.journal, Event::Give { task, number });
}

/// One more event, for which there is room.
pub(crate) fn note(journal: &mut Vec<Event>, event: Event)
    requires { length journal.old.items < vec_capacity journal.old }
    ensures items { journal.new.items ≡ journal.old.items ++ event ∷ [] }
    ensures capacity { vec_capacity journal.new ≡ vec_capacity journal.old }
{
    journal.push_reserved(event);
}

/// The task has this holder, or none.
pub(crate) fn set_holder(tasks: &mut Items<Slot>, t: u32, holder: Option<Holding>)
    requires { t < length tasks.old }
    ensures { tasks.new ≡ change_at (with_holder holder) tasks.old t }
{
    tasks.list[t as usize].holder = holder;
}

/// Gives back all tasks of a session that are held.
pub(crate) fn release_at(sessions: &mut Vec<Session>, n: usize)
    requires low { n < length sessions.old.items }
    requires kept { AreKept sessions.old.items }
    ensures released { map session_view sessions.new.items ≡ change_at released (map session_view sessions.old.items) n }
    ensures kept { AreKept sessions.new.items }
    ensures few { length sessions.new.items ≡ length sessions.old.items }
{
    release(&mut sessions[n]);
}

fn release(s: &mut Session)
    requires { IsKept s.old }
    ensures released { session_view s.new ≡ released (session_view s.old) }
    ensures kept { IsKept s.new }
{
    for t in 0..s.tasks.len() {
        give_if_held(s, t);
    }
}

fn give_if_held(s: &mut Session, t: usize)
    requires low { t < length s.old.tasks }
    requires kept { IsKept s.old }
    ensures given { session_view s.new ≡ give_held (session_view s.old) t }
    ensures kept { IsKept s.new }
{
    if let Some(h) = holder_at(s, t) {
        give(s, t as u32, h.number);
    }
}

fn holder_at(s: &Session, t: usize) -> Option<Holding>
    requires { t < length s.now.tasks }
    ensures { (slot : SlotView) → slice_get s.now.tasks t ≡ Some slot → result ≡ slot.holder }
{
    s.tasks.as_slice()[t].holder
}
