// A verdict is posted.
ghost use Rattle.std.specs.Prelude.{◌≡◌, ◌+◌, ◌-◌, ◌^◌, ◌<◌, ◌≤◌, ◌++◌, ◌∷◌, [], Some, true, IfErr, IfOk, OnErr, OnOk, length, map, slice_get, vec_capacity};
ghost use Rattle.dd_interp.specs.Satisfies.{IsShaped};
ghost use Rattle.dd_task.specs.Demands.{raised_by};
ghost use Rattle.dd_task.specs.Goals.{peer_of};
ghost use Rattle.dd_board.specs.Allowed.{IsHeld, MayClose, MayOpen, MaySpend};
ghost use Rattle.dd_board.specs.Draws.{IsKeyAt};
ghost use Rattle.dd_board.specs.Moved.{moved_line};
ghost use Rattle.dd_board.specs.Sessions.{IsKept, is_held, session_view};
ghost use Rattle.dd_board.specs.Settling.{IsPosted, numbers_in, with_slots, with_state};
ghost use Rattle.dd_board.specs.Steps.{apply};
ghost use Rattle.dd_board.specs.View.{change_at};
ghost use Rattle.dd_board.specs.declared.event.Event.{Event as EventView};
ghost use Rattle.dd_board.specs.declared.event.Event.TheVariants.{Closed, Opened, Spent};
ghost use Rattle.dd_board.specs.declared.event.TaskState.{TaskState as StateView};
ghost use Rattle.dd_board.specs.declared.session.Slot.{Slot as SlotView};

use crate::NoMemory;
use crate::closing::extend;
use crate::event::{Event, TaskState};
use crate::flags::renew;
use crate::giving::{note, set_holder};
use crate::opening::raise;
use crate::session::{Session, Slot};
use dd_concept::Items;
use dd_interp::Interp;
use dd_task::{Key, Line, Prop, SpentRun, demands_of};
use std::alloc::Global;

/// A spent run of the task is posted.
pub(crate) fn post_spent(s: &mut Session, task: u32, number: u32, run: SpentRun)
    requires kept { IsKept s.old }
    requires may { MaySpend (session_view s.old) task number run }
    ensures after { session_view s.new ≡ apply (session_view s.old) (Spent task number run) [] }
    ensures kept { IsKept s.new }
{
    set_holder(&mut s.tasks, task, None);
    s.held -= 1;
    s.posts += 1;
    s.has_spent = true;
    note(&mut s.journal, Event::Spent { task, number, run });
}

/// Lines that close the task are posted.
pub(crate) fn post_closed(
    alloc: Global,
    s: &mut Session,
    task: u32,
    number: u32,
    key: &Key,
    view: &[Prop],
    own: &[Line],
) -> Result<(), NoMemory>
    requires kept { IsKept s.old }
    requires key { IsKeyAt (session_view s.old) task key.now }
    requires may { MayClose (session_view s.old) task number (length own.now) (map (moved_line view.now (length s.old.lines)) own.now) }
    ensures after { OnOk result (session_view s.new ≡ apply (session_view s.old) (Closed task number (length own.now)) (map (moved_line view.now (length s.old.lines)) own.now)) }
    ensures same { OnErr result (session_view s.new ≡ session_view s.old) }
    ensures kept { IsKept s.new }
{
    extend(
        alloc,
        &mut s.lines,
        &mut s.props,
        s.job.get(),
        key,
        view,
        own,
    )?;
    let line = last_number(&s.lines);
    let lines = own.len() as u32;
    settle(
        s,
        task,
        TaskState::Proved { line },
        Event::Closed {
            task,
            number,
            lines,
        },
    );
    Ok(())
}

/// A model with an element that has the goal's label is posted. Without memory it is handed back.
pub(crate) fn post_open(
    alloc: Global,
    s: &mut Session,
    task: u32,
    number: u32,
    seen: u32,
    peer: u32,
    model: Interp,
    at: u32,
) -> Result<(), Interp>
    requires kept { IsKept s.old }
    requires may { MayOpen (session_view s.old) task number model at }
    requires seen { (h : IsHeld (session_view s.old) task number) → h.holder.seen ≡ seen }
    requires peer { (h : IsHeld (session_view s.old) task number) → peer_of s.old.job h.task.key ≡ peer }
    ensures after { OnOk result (session_view s.new ≡ apply (session_view s.old) (Opened task number model at) []) }
    ensures same { OnErr result (session_view s.new ≡ session_view s.old) }
    ensures back { IfErr result (λ m. m ≡ model) }
    ensures kept { IsKept s.new }
{
    let raised = match raised_by_model(alloc, s, peer, &model) {
        Ok(raised) => raised,
        Err(_) => return Err(model),
    };
    let event = s.journal.len() as u32;
    settle(
        s,
        task,
        TaskState::Open {
            event,
            raised,
            seen,
        },
        Event::Opened {
            task,
            number,
            model,
            at,
        },
    );
    Ok(())
}

// The numbers of the tasks of the raised keys, which are made where there are none.
fn raised_by_model(
    alloc: Global,
    s: &mut Session,
    peer: u32,
    model: &Interp,
) -> Result<Items<u32>, NoMemory>
    requires kept { IsKept s.old }
    requires shaped { IsShaped model.now }
    ensures raised { IfOk result (λ us. us ≡ numbers_in s.old peer model.now) }
    ensures tasks { OnOk result (s.new ≡ record s.old { tasks = with_slots s.old.tasks (raised_by s.old.job.pinned peer model.now) }) }
    ensures few { OnOk result (length s.new.tasks < 2 ^ 32) }
    ensures same { OnErr result (s.new ≡ s.old) }
{
    let keys = demands_of(alloc, &s.job.get().pinned, peer, model)?;
    let raised = raise(alloc, &mut s.tasks, keys.as_slice())?;
    Ok(raised)
}

fn last_number(lines: &Items<Line>) -> u32
    requires { length lines.now < 2 ^ 32 }
    ensures { result ≡ length lines.now - 1 }
{
    lines.len().saturating_sub(1) as u32
}

// The task has this state and is not held, the event is journalled, and the flags are made anew.
fn settle(s: &mut Session, task: u32, state: TaskState, event: Event)
    requires low { task < length s.old.tasks }
    requires out { (slot : SlotView) → slice_get s.old.tasks task ≡ Some slot → is_held slot ≡ true }
    requires held { 1 ≤ s.old.held }
    requires posts { s.old.posts < 4294967296 }
    requires room { length s.old.journal.items < vec_capacity s.old.journal }
    ensures { IsPosted s.old s.new task state event }
{
    set_state(&mut s.tasks, task, state);
    s.held -= 1;
    s.posts += 1;
    note(&mut s.journal, event);
    renew(s);
}

fn set_state(tasks: &mut Items<Slot>, t: u32, state: TaskState)
    requires { t < length tasks.old }
    ensures { tasks.new ≡ change_at (with_state state) tasks.old t }
{
    let slot = &mut tasks.list[t as usize];
    slot.holder = None;
    slot.state = state;
}
