// The flags of a session's tasks, made anew.
ghost use Rattle.std.specs.Prelude.{◌≡◌, ◌↔◌, ◌||◌, ◌<◌, IsTrue, ℕ, Some, true, false, length, map, slice_get};
ghost use Rattle.dd_task.specs.Goals.{peer_of};
ghost use Rattle.dd_task.specs.Keys.{are_among, is_among};
ghost use Rattle.std.specs.List.{list_any};
ghost use Rattle.dd_board.specs.Flags.{AreClosed, AreReached, AreWanted, Changes, Closes, IsSpread, Reaches, IsAnew, IsRenewed, is_marked, raised_at, raised_of, with_due, with_want};
ghost use Rattle.dd_board.specs.Sessions.{session_view, task_of};
ghost use Rattle.dd_board.specs.View.{SessionView, change_at, props_for};
ghost use Rattle.dd_board.specs.Wanted.{IsWanted, answers, answers_task, is_open_due};
ghost use Rattle.dd_board.specs.declared.session.Slot.{Slot as SlotView};

use crate::event::TaskState;
use crate::holding::props_into;
use crate::session::{Session, Slot};
use dd_concept::Items;
use dd_task::{Job, Key, Prop};

/// Notes of each task whether it is unknown or stale, and whether it is wanted.
pub(crate) fn renew(s: &mut Session)
    ensures { IsAnew s.old s.new }
{
    renew_wanted(&mut s.tasks);
    renew_due(s);
}

// ---- which tasks are unknown or stale

// Notes of each task whether it is unknown or stale.
fn renew_due(s: &mut Session)
    ensures { IsRenewed s.old s.new }
{
    for k in 0..s.tasks.len() {
        let due = is_task_due(s, k);
        set_due(&mut s.tasks, k, due);
    }
}

fn set_due(tasks: &mut Items<Slot>, k: usize, due: bool)
    requires { k < length tasks.old }
    ensures { tasks.new ≡ change_at (with_due due) tasks.old k }
{
    tasks.list[k].is_due = due;
}

fn is_task_due(s: &Session, k: usize) -> bool
    requires { k < length s.now.tasks }
    ensures { (slot : SlotView) → slice_get s.now.tasks k ≡ Some slot → result ≡ is_open_due (session_view s.now) (props_for (session_view s.now) (task_of slot)) slot.state }
{
    is_slot_due(s, &s.tasks.as_slice()[k])
}

fn is_slot_due(s: &Session, slot: &Slot) -> bool
    ensures { result ≡ is_open_due (session_view s.now) (props_for (session_view s.now) (task_of slot.now)) slot.now.state }
{
    match &slot.state {
        TaskState::Unknown => true,
        TaskState::Open { raised, .. } => is_stale(
            s,
            props_into(s, peer_in(s.job.get(), &slot.key)),
            raised.as_slice(),
        ),
        TaskState::Proved { .. } => false,
    }
}

fn peer_in(job: &Job, key: &Key) -> u32
    ensures { result ≡ peer_of job.now key.now }
{
    match key {
        Key::Root => job.query.peer,
        Key::Asked { from, .. } => *from,
    }
}

fn is_stale(s: &Session, props: &[Prop], raised: &[u32]) -> bool
    ensures { result ≡ list_any (λ prop. list_any (answers_task (session_view s.now) prop) raised.now) props.now }
{
    props.iter().any(|prop| answers_one(s, prop, raised))
}

fn answers_one(s: &Session, prop: &Prop, raised: &[u32]) -> bool
    ensures { result ≡ list_any (answers_task (session_view s.now) prop.now) raised.now }
{
    raised.iter().any(|u| answers_at(s, prop, *u))
}

fn answers_at(s: &Session, prop: &Prop, u: u32) -> bool
    ensures { result ≡ answers_task (session_view s.now) prop.now u }
{
    match s.tasks.as_slice().get(u as usize) {
        Some(slot) => answers_key(prop, &slot.key),
        None => false,
    }
}

fn answers_key(prop: &Prop, key: &Key) -> bool
    ensures { result ≡ answers prop.now key.now }
{
    match key {
        Key::Root => false,
        Key::Asked {
            from,
            onto,
            into_set,
            ..
        } => prop.from == *from
            && prop.onto == *onto
            && all_among(prop.into_set.as_slice(), into_set.as_slice()),
    }
}

fn all_among(set: &[u32], other: &[u32]) -> bool
    ensures { result ≡ are_among set.now other.now }
{
    set.iter().all(|k| among(other, *k))
}

fn among(numbers: &[u32], n: u32) -> bool
    ensures { result ≡ is_among numbers.now n }
{
    numbers.iter().any(|k| *k == n)
}

// ---- which tasks are wanted

// Notes of each task whether it is wanted.
fn renew_wanted(tasks: &mut Items<Slot>)
    ensures same { map task_of tasks.new ≡ map task_of tasks.old }
    ensures wanted { (v : SessionView) → v.tasks ≡ map task_of tasks.old → (t : ℕ) → t < length tasks.new → IsTrue (is_marked tasks.new t) ↔ IsWanted v t }
{
    clear(tasks);
    want(tasks, 0);
    while spread(tasks) {}
}

// Takes all marks away.
fn clear(tasks: &mut Items<Slot>)
    ensures same { map task_of tasks.new ≡ map task_of tasks.old }
    ensures none { (t : ℕ) → is_marked tasks.new t ≡ false }
{
    for k in 0..tasks.len() {
        set_wanted(tasks, k, false);
    }
}

// Marks what the marked tasks raised, one step far and perhaps further. Whether anything was marked.
fn spread(tasks: &mut Items<Slot>) -> bool
    ensures spread { IsSpread tasks.old tasks.new }
    ensures changes { Changes result tasks.old tasks.new }
    ensures closes { Closes result tasks.new (length tasks.new) }
{
    let mut has_more = false;
    for k in 0..tasks.len() {
        let more = spread_at(tasks, k);
        has_more = either(has_more, more);
    }
    has_more
}

fn either(a: bool, b: bool) -> bool
    ensures { result ≡ (a || b) }
{
    a || b
}

// Marks what this task raised, where it has its mark.
fn spread_at(tasks: &mut Items<Slot>, k: usize) -> bool
    ensures spread { IsSpread tasks.old tasks.new }
    ensures changes { Changes result tasks.old tasks.new }
    ensures reached { result ≡ false → is_marked tasks.new k ≡ true → AreReached tasks.new k (length (raised_at tasks.new k)) }
{
    if is_wanted_at(tasks.as_slice(), k) {
        return spread_from(tasks, k);
    }
    false
}

fn is_wanted_at(tasks: &[Slot], k: usize) -> bool
    ensures { result ≡ is_marked tasks.now k }
{
    match tasks.get(k) {
        Some(slot) => slot.is_wanted,
        None => false,
    }
}

// Marks what this task raised.
fn spread_from(tasks: &mut Items<Slot>, k: usize) -> bool
    requires { IsTrue (is_marked tasks.old k) }
    ensures spread { IsSpread tasks.old tasks.new }
    ensures changes { Changes result tasks.old tasks.new }
    ensures reaches { Reaches result tasks.new k (length (raised_at tasks.new k)) }
{
    let mut has_more = false;
    let count = raised_in(tasks.as_slice(), k).len();
    for j in 0..count {
        let u = raised_to(tasks.as_slice(), k, j);
        let more = want(tasks, u as usize);
        has_more = either(has_more, more);
    }
    has_more
}

fn raised_to(tasks: &[Slot], k: usize, j: usize) -> u32
    requires { j < length (raised_at tasks.now k) }
    ensures { slice_get (raised_at tasks.now k) j ≡ Some result }
{
    raised_in(tasks, k)[j]
}

fn raised_in(tasks: &[Slot], k: usize) -> &[u32]
    ensures { result.now ≡ raised_at tasks.now k }
{
    match tasks.get(k) {
        Some(slot) => raised_by_state(&slot.state),
        None => &[],
    }
}

fn raised_by_state(state: &TaskState) -> &[u32]
    ensures { result.now ≡ raised_of state.now }
{
    match state {
        TaskState::Unknown => &[],
        TaskState::Open { raised, .. } => raised.as_slice(),
        TaskState::Proved { .. } => &[],
    }
}

// Marks the task, if it is there and has no mark.
fn want(tasks: &mut Items<Slot>, u: usize) -> bool
    ensures changed { IsTrue result → (tasks.new ≡ change_at (with_want true) tasks.old u) × (u < length tasks.old) × (is_marked tasks.old u ≡ false) }
    ensures same { result ≡ false → (tasks.new ≡ tasks.old) × (u < length tasks.old → IsTrue (is_marked tasks.old u)) }
{
    if u >= tasks.len() {
        return false;
    }
    if is_wanted_at(tasks.as_slice(), u) {
        return false;
    }
    set_wanted(tasks, u, true);
    true
}

fn set_wanted(tasks: &mut Items<Slot>, k: usize, wanted: bool)
    requires { k < length tasks.old }
    ensures { tasks.new ≡ change_at (with_want wanted) tasks.old k }
{
    tasks.list[k].is_wanted = wanted;
}
