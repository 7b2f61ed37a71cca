// What an open verdict adds to a session: tasks for the keys that its model raised.
ghost use Rattle.std.specs.Prelude.{◌≡◌, ◌^◌, ◌<◌, ◌++◌, ◌∷◌, [], not, IfOk, OnErr, OnOk, if◌then◌else◌, length, map, position, take};
ghost use Rattle.dd_task.specs.Keys.{is_same_key};
ghost use Rattle.dd_board.specs.Settling.{has_slot, new_slot, place_in, with_slots};
ghost use Rattle.dd_board.specs.declared.session.Slot.{Slot as SlotView};

use crate::NoMemory;
use crate::event::TaskState;
use crate::session::Slot;
use dd_concept::Items;
use dd_task::{Key, copy_key, same_key};
use std::alloc::Global;

/// Makes tasks for the keys that have none, and answers the numbers of the tasks of all keys. Without memory the tasks stay.
pub(crate) fn raise(
    alloc: Global,
    tasks: &mut Items<Slot>,
    keys: &[Key],
) -> Result<Items<u32>, NoMemory>
    ensures tasks { OnOk result (tasks.new ≡ with_slots tasks.old keys.now) }
    ensures numbers { IfOk result (λ us. us ≡ map (place_in (with_slots tasks.old keys.now)) keys.now) }
    ensures few { OnOk result (length tasks.new < 2 ^ 32) }
    ensures same { OnErr result (tasks.new ≡ tasks.old) }
{
    let count = tasks.len();
    add(alloc, tasks, count, keys)?;
    match numbers_of(alloc, tasks.as_slice(), keys) {
        Ok(numbers) => Ok(numbers),
        Err(e) => {
            tasks.truncate(count);
            Err(e)
        }
    }
}

fn add(alloc: Global, tasks: &mut Items<Slot>, count: usize, keys: &[Key]) -> Result<(), NoMemory>
    requires { count ≡ length tasks.old }
    ensures ok { OnOk result (tasks.new ≡ with_slots tasks.old keys.now) }
    ensures err { OnErr result (tasks.new ≡ tasks.old) }
{
    for key in keys {
        match push_new(alloc, tasks, count, key) {
            Ok(()) => {}
            Err(e) => {
                tasks.truncate(count);
                return Err(e);
            }
        }
    }
    Ok(())
}

fn push_new(alloc: Global, tasks: &mut Items<Slot>, count: usize, key: &Key) -> Result<(), NoMemory>
    ensures ok { OnOk result (tasks.new ≡ tasks.old ++ (if not (has_slot (take count tasks.old) key.now) then new_slot key.now ∷ [] else [])) }
    ensures err { OnErr result (tasks.new ≡ tasks.old) }
{
    if has_task(tasks.as_slice(), count, key) {
        return Ok(());
    }
    tasks.push(Slot {
        key: copy_key(alloc, key)?,
        holder: None,
        state: TaskState::Unknown,
        is_due: true,
        is_wanted: false,
    })
}

fn has_task(tasks: &[Slot], count: usize, key: &Key) -> bool
    ensures { result ≡ has_slot (take count tasks.now) key.now }
{
    tasks
        .iter()
        .take(count)
        .any(|slot| same_key(&slot.key, key))
}

fn numbers_of(alloc: Global, tasks: &[Slot], keys: &[Key]) -> Result<Items<u32>, NoMemory>
    ensures numbers { IfOk result (λ us. us ≡ map (place_in tasks.now) keys.now) }
    ensures few { OnOk result (length tasks.now < 2 ^ 32) }
{
    if tasks.len() > u32::MAX as usize {
        return Err(NoMemory);
    }
    let mut numbers = Items::new(alloc);
    for key in keys {
        numbers.push(number_of(tasks, key)?)?;
    }
    Ok(numbers)
}

fn number_of(tasks: &[Slot], key: &Key) -> Result<u32, NoMemory>
    ensures { IfOk result (λ n. n ≡ place_in tasks.now key.now) }
{
    let Some(place) = place_of(tasks, key) else {
        return Err(NoMemory);
    };
    match u32::try_from(place) {
        Ok(n) => Ok(n),
        Err(_) => Err(NoMemory),
    }
}

fn place_of(tasks: &[Slot], key: &Key) -> Option<usize>
    ensures { result ≡ position (λ (x : SlotView). is_same_key x.key key.now) tasks.now }
{
    tasks.iter().position(|slot| same_key(&slot.key, key))
}
