// A session begins.
ghost use Rattle.std.specs.Prelude.{◌≡◌, ◌<◌, [], IfOk, length, map};
ghost use Rattle.dd_peer.specs.declared.version.PeerVersion.{PeerVersion as VersionView};
ghost use Rattle.dd_task.specs.declared.line.Prop.{Prop as PropView};
ghost use Rattle.dd_board.specs.Legal.{begun, empty_start};
ghost use Rattle.dd_board.specs.Sessions.{IsKept, session_view};
ghost use Rattle.dd_board.specs.Beginning.{no_props, root_slots};

use crate::NoMemory;
use crate::event::TaskState;
use crate::session::{Session, Slot};
use dd_concept::{Items, Shared};
use dd_peer::PeerVersion;
use dd_task::{Job, Key, Prop};
use std::alloc::Global;

/// A session for the job that has nothing but its root task.
pub(crate) fn begin(alloc: Global, job: Job) -> Result<Session, NoMemory>
    requires { job.query.peer < length job.pinned.peers }
    ensures begun { IfOk result (λ s. session_view s ≡ begun job (empty_start job.pinned)) }
    ensures kept { IfOk result IsKept }
{
    let props = empty_lists(alloc, job.pinned.peers.as_slice())?;
    let tasks = root(alloc)?;
    Ok(Session {
        job: Shared::new(alloc, job)?,
        tasks,
        lines: Items::new(alloc),
        props,
        journal: Vec::new(alloc),
        next: 0,
        held: 0,
        posts: 0,
        has_spent: false,
    })
}

fn root(alloc: Global) -> Result<Items<Slot>, NoMemory>
    ensures { IfOk result (λ tasks. tasks ≡ root_slots) }
{
    let mut tasks = Items::new(alloc);
    tasks.push(Slot {
        key: Key::Root,
        holder: None,
        state: TaskState::Unknown,
        is_due: true,
        is_wanted: true,
    })?;
    Ok(tasks)
}

fn empty_lists(alloc: Global, peers: &[Shared<PeerVersion>]) -> Result<Items<Items<Prop>>, NoMemory>
    ensures { IfOk result (λ lists. lists ≡ no_props peers.now) }
{
    let mut lists = Items::new(alloc);
    for peer in peers {
        let _version = peer.get();
        lists.push(Items::new(alloc))?;
    }
    Ok(lists)
}
