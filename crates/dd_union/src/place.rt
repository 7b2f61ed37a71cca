// The models of the parts, put behind one another peer by peer.
ghost use Rattle.std.specs.Prelude.{◌≡◌, [], ◌+◌, ◌^◌, ◌<◌, All, IfOk, length};
ghost use Rattle.dd_board.specs.Boards.{OfSession, tasks_in};
ghost use Rattle.dd_board.specs.Legal.{IsLegal};
ghost use Rattle.dd_interp.specs.Satisfies.{IsShaped};
ghost use Rattle.dd_union.specs.Pieces.{AreEmpty, ArePlaced, IsPutBehind, PutsPart};

use crate::read::{part, peer};
use dd_board::Board;
use dd_concept::{Items, NoMemory};
use dd_interp::{Interp, append};
use std::alloc::Global;

/// Where a part stands among its peer's elements: from `start` on, as many as its model has. `element` is the one that it was
/// opened with.
#[derive(Clone, Copy)]
pub(crate) struct Place {
    pub(crate) peer: u32,
    pub(crate) start: u32,
    pub(crate) size: u32,
    pub(crate) element: u32,
}

/// As many interpretations without elements.
pub(crate) fn empty_locals(alloc: Global, count: usize) -> Result<Vec<Interp>, NoMemory>
    ensures { IfOk result (λ locals. AreEmpty locals.items count) }
{
    let mut locals = Vec::new(alloc);
    for k in 0..count {
        locals.push(Interp {
            size: 0,
            names: Items::new(alloc),
            roles: Items::new(alloc),
        })?;
    }
    Ok(locals)
}

/// Where each task's part stands, where the task is one.
pub(crate) fn place_all(
    alloc: Global,
    b: &Board,
    session: u32,
    locals: &mut Vec<Interp>,
) -> Result<Vec<Option<Place>>, NoMemory>
    requires there { session < length b.now }
    requires legal { OfSession IsLegal b.now session }
    requires none { OfSession (λ v. ArePlaced v [] locals.old.items) b.now session }
    ensures placed { IfOk result (λ places. OfSession (λ v. ArePlaced v places.items locals.new.items) b.now session) }
    ensures count { IfOk result (λ places. length places.items ≡ tasks_in b.now session) }
{
    let mut places = Vec::new(alloc);
    for t in 0..b.tasks(session) {
        places.push(place_task(alloc, b, session, t, locals)?)?;
    }
    Ok(places)
}

fn place_task(
    alloc: Global,
    b: &Board,
    session: u32,
    t: u32,
    locals: &mut Vec<Interp>,
) -> Result<Option<Place>, NoMemory>
    requires there { session < length b.now }
    requires task { t < tasks_in b.now session }
    requires legal { OfSession IsLegal b.now session }
    requires one_each { OfSession (λ v. length locals.old.items ≡ length v.job.pinned.peers) b.now session }
    requires shaped { All IsShaped locals.old.items }
    ensures { IfOk result (λ o. OfSession (λ v. PutsPart v t locals.old.items locals.new.items o) b.now session) }
{
    let Some((model, at)) = part(b, session, t) else {
        return Ok(None);
    };
    let peer = peer(b, session, t);
    let start = put_behind(alloc, locals, peer, model)?;
    Ok(Some(Place {
        peer,
        start,
        size: model.size,
        element: start + at,
    }))
}

fn put_behind(
    alloc: Global,
    locals: &mut Vec<Interp>,
    peer: u32,
    model: &Interp,
) -> Result<u32, NoMemory>
    requires within { peer < length locals.old.items }
    requires shaped { All IsShaped locals.old.items }
    requires model { IsShaped model.now }
    ensures behind { IfOk result (λ start. IsPutBehind locals.old.items locals.new.items peer model.now start) }
    ensures below { IfOk result (λ start. start + model.now.size < 2 ^ 32) }
{
    let local = &mut locals[peer as usize];
    let start = local.size;
    if start.checked_add(model.size).is_none() {
        return Err(NoMemory);
    }
    append(alloc, local, model)?;
    Ok(start)
}
