ghost use Rattle.std.specs.Prelude.{◌<◌, IfOk, length};
ghost use Rattle.dd_board.specs.declared.event.Outcome.TheVariants.{Quiet};
ghost use Rattle.dd_board.specs.Boards.{OfSession};
ghost use Rattle.dd_board.specs.Fit.{IsPlaced};
ghost use Rattle.dd_board.specs.Standing.{IsOutcome};
ghost use Rattle.dd_union.specs.Evidence.{ShowsNo};

use crate::NoMemory;
use crate::links::join_all;
use crate::place::{empty_locals, place_all};
use dd_board::Board;
use dd_concept::Items;
use dd_world::World;
use std::alloc::Global;

/// The countermodel of a session that is quiet: at each peer the models of its wanted open tasks, one behind the other, and for
/// each element and each key that it raises a link from the element that the key's task was opened with. Peers without a wanted
/// task have no elements.
pub fn world_of(alloc: Global, b: &Board, session: u32) -> Result<World, NoMemory>
    requires there { session < length b.now }
    requires quiet { OfSession (λ v. IsOutcome v Quiet) b.now session }
    requires fit { OfSession (λ v. IsPlaced v.job) b.now session }
    ensures { IfOk result (λ w. OfSession (λ v. ShowsNo v w) b.now session) }
{
    let _legal = b.sessions();
    let mut locals = empty_locals(alloc, b.job(session).pinned.peers.as_slice().len())?;
    let places = place_all(alloc, b, session, &mut locals)?;
    let links = join_all(alloc, b, session, places.as_slice());
    drop(places);
    Ok(World {
        locals: Items::from_vec(locals),
        links: links?,
    })
}
