// Links: each leads from the element that the part of a raised key was opened with to an element that raises the key.
ghost use Rattle.std.specs.Prelude.{◌≡◌, ◌+◌, ◌<◌, ◌++◌, ◌∷◌, [], IfOk, OnOk, OnSome, if◌then◌else◌, length, flat_map};
ghost use Rattle.std.specs.List.{range_with_len};
ghost use Rattle.dd_board.specs.Boards.{OfSession, tasks_in};
ghost use Rattle.dd_interp.specs.Satisfies.{IsShaped};
ghost use Rattle.dd_task.specs.Tables.{elements_of};
ghost use Rattle.dd_union.specs.Pieces.{OpenShaped, all_joined, joined, joined_at, joined_by, joined_from, joined_part, joined_with, placed_at};

use crate::place::Place;
use crate::read::{opening, raised};
use crate::rows::{Rows, elements, raises, rows_from};
use dd_board::Board;
use dd_concept::{Items, NoMemory};
use dd_interp::Interp;
use dd_task::Key;
use std::alloc::Global;

type Link = (u32, u32, u32, u32);

/// The links of all parts.
pub(crate) fn join_all(
    alloc: Global,
    b: &Board,
    session: u32,
    places: &[Option<Place>],
) -> Result<Items<Link>, NoMemory>
    requires there { session < length b.now }
    requires count { length places.now ≡ tasks_in b.now session }
    requires shaped { OfSession (λ v. OpenShaped v places.now) b.now session }
    ensures { IfOk result (λ links. OfSession (λ v. links ≡ all_joined v places.now) b.now session) }
{
    let mut links = Items::new(alloc);
    for t in 0..b.tasks(session) {
        join_at(alloc, b, session, places, t, &mut links)?;
    }
    Ok(links)
}

// The links to the part of one task.
fn join_at(
    alloc: Global,
    b: &Board,
    session: u32,
    places: &[Option<Place>],
    t: u32,
    links: &mut Items<Link>,
) -> Result<(), NoMemory>
    requires there { session < length b.now }
    requires count { length places.now ≡ tasks_in b.now session }
    requires shaped { OfSession (λ v. OpenShaped v places.now) b.now session }
    requires task { t < tasks_in b.now session }
    ensures { OnOk result (OfSession (λ v. links.new ≡ links.old ++ joined_at v places.now t) b.now session) }
{
    let Some(to) = placed(places, t) else {
        return Ok(());
    };
    let Some((model, _)) = opening(b, session, t) else {
        return Ok(());
    };
    join_part(
        alloc,
        b,
        session,
        places,
        to,
        model,
        raised(b, session, t),
        links,
    )
}

// Those from each peer.
fn join_part(
    alloc: Global,
    b: &Board,
    session: u32,
    places: &[Option<Place>],
    to: Place,
    model: &Interp,
    raised: &[u32],
    links: &mut Items<Link>,
) -> Result<(), NoMemory>
    requires there { session < length b.now }
    requires count { length places.now ≡ tasks_in b.now session }
    requires shaped { IsShaped model.now }
    ensures { OnOk result (OfSession (λ v. links.new ≡ links.old ++ joined_part v places.now to model.now raised.now) b.now session) }
{
    let elements = elements(alloc, model.size)?;
    let peers = b.job(session).pinned.peers.as_slice().len();
    let joined = join_peers(
        alloc,
        b,
        session,
        places,
        to,
        model,
        elements.as_slice(),
        raised,
        peers,
        links,
    );
    drop(elements);
    joined
}

fn join_peers(
    alloc: Global,
    b: &Board,
    session: u32,
    places: &[Option<Place>],
    to: Place,
    model: &Interp,
    elements: &[u32],
    raised: &[u32],
    peers: usize,
    links: &mut Items<Link>,
) -> Result<(), NoMemory>
    requires there { session < length b.now }
    requires count { length places.now ≡ tasks_in b.now session }
    requires shaped { IsShaped model.now }
    requires elements { elements.now ≡ elements_of model.now }
    ensures { OnOk result (OfSession (λ v. links.new ≡ links.old ++ flat_map (joined_from v places.now to model.now raised.now) (range_with_len 0 peers)) b.now session) }
{
    for h in 0..peers {
        let Ok(from) = u32::try_from(h) else {
            return Err(NoMemory);
        };
        join_from(
            alloc, b, session, places, to, model, elements, raised, from, links,
        )?;
    }
    Ok(())
}

// Those from one peer.
fn join_from(
    alloc: Global,
    b: &Board,
    session: u32,
    places: &[Option<Place>],
    to: Place,
    model: &Interp,
    elements: &[u32],
    raised: &[u32],
    h: u32,
    links: &mut Items<Link>,
) -> Result<(), NoMemory>
    requires there { session < length b.now }
    requires count { length places.now ≡ tasks_in b.now session }
    requires shaped { IsShaped model.now }
    requires elements { elements.now ≡ elements_of model.now }
    ensures { OnOk result (OfSession (λ v. links.new ≡ links.old ++ joined_from v places.now to model.now raised.now h) b.now session) }
{
    let rows = rows_from(alloc, &b.job(session).pinned, to.peer, model, elements, h)?;
    let joined = join_raised(b, session, places, &rows, h, to, raised, links);
    drop(rows);
    joined
}

fn join_raised(
    b: &Board,
    session: u32,
    places: &[Option<Place>],
    rows: &Rows,
    h: u32,
    to: Place,
    raised: &[u32],
    links: &mut Items<Link>,
) -> Result<(), NoMemory>
    requires there { session < length b.now }
    requires count { length places.now ≡ tasks_in b.now session }
    ensures { OnOk result (OfSession (λ v. links.new ≡ links.old ++ flat_map (joined_with v places.now rows.now h to) raised.now) b.now session) }
{
    for u in raised {
        join_task(b, session, places, rows, h, to, *u, links)?;
    }
    Ok(())
}

// Those from the part of one raised task.
fn join_task(
    b: &Board,
    session: u32,
    places: &[Option<Place>],
    rows: &Rows,
    h: u32,
    to: Place,
    u: u32,
    links: &mut Items<Link>,
) -> Result<(), NoMemory>
    requires there { session < length b.now }
    requires count { length places.now ≡ tasks_in b.now session }
    ensures { OnOk result (OfSession (λ v. links.new ≡ links.old ++ joined_with v places.now rows.now h to u) b.now session) }
{
    let Some(from) = placed(places, u) else {
        return Ok(());
    };
    join_key(rows, h, from, to, b.key(session, u), links)
}

fn join_key(
    rows: &Rows,
    h: u32,
    from: Place,
    to: Place,
    key: &Key,
    links: &mut Items<Link>,
) -> Result<(), NoMemory>
    ensures { OnOk result (links.new ≡ links.old ++ joined_by rows.now h from to key.now) }
{
    match key {
        Key::Root => Ok(()),
        Key::Asked {
            to: peer,
            onto,
            into_set,
            ..
        } => {
            if from.peer == h && *peer == to.peer {
                return join_elements(rows, from, to, *onto, into_set.as_slice(), links);
            }
            Ok(())
        }
    }
}

fn join_elements(
    rows: &Rows,
    from: Place,
    to: Place,
    onto: u32,
    set: &[u32],
    links: &mut Items<Link>,
) -> Result<(), NoMemory>
    ensures { OnOk result (links.new ≡ links.old ++ flat_map (joined rows.now from to onto set.now) (range_with_len 0 to.size)) }
{
    for y in 0..to.size {
        push_link(links, from, to, y, raises(rows, onto, set, y))?;
    }
    Ok(())
}

fn push_link(
    links: &mut Items<Link>,
    from: Place,
    to: Place,
    y: u32,
    is_one: bool,
) -> Result<(), NoMemory>
    ensures { OnOk result (links.new ≡ links.old ++ (if is_one then (from.peer, to.peer, from.element, to.start + y) ∷ [] else [])) }
{
    if !is_one {
        return Ok(());
    }
    match to.start.checked_add(y) {
        Some(end) => links.push((from.peer, to.peer, from.element, end)),
        None => Err(NoMemory),
    }
}

fn placed(places: &[Option<Place>], t: u32) -> Option<Place>
    ensures value { result ≡ placed_at places.now t }
    ensures within { OnSome result (t < length places.now) }
{
    match places.get(t as usize) {
        Some(place) => *place,
        None => None,
    }
}
