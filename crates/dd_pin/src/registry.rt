ghost use Rattle.std.specs.Prelude.{◌≡◌, ◌<◌, ◌≤◌, ◌-◌, ◌^◌, ◌∷◌, ◌++◌, [], All, true, IfOk, OnErr, OnOk, length, map, replicate, slice_set, vec_len};
ghost use Rattle.std.specs.List.{slice_index_or};
ghost use Rattle.dd_peer.specs.Relevant.{AreRelevant};
ghost use Rattle.dd_peer.specs.Versions.{IsNumbered, empty_version};
ghost use Rattle.dd_pin.specs.History.{IsHistory, AreAccepted, last_version, version_at, pin_of, is_pin, pinned_by};
ghost use Rattle.dd_pin.specs.Puts.{refusal_at, RefusedBy, with_put, are_places, at_places};

use dd_concept::{Items, NoMemory};
use dd_peer::{PeerErr, PeerVersion, Pin, Pinned, Shared, relevant_of};
use std::alloc::Global;
use std::marker::Model;
use thiserror::Error;

/// The most accepted puts of all peers together.
pub const MAX_PUTS: usize = 4096;

/// An accepted put: the peer's number and its new version.
#[derive(Drop)]
pub struct Accepted {
    pub peer: u32,
    pub version: Shared<PeerVersion>,
}

/// Why a put is refused. Where several hold, the first in this order is told.
#[derive(Debug, Drop, Error)]
pub enum PutErr {
    /// The peer may not have this version.
    #[error(transparent)]
    Peer(PeerErr),
    /// There are as many accepted puts as there may be.
    #[error("there are as many versions as there may be")]
    VersionsFull,
    /// The memory is used up.
    #[error("out of memory")]
    NoMemory,
}

/// The number of peers, and the accepted puts in their order.
#[derive(Drop)]
pub struct Registry {
    peers: u32,
    history: Items<Accepted>,
    // of each peer the empty version, and then what it put
    versions: Vec<Items<Shared<PeerVersion>>>,
}

impl Model for Registry {
    ghost use Rattle.dd_pin.specs.History.{Registered, registered_code, IsHistory};
    ghost use Rattle.dd_pin.specs.Puts.{FitsHistory};

    ghost Value = { Registered };

    ghost coded = { registered_code };

    ghost view = { λ r. record { peers = r.peers; history = r.history } };

    ghost invariant = { λ r. IsHistory r.peers r.history × FitsHistory r.peers r.history r.versions.items };
}

impl Registry {
    /// So many peers, 1 to 64, each with no version but the empty one.
    pub fn new(alloc: Global, peers: u32) -> Result<Registry, NoMemory>
        requires least { 1 ≤ peers }
        requires most { peers ≤ 64 }
        ensures peers { IfOk result (λ r. r.peers ≡ peers) }
        ensures history { IfOk result (λ r. r.history ≡ []) }
    {
        Ok(Registry {
            peers,
            history: Items::new(alloc),
            versions: first_versions(alloc, peers)?,
        })
    }

    /// How many peers there are.
    pub fn peers(&self) -> u32
        ensures count { result ≡ self.now.peers }
        ensures history { IsHistory self.now.peers self.now.history }
    {
        self.peers
    }

    /// Appends a version of a peer, and answers its number: how many puts of this peer were accepted by then.
    ///
    /// `Peer` comes where the version is refused, and else `VersionsFull` where 4,096 puts were accepted before. After each
    /// error the registry is as it was.
    pub fn put(&mut self, alloc: Global, peer: u32, v: PeerVersion) -> Result<u32, PutErr>
        requires declared { peer < self.old.peers }
        requires numbered { IsNumbered v }
        ensures appended { OnOk result (self.new ≡ with_put self.old peer v) }
        ensures number { IfOk result (λ n. n ≡ last_version peer self.new.history) }
        ensures refused { RefusedBy result (refusal_at self.old peer v) }
        ensures same { OnErr result (self.new ≡ self.old) }
    {
        if let Err(e) = v.check(self.peers, peer) {
            return Err(PutErr::Peer(e));
        }
        if self.history.len() >= MAX_PUTS {
            return Err(PutErr::VersionsFull);
        }
        match append(alloc, &mut self.history, &mut self.versions, peer, v) {
            Ok(number) => return Ok(number),
            Err(_) => return Err(PutErr::NoMemory),
        }
    }

    /// The pin of this moment: the number of each peer's last version.
    pub fn pin(&self, alloc: Global) -> Result<Pin, NoMemory>
        ensures pin { IfOk result (λ pin. pin.versions ≡ pin_of self.now.peers self.now.history) }
        ensures has { IfOk result (λ pin. is_pin self.now.peers pin.versions self.now.history ≡ true) }
    {
        Ok(Pin {
            versions: last_numbers(alloc, self.versions.as_slice())?,
        })
    }

    /// Whether a pin has one number for each peer, each that of a version.
    pub fn has(&self, pin: &Pin) -> bool
        ensures { result ≡ is_pin self.now.peers pin.now.versions self.now.history }
    {
        let numbers = pin.versions.as_slice();
        numbers.len() == self.versions.len() && are_numbers(self.versions.as_slice(), numbers)
    }

    /// The versions that a pin names. No version is copied.
    pub fn pinned(&self, alloc: Global, pin: &Pin) -> Result<Pinned, NoMemory>
        requires { is_pin self.now.peers pin.now.versions self.now.history ≡ true }
        ensures pinned { IfOk result (λ pinned. pinned ≡ pinned_by pin.now.versions self.now.history) }
        ensures size { IfOk result (λ pinned. length pinned.peers ≡ self.now.peers) }
        ensures accepted { IfOk result AreAccepted }
    {
        let peers = shared_at(alloc, self.versions.as_slice(), pin.versions.as_slice())?;
        Ok(Pinned { peers })
    }

    /// The peers that an answer about a peer can depend on under a pin, rising.
    pub fn relevant(&self, alloc: Global, pin: &Pin, peer: u32) -> Result<Vec<u32>, NoMemory>
        requires pin { is_pin self.now.peers pin.now.versions self.now.history ≡ true }
        requires declared { peer < self.now.peers }
        ensures { IfOk result (λ list. AreRelevant (pinned_by pin.now.versions self.now.history) peer list.items) }
    {
        let pinned = self.pinned(alloc, pin)?;
        let found = relevant_of(alloc, &pinned, peer);
        drop(pinned);
        found
    }
}

/// For each peer the empty version.
fn first_versions(alloc: Global, peers: u32) -> Result<Vec<Items<Shared<PeerVersion>>>, NoMemory>
    ensures { IfOk result (λ rows. rows.items ≡ replicate peers (empty_version ∷ [])) }
{
    let empty = empty_version(alloc)?;
    let mut rows = Vec::new(alloc);
    for _ in 0..peers {
        rows.push(row_of(alloc, &empty)?)?;
    }
    Ok(rows)
}

fn empty_version(alloc: Global) -> Result<Shared<PeerVersion>, NoMemory>
    ensures { IfOk result (λ v. v ≡ empty_version) }
{
    Shared::new(
        alloc,
        PeerVersion {
            axioms: Items::new(alloc),
            into: Items::new(alloc),
            onto: Items::new(alloc),
        },
    )
}

/// A list of one version.
fn row_of(
    alloc: Global,
    version: &Shared<PeerVersion>,
) -> Result<Items<Shared<PeerVersion>>, NoMemory>
    ensures { IfOk result (λ row. row ≡ version.now ∷ []) }
{
    let mut row = Items::new(alloc);
    row.push(version.share()?)?;
    Ok(row)
}

/// Appends a version to the history and to its peer's list, and answers its position there. Without memory both are as
/// they were.
fn append(
    alloc: Global,
    history: &mut Items<Accepted>,
    versions: &mut Vec<Items<Shared<PeerVersion>>>,
    peer: u32,
    v: PeerVersion,
) -> Result<u32, NoMemory>
    requires within { peer < vec_len versions.old }
    requires few { All (λ row. length row ≤ 4097) versions.old.items }
    ensures history { OnOk result (history.new ≡ history.old ++ (record { peer = peer; version = v }) ∷ []) }
    ensures versions { OnOk result (versions.new.items ≡ slice_set versions.old.items peer (slice_index_or versions.old.items peer [] ++ v ∷ [])) }
    ensures number { IfOk result (λ n. n ≡ length (slice_index_or versions.old.items peer [])) }
    ensures same_history { OnErr result (history.new ≡ history.old) }
    ensures same_versions { OnErr result (versions.new.items ≡ versions.old.items) }
{
    let version = Shared::new(alloc, v)?;
    let puts = history.len();
    history.push(Accepted {
        peer,
        version: version.share()?,
    })?;
    match push_at(versions, peer, version) {
        Ok(number) => Ok(number),
        Err(e) => {
            history.truncate(puts);
            Err(e)
        }
    }
}

/// Puts a version at the end of a peer's list, and answers its position there.
fn push_at(
    versions: &mut Vec<Items<Shared<PeerVersion>>>,
    peer: u32,
    version: Shared<PeerVersion>,
) -> Result<u32, NoMemory>
    requires within { peer < vec_len versions.old }
    requires few { All (λ row. length row ≤ 4097) versions.old.items }
    ensures ok { OnOk result (versions.new.items ≡ slice_set versions.old.items peer (slice_index_or versions.old.items peer [] ++ version ∷ [])) }
    ensures number { IfOk result (λ n. n ≡ length (slice_index_or versions.old.items peer [])) }
    ensures err { OnErr result (versions.new.items ≡ versions.old.items) }
{
    let row = &mut versions[peer as usize];
    let number = row.len();
    row.push(version)?;
    Ok(number as u32)
}

/// The number of the last version in each list.
fn last_numbers(
    alloc: Global,
    versions: &[Items<Shared<PeerVersion>>],
) -> Result<Items<u32>, NoMemory>
    requires { All (λ row. (1 ≤ length row) × (length row ≤ 4097)) versions.now }
    ensures { IfOk result (λ ns. ns ≡ map (λ row. length row - 1) versions.now) }
{
    let mut numbers = Items::new(alloc);
    for row in versions {
        numbers.push((row.len() - 1) as u32)?;
    }
    Ok(numbers)
}

/// Whether each list has a position that is the number at its place.
fn are_numbers(versions: &[Items<Shared<PeerVersion>>], numbers: &[u32]) -> bool
    requires { length versions.now ≤ length numbers.now }
    ensures { result ≡ are_places numbers.now versions.now }
{
    for peer in 0..versions.len() {
        if numbers[peer] as usize >= versions[peer].len() {
            return false;
        }
    }
    true
}

/// The versions at these positions, each in the list at its place.
fn shared_at(
    alloc: Global,
    versions: &[Items<Shared<PeerVersion>>],
    numbers: &[u32],
) -> Result<Items<Shared<PeerVersion>>, NoMemory>
    requires size { length numbers.now ≡ length versions.now }
    requires places { are_places numbers.now versions.now ≡ true }
    ensures { IfOk result (λ vs. vs ≡ at_places numbers.now versions.now) }
{
    let mut peers = Items::new(alloc);
    for peer in 0..numbers.len() {
        peers.push(shared(versions[peer].as_slice(), numbers[peer])?)?;
    }
    Ok(peers)
}

/// The version at this position.
fn shared(row: &[Shared<PeerVersion>], number: u32) -> Result<Shared<PeerVersion>, NoMemory>
    requires { number < length row.now }
    ensures { IfOk result (λ v. v ≡ slice_index_or row.now number empty_version) }
{
    row[number as usize].share()
}
