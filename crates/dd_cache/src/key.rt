// The key of an answer.
ghost use Rattle.std.specs.Prelude.{◌≡◌, ◌<◌, All, IfOk, IsTrue, length, slice_index};
ghost use Rattle.dd_text.specs.Text.{concept_text, has_symbols};
ghost use Rattle.dd_cache.specs.Keys.{seen_key, key_of_query, versions_at};

use dd_concept::NoMemory;
use dd_peer::{Pin, Query};
use dd_text::{Symbols, print_concept};
use std::alloc::Global;

/// A question at a peer, by its two texts, with each peer that the answer rests on and that peer's version.
#[derive(Drop, PartialEq, Eq, Hash)]
pub struct CacheKey {
    pub peer: u32,
    pub left: Vec<u8>,
    pub right: Vec<u8>,
    pub versions: Vec<(u32, u32)>,
}

/// The key of a query that rests on the `relevant` peers, in their order, with the versions of the pin. Budgets are no part of it.
pub fn key_of(
    alloc: Global,
    symbols: &Symbols,
    q: &Query,
    relevant: &[u32],
    pin: &Pin,
) -> Result<CacheKey, NoMemory>
    requires left { IsTrue (has_symbols symbols.now q.now.left) }
    requires right { IsTrue (has_symbols symbols.now q.now.right) }
    requires pinned { All (λ peer. peer < length pin.now.versions) relevant.now }
    ensures { IfOk result (λ key. seen_key key ≡ key_of_query symbols.now q.now relevant.now pin.now) }
{
    let left = print_concept(alloc, symbols, &q.left)?;
    let right = print_concept(alloc, symbols, &q.right)?;
    let versions = versions_of(alloc, relevant, pin.versions.as_slice())?;
    Ok(CacheKey {
        peer: q.peer,
        left,
        right,
        versions,
    })
}

fn versions_of(
    alloc: Global,
    relevant: &[u32],
    versions: &[u32],
) -> Result<Vec<(u32, u32)>, NoMemory>
    requires { All (λ peer. peer < length versions.now) relevant.now }
    ensures { IfOk result (λ pairs. pairs.items ≡ versions_at versions.now relevant.now) }
{
    let mut pairs = Vec::new(alloc);
    for peer in relevant {
        pairs.push((*peer, version_at(versions, *peer)))?;
    }
    Ok(pairs)
}

fn version_at(versions: &[u32], peer: u32) -> u32
    requires { peer < length versions.now }
    ensures { result ≡ slice_index versions.now peer }
{
    versions[peer as usize]
}
