use crate::rows::{Failure, check_one};
use dd_answer::{Answer, weight};
use dd_cache::{Cache, CacheKey, KeepErr, key_of};
use dd_concept::{Concept, Items, NoMemory};
use dd_interp::Interp;
use dd_peer::{Pin, Query};
use dd_text::Symbols;
use dd_world::World;
use std::alloc::Global;

/// The key of a question about the second peer, which rests on the first and the second, where these have the versions 7 and `version`.
fn key(alloc: Global, version: u32) -> Result<CacheKey, NoMemory> {
    let pin = Pin {
        versions: Items::from_slice(alloc, &[7, version])?,
    };
    let key = key_under(alloc, &pin);
    drop(pin);
    key
}

fn key_under(alloc: Global, pin: &Pin) -> Result<CacheKey, NoMemory> {
    let query = Query {
        peer: 1,
        left: Concept::Top,
        right: Concept::Bottom,
    };
    let symbols = Symbols::new(alloc)?;
    let key = if pin.versions.as_slice().len() == 2 {
        key_of(alloc, &symbols, &query, &[0, 1], pin)
    } else {
        Err(NoMemory)
    };
    drop(symbols);
    drop(query);
    key
}

fn is_key(alloc: Global) -> Result<bool, NoMemory> {
    let key = key(alloc, 3)?;
    let is_key = key.peer == 1
        && key.left.as_slice() == b"top".as_slice()
        && key.right.as_slice() == b"bottom".as_slice()
        && key.versions.as_slice() == [(0, 7), (1, 3)].as_slice();
    drop(key);
    Ok(is_key)
}

#[test]
fn keys_name_the_versions(rt: HostRuntime) -> Result<(), Failure> {
    check_one(is_key(rt.alloc()))
}

/// A call of a cache of two entries: a world of this size is kept, or looked for where there is none, under the key with this
/// version. Then the weight that is too heavy, or that is found.
struct Step {
    version: u32,
    kept: Option<u32>,
    answer: Option<u64>,
}

fn keep(
    alloc: Global,
    cache: &mut Cache,
    key: CacheKey,
    size: u32,
) -> Result<Option<u64>, NoMemory> {
    let world = world(alloc, size)?;
    match cache.keep(key, Answer::No(world)) {
        Ok(()) => Ok(None),
        Err(KeepErr::TooHeavy { weight }) => Ok(Some(weight)),
        Err(KeepErr::NoMemory) => Err(NoMemory),
    }
}

fn world(alloc: Global, size: u32) -> Result<World, NoMemory> {
    let mut locals = Items::new(alloc);
    locals.push(Interp {
        size,
        names: Items::new(alloc),
        roles: Items::new(alloc),
    })?;
    Ok(World {
        locals,
        links: Items::new(alloc),
    })
}

fn look(cache: &mut Cache, key: &CacheKey) -> Option<u64> {
    let kept = cache.look(key)?;
    Some(weight(&kept.answer))
}

fn answer(alloc: Global, cache: &mut Cache, step: &Step) -> Result<Option<u64>, NoMemory> {
    let key = key(alloc, step.version)?;
    match step.kept {
        Some(size) => keep(alloc, cache, key, size),
        None => {
            let found = look(cache, &key);
            drop(key);
            Ok(found)
        }
    }
}

fn are_kept(alloc: Global, cache: &mut Cache) -> Result<bool, NoMemory> {
    for step in STEPS {
        if answer(alloc, cache, step)? != step.answer {
            return Ok(false);
        }
    }
    Ok(cache.len() == 2)
}

fn is_cache(alloc: Global) -> Result<bool, NoMemory> {
    let mut cache = Cache::new(alloc, 2)?;
    let are_kept = are_kept(alloc, &mut cache);
    drop(cache);
    are_kept
}

const STEPS: &[Step] = &[
    Step {
        version: 1,
        kept: None,
        answer: None,
    },
    Step {
        version: 1,
        kept: Some(1),
        answer: None,
    },
    Step {
        version: 2,
        kept: Some(2),
        answer: None,
    },
    Step {
        version: 1,
        kept: None,
        answer: Some(1),
    },
    Step {
        version: 3,
        kept: Some(3),
        answer: None,
    },
    Step {
        version: 2,
        kept: None,
        answer: None,
    },
    Step {
        version: 1,
        kept: None,
        answer: Some(1),
    },
    Step {
        version: 3,
        kept: None,
        answer: Some(3),
    },
    Step {
        version: 1,
        kept: Some(10_001),
        answer: Some(10_001),
    },
    Step {
        version: 1,
        kept: None,
        answer: Some(1),
    },
    Step {
        version: 3,
        kept: Some(10_000),
        answer: None,
    },
    Step {
        version: 1,
        kept: None,
        answer: Some(1),
    },
    Step {
        version: 3,
        kept: None,
        answer: Some(10_000),
    },
];

#[test]
fn the_entry_used_last_stays(rt: HostRuntime) -> Result<(), Failure> {
    check_one(is_cache(rt.alloc()))
}
