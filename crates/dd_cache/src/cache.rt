// The entries.
ghost use Rattle.std.specs.Prelude.{◌≡◌, ◌↔◌, ◌<◌, ◌≤◌, ℕ, Err, [], length, option_copied, IfOk, OnOk, OnErr, IfErr, IsOk, IsTrue, is_some};
ghost use Rattle.std.specs.Map.{lookup, keys_of};
ghost use Rattle.std.specs.List.{IsDistinct};
ghost use Rattle.std.specs.Borrow.{sem};
ghost use Rattle.dd_answer.specs.Weight.{weight_of};
ghost use Rattle.dd_cache.specs.Ending.{ends_first};
ghost use Rattle.dd_cache.specs.Keys.{seen_key, same_key};
ghost use Rattle.dd_cache.specs.Entries.{Entries, IsVerdict, kept, to_front, with_first};

use crate::key::CacheKey;
use dd_answer::{Answer, weight};
use dd_concept::NoMemory;
use lru::LruCache;
use std::alloc::Global;
use std::marker::Model;
use std::num::NonZeroUsize;

/// The most that a kept answer weighs.
pub const MAX_WEIGHT: u64 = 10_000;

/// An answer that is kept.
#[derive(Drop)]
pub struct Kept {
    pub answer: Answer,
}

/// Why an answer was not kept: its weight is above `MAX_WEIGHT`, or there was no memory.
#[derive(Debug, Drop)]
pub enum KeepErr {
    TooHeavy { weight: u64 },
    NoMemory,
}

/// Answers under their keys, the one that was used last first, and at most as many as its capacity.
#[derive(Drop)]
pub struct Cache {
    entries: Box<LruCache<CacheKey, Kept>>,
}

impl Model for Cache {
    ghost use Rattle.std.specs.Prelude.{◌≤◌};
    ghost use Rattle.std.specs.Coded.{codes};
    ghost use Rattle.dd_cache.specs.contracts.cache.Kept as kept_type;
    ghost use Rattle.dd_cache.specs.Entries.{Entries, entries_of};

    ghost Value = { Entries };

    ghost coded = { Prim.hlevel (codes, kept_type.the_row.coded) };

    ghost view = { λ c. record { list = entries_of c.entries.value.entries; capacity = c.entries.value.cap } };

    ghost invariant = { λ c. c.entries.value.cap ≤ 1024 };
}

impl Cache {
    /// A cache without entries, for at most `capacity` of them.
    pub fn new(alloc: Global, capacity: u32) -> Result<Cache, NoMemory>
        requires some { 0 < capacity }
        requires few { capacity ≤ 1024 }
        ensures { IfOk result (λ cache. cache ≡ record { list = []; capacity = capacity }) }
    {
        let Some(most) = NonZeroUsize::new(capacity as usize) else {
            return Err(NoMemory);
        };
        let Ok(entries) = LruCache::new(alloc, most) else {
            return Err(NoMemory);
        };
        let Ok(entries) = Box::new(alloc, entries) else {
            return Err(NoMemory);
        };
        Ok(Cache { entries })
    }

    /// How many entries there are.
    pub fn len(&self) -> u32
        ensures len { result ≡ length self.now.list }
        ensures few { length self.now.list ≤ self.now.capacity }
        ensures distinct { IsDistinct same_key (keys_of self.now.list) }
    {
        self.entries.len() as u32
    }

    /// The answer that is kept under this key, whose entry then comes first.
    pub fn look(&mut self, key: &CacheKey) -> Option<&Kept>
        ensures* order { sem 𝓛 (ends_first self.entry (seen_key key.now)) }
        ensures found { option_copied result ≡ lookup (same_key (seen_key key.now)) self.old.list }
    {
        self.entries.get(key)
    }

    /// Keeps a yes or no as the first entry, in place of that with an equal key. For a new key a full cache drops its last entry.
    pub fn keep(&mut self, key: CacheKey, answer: Answer) -> Result<(), KeepErr>
        requires { IsVerdict answer }
        ensures kept { OnOk result (self.new ≡ record self.old { list = with_first self.old.capacity (seen_key key) answer self.old.list }) }
        ensures heavy { (w : ℕ) → (result ≡ Err (KeepErr.TooHeavy w)) ↔ ((w ≡ weight_of answer) × (10000 < w)) }
        ensures same { OnErr result (self.new ≡ self.old) }
    {
        let weight = weight(&answer);
        if weight > MAX_WEIGHT {
            return Err(KeepErr::TooHeavy { weight });
        }
        let Ok(old) = self.entries.put(key, Kept { answer }) else {
            return Err(KeepErr::NoMemory);
        };
        drop(old);
        Ok(())
    }
}
