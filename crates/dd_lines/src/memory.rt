ghost use Rattle.std.specs.Prelude.{◌≡◌, ◌<◌, ◌≤◌, ◌⊎◌, true, false, Option, Some, [], take, length, IfOk, IsTrue, OnErr};
ghost use Rattle.dd_lines.specs.Memory.{is_failing, Feeds, FeedFails, Accepts, Rejects};
ghost use Rattle.dd_lines.specs.Outside.{Rose, Takes, Gives};

use crate::outside::{Failed, Sink, Source};
use std::alloc::{AllocError, Global};
use std::marker::Model;

/// A source in memory, which tells its bytes and fails at chosen calls.
#[derive(Drop)]
pub struct MemSource {
    bytes: Vec<u8>,
    at: usize,
    piece: usize,
    fails: Vec<u64>,
    calls: u64,
    faults: u64,
}

impl Model for MemSource {
    ghost use Rattle.std.specs.Prelude.{◌<◌, ◌≤◌, drop, vec_len};
    ghost use Rattle.dd_lines.specs.Memory.{Feeding};

    ghost Value = { Feeding };

    ghost view = { λ s. record { left = drop s.at s.bytes.items; piece = s.piece; fails = s.fails.items; calls = s.calls; faults = s.faults } };

    ghost invariant = { λ s. record { within : s.at ≤ vec_len s.bytes; some : 0 < s.piece } };
}

impl MemSource {
    /// A source of these bytes, of which a call takes at most `piece`. The n-th call of `take`, from 0, fails where n is
    /// among `fails`.
    pub fn new(bytes: Vec<u8>, piece: usize, fails: Vec<u64>) -> MemSource
        requires { 1 ≤ piece }
        ensures { result ≡ record { left = bytes.items; piece = piece; fails = fails.items; calls = 0; faults = 0 } }
    {
        MemSource {
            bytes,
            at: 0,
            piece,
            fails,
            calls: 0,
            faults: 0,
        }
    }
}

impl Source for MemSource {
    ghost left = { λ s. Some s.left };

    ghost fault_count = { λ s. s.faults };

    /// It fails exactly where its number is among those that fail.
    fn take(&mut self, room: &mut [u8]) -> Result<usize, Failed>
        requires { 0 < length room.old }
        ensures bound { IfOk result (λ n. n ≤ length room.new) }
        ensures bytes { IfOk result (λ n. Takes (Some self.old.left) (Some self.new.left) n room.new) }
        ensures same { OnErr result (Some self.new.left ≡ Some self.old.left) }
        ensures failed { OnErr result (Rose self.old.faults self.new.faults) }
        ensures counts { self.old.faults ≤ self.new.faults }
        ensures feeds { IfOk result (Feeds self.old self.new (length room.old)) }
        ensures fails { OnErr result (FeedFails self.old self.new) }
    {
        let call = self.calls;
        self.calls = call.saturating_add(1);
        if self.fails.as_slice().contains(&call) {
            self.faults = self.faults.saturating_add(1);
            return Err(Failed);
        }
        let rest = &self.bytes[self.at..];
        let taken = rest.len().min(self.piece).min(room.len());
        room[..taken].copy_from_slice(&rest[..taken]);
        self.at += taken;
        Ok(taken)
    }

    fn faults(&self) -> u64 {
        self.faults
    }
}

/// A sink in memory of a fixed capacity, which tells its bytes and fails at chosen calls.
#[derive(Drop)]
pub struct MemSink {
    bytes: Vec<u8>,
    capacity: usize,
    piece: usize,
    fails: Vec<u64>,
    calls: u64,
    faults: u64,
}

impl Model for MemSink {
    ghost use Rattle.std.specs.Prelude.{◌<◌, ◌≤◌, vec_len, vec_capacity};
    ghost use Rattle.dd_lines.specs.Memory.{Filling};

    ghost Value = { Filling };

    ghost view = { λ k. record { bytes = k.bytes.items; capacity = k.capacity; piece = k.piece; fails = k.fails.items; calls = k.calls; faults = k.faults } };

    ghost invariant = { λ k. record { within : vec_len k.bytes ≤ k.capacity; reserved : k.capacity ≤ vec_capacity k.bytes; some : 0 < k.piece } };
}

impl MemSink {
    /// A sink for at most `capacity` bytes, of which a call takes at most `piece`. The n-th call of `give`, from 0, fails
    /// where n is among `fails`, and so does one that finds the capacity used up. Takes all its memory here.
    pub fn new(
        alloc: Global,
        capacity: usize,
        piece: usize,
        fails: Vec<u64>,
    ) -> Result<MemSink, AllocError>
        requires { 1 ≤ piece }
        ensures { IfOk result (λ k. k ≡ record { bytes = []; capacity = capacity; piece = piece; fails = fails.items; calls = 0; faults = 0 }) }
    {
        let bytes = Vec::with_capacity(alloc, capacity)?;
        Ok(MemSink {
            bytes,
            capacity,
            piece,
            fails,
            calls: 0,
            faults: 0,
        })
    }

    /// What was given so far.
    pub fn bytes(&self) -> &[u8]
        ensures { result.now ≡ self.now.bytes }
    {
        self.bytes.as_slice()
    }
}

impl Sink for MemSink {
    ghost given = { λ s. Some s.bytes };

    ghost fault_count = { λ s. s.faults };

    /// It fails exactly where its number is among those that fail, or the capacity is used up.
    fn give(&mut self, piece: &[u8]) -> Result<usize, Failed>
        requires { 0 < length piece.now }
        ensures some { IfOk result (λ n. 0 < n) }
        ensures bound { IfOk result (λ n. n ≤ length piece.now) }
        ensures bytes { IfOk result (λ n. Gives (Some self.old.bytes) (Some self.new.bytes) (take n piece.now)) }
        ensures same { OnErr result (Some self.new.bytes ≡ Some self.old.bytes) }
        ensures failed { OnErr result (Rose self.old.faults self.new.faults) }
        ensures counts { self.old.faults ≤ self.new.faults }
        ensures accepts { IfOk result (Accepts self.old self.new piece.now) }
        ensures rejects { OnErr result (Rejects self.old self.new) }
    {
        let call = self.calls;
        self.calls = call.saturating_add(1);
        let space = self.capacity - self.bytes.len();
        if is_refused(space, self.fails.as_slice(), call) {
            self.faults = self.faults.saturating_add(1);
            return Err(Failed);
        }
        let taken = piece.len().min(self.piece).min(space);
        match self.bytes.extend_from_slice(&piece[..taken]) {
            Ok(()) => Ok(taken),
            Err(_) => unreachable!(),
        }
    }

    fn faults(&self) -> u64 {
        self.faults
    }
}

/// Whether a sink with this space refuses the call with this number.
fn is_refused(space: usize, fails: &[u64], call: u64) -> bool
    ensures refused { IsTrue result → (is_failing fails.now call ≡ true) ⊎ (space ≡ 0) }
    ensures taken { result ≡ false → (is_failing fails.now call ≡ false) × (0 < space) }
{
    space == 0 || fails.contains(&call)
}
