ghost use Rattle.std.specs.Prelude.{◌≡◌, ◌<◌, ◌≤◌, ◌+◌, ◌==◌, ◌^◌, ℕ, List, [], All, IfOk, IsSome, IsTrue, OnErr, Some, length, option_map, slice_get, true};
ghost use Rattle.serde_json.specs.View.{view};
ghost use Rattle.dd_lines.specs.NextLine.{StandsFor};
ghost use Rattle.dd_peer.specs.Versions.{AreNumbered, IsNumbered};
ghost use Rattle.dd_pin.specs.History.{Registered};
ghost use Rattle.dd_text.specs.Names.{names_a_thing};
ghost use Rattle.dd_text.specs.Symbols.{Grows};
ghost use Rattle.dd_wire.specs.Replies.{IsPrintable};
ghost use Rattle.dd_read.specs.Does.{PutsIn};
ghost use Rattle.dd_read.specs.Fit.{IsFitKept, IsSound};
ghost use Rattle.dd_read.specs.Options.{AreWithin};
ghost use Rattle.dd_read.specs.Props.{sound_prop};
ghost use Rattle.dd_read.specs.Standing.{is_blank};
ghost use Rattle.dd_read.specs.State.{state_by};

use crate::accepted::Accepted;
use crate::ask::{budget_of, full_closure};
use crate::judge::judge;
use crate::kept::{Ask, Kept};
use crate::obeyed::Obeyed;
use crate::options::Options;
use crate::refusal::{refused, refused_at, refused_line, refused_put};
use dd_concept::{Items, NoMemory};
use dd_lines::LineStep;
use dd_peer::{PeerVersion, Pinned, Query};
use dd_pin::Registry;
use dd_task::{Budget, Job};
use dd_text::Symbols;
use dd_wire::{
    BAD_BUDGET, BAD_PIN, CLOSURE_FULL, LINE_TOO_LONG, Names, Pin, Reply, Request, Text,
    read_request,
};
use serde_json::Value;
use std::alloc::Global;

/// A session while it reads a window: its options, the texts that stand for numbers, the declared peers and what they put, how
/// many requests it has read, and what the window keeps of its own, in their order.
#[derive(Drop)]
pub struct Reading {
    pub options: Options,
    pub symbols: Symbols,
    pub names: Option<Names>,
    pub registry: Option<Registry>,
    pub requests: u64,
    pub kept: Vec<Kept>,
    ghost within: { AreWithin options },
    ghost counted: { option_map length names ≡ option_map (λ (r : Registered). r.peers) registry },
    ghost sound: { IsSound (state_by names symbols registry) kept.items } by { sound_prop (state_by names symbols registry) kept.items },
}

impl Reading {
    ghost use Rattle.dd_read.specs.Asks.{IsJobAt, is_budget};
    ghost use Rattle.dd_read.specs.Does.{AskBy, CheckBy, DoesRequest, Fits, StaysBy, kept_of};
    ghost use Rattle.dd_read.specs.Read.{Read, question_at};
    ghost use Rattle.dd_read.specs.ReadingState.{standing_of, state_of};
    ghost use Rattle.dd_read.specs.Standing.{TakesLine, and_kept, due_at, opening};
    ghost use Rattle.dd_read.specs.State.{Later, names_of, peer_count, present_pin};
    ghost use Rattle.dd_read.specs.Tests.{longest_line};
    ghost use Rattle.dd_read.specs.declared.accepted.Accepted.TheVariants.{Due, More};
    ghost use Rattle.dd_wire.specs.Requests.{IsNumberedRequest, IsWrittenRequest, IsWritten, concepts_in, concepts_of};
    ghost use Rattle.dd_pin.specs.History.{AreAccepted, is_pin, pinned_by};

    /// The session before its first line.
    pub fn new(alloc: Global, options: Options) -> Result<Reading, NoMemory>
        requires within { AreWithin options }
        ensures opening { IfOk result (λ r. standing_of r ≡ opening) }
        ensures options { IfOk result (λ r. r.options ≡ options) }
    {
        Ok(Reading {
            options,
            symbols: Symbols::new(alloc)?,
            names: None,
            registry: None,
            requests: 0,
            kept: Vec::new(alloc),
        })
    }

    /// Takes one line into the window, or the end of all lines. `Due` comes where the window is to be finished now: where it
    /// has as many requests as it may, at a blank line and at the end.
    ///
    /// After `NoMemory` the reading is not to be used for the same session again: the line may have been obeyed in part.
    pub fn step(&mut self, alloc: Global, step: LineStep) -> Result<Accepted, NoMemory>
        requires room { length self.old.kept.items < self.old.options.window }
        requires few { self.old.requests + 1 < 2 ^ 64 }
        ensures line { IfOk result (λ answer. (line : List ℕ) → StandsFor longest_line step line → TakesLine self.old.options (standing_of self.old) line (standing_of self.new) answer) }
        ensures end { IfOk result (λ answer. step ≡ LineStep.End → (standing_of self.new ≡ standing_of self.old) × (answer ≡ Due)) }
        ensures room { IfOk result (λ answer. answer ≡ More → length self.new.kept.items < self.new.options.window) }
        ensures sound { IsSound (state_of self.new) self.new.kept.items }
        ensures later { IfOk result (λ answer. Later (state_of self.old) (state_of self.new)) }
        ensures options { self.new.options ≡ self.old.options }
        ensures count { self.new.requests ≤ self.old.requests + 1 }
    {
        match step {
            LineStep::Line(line) => self.line(alloc, line.as_slice()),
            LineStep::TooLong => self.refuse_long(),
            LineStep::End => Ok(Accepted::Due),
        }
    }

    /// Takes what the window keeps out of it, in the order of the requests. The window is empty afterwards.
    pub fn take_window(&mut self, alloc: Global) -> Vec<Kept>
        ensures window { result.items ≡ self.old.kept.items }
        ensures standing { standing_of self.new ≡ record (standing_of self.old) { kept = [] } }
        ensures sound { IsSound (state_of self.new) result.items }
        ensures options { self.new.options ≡ self.old.options }
    {
        std::mem::replace(&mut self.kept, Vec::new(alloc))
    }

    fn line(&mut self, alloc: Global, line: &[u8]) -> Result<Accepted, NoMemory>
        requires room { length self.old.kept.items < self.old.options.window }
        requires few { self.old.requests + 1 < 2 ^ 64 }
        ensures takes { IfOk result (λ answer. length line.now ≤ longest_line → TakesLine self.old.options (standing_of self.old) line.now (standing_of self.new) answer) }
        ensures room { IfOk result (λ answer. answer ≡ More → length self.new.kept.items < self.new.options.window) }
        ensures later { IfOk result (λ answer. Later (state_of self.old) (state_of self.new)) }
        ensures options { self.new.options ≡ self.old.options }
        ensures count { self.new.requests ≤ self.old.requests + 1 }
    {
        if has_no_request(line) {
            return Ok(Accepted::Due);
        }
        let id = self.requests + 1;
        let kept = self.read(alloc, id, line)?;
        self.keep(kept)
    }

    fn refuse_long(&mut self) -> Result<Accepted, NoMemory>
        requires room { length self.old.kept.items < self.old.options.window }
        requires few { self.old.requests + 1 < 2 ^ 64 }
        ensures takes { IfOk result (λ answer. (line : List ℕ) → longest_line < length line → TakesLine self.old.options (standing_of self.old) line (standing_of self.new) answer) }
        ensures room { IfOk result (λ answer. answer ≡ More → length self.new.kept.items < self.new.options.window) }
        ensures same { IfOk result (λ answer. state_of self.new ≡ state_of self.old) }
        ensures options { self.new.options ≡ self.old.options }
        ensures count { self.new.requests ≤ self.old.requests + 1 }
    {
        let id = self.requests + 1;
        self.keep(Kept::Finished(refused(id, LINE_TOO_LONG)))
    }

    /// Counts a request, and keeps what it leaves.
    fn keep(&mut self, kept: Kept) -> Result<Accepted, NoMemory>
        requires fit { IsFitKept (state_of self.old) kept }
        requires room { length self.old.kept.items < self.old.options.window }
        requires few { self.old.requests + 1 < 2 ^ 64 }
        ensures kept { IfOk result (λ answer. standing_of self.new ≡ and_kept (standing_of self.old) (state_of self.old) kept) }
        ensures answer { IfOk result (λ answer. answer ≡ due_at (length self.new.kept.items == self.old.options.window)) }
        ensures room { IfOk result (λ answer. answer ≡ More → length self.new.kept.items < self.new.options.window) }
        ensures same { state_of self.new ≡ state_of self.old }
        ensures options { self.new.options ≡ self.old.options }
        ensures count { self.new.requests ≤ self.old.requests + 1 }
    {
        self.kept.push(kept)?;
        self.requests += 1;
        if self.kept.len() == self.options.window as usize {
            Ok(Accepted::Due)
        } else {
            Ok(Accepted::More)
        }
    }

    /// Reads a line as the request with this number.
    fn read(&mut self, alloc: Global, id: u64, line: &[u8]) -> Result<Kept, NoMemory>
        ensures reads { IfOk result (λ kept. length line.now ≤ longest_line → Read self.old.options (state_of self.old) id line.now (state_of self.new) kept) }
        ensures fit { IfOk result (λ kept. IsFitKept (state_of self.new) kept) }
        ensures later { IfOk result (λ kept. Later (state_of self.old) (state_of self.new)) }
        ensures window { self.new.kept.items ≡ self.old.kept.items }
        ensures count { self.new.requests ≡ self.old.requests }
        ensures options { self.new.options ≡ self.old.options }
    {
        let mark = self.symbols.mark();
        match read_request(alloc, &mut self.symbols, self.names.as_ref(), line) {
            Ok(request) => match self.obey(alloc, id, request)? {
                Obeyed::Stays(kept) => Ok(kept),
                Obeyed::Cut(kept) => {
                    self.symbols.back(mark);
                    Ok(kept)
                }
            },
            Err(e) => Ok(Kept::Finished(refused_line(id, e)?)),
        }
    }

    /// Obeys a request whose symbols have been added, or refuses it.
    fn obey(&mut self, alloc: Global, id: u64, request: Request) -> Result<Obeyed, NoMemory>
        requires fits { Fits (state_of self.old) request }
        requires numbered { IsNumberedRequest request }
        requires written { IsWrittenRequest self.old.symbols request }
        ensures does { IfOk result (λ o. DoesRequest self.old.options (state_of self.old) id request (state_of self.new) o) }
        ensures fit { IfOk result (λ o. IsFitKept (state_of self.new) (kept_of o)) }
        ensures grows { Grows self.old.symbols self.new.symbols }
        ensures window { self.new.kept.items ≡ self.old.kept.items }
        ensures count { self.new.requests ≡ self.old.requests }
        ensures options { self.new.options ≡ self.old.options }
    {
        match request {
            Request::Peers(names) => Ok(Obeyed::Stays(self.declare(alloc, id, &names)?)),
            Request::Put { peer, version } => self.put(alloc, id, peer, version),
            Request::Ask {
                query,
                expansions,
                verdicts,
            } => self.ask(alloc, id, query, expansions, verdicts),
            Request::Check { query, pin, cert } => {
                Ok(Obeyed::Cut(Kept::Finished(self.check(alloc, id, &query, &pin, &cert)?)))
            }
            Request::Versions => Ok(Obeyed::Stays(self.versions(alloc, id)?)),
        }
    }

    fn declare(&mut self, alloc: Global, id: u64, names: &Items<Text>) -> Result<Kept, NoMemory>
        requires fits { Fits (state_of self.old) (Request.Peers names.now) }
        ensures does { IfOk result (λ kept. StaysBy self.old.options (state_of self.old) id (Request.Peers names.now) (state_of self.new) kept) }
        ensures fit { IfOk result (λ kept. IsFitKept (state_of self.new) kept) }
        ensures symbols { self.new.symbols ≡ self.old.symbols }
        ensures window { self.new.kept.items ≡ self.old.kept.items }
        ensures count { self.new.requests ≡ self.old.requests }
        ensures options { self.new.options ≡ self.old.options }
    {
        let declared = Names::new(alloc, names)?;
        let count = declared.len();
        let registry = Registry::new(alloc, count)?;
        self.names = Some(declared);
        self.registry = Some(registry);
        Ok(Kept::Finished(Reply::Peers { id, count }))
    }

    fn put(
        &mut self,
        alloc: Global,
        id: u64,
        peer: u32,
        version: PeerVersion,
    ) -> Result<Obeyed, NoMemory>
        requires fits { Fits (state_of self.old) (Request.Put peer version) }
        requires numbered { IsNumbered version }
        requires written { All (IsWritten self.old.symbols) (concepts_of version) }
        ensures does { IfOk result (λ o. DoesRequest self.old.options (state_of self.old) id (Request.Put peer version) (state_of self.new) o) }
        ensures fit { IfOk result (λ o. IsFitKept (state_of self.new) (kept_of o)) }
        ensures symbols { self.new.symbols ≡ self.old.symbols }
        ensures window { self.new.kept.items ≡ self.old.kept.items }
        ensures count { self.new.requests ≡ self.old.requests }
        ensures options { self.new.options ≡ self.old.options }
    {
        let name = self.peer_name(alloc, peer)?;
        match &mut self.registry {
            Some(registry) => put_in(registry, alloc, id, name, peer, version),
            None => unreachable!(),
        }
    }

    /// The name of a peer.
    fn peer_name(&self, alloc: Global, peer: u32) -> Result<Text, NoMemory>
        requires declared { peer < peer_count (state_of self.now) }
        ensures name { IfOk result (λ name. slice_get (names_of (state_of self.now)) peer ≡ Some name) }
        ensures named { IfOk result (λ name. IsTrue (names_a_thing name)) }
    {
        match &self.names {
            Some(names) => Items::from_slice(alloc, names.name(peer)),
            None => unreachable!(),
        }
    }

    /// The accepted puts of the declared peers.
    fn registry(&self) -> &Registry
        requires declared { IsSome self.now.names }
        ensures peers { result.now.peers ≡ peer_count (state_of self.now) }
        ensures history { result.now.history ≡ (state_of self.now).history }
    {
        match &self.registry {
            Some(registry) => registry,
            None => unreachable!(),
        }
    }

    fn ask(
        &self,
        alloc: Global,
        id: u64,
        query: Query,
        expansions: Option<u64>,
        verdicts: Option<u64>,
    ) -> Result<Obeyed, NoMemory>
        requires fits { Fits (state_of self.now) (Request.Ask query expansions verdicts) }
        requires written { All (IsWritten self.now.symbols) (concepts_in query) }
        ensures does { IfOk result (λ o. DoesRequest self.now.options (state_of self.now) id (Request.Ask query expansions verdicts) (state_of self.now) o) }
        ensures fit { IfOk result (λ o. IsFitKept (state_of self.now) (kept_of o)) }
    {
        match budget_of(self.options, expansions, verdicts) {
            Some(budget) => self.ask_within(alloc, id, query, budget),
            None => Ok(Obeyed::Cut(Kept::Finished(refused(id, BAD_BUDGET)))),
        }
    }

    /// Keeps an ask whose budget is within its limits, unless a closure is too large.
    fn ask_within(
        &self,
        alloc: Global,
        id: u64,
        query: Query,
        budget: Budget,
    ) -> Result<Obeyed, NoMemory>
        requires declared { query.peer < peer_count (state_of self.now) }
        requires within { is_budget budget ≡ true }
        requires written { All (IsWritten self.now.symbols) (concepts_in query) }
        ensures asks { IfOk result (λ o. AskBy (state_of self.now) id query budget o) }
        ensures fit { IfOk result (λ o. IsFitKept (state_of self.now) (kept_of o)) }
    {
        let pin = self.registry().pin(alloc)?;
        let job = self.job(alloc, &pin, query, budget)?;
        match full_closure(alloc, &job)? {
            None => Ok(Obeyed::Stays(Kept::Asked(Ask { id, pin, job }))),
            Some(count) => Ok(Obeyed::Cut(Kept::Finished(refused_at(id, CLOSURE_FULL, count)))),
        }
    }

    /// The job for a query under the present pin.
    fn job(&self, alloc: Global, pin: &Pin, query: Query, budget: Budget) -> Result<Job, NoMemory>
        requires present { pin.now.versions ≡ present_pin (state_of self.now) }
        requires has { is_pin (peer_count (state_of self.now)) pin.now.versions (state_of self.now).history ≡ true }
        requires declared { query.peer < peer_count (state_of self.now) }
        ensures job { IfOk result (λ job. IsJobAt (state_of self.now) query budget job) }
        ensures accepted { IfOk result (λ job. AreAccepted job.pinned) }
        ensures size { IfOk result (λ job. length job.pinned.peers ≡ peer_count (state_of self.now)) }
    {
        let registry = self.registry();
        let relevant = registry.relevant(alloc, pin, query.peer)?;
        let pinned = registry.pinned(alloc, pin)?;
        Ok(Job {
            pinned,
            query,
            relevant: Items::from_vec(relevant),
            budget,
        })
    }

    /// The reply to a check. The symbols of its certificate are added.
    fn check(
        &mut self,
        alloc: Global,
        id: u64,
        query: &Query,
        pin: &Pin,
        cert: &Value,
    ) -> Result<Reply, NoMemory>
        requires declared { IsSome self.old.names }
        ensures checks { IfOk result (λ given. CheckBy (is_pin (peer_count (state_of self.old)) pin.now.versions (state_of self.old).history) id
            (question_at (state_of self.old) pin.now.versions query.now) self.old.symbols (view cert.now) given) }
        ensures printable { IfOk result IsPrintable }
        ensures state { state_of self.new ≡ record (state_of self.old) { symbols = self.new.symbols } }
        ensures grows { Grows self.old.symbols self.new.symbols }
        ensures window { self.new.kept.items ≡ self.old.kept.items }
        ensures count { self.new.requests ≡ self.old.requests }
        ensures options { self.new.options ≡ self.old.options }
    {
        if !self.registry().has(pin) {
            return Ok(refused(id, BAD_PIN));
        }
        let pinned = self.pinned(alloc, pin)?;
        judge(alloc, &mut self.symbols, id, &pinned, query, cert)
    }

    /// The versions that a pin of the history names.
    fn pinned(&self, alloc: Global, pin: &Pin) -> Result<Pinned, NoMemory>
        requires declared { IsSome self.now.names }
        requires has { is_pin (peer_count (state_of self.now)) pin.now.versions (state_of self.now).history ≡ true }
        ensures pinned { IfOk result (λ pinned. pinned ≡ pinned_by pin.now.versions (state_of self.now).history) }
        ensures numbered { IfOk result AreNumbered }
    {
        let registry = self.registry();
        let _count = registry.peers();
        registry.pinned(alloc, pin)
    }

    /// The reply with the number of each peer's last version.
    fn versions(&self, alloc: Global, id: u64) -> Result<Kept, NoMemory>
        requires declared { IsSome self.now.names }
        ensures does { IfOk result (λ kept. StaysBy self.now.options (state_of self.now) id Request.Versions (state_of self.now) kept) }
        ensures fit { IfOk result (λ kept. IsFitKept (state_of self.now) kept) }
    {
        let versions = self.registry().pin(alloc)?;
        Ok(Kept::Finished(Reply::Versions { id, versions }))
    }
}

/// Puts a version, and replies with the peer's name and the version's number, or refuses it.
fn put_in(
    registry: &mut Registry,
    alloc: Global,
    id: u64,
    name: Text,
    peer: u32,
    version: PeerVersion,
) -> Result<Obeyed, NoMemory>
    requires declared { peer < registry.old.peers }
    requires numbered { IsNumbered version }
    ensures puts { IfOk result (λ o. PutsIn registry.old id name peer version registry.new o) }
    ensures same { OnErr result (registry.new ≡ registry.old) }
{
    match registry.put(alloc, peer, version) {
        Ok(number) => Ok(Obeyed::Stays(Kept::Finished(Reply::Put {
            id,
            put: name,
            version: number,
        }))),
        Err(e) => Ok(Obeyed::Cut(Kept::Finished(refused_put(id, e)?))),
    }
}

/// Whether a line has no byte, or one carriage return alone.
fn has_no_request(line: &[u8]) -> bool
    ensures { result ≡ is_blank line.now }
{
    matches!(line, [] | [b'\r'])
}
