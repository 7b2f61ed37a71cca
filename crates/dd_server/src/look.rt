ghost use Rattle.std.specs.Prelude.{◌≡◌, ◌<◌, [], All, IfOk, length};
ghost use Rattle.dd_cache.specs.Keys.{seen_key};
ghost use Rattle.dd_read.specs.Fit.{IsFitAsk, IsFitKept};
ghost use Rattle.dd_read.specs.declared.kept.Kept.TheVariants.{Asked};
ghost use Rattle.dd_read.specs.ReadingState.{state_of};
ghost use Rattle.dd_server.specs.Finish.{key_of_ask};
ghost use Rattle.dd_server.specs.Held.{AreEntries};
ghost use Rattle.dd_server.specs.Windows.{AreNew, IsOpen, IsWritable, LookToAll, LooksTo, Opens, RepliesOr, SearchesFor};
ghost use Rattle.dd_text.specs.Symbols.{IsNumbering};
ghost use Rattle.dd_wire.specs.Replies.{IsPrintable};
ghost use Rattle.dd_wire.specs.declared.reply.Origin.TheVariants as origin;
ghost use Rattle.dd_wire.specs.declared.reply.Reply.TheVariants as reply;

use crate::reply::reply_with;
use dd_answer::Answer;
use dd_board::Board;
use dd_cache::{Cache, CacheKey, key_of};
use dd_concept::NoMemory;
use dd_peer::Pin;
use dd_read::{Ask, Kept, Reading};
use dd_text::Symbols;
use dd_wire::{Origin, Reply};
use std::alloc::Global;

/// An item of a window once it was looked up.
#[derive(Drop)]
pub enum Looked {
    /// This is replied to it.
    Told(Reply),
    /// No answer is kept under the key of the ask, and it is searched for in this session.
    Searched {
        id: u64,
        pin: Pin,
        key: CacheKey,
        session: u32,
    },
}

/// Looks up what a window kept, in the order of the requests. Each ask that is not found opens a session of the board.
pub fn look_up_all(
    alloc: Global,
    reading: &Reading,
    cache: &mut Cache,
    board: &mut Board,
    kept: Vec<Kept>,
) -> Result<Vec<Looked>, NoMemory>
    requires fit { All (IsFitKept (state_of reading.now)) kept.items }
    requires entries { AreEntries (state_of reading.now) cache.old.list }
    requires numbering { IsNumbering reading.now.symbols }
    requires empty { board.old ≡ [] }
    ensures looks { IfOk result (λ looked. LookToAll reading.now.symbols board.new kept.items cache.old.list cache.new.list looked.items) }
    ensures open { IfOk result (λ looked. All (IsOpen board.new) looked.items) }
    ensures sessions { AreNew reading.now.symbols board.new }
    ensures entries { AreEntries (state_of reading.now) cache.new.list }
    ensures capacity { cache.new.capacity ≡ cache.old.capacity }
{
    let mut looked = Vec::new(alloc);
    for item in kept {
        looked.push(look_up(alloc, reading, cache, board, item))?;
    }
    Ok(looked)
}

fn look_up(
    alloc: Global,
    reading: &Reading,
    cache: &mut Cache,
    board: &mut Board,
    item: Kept,
) -> Looked
    requires fit { IsFitKept (state_of reading.now) item }
    requires entries { AreEntries (state_of reading.now) cache.old.list }
    requires numbering { IsNumbering reading.now.symbols }
    requires sessions { AreNew reading.now.symbols board.old }
    ensures looks { LooksTo reading.now.symbols board.new item cache.old.list cache.new.list result }
    ensures open { IsOpen board.new result }
    ensures opens { Opens board.old board.new }
    ensures sessions { AreNew reading.now.symbols board.new }
    ensures entries { AreEntries (state_of reading.now) cache.new.list }
    ensures capacity { cache.new.capacity ≡ cache.old.capacity }
{
    match item {
        Kept::Finished(reply) => Looked::Told(reply),
        Kept::Asked(ask) => look_up_ask(alloc, reading, cache, board, ask),
    }
}

fn look_up_ask(
    alloc: Global,
    reading: &Reading,
    cache: &mut Cache,
    board: &mut Board,
    ask: Ask,
) -> Looked
    requires fit { IsFitAsk (state_of reading.now) ask }
    requires entries { AreEntries (state_of reading.now) cache.old.list }
    requires numbering { IsNumbering reading.now.symbols }
    requires sessions { AreNew reading.now.symbols board.old }
    ensures looks { LooksTo reading.now.symbols board.new (Asked ask) cache.old.list cache.new.list result }
    ensures open { IsOpen board.new result }
    ensures opens { Opens board.old board.new }
    ensures sessions { AreNew reading.now.symbols board.new }
    ensures entries { AreEntries (state_of reading.now) cache.new.list }
    ensures capacity { cache.new.capacity ≡ cache.old.capacity }
{
    let key = key_of(
        alloc,
        &reading.symbols,
        &ask.job.query,
        ask.job.relevant.as_slice(),
        &ask.pin,
    );
    match key {
        Ok(key) => look_up_key(alloc, reading, cache, board, ask, key),
        Err(_) => Looked::Told(want_of_memory(ask)),
    }
}

/// An ask is looked up by its key.
fn look_up_key(
    alloc: Global,
    reading: &Reading,
    cache: &mut Cache,
    board: &mut Board,
    ask: Ask,
    key: CacheKey,
) -> Looked
    requires fit { IsFitAsk (state_of reading.now) ask }
    requires key { seen_key key ≡ key_of_ask reading.now.symbols ask }
    requires entries { AreEntries (state_of reading.now) cache.old.list }
    requires numbering { IsNumbering reading.now.symbols }
    requires sessions { AreNew reading.now.symbols board.old }
    ensures looks { LooksTo reading.now.symbols board.new (Asked ask) cache.old.list cache.new.list result }
    ensures open { IsOpen board.new result }
    ensures opens { Opens board.old board.new }
    ensures sessions { AreNew reading.now.symbols board.new }
    ensures entries { AreEntries (state_of reading.now) cache.new.list }
    ensures capacity { cache.new.capacity ≡ cache.old.capacity }
{
    match cache.look(&key) {
        Some(entry) => Looked::Told(found(alloc, &reading.symbols, ask, &entry.answer)),
        None => search_for(alloc, board, ask, key),
    }
}

/// The reply to an ask whose answer was kept.
fn found(alloc: Global, symbols: &Symbols, ask: Ask, answer: &Answer) -> Reply
    requires { IsWritable symbols.now answer.now }
    ensures replies { RepliesOr symbols.now ask.id ask.pin origin.Cache answer.now result }
    ensures printable { IsPrintable result }
{
    let Ask { id, pin, job } = ask;
    drop(job);
    match reply_with(alloc, symbols, id, Origin::Cache, pin, answer) {
        Ok(reply) => reply,
        Err(reply) => reply,
    }
}

/// Opens a session for an ask that is not found.
fn search_for(alloc: Global, board: &mut Board, ask: Ask, key: CacheKey) -> Looked
    requires { ask.job.query.peer < length ask.job.pinned.peers }
    ensures { SearchesFor ask key board.old board.new result }
{
    let Ask { id, pin, job } = ask;
    match board.open_session(alloc, job) {
        Ok(session) => Looked::Searched {
            id,
            pin,
            key,
            session,
        },
        Err(_) => Looked::Told(Reply::Memory {
            id,
            from: Origin::Search,
            pin,
        }),
    }
}

/// The reply to an ask where there was no memory for its key.
fn want_of_memory(ask: Ask) -> Reply
    ensures { result ≡ reply.Memory ask.id origin.Search ask.pin }
{
    let Ask { id, pin, job } = ask;
    drop(job);
    Reply::Memory {
        id,
        from: Origin::Search,
        pin,
    }
}
