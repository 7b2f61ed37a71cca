ghost use Rattle.std.specs.Prelude.{◌≡◌, ◌++◌, ◌∷◌, [], List, All, IfOk, IsTrue, map, true};
ghost use Rattle.dd_answer.specs.declared.answer.Answer.{Answer as AnswerView};
ghost use Rattle.dd_cache.specs.Entries.{IsVerdict};
ghost use Rattle.dd_cache.specs.Keys.{seen_key};
ghost use Rattle.dd_server.specs.Finish.{Keeps};
ghost use Rattle.dd_server.specs.Windows.{AreFitSessions, ConcludeAll, Concludes, IsOpen, IsWritable, KeepsOr, line_text};
ghost use Rattle.dd_text.specs.Symbols.{texts_of};
ghost use Rattle.dd_wire.specs.Replies.{IsPrintable};
ghost use Rattle.dd_wire.specs.declared.reply.Origin.TheVariants.{Search};
ghost use Rattle.dd_wire.specs.declared.reply.Reply.{Reply as ReplyView};

use crate::look::Looked;
use crate::reply::{line_of, reply_with};
use dd_answer::Answer;
use dd_board::Board;
use dd_cache::{Cache, CacheKey};
use dd_concept::NoMemory;
use dd_outcome::answer_of;
use dd_peer::Pin;
use dd_text::Symbols;
use dd_wire::{Origin, Reply};
use std::alloc::Global;

/// The replies of a window that was looked up and whose board was settled, each as it is written. What was searched for is kept.
pub fn conclude_all(
    alloc: Global,
    symbols: &Symbols,
    cache: &mut Cache,
    board: &Board,
    looked: Vec<Looked>,
) -> Result<Vec<Vec<u8>>, NoMemory>
    requires sessions { AreFitSessions symbols.now board.now }
    requires open { All (IsOpen board.now) looked.items }
    ensures concludes { IfOk result (λ lines. (replies : List ReplyView) × ConcludeAll cache.old.capacity symbols.now board.now looked.items cache.old.list cache.new.list replies
        × (texts_of lines.items ≡ map line_text replies)) }
    ensures capacity { cache.new.capacity ≡ cache.old.capacity }
{
    let mut lines = Vec::new(alloc);
    for item in looked {
        lines.push(conclude_line(alloc, symbols, cache, board, item)?)?;
    }
    Ok(lines)
}

/// The reply to an item, as it is written.
fn conclude_line(
    alloc: Global,
    symbols: &Symbols,
    cache: &mut Cache,
    board: &Board,
    looked: Looked,
) -> Result<Vec<u8>, NoMemory>
    requires sessions { AreFitSessions symbols.now board.now }
    requires open { IsOpen board.now looked }
    ensures concludes { IfOk result (λ line. (reply : ReplyView) × Concludes cache.old.capacity symbols.now board.now looked cache.old.list cache.new.list reply
        × (line.items ≡ line_text reply)) }
    ensures capacity { cache.new.capacity ≡ cache.old.capacity }
{
    let reply = conclude(alloc, symbols, cache, board, looked);
    let line = line_of(alloc, &reply);
    drop(reply);
    line
}

fn conclude(
    alloc: Global,
    symbols: &Symbols,
    cache: &mut Cache,
    board: &Board,
    looked: Looked,
) -> Reply
    requires sessions { AreFitSessions symbols.now board.now }
    requires open { IsOpen board.now looked }
    ensures concludes { Concludes cache.old.capacity symbols.now board.now looked cache.old.list cache.new.list result }
    ensures printable { IsPrintable result }
    ensures capacity { cache.new.capacity ≡ cache.old.capacity }
{
    match looked {
        Looked::Told(reply) => reply,
        Looked::Searched {
            id,
            pin,
            key,
            session,
        } => {
            let answer = answer_of(alloc, board, session);
            reply_to(alloc, symbols, cache, id, pin, key, answer)
        }
    }
}

/// The reply to an ask that was searched for. A yes or a no is kept.
fn reply_to(
    alloc: Global,
    symbols: &Symbols,
    cache: &mut Cache,
    id: u64,
    pin: Pin,
    key: CacheKey,
    answer: Answer,
) -> Reply
    requires { IsWritable symbols.now answer }
    ensures keeps { KeepsOr cache.old.capacity symbols.now id pin key answer cache.old.list cache.new.list result }
    ensures printable { IsPrintable result }
    ensures capacity { cache.new.capacity ≡ cache.old.capacity }
{
    match reply_with(alloc, symbols, id, Origin::Search, pin, &answer) {
        Ok(reply) => {
            keep(cache, key, answer);
            reply
        }
        Err(reply) => reply,
    }
}

/// Keeps a yes or a no that is not too heavy, or passes it over where there is no memory. Any other answer is not kept.
fn keep(cache: &mut Cache, key: CacheKey, answer: Answer)
    ensures keeps { Keeps cache.old.capacity (seen_key key) (record { from = Search; answer = answer }) cache.old.list cache.new.list }
    ensures capacity { cache.new.capacity ≡ cache.old.capacity }
{
    if is_verdict(&answer) {
        match cache.keep(key, answer) {
            Ok(()) => {}
            Err(_) => {}
        }
    }
}

fn is_verdict(answer: &Answer) -> bool
    ensures { IsTrue result → IsVerdict answer.now }
{
    match answer {
        Answer::Yes(_) | Answer::No(_) => true,
        Answer::RunSpent(_) | Answer::VerdictsSpent(_) | Answer::Memory => false,
    }
}
