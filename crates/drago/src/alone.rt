ghost use Rattle.std.specs.Prelude.{◌≡◌, ◌≢◌, ℕ, ◌≤◌, ◌↔◌, ◌⊎◌, List, Option, Err, IfOk, IsTrue, map, length, Some, codes};
ghost use Rattle.std.specs.String.{string_bytes};
ghost use Rattle.dd_lines.specs.Outside.{Rose};
ghost use Rattle.dd_server.specs.Headline.{Output, Cause, Limit, Ends, most_bytes};
ghost use Rattle.dd_server.specs.declared.status.Status.{Status};
ghost use Rattle.dd_words.specs.Apps.{alone_app, generator_app};
ghost use Rattle.dd_words.specs.Numbers.{IsGenerated, IsSession, generated_of, session_of};
ghost use Rattle.dd_words.specs.Words.{Begins, IsCommand, IsNoCommand, NamesNone};
ghost use Rattle.drago.specs.Drilled.{GivesDrilled};
ghost use Rattle.drago.specs.Made.{GivesMade};
ghost use Rattle.drago.specs.Obeys.{IsObeyed, LimitBy, Obeys, options_of};

use crate::drill::drill;
use crate::make::make;
use dd_lines::{Sink, Source};
use dd_server::{Options, Status, serve_alone};
use dd_words::{Command, WordsErr, read_words};
use std::alloc::Global;

/// What the program writes to standard error where its words are no command.
pub const USAGE: &[u8] = b"usage: drago serve|alone|make|drill [options]\n";

/// Does what the words after the program's name ask for, where that waits for nobody: a session on one thread, the requests that are
/// made from three numbers, or the line that sums up a session over these. The first word is the command, and `clap` reads the
/// others.
///
/// The clauses on the output speak where the source tells what it has left and the sink tells what it was given. With
/// `Status::Done` of a session the source is at its end and the sink was given the whole output of a session for the input;
/// with any other status but `Status::Words` it was given a front of one: at `Status::ReadFault` and `Status::TooMuch` exactly
/// the replies of the windows that had ended, at `Status::Memory` whole replies, and at `Status::WriteFault` perhaps a part
/// of one. With `Status::Words` neither source nor sink is touched.
pub fn drago_alone<S: Source, K: Sink>(
    alloc: Global,
    words: &[String],
    source: &mut S,
    sink: &mut K,
) -> Status
    ensures alone { Begins (codes "alone") (map string_bytes words.now)
        → Output (options_of (session_of alone_app (map string_bytes words.now))) result (S.left source.old) (S.left source.new) (K.given sink.old) (K.given sink.new) }
    ensures make { Begins (codes "make") (map string_bytes words.now)
        → GivesMade (generated_of (generator_app (codes "make")) (map string_bytes words.now)) result (K.given sink.old) (K.given sink.new) }
    ensures drill { Begins (codes "drill") (map string_bytes words.now)
        → GivesDrilled (generated_of (generator_app (codes "drill")) (map string_bytes words.now)) result (K.given sink.old) (K.given sink.new) }
    ensures reads { Begins (codes "alone") (map string_bytes words.now) ⊎ (S.left source.new ≡ S.left source.old) }
    ensures cause { Cause result (S.fault_count source.old) (S.fault_count source.new) (K.fault_count sink.old) (K.fault_count sink.new) }
    ensures limit { Begins (codes "alone") (map string_bytes words.now) → Limit result (S.left source.old) }

    // Words: there is no first word, or it is no command that this call does; else only where `clap` does not take them.
    ensures unnamed { NamesNone (map string_bytes words.now) → result ≡ Status.Words }
    ensures serve { Begins (codes "serve") (map string_bytes words.now) → result ≡ Status.Words }
    ensures words { result ≡ Status.Words → IsNoCommand (map string_bytes words.now) ⊎ Begins (codes "serve") (map string_bytes words.now) }
    ensures untouched { result ≡ Status.Words → (source.new ≡ source.old) × (sink.new ≡ sink.old) }

    // With words that are taken, an input within the limit and no count of faults that rose, only memory can be wanting.
    ensures complete { result ≢ Status.Words
        → ¬ (Rose (S.fault_count source.old) (S.fault_count source.new)) → ¬ (Rose (K.fault_count sink.old) (K.fault_count sink.new))
        → (input : List ℕ) → S.left source.old ≡ Some input → length input ≤ most_bytes → Ends result }
    ensures counts { (S.fault_count source.old ≤ S.fault_count source.new) × (K.fault_count sink.old ≤ K.fault_count sink.new) }
{
    match command_of(alloc, words) {
        Ok(command) => obey(alloc, command, source, sink),
        Err(e) => status_of(e),
    }
}

/// The command of the words, where it is one that waits for nobody.
fn command_of(alloc: Global, words: &[String]) -> Result<Command, WordsErr>
    ensures command { IfOk result (λ c. IsCommand c (map string_bytes words.now) × IsObeyed c) }
    ensures unnamed { NamesNone (map string_bytes words.now) → result ≡ Err WordsErr.Words }
    ensures serve { Begins (codes "serve") (map string_bytes words.now) → result ≡ Err WordsErr.Words }
    ensures words { result ≡ Err WordsErr.Words → IsNoCommand (map string_bytes words.now) ⊎ Begins (codes "serve") (map string_bytes words.now) }
{
    if is_serve(words) {
        return Err(WordsErr::Words);
    }
    read_words(alloc, words)
}

/// Whether the first word is `serve`.
fn is_serve(words: &[String]) -> bool
    ensures { IsTrue result ↔ Begins (codes "serve") (map string_bytes words.now) }
{
    match words.first() {
        Some(first) => first.as_str() == "serve",
        None => false,
    }
}

fn status_of(e: WordsErr) -> Status
    ensures words { (result ≡ Status.Words) ↔ (e ≡ WordsErr.Words) }
    ensures memory { (result ≡ Status.Memory) ↔ (e ≡ WordsErr.NoMemory) }
{
    match e {
        WordsErr::Words => Status::Words,
        WordsErr::NoMemory => Status::Memory,
    }
}

/// Does what a command asks for that waits for nobody.
fn obey<S: Source, K: Sink>(alloc: Global, command: Command, source: &mut S, sink: &mut K) -> Status
    requires obeyed { IsObeyed command }
    ensures obeys { Obeys command result (S.left source.old) (S.left source.new) (K.given sink.old) (K.given sink.new) }
    ensures cause { Cause result (S.fault_count source.old) (S.fault_count source.new) (K.fault_count sink.old) (K.fault_count sink.new) }
    ensures limit { LimitBy command result (S.left source.old) }
    ensures no_words { result ≢ Status.Words }
    ensures counts { (S.fault_count source.old ≤ S.fault_count source.new) × (K.fault_count sink.old ≤ K.fault_count sink.new) }
{
    match command {
        Command::Serve(_) => unreachable!(),
        Command::Alone(numbers) => serve_alone(alloc, options_of(numbers), source, sink),
        Command::Make(from) => make(alloc, from, sink),
        Command::Drill(from) => drill(alloc, from, sink),
    }
}

fn options_of(numbers: dd_words::Options) -> Options
    ensures { result ≡ options_of numbers }
{
    Options {
        workers: numbers.workers,
        window: numbers.window,
        expansions: numbers.expansions,
        verdicts: numbers.verdicts,
        cache: numbers.cache,
    }
}
