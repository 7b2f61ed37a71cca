//! A session over made requests, summed up.
ghost use Rattle.std.specs.Prelude.{◌≡◌, ◌≢◌, ℕ, ◌+◌, ◌<◌, ◌≤◌, ◌^◌, ◌++◌, ◌∷◌, [], List, IfOk, OnOk, length, map};
ghost use Rattle.dd_lines.specs.Outside.{Rose};
ghost use Rattle.dd_read.specs.Options.{defaults};
ghost use Rattle.dd_lines.specs.NextLine.{StandsFor};
ghost use Rattle.dd_read.specs.ReadingState.{standing_of};
ghost use Rattle.dd_read.specs.Tests.{longest_line};
ghost use Rattle.dd_server.specs.Session.{opening};
ghost use Rattle.dd_server.specs.ServerState.{session_of};
ghost use Rattle.dd_words.specs.Numbers.{IsGenerated};
ghost use Rattle.dd_text.specs.Symbols.{texts_of};
ghost use Rattle.drago.specs.Drilled.{GivesDrilled, IsDrilled};
ghost use Rattle.drago.specs.Drills.{AddsTurn, AddsWindow, AreKinds};
ghost use Rattle.drago.specs.Summary.{kind_of};

use crate::summary::{Kind, kind_of, summary};
use dd_lines::{LineStep, Sink, write_whole};
use dd_server::{Accepted, Options, Server, Status};
use dd_words::Generated;
use std::alloc::{AllocError, Global};

/// The most bytes of a line.
const LONGEST_LINE: usize = 1_048_576;

/// Runs the requests that are made from these numbers as a session with the usual options on this thread, and writes one line that sums
/// it up.
pub fn drill<K: Sink>(alloc: Global, from: Generated, sink: &mut K) -> Status
    requires { IsGenerated from }
    ensures drilled { GivesDrilled from result (K.given sink.old) (K.given sink.new) }
    ensures fault { result ≡ Status.WriteFault → Rose (K.fault_count sink.old) (K.fault_count sink.new) }
    ensures no_words { result ≢ Status.Words }
    ensures counts { K.fault_count sink.old ≤ K.fault_count sink.new }
{
    let text = match drilled(alloc, from) {
        Ok(text) => text,
        Err(_) => return Status::Memory,
    };
    match write_whole(sink, text.as_slice()) {
        Ok(()) => Status::Done,
        Err(_) => Status::WriteFault,
    }
}

/// The line, with its line feed.
fn drilled(alloc: Global, from: Generated) -> Result<Vec<u8>, AllocError>
    requires { IsGenerated from }
    ensures { IfOk result (λ text. IsDrilled from text.items) }
{
    let lines = dd_gen::make(alloc, from.seed, from.peers, from.size)?;
    let kinds = kinds_of(alloc, lines)?;
    let mut text = summary(alloc, kinds.as_slice())?;
    text.push(b'\n')?;
    Ok(text)
}

/// What the replies to these lines tell.
fn kinds_of(alloc: Global, lines: Vec<Vec<u8>>) -> Result<Vec<Kind>, AllocError>
    ensures { IfOk result (λ kinds. AreKinds (map (λ line. line.items) lines.items) kinds.items) }
{
    let mut server = Server::new(alloc, Options::defaults())?;
    let kinds = answered(alloc, &mut server, lines);
    drop(server);
    kinds
}

fn answered(
    alloc: Global,
    server: &mut Server,
    lines: Vec<Vec<u8>>,
) -> Result<Vec<Kind>, AllocError>
    requires opening { session_of server.old ≡ opening }
    requires options { server.old.reading.options ≡ defaults }
    ensures { IfOk result (λ kinds. AreKinds (map (λ line. line.items) lines.items) kinds.items) }
{
    let mut kinds = Vec::new(alloc);
    for line in lines {
        answer_line(alloc, server, line, &mut kinds)?;
    }
    end_window(alloc, server, &mut kinds)?;
    Ok(kinds)
}

/// Takes one line, and adds what the replies tell of the window that it ends.
fn answer_line(
    alloc: Global,
    server: &mut Server,
    line: Vec<u8>,
    kinds: &mut Vec<Kind>,
) -> Result<(), AllocError>
    requires room { length server.old.reading.kept.items < server.old.reading.options.window }
    requires few { server.old.reading.requests + 1 < 2 ^ 64 }
    requires options { server.old.reading.options ≡ defaults }
    ensures adds { OnOk result (AddsTurn (session_of server.old) line.items (session_of server.new) kinds.old.items kinds.new.items) }
    ensures room { OnOk result (length server.new.reading.kept.items < server.new.reading.options.window) }
    ensures options { server.new.reading.options ≡ server.old.reading.options }
    ensures count { OnOk result (server.new.reading.requests ≤ server.old.reading.requests + 1) }
{
    match server.accept(alloc, step_of(line))? {
        Accepted::More => Ok(()),
        Accepted::Due => end_window(alloc, server, kinds),
    }
}

/// What stands for a line.
fn step_of(line: Vec<u8>) -> LineStep
    ensures { StandsFor longest_line result line.items }
{
    if line.len() > LONGEST_LINE {
        return LineStep::TooLong;
    }
    LineStep::Line(line)
}

/// Ends the window, and adds what its replies tell.
fn end_window(alloc: Global, server: &mut Server, kinds: &mut Vec<Kind>) -> Result<(), AllocError>
    requires options { server.old.reading.options ≡ defaults }
    ensures adds { OnOk result (AddsWindow (session_of server.old) server.new.cache.list kinds.old.items kinds.new.items) }
    ensures standing { OnOk result (standing_of server.new.reading ≡ record (standing_of server.old.reading) { kept = [] }) }
    ensures options { server.new.reading.options ≡ server.old.reading.options }
{
    let lines = server.serve_window_alone(alloc)?;
    add_kinds(kinds, lines.as_slice())
}

fn add_kinds(kinds: &mut Vec<Kind>, lines: &[Vec<u8>]) -> Result<(), AllocError>
    ensures { OnOk result (kinds.new.items ≡ kinds.old.items ++ map kind_of (texts_of lines.now)) }
{
    for line in lines {
        kinds.push(kind_of(line.as_slice()))?;
    }
    Ok(())
}
