ghost use Rattle.std.specs.Prelude.{◌≡◌, ◌≤◌, List, [], ◌≢◌};
ghost use Rattle.dd_board.specs.View.{SessionView};
ghost use Rattle.dd_lines.specs.NextLine.{IsGoing};
ghost use Rattle.dd_lines.specs.Reading.{room};
ghost use Rattle.dd_read.specs.Options.{AreWithin};
ghost use Rattle.dd_read.specs.Tests.{longest_line};
ghost use Rattle.dd_server.specs.Headline.{Output, Cause, Limit, most_bytes};
ghost use Rattle.dd_server.specs.ServerState.{session_of};
ghost use Rattle.dd_server.specs.Session.{opening};
ghost use Rattle.dd_server.specs.Settles.{CanSettle, Settles};
ghost use Rattle.dd_server.specs.Turns.{EndsAs};

use crate::server::{Server, settled_alone};
use crate::status::Status;
use crate::turn::{TurnErr, end_window, turn};
use dd_board::Board;
use dd_concept::NoMemory;
use dd_lines::{LineReader, LineStep, ReadErr, Sink, Source};
use dd_read::Options;
use std::alloc::Global;

/// The most bytes of a line, its line feed aside.
const LONGEST_LINE: usize = 1_048_576;

/// The most bytes that a session reads.
const MOST_BYTES: u64 = 4_294_967_296;

/// A session over the lines of the source on one thread.
///
/// The clauses on the output speak where the source tells what it has left and the sink tells what it was given. With
/// `Status::Done` the source is at its end and the sink was given the whole output of a session for the input; with any
/// other status it was given a front of one: at `Status::ReadFault` and `Status::TooMuch` exactly the replies of the windows
/// that had ended, at `Status::Memory` whole replies, and at `Status::WriteFault` perhaps a part of one. The status is never
/// `Status::Words`, which is for callers that read words.
pub fn serve_alone<S: Source, K: Sink>(
    alloc: Global,
    options: Options,
    source: &mut S,
    sink: &mut K,
) -> Status
    requires within { AreWithin options }
    ensures output { Output options result (S.left source.old) (S.left source.new) (K.given sink.old) (K.given sink.new) }
    ensures cause { Cause result (S.fault_count source.old) (S.fault_count source.new) (K.fault_count sink.old) (K.fault_count sink.new) }
    ensures limit { Limit result (S.left source.old) }
    ensures no_words { result ≢ Status.Words }
    ensures reads { S.fault_count source.old ≤ S.fault_count source.new }
    ensures writes { K.fault_count sink.old ≤ K.fault_count sink.new }
{
    let settle = |board: Board| -> (Board, Result<(), NoMemory>)
        requires { CanSettle board }
        ensures { Settles board result.0 }
    { settled_alone(alloc, board) };
    serve_by(alloc, &settle, options, source, sink)
}

/// A session over the lines of the source, where the board of each window is settled by `settle`.
fn serve_by<F: Fn(Board) -> (Board, Result<(), NoMemory>), S: Source, K: Sink>(
    alloc: Global,
    settle: &F,
    options: Options,
    source: &mut S,
    sink: &mut K,
) -> Status
    requires can { (b : List SessionView) → CanSettle b → F.pre settle.now b }
    requires does { (b : List SessionView) (r : _) → F.post settle.now b r → Settles b r.0 }
    requires within { AreWithin options }
    ensures output { Output options result (S.left source.old) (S.left source.new) (K.given sink.old) (K.given sink.new) }
    ensures cause { Cause result (S.fault_count source.old) (S.fault_count source.new) (K.fault_count sink.old) (K.fault_count sink.new) }
    ensures limit { Limit result (S.left source.old) }
    ensures no_words { result ≢ Status.Words }
    ensures reads { S.fault_count source.old ≤ S.fault_count source.new }
    ensures writes { K.fault_count sink.old ≤ K.fault_count sink.new }
{
    match Server::new(alloc, options) {
        Ok(mut server) => {
            let status = read_lines(alloc, settle, &mut server, source, sink);
            drop(server);
            status
        }
        Err(_) => Status::Memory,
    }
}

/// Reads lines and answers them, in a session that has not begun.
fn read_lines<F: Fn(Board) -> (Board, Result<(), NoMemory>), S: Source, K: Sink>(
    alloc: Global,
    settle: &F,
    server: &mut Server,
    source: &mut S,
    sink: &mut K,
) -> Status
    requires can { (b : List SessionView) → CanSettle b → F.pre settle.now b }
    requires does { (b : List SessionView) (r : _) → F.post settle.now b r → Settles b r.0 }
    requires starts { session_of server.old ≡ opening }
    ensures output { Output server.old.reading.options result (S.left source.old) (S.left source.new) (K.given sink.old) (K.given sink.new) }
    ensures cause { Cause result (S.fault_count source.old) (S.fault_count source.new) (K.fault_count sink.old) (K.fault_count sink.new) }
    ensures limit { Limit result (S.left source.old) }
    ensures no_words { result ≢ Status.Words }
    ensures reads { S.fault_count source.old ≤ S.fault_count source.new }
    ensures writes { K.fault_count sink.old ≤ K.fault_count sink.new }
{
    match LineReader::new(alloc, LONGEST_LINE, MOST_BYTES) {
        Ok(mut reader) => answer_lines(alloc, settle, &mut reader, server, source, sink),
        Err(_) => Status::Memory,
    }
}

/// Answers each line, one after another.
fn answer_lines<F: Fn(Board) -> (Board, Result<(), NoMemory>), S: Source, K: Sink>(
    alloc: Global,
    settle: &F,
    reader: &mut LineReader,
    server: &mut Server,
    source: &mut S,
    sink: &mut K,
) -> Status
    requires can { (b : List SessionView) → CanSettle b → F.pre settle.now b }
    requires does { (b : List SessionView) (r : _) → F.post settle.now b r → Settles b r.0 }
    requires fresh { reader.old.held ≡ [] }
    requires limit { room reader.old ≡ most_bytes }
    requires lines { reader.old.max_line ≡ longest_line }
    requires going { IsGoing reader.old }
    requires starts { session_of server.old ≡ opening }
    ensures output { Output server.old.reading.options result (S.left source.old) (S.left source.new) (K.given sink.old) (K.given sink.new) }
    ensures cause { Cause result (S.fault_count source.old) (S.fault_count source.new) (K.fault_count sink.old) (K.fault_count sink.new) }
    ensures limit { Limit result (S.left source.old) }
    ensures no_words { result ≢ Status.Words }
    ensures reads { S.fault_count source.old ≤ S.fault_count source.new }
    ensures writes { K.fault_count sink.old ≤ K.fault_count sink.new }
{
    loop {
        let step = match reader.next_line(alloc, source) {
            Ok(LineStep::End) => return end(alloc, settle, server, sink),
            Ok(step) => step,
            Err(ReadErr::TooMuch) => return Status::TooMuch,
            Err(ReadErr::NoMemory) => return Status::Memory,
            Err(ReadErr::ReadFault) => return Status::ReadFault,
            Err(ReadErr::Failed { .. }) => unreachable!(),
        };
        match turn(alloc, settle, server, step, sink) {
            Ok(()) => {}
            Err(TurnErr::Memory) => return Status::Memory,
            Err(TurnErr::Write) => return Status::WriteFault,
        }
    }
}

/// Ends the last window, and with it the session.
fn end<F: Fn(Board) -> (Board, Result<(), NoMemory>), K: Sink>(
    alloc: Global,
    settle: &F,
    server: &mut Server,
    sink: &mut K,
) -> Status
    requires can { (b : List SessionView) → CanSettle b → F.pre settle.now b }
    requires does { (b : List SessionView) (r : _) → F.post settle.now b r → Settles b r.0 }
    ensures ends { EndsAs server.old.reading.options (session_of server.old) result (K.given sink.old) (K.given sink.new) (K.fault_count sink.old) (K.fault_count sink.new) }
    ensures counts { K.fault_count sink.old ≤ K.fault_count sink.new }
{
    match end_window(alloc, settle, server, sink) {
        Ok(()) => Status::Done,
        Err(TurnErr::Memory) => Status::Memory,
        Err(TurnErr::Write) => Status::WriteFault,
    }
}
