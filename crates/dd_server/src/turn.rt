ghost use Rattle.std.specs.Prelude.{◌≡◌, ℕ, ◌+◌, ◌<◌, ◌≤◌, ◌^◌, List, [], IsErrOf, OnOk, flat_map, length};
ghost use Rattle.dd_board.specs.View.{SessionView};
ghost use Rattle.dd_lines.specs.NextLine.{StandsFor};
ghost use Rattle.dd_lines.specs.Outside.{Gives, GivesFront, Rose};
ghost use Rattle.dd_read.specs.ReadingState.{standing_of};
ghost use Rattle.dd_read.specs.Tests.{longest_line};
ghost use Rattle.dd_server.specs.ServerState.{session_of};
ghost use Rattle.dd_server.specs.Settles.{CanSettle, Settles};
ghost use Rattle.dd_server.specs.Turns.{BreaksOff, IsFinished, IsHalfFinished, Turned};
ghost use Rattle.dd_text.specs.Symbols.{texts_of};

use crate::server::Server;
use dd_board::Board;
use dd_concept::NoMemory;
use dd_lines::{LineStep, Sink, write_whole};
use dd_read::Accepted;
use std::alloc::Global;

/// Why the replies of a window were not given whole.
#[derive(Drop)]
pub enum TurnErr {
    /// There was no memory, and nothing was written.
    Memory,
    /// The sink failed, after a front of the replies.
    Write,
}

/// Takes one line, and writes the replies of the window that it ends.
pub fn turn<F: Fn(Board) -> (Board, Result<(), NoMemory>), K: Sink>(
    alloc: Global,
    settle: &F,
    server: &mut Server,
    step: LineStep,
    sink: &mut K,
) -> Result<(), TurnErr>
    requires can { (b : List SessionView) → CanSettle b → F.pre settle.now b }
    requires does { (b : List SessionView) (r : _) → F.post settle.now b r → Settles b r.0 }
    requires room { length server.old.reading.kept.items < server.old.reading.options.window }
    requires few { server.old.reading.requests + 1 < 2 ^ 64 }
    ensures turned { OnOk result ((line : List ℕ) → StandsFor longest_line step line
        → Turned server.old.reading.options (session_of server.old) line (session_of server.new) (K.given sink.old) (K.given sink.new)) }
    ensures breaks { IsErrOf result TurnErr.Write → (line : List ℕ) → StandsFor longest_line step line
        → BreaksOff server.old.reading.options (session_of server.old) line (session_of server.new) (K.given sink.old) (K.given sink.new) }
    ensures fault { IsErrOf result TurnErr.Write → Rose (K.fault_count sink.old) (K.fault_count sink.new) }
    ensures same { IsErrOf result TurnErr.Memory → K.given sink.new ≡ K.given sink.old }
    ensures room { OnOk result (length server.new.reading.kept.items < server.new.reading.options.window) }
    ensures options { server.new.reading.options ≡ server.old.reading.options }
    ensures count { OnOk result (server.new.reading.requests ≤ server.old.reading.requests + 1) }
    ensures counts { K.fault_count sink.old ≤ K.fault_count sink.new }
{
    match server.accept(alloc, step) {
        Ok(Accepted::More) => Ok(()),
        Ok(Accepted::Due) => end_window(alloc, settle, server, sink),
        Err(_) => Err(TurnErr::Memory),
    }
}

/// Ends the window, and writes its replies.
pub fn end_window<F: Fn(Board) -> (Board, Result<(), NoMemory>), K: Sink>(
    alloc: Global,
    settle: &F,
    server: &mut Server,
    sink: &mut K,
) -> Result<(), TurnErr>
    requires can { (b : List SessionView) → CanSettle b → F.pre settle.now b }
    requires does { (b : List SessionView) (r : _) → F.post settle.now b r → Settles b r.0 }
    ensures finished { OnOk result (IsFinished server.old.reading.options (session_of server.old) server.new.cache.list (K.given sink.old) (K.given sink.new)) }
    ensures standing { OnOk result (standing_of server.new.reading ≡ record (standing_of server.old.reading) { kept = [] }) }
    ensures breaks { IsErrOf result TurnErr.Write → IsHalfFinished server.old.reading.options (session_of server.old) server.new.cache.list (K.given sink.old) (K.given sink.new)
        × (standing_of server.new.reading ≡ record (standing_of server.old.reading) { kept = [] }) }
    ensures fault { IsErrOf result TurnErr.Write → Rose (K.fault_count sink.old) (K.fault_count sink.new) }
    ensures same { IsErrOf result TurnErr.Memory → K.given sink.new ≡ K.given sink.old }
    ensures options { server.new.reading.options ≡ server.old.reading.options }
    ensures counts { K.fault_count sink.old ≤ K.fault_count sink.new }
{
    match server.serve_window_by(alloc, settle) {
        Ok(lines) => write_lines(&lines, sink),
        Err(_) => Err(TurnErr::Memory),
    }
}

fn write_lines<K: Sink>(lines: &[Vec<u8>], sink: &mut K) -> Result<(), TurnErr>
    ensures whole { OnOk result (Gives (K.given sink.old) (K.given sink.new) (flat_map (λ line. line) (texts_of lines.now))) }
    ensures front { IsErrOf result TurnErr.Write → GivesFront (K.given sink.old) (K.given sink.new) (flat_map (λ line. line) (texts_of lines.now)) }
    ensures fault { IsErrOf result TurnErr.Write → Rose (K.fault_count sink.old) (K.fault_count sink.new) }
    ensures memory { ¬ (IsErrOf result TurnErr.Memory) }
    ensures counts { K.fault_count sink.old ≤ K.fault_count sink.new }
{
    for line in lines {
        if write_whole(sink, line.as_slice()).is_err() {
            return Err(TurnErr::Write);
        }
    }
    Ok(())
}
