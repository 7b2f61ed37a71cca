ghost use Rattle.std.specs.Prelude.{◌≡◌, ◌<◌, ◌≤◌, ◌+◌, ◌^◌, ℕ, List, [], All, IfOk, OnOk, false, length, map};
ghost use Rattle.dd_board.specs.View.{SessionView};
ghost use Rattle.dd_lines.specs.NextLine.{StandsFor};
ghost use Rattle.dd_read.specs.Fit.{IsFitKept};
ghost use Rattle.dd_read.specs.Options.{AreWithin};
ghost use Rattle.dd_read.specs.ReadingState.{standing_of, state_of};
ghost use Rattle.dd_read.specs.Standing.{TakesLine};
ghost use Rattle.dd_read.specs.Tests.{longest_line};
ghost use Rattle.dd_read.specs.declared.accepted.Accepted.TheVariants.{Due, More};
ghost use Rattle.dd_server.specs.Finish.{Finish};
ghost use Rattle.dd_server.specs.Held.{AreEntries};
ghost use Rattle.dd_server.specs.Session.{FinishesAt, opening};
ghost use Rattle.dd_server.specs.Settles.{CanSettle, Settles};
ghost use Rattle.dd_server.specs.Windows.{line_text};
ghost use Rattle.dd_text.specs.Symbols.{texts_of};
ghost use Rattle.dd_wire.specs.declared.reply.Reply.{Reply as ReplyView};

use crate::conclude::conclude_all;
use crate::look::look_up_all;
use dd_board::Board;
use dd_cache::Cache;
use dd_concept::NoMemory;
use dd_lines::LineStep;
use dd_read::{Accepted, Kept, Options, Reading};
use dd_work::settle_alone;
use std::alloc::Global;

/// What a session knows between lines: where its reading stands, and the answers that are kept. After want of memory in one of
/// its calls it has `failed`, and answers nothing but that for good.
#[derive(Drop)]
pub struct Server {
    pub reading: Reading,
    pub cache: Cache,
    pub failed: bool,
    ghost capacity: { cache.capacity ≡ reading.options.cache },
    ghost entries: { failed ≡ false → AreEntries (state_of reading) cache.list },
}

impl Server {
    ghost use Rattle.dd_server.specs.ServerState.{session_of};

    /// The session before its first line.
    pub fn new(alloc: Global, options: Options) -> Result<Server, NoMemory>
        requires { AreWithin options }
        ensures opening { IfOk result (λ s. session_of s ≡ opening) }
        ensures options { IfOk result (λ s. s.reading.options ≡ options) }
    {
        let reading = Reading::new(alloc, options)?;
        let cache = Cache::new(alloc, options.cache)?;
        Ok(Server {
            reading,
            cache,
            failed: false,
        })
    }

    /// Takes one line into the window, or the end of all lines. `Due` comes where the window is to be served now: where it has as
    /// many requests as it may, at a blank line and at the end.
    pub fn accept(&mut self, alloc: Global, step: LineStep) -> Result<Accepted, NoMemory>
        requires room { length self.old.reading.kept.items < self.old.reading.options.window }
        requires few { self.old.reading.requests + 1 < 2 ^ 64 }
        ensures line { IfOk result (λ answer. (line : List ℕ) → StandsFor longest_line step line
            → TakesLine self.old.reading.options (standing_of self.old.reading) line (standing_of self.new.reading) answer) }
        ensures end { IfOk result (λ answer. step ≡ LineStep.End → (standing_of self.new.reading ≡ standing_of self.old.reading) × (answer ≡ Due)) }
        ensures room { IfOk result (λ answer. answer ≡ More → length self.new.reading.kept.items < self.new.reading.options.window) }
        ensures cache { IfOk result (λ answer. self.new.cache.list ≡ self.old.cache.list) }
        ensures options { self.new.reading.options ≡ self.old.reading.options }
        ensures count { self.new.reading.requests ≤ self.old.reading.requests + 1 }
    {
        if self.failed {
            drop(step);
            return Err(NoMemory);
        }
        let _numbering = self.reading.symbols.mark();
        let taken = self.reading.step(alloc, step);
        self.failed = taken.is_err();
        taken
    }

    /// The replies of the window, in the order of its requests, each with its line feed. The window is empty afterwards.
    pub fn serve_window_alone(&mut self, alloc: Global) -> Result<Vec<Vec<u8>>, NoMemory>
        ensures finishes { IfOk result (λ lines. (replies : List ReplyView) × FinishesAt self.old.reading.options (session_of self.old) self.new.cache.list replies
            × (texts_of lines.items ≡ map line_text replies)) }
        ensures standing { OnOk result (standing_of self.new.reading ≡ record (standing_of self.old.reading) { kept = [] }) }
        ensures options { self.new.reading.options ≡ self.old.reading.options }
    {
        let settle = |board: Board| -> (Board, Result<(), NoMemory>)
            requires { CanSettle board }
            ensures { Settles board result.0 }
        { settled_alone(alloc, board) };
        self.serve_window_by(alloc, &settle)
    }

    /// The same, where the board of the window is settled by `settle`.
    pub fn serve_window_by<F: Fn(Board) -> (Board, Result<(), NoMemory>)>(
        &mut self,
        alloc: Global,
        settle: &F,
    ) -> Result<Vec<Vec<u8>>, NoMemory>
        requires can { (b : List SessionView) → CanSettle b → F.pre settle.now b }
        requires does { (b : List SessionView) (r : _) → F.post settle.now b r → Settles b r.0 }
        ensures finishes { IfOk result (λ lines. (replies : List ReplyView) × FinishesAt self.old.reading.options (session_of self.old) self.new.cache.list replies
            × (texts_of lines.items ≡ map line_text replies)) }
        ensures standing { OnOk result (standing_of self.new.reading ≡ record (standing_of self.old.reading) { kept = [] }) }
        ensures options { self.new.reading.options ≡ self.old.reading.options }
    {
        if self.failed {
            return Err(NoMemory);
        }
        let lines = finish(alloc, settle, &mut self.reading, &mut self.cache);
        self.failed = lines.is_err();
        lines
    }
}

/// Ends the window that is open.
fn finish<F: Fn(Board) -> (Board, Result<(), NoMemory>)>(
    alloc: Global,
    settle: &F,
    reading: &mut Reading,
    cache: &mut Cache,
) -> Result<Vec<Vec<u8>>, NoMemory>
    requires can { (b : List SessionView) → CanSettle b → F.pre settle.now b }
    requires does { (b : List SessionView) (r : _) → F.post settle.now b r → Settles b r.0 }
    requires entries { AreEntries (state_of reading.old) cache.old.list }
    ensures finishes { IfOk result (λ lines. (replies : List ReplyView) × Finish cache.old.capacity reading.old.symbols reading.old.kept.items cache.old.list cache.new.list replies
        × (texts_of lines.items ≡ map line_text replies)) }
    ensures standing { standing_of reading.new ≡ record (standing_of reading.old) { kept = [] } }
    ensures options { reading.new.options ≡ reading.old.options }
    ensures entries { OnOk result (AreEntries (state_of reading.new) cache.new.list) }
    ensures capacity { cache.new.capacity ≡ cache.old.capacity }
{
    let kept = reading.take_window(alloc);
    answer_all(alloc, settle, reading, cache, kept)
}

/// Answers what a window kept.
fn answer_all<F: Fn(Board) -> (Board, Result<(), NoMemory>)>(
    alloc: Global,
    settle: &F,
    reading: &Reading,
    cache: &mut Cache,
    kept: Vec<Kept>,
) -> Result<Vec<Vec<u8>>, NoMemory>
    requires can { (b : List SessionView) → CanSettle b → F.pre settle.now b }
    requires does { (b : List SessionView) (r : _) → F.post settle.now b r → Settles b r.0 }
    requires fit { All (IsFitKept (state_of reading.now)) kept.items }
    requires entries { AreEntries (state_of reading.now) cache.old.list }
    ensures finishes { IfOk result (λ lines. (replies : List ReplyView) × Finish cache.old.capacity reading.now.symbols kept.items cache.old.list cache.new.list replies
        × (texts_of lines.items ≡ map line_text replies)) }
    ensures entries { OnOk result (AreEntries (state_of reading.now) cache.new.list) }
    ensures capacity { cache.new.capacity ≡ cache.old.capacity }
{
    let _numbering = reading.symbols.mark();
    let mut board = Board::new(alloc)?;
    let looked = look_up_all(alloc, reading, cache, &mut board, kept)?;
    let (board, _) = settle(board);
    let lines = conclude_all(alloc, &reading.symbols, cache, &board, looked);
    drop(board);
    lines
}

/// Settles a board on this thread. Without memory sessions are left that are going.
pub fn settled_alone(alloc: Global, board: Board) -> (Board, Result<(), NoMemory>)
    requires { CanSettle board }
    ensures { Settles board result.0 }
{
    let mut board = board;
    let end = settle_alone(alloc, &mut board);
    (board, end)
}
