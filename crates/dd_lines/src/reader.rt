ghost use Rattle.std.specs.Prelude.{◌≡◌, ℕ, ◌+◌, ◌-◌, ◌<◌, ◌≤◌, ◌++◌, ◌⊎◌, true, false, Some, None, List, [], ◌==◌, position, length, take, drop, MatchOption, IfOk, IfErr, IfSome, IsTrue, ◌↔◌, OnOk, OnErr};
ghost use Rattle.dd_lines.specs.Lines.{has_feed};
ghost use Rattle.dd_lines.specs.NextLine.{KeepsLimits, Next, Over, Uses, Stops, StandsFor, IsGoing};
ghost use Rattle.dd_lines.specs.Outside.{Rose, Takes};
ghost use Rattle.dd_lines.specs.Reading.{room, ahead};
ghost use Rattle.dd_lines.specs.Parts.{Fills, Gathers, HandsOn, HandsLast, IsAnswer, CanGoOn, IsFeedAt};

use crate::outside::{Failed, Source};
use std::alloc::{AllocError, Global};
use std::marker::Model;

/// The byte that ends a line.
const LINE_FEED: u8 = 10;

/// How many bytes a buffer has beyond the longest line, so that reads are not short where lines are.
const READ_AHEAD: usize = 8192;

/// The next line of a reader.
#[derive(Drop)]
pub enum LineStep {
    /// The bytes of a line, without its line feed.
    Line(Vec<u8>),
    /// A line longer than the reader's limit, which was dropped.
    TooLong,
    /// The input has no further line.
    End,
}

/// Why a reader answers no line.
#[derive(Debug, Drop)]
pub enum ReadErr {
    /// The source failed in this call.
    ReadFault,
    /// The source failed in an earlier call, and its count of faults was this one then.
    Failed { faults: u64 },
    /// The next line does not end within the limit of bytes. It is answered from then on.
    TooMuch,
    /// There was no memory for the line. The next call answers it.
    NoMemory,
}

/// What one read of the source brought.
#[derive(Clone, Copy)]
enum Fill {
    /// Bytes, which are held.
    More,
    /// The end of the input.
    Ended,
    /// A byte past the limit of bytes.
    Over,
    /// A fault.
    Broken,
}

/// Where the search for the end of a line stopped.
#[derive(Clone, Copy)]
enum Stop {
    /// At a line feed, behind so many of the held bytes.
    Feed(usize),
    /// At more bytes than a line may have.
    Long,
    /// At the end of the input.
    Ended,
    /// At a byte past the limit of bytes.
    Over,
    /// At a fault of the source.
    Broken,
}

/// Cuts the bytes of a source into lines.
///
/// A line is the bytes up to a line feed, without it; the last line may lack the line feed where it has at least one
/// byte. Each byte is searched once, however the source cuts the bytes into reads.
#[derive(Drop)]
pub struct LineReader {
    buffer: Vec<u8>,
    start: usize,
    end: usize,
    taken: u128,
    too_much: bool,
    failed: Option<u64>,
    max_line: usize,
    max_bytes: u64,
}

impl Model for LineReader {
    ghost use Rattle.std.specs.Prelude.{◌≡◌, ◌+◌, ◌<◌, ◌≤◌, true, false, None, take, drop, vec_len};
    ghost use Rattle.dd_lines.specs.Reading.{Reading};

    ghost Value = { Reading };

    ghost view = { λ r. record { held = drop r.start (take r.end r.buffer.items); taken = r.taken; too_much = r.too_much; failed = r.failed; max_line = r.max_line; max_bytes = r.max_bytes } };

    ghost invariant = { λ r. record { ordered : r.start ≤ r.end; within : r.end ≤ vec_len r.buffer; spare : r.max_line < vec_len r.buffer; counted : r.taken ≤ r.max_bytes + 1; going : r.too_much ≡ false → r.taken ≤ r.max_bytes; apart : r.too_much ≡ true → r.failed ≡ None } };
}

impl LineReader {
    /// A reader that has taken nothing yet. A line of more than `max_line` bytes is too long, and bytes past `max_bytes`
    /// in all are too much. Takes all the memory that reading needs; only the lines that are handed on take more.
    pub fn new(alloc: Global, max_line: usize, max_bytes: u64) -> Result<LineReader, AllocError>
        requires some { 1 ≤ max_line }
        requires fits { max_line ≤ 1048576 }
        ensures held { IfOk result (λ r. r.held ≡ []) }
        ensures taken { IfOk result (λ r. r.taken ≡ 0) }
        ensures going { IfOk result IsGoing }
        ensures max_line { IfOk result (λ r. r.max_line ≡ max_line) }
        ensures max_bytes { IfOk result (λ r. r.max_bytes ≡ max_bytes) }
    {
        let buffer = vec![in alloc; 0; max_line + READ_AHEAD]?;
        Ok(LineReader {
            buffer,
            start: 0,
            end: 0,
            taken: 0,
            too_much: false,
            failed: None,
            max_line,
            max_bytes,
        })
    }

    /// The next line of the source.
    ///
    /// The limit of bytes counts all lines with their line feeds: a line that ends past it is too much. A line that is too
    /// long is dropped as it comes. After too much each further call answers `TooMuch`, and after a fault `Failed`.
    pub fn next_line<S: Source>(
        &mut self,
        alloc: Global,
        source: &mut S,
    ) -> Result<LineStep, ReadErr>
        ensures next { IfOk result (λ step. IfSome (ahead self.old (S.left source.old)) (λ all. (rest : List ℕ) × (ahead self.new (S.left source.new) ≡ Some rest) × Next self.old.max_line step all rest (room self.old) (room self.new))) }
        ensures within { IfOk result (λ step. IfSome (ahead self.old (S.left source.old)) (λ all. ¬ (Over (room self.old) all))) }
        ensures uses { IfOk result (λ step. Uses step (room self.old) (room self.new)) }
        ensures going { OnOk result (IsGoing self.old × IsGoing self.new) }
        ensures stops { IfErr result (λ e. Stops e self.old (S.left source.old) self.new (S.left source.new) (S.fault_count source.old) (S.fault_count source.new)) }
        ensures too_much { self.old.too_much ≡ true → (result ≡ Err ReadErr.TooMuch) × (self.new ≡ self.old) × (source.new ≡ source.old) }
        ensures failed { (f : ℕ) → self.old.failed ≡ Some f → (result ≡ Err (ReadErr.Failed f)) × (self.new ≡ self.old) × (source.new ≡ source.old) }
        ensures limits { KeepsLimits self.old self.new }
        ensures counts { S.fault_count source.old ≤ S.fault_count source.new }
    {
        if self.too_much {
            return Err(ReadErr::TooMuch);
        }
        if let Some(faults) = self.failed {
            return Err(ReadErr::Failed { faults });
        }
        self.read_line(alloc, source)
    }

    /// The next line, where neither too much nor a fault was met before.
    fn read_line<S: Source>(&mut self, alloc: Global, source: &mut S) -> Result<LineStep, ReadErr>
        requires { CanGoOn self.old }
        ensures answer { IfOk result (λ step. IsAnswer step self.old.max_line (ahead self.old (S.left source.old)) (ahead self.new (S.left source.new)) (room self.old) (room self.new)) }
        ensures going { OnOk result (IsGoing self.new) }
        ensures stops { IfErr result (λ e. Stops e self.old (S.left source.old) self.new (S.left source.new) (S.fault_count source.old) (S.fault_count source.new)) }
        ensures limits { KeepsLimits self.old self.new }
        ensures counts { S.fault_count source.old ≤ S.fault_count source.new }
    {
        match self.gather(source) {
            Stop::Feed(size) => return self.hand_on(alloc, size),
            Stop::Long => return self.skip(source),
            Stop::Ended => return self.last(alloc),
            Stop::Over => return Err(ReadErr::TooMuch),
            Stop::Broken => return Err(ReadErr::ReadFault),
        }
    }

    /// Searches and reads until the line ends or is too long, or no more can be read.
    fn gather<S: Source>(&mut self, source: &mut S) -> Stop
        requires { CanGoOn self.old }
        ensures stop { Gathers result self.old (S.left source.old) self.new (S.left source.new) (S.fault_count source.old) (S.fault_count source.new) }
        ensures counts { S.fault_count source.old ≤ S.fault_count source.new }
    {
        let mut searched = 0;
        loop {
            if let Some(size) = self.feed_from(searched) {
                return Stop::Feed(size);
            }
            searched = self.held_len();
            if self.is_long() {
                return Stop::Long;
            }
            match self.more(source) {
                Fill::More => {}
                Fill::Ended => return Stop::Ended,
                Fill::Over => return Stop::Over,
                Fill::Broken => return Stop::Broken,
            }
        }
    }

    /// Drops the rest of a line that is too long, up to its line feed.
    fn skip<S: Source>(&mut self, source: &mut S) -> Result<LineStep, ReadErr>
        requires can { CanGoOn self.old }
        requires no_feed { has_feed self.old.held ≡ false }
        requires long { self.old.max_line < length self.old.held }
        ensures answer { IfOk result (λ step. IsAnswer step self.old.max_line (ahead self.old (S.left source.old)) (ahead self.new (S.left source.new)) (room self.old) (room self.new)) }
        ensures going { OnOk result (IsGoing self.new) }
        ensures stops { IfErr result (λ e. Stops e self.old (S.left source.old) self.new (S.left source.new) (S.fault_count source.old) (S.fault_count source.new)) }
        ensures limits { KeepsLimits self.old self.new }
        ensures counts { S.fault_count source.old ≤ S.fault_count source.new }
    {
        loop {
            self.clear();
            match self.more(source) {
                Fill::More => {}
                Fill::Ended => return Ok(LineStep::TooLong),
                Fill::Over => return Err(ReadErr::TooMuch),
                Fill::Broken => return Err(ReadErr::ReadFault),
            }
            if let Some(size) = self.feed_from(0) {
                self.pass(size);
                return Ok(LineStep::TooLong);
            }
        }
    }

    /// Hands on the line of so many held bytes, and drops it with its line feed.
    fn hand_on(&mut self, alloc: Global, size: usize) -> Result<LineStep, ReadErr>
        requires { IsFeedAt size self.old.held }
        ensures line { IfOk result (λ step. HandsOn step self.old self.new) }
        ensures memory { IfErr result (λ e. (e ≡ ReadErr.NoMemory) × (self.new ≡ self.old)) }
    {
        let Ok(step) = self.line(alloc, size) else {
            return Err(ReadErr::NoMemory);
        };
        self.pass(size);
        Ok(step)
    }

    /// Hands on the held bytes as the last line, if there are any.
    fn last(&mut self, alloc: Global) -> Result<LineStep, ReadErr>
        ensures line { IfOk result (λ step. HandsLast step self.old self.new) }
        ensures memory { IfErr result (λ e. (e ≡ ReadErr.NoMemory) × (self.new ≡ self.old)) }
    {
        let size = self.held_len();
        if size == 0 {
            return Ok(LineStep::End);
        }
        let Ok(step) = self.line(alloc, size) else {
            return Err(ReadErr::NoMemory);
        };
        self.clear();
        Ok(step)
    }

    /// The line of the first bytes that are held.
    fn line(&self, alloc: Global, size: usize) -> Result<LineStep, AllocError>
        requires { size ≤ length self.now.held }
        ensures { IfOk result (λ step. StandsFor self.now.max_line step (take size self.now.held)) }
    {
        if size > self.max_line {
            return Ok(LineStep::TooLong);
        }
        let bytes = Vec::from_slice(alloc, &self.held()[..size])?;
        Ok(LineStep::Line(bytes))
    }

    fn held(&self) -> &[u8]
        ensures { result.now ≡ self.now.held }
    {
        &self.buffer[self.start..self.end]
    }

    fn held_len(&self) -> usize
        ensures { result ≡ length self.now.held }
    {
        self.end - self.start
    }

    /// Whether the held bytes are too many for a line.
    fn is_long(&self) -> bool
        ensures { IsTrue result ↔ (self.now.max_line < length self.now.held) }
    {
        self.max_line < self.held_len()
    }

    /// The place of the first line feed among the held bytes, of which the first ones have none.
    fn feed_from(&self, searched: usize) -> Option<usize>
        requires within { searched ≤ length self.now.held }
        requires none { has_feed (take searched self.now.held) ≡ false }
        ensures { MatchOption result (has_feed self.now.held ≡ false) (λ n. IsFeedAt n self.now.held) }
    {
        find_feed(self.held(), searched)
    }

    /// Drops so many of the held bytes, and the one behind them.
    fn pass(&mut self, size: usize)
        requires { size < length self.old.held }
        ensures { self.new ≡ record self.old { held = drop (size + 1) self.old.held } }
    {
        self.start = self.start + size + 1;
    }

    /// Drops all the held bytes.
    fn clear(&mut self)
        ensures { self.new ≡ record self.old { held = [] } }
    {
        self.start = 0;
        self.end = 0;
    }

    /// Reads once.
    fn more<S: Source>(&mut self, source: &mut S) -> Fill
        requires fits { length self.old.held ≤ self.old.max_line }
        requires can { CanGoOn self.old }
        ensures fills { Fills result self.old (S.left source.old) self.new (S.left source.new) (S.fault_count source.old) (S.fault_count source.new) }
        ensures counts { S.fault_count source.old ≤ S.fault_count source.new }
    {
        if self.taken < self.max_bytes as u128 {
            self.read(source)
        } else {
            self.probe(source)
        }
    }

    /// Reads within the limit of bytes.
    fn read<S: Source>(&mut self, source: &mut S) -> Fill
        requires fits { length self.old.held ≤ self.old.max_line }
        requires can { CanGoOn self.old }
        requires some { self.old.taken < self.old.max_bytes }
        ensures fills { Fills result self.old (S.left source.old) self.new (S.left source.new) (S.fault_count source.old) (S.fault_count source.new) }
        ensures counts { S.fault_count source.old ≤ S.fault_count source.new }
    {
        let held = self.end - self.start;
        self.start = make_room(&mut self.buffer, self.start, self.end);
        self.end = self.start + held;
        let space = (self.buffer.len() - self.end) as u128;
        let wanted = space.min(self.max_bytes as u128 - self.taken) as usize;
        match take_into(source, &mut self.buffer, self.end, wanted) {
            Ok(0) => Fill::Ended,
            Ok(taken) => {
                self.end += taken;
                self.taken += taken as u128;
                Fill::More
            }
            Err(_) => {
                self.failed = Some(source.faults());
                Fill::Broken
            }
        }
    }

    /// Tells the end of the input from a byte past the limit of bytes.
    fn probe<S: Source>(&mut self, source: &mut S) -> Fill
        requires can { CanGoOn self.old }
        requires none { self.old.taken ≡ self.old.max_bytes }
        ensures fills { Fills result self.old (S.left source.old) self.new (S.left source.new) (S.fault_count source.old) (S.fault_count source.new) }
        ensures counts { S.fault_count source.old ≤ S.fault_count source.new }
    {
        let mut room = [0u8; 1];
        match source.take(&mut room) {
            Ok(0) => Fill::Ended,
            Ok(_) => {
                self.taken += 1;
                self.too_much = true;
                Fill::Over
            }
            Err(_) => {
                self.failed = Some(source.faults());
                Fill::Broken
            }
        }
    }
}

/// The place of the first line feed, where the first `searched` bytes have none.
fn find_feed(bytes: &[u8], searched: usize) -> Option<usize>
    requires within { searched ≤ length bytes.now }
    requires none { has_feed (take searched bytes.now) ≡ false }
    ensures { MatchOption result (has_feed bytes.now ≡ false) (λ n. IsFeedAt n bytes.now) }
{
    match first_feed(&bytes[searched..]) {
        Some(found) => Some(searched + found),
        None => None,
    }
}

/// The place of the first line feed.
fn first_feed(bytes: &[u8]) -> Option<usize>
    ensures { result ≡ position (λ b. b == 10) bytes.now }
{
    bytes.iter().position(|b| *b == LINE_FEED)
}

/// Moves the bytes from `start` to `end` to the front, where none fits behind them. Says where they start then.
fn make_room(buffer: &mut [u8], start: usize, end: usize) -> usize
    requires ordered { start ≤ end }
    requires within { end ≤ length buffer.old }
    requires room { end - start < length buffer.old }
    ensures room { result + (end - start) < length buffer.new }
    ensures held { drop result (take (result + (end - start)) buffer.new) ≡ drop start (take end buffer.old) }
{
    if end < buffer.len() {
        return start;
    }
    buffer.copy_within(start..end, 0);
    0
}

/// Takes at most `wanted` bytes from the source, into the buffer behind `end`.
fn take_into<S: Source>(
    source: &mut S,
    buffer: &mut [u8],
    end: usize,
    wanted: usize,
) -> Result<usize, Failed>
    requires some { 0 < wanted }
    requires within { end + wanted ≤ length buffer.old }
    ensures bound { IfOk result (λ n. n ≤ wanted) }
    ensures bytes { IfOk result (λ n. Takes (S.left source.old) (S.left source.new) n (drop end buffer.new)) }
    ensures kept { take end buffer.new ≡ take end buffer.old }
    ensures same { OnErr result (S.left source.new ≡ S.left source.old) }
    ensures failed { OnErr result (Rose (S.fault_count source.old) (S.fault_count source.new)) }
    ensures counts { S.fault_count source.old ≤ S.fault_count source.new }
{
    source.take(&mut buffer[end..end + wanted])
}
