ghost use Rattle.std.specs.Prelude.{◌≤◌, ⊤};

use crate::rows::{Failure, Row, check, check_one};
use dd_concept::NoMemory;
use dd_lines::{
    LineReader, LineStep, MemSource, ReadErr, Sink, Source, StdSink, StdSource, write_whole,
};
use std::alloc::Global;

/// An input, and what the first four calls of a reader answer: a line, or a sign. The longest line has four bytes, and the
/// whole input eight.
struct Cut {
    input: &'static [u8],
    answers: [&'static [u8]; 4],
}

impl Row for Cut {
    ghost answers = { λ row yes. ⊤ };

    fn is_right(&self, alloc: Global) -> Result<bool, NoMemory> {
        Ok(is_cut(alloc, self, 1)? && is_cut(alloc, self, 3)? && is_cut(alloc, self, 100)?)
    }
}

fn is_cut(alloc: Global, cut: &Cut, piece: usize) -> Result<bool, NoMemory>
    requires { 1 ≤ piece }
{
    let bytes = cut.input.to_vec(alloc)?;
    let mut source = MemSource::new(bytes, piece, Vec::new(alloc));
    let is_cut = answers(alloc, &mut source, cut.answers.as_slice());
    drop(source);
    is_cut
}

fn answers<S: Source>(alloc: Global, source: &mut S, wanted: &[&[u8]]) -> Result<bool, NoMemory> {
    let mut reader = LineReader::new(alloc, 4, 8)?;
    for answer in wanted {
        if !is_next(alloc, &mut reader, source, answer) {
            return Ok(false);
        }
    }
    Ok(true)
}

fn is_next<S: Source>(
    alloc: Global,
    reader: &mut LineReader,
    source: &mut S,
    wanted: &[u8],
) -> bool {
    let step = reader.next_line(alloc, source);
    let is_next = shown(&step) == wanted;
    drop(step);
    is_next
}

fn shown(step: &Result<LineStep, ReadErr>) -> &[u8] {
    match step {
        Ok(LineStep::Line(line)) => line.as_slice(),
        Ok(LineStep::TooLong) => b">",
        Ok(LineStep::End) => b".",
        Err(ReadErr::TooMuch) => b"+",
        Err(_) => b"?",
    }
}

const CUTS: &[Cut] = &[
    Cut {
        input: b"abcd\nef\n",
        answers: [b"abcd", b"ef", b".", b"."],
    },
    Cut {
        input: b"abcd\nef\nx",
        answers: [b"abcd", b"ef", b"+", b"+"],
    },
    Cut {
        input: b"abcde\nf",
        answers: [b">", b"f", b".", b"."],
    },
    Cut {
        input: b"abcdefg",
        answers: [b">", b".", b".", b"."],
    },
    Cut {
        input: b"",
        answers: [b".", b".", b".", b"."],
    },
    Cut {
        input: b"\n",
        answers: [b"", b".", b".", b"."],
    },
    Cut {
        input: b"ab",
        answers: [b"ab", b".", b".", b"."],
    },
];

#[test]
fn lines_are_cut_however_they_are_read(rt: HostRuntime) -> Result<(), Failure> {
    check(rt.alloc(), CUTS)
}

fn reads_of_std(alloc: Global) -> Result<bool, NoMemory> {
    let mut source = StdSource::new(&b"ab\n\ncd"[..]);
    answers(alloc, &mut source, &[b"ab", b"", b"cd", b"."])
}

#[test]
fn readers_of_std_serve(rt: HostRuntime) -> Result<(), Failure> {
    check_one(reads_of_std(rt.alloc()))
}

fn writes_to_std(alloc: Global) -> bool {
    let mut written = Vec::new(alloc);
    let mut sink = StdSink::new(&mut written);
    let is_given = write_whole(&mut sink, b"abc").is_ok() && sink.faults() == 0;
    drop(sink);
    let is_written = written.as_slice() == b"abc".as_slice();
    drop(written);
    is_given && is_written
}

#[test]
fn writers_of_std_serve(rt: HostRuntime) -> Result<(), Failure> {
    check_one(Ok(writes_to_std(rt.alloc())))
}
