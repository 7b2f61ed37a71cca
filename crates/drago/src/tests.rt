ghost use Rattle.std.specs.Prelude.{◌≤◌};

use crate::alone::{USAGE, drago_alone};
use dd_lines::{MemSink, MemSource};
use std::alloc::{AllocError, Global};
use transcript::Failure;

mod asks;
mod certificates;
mod checks;
mod limits;
mod made;
mod refusals;
mod rows;
mod transcript;
mod words;

/// Three requests of 28, 67 and 48 bytes with their line feeds.
const REQUESTS: &str = r#"{"op":"peers","names":["a"]}
{"op":"put","peer":"a","axioms":["(implies A B)","(implies B C)"]}
{"op":"ask","peer":"a","left":"A","right":"C"}
"#;

/// Their replies, of 19, 31 and 475 bytes with their line feeds.
const REPLIES: &str = r#"{"id":1,"peers":1}
{"id":2,"put":"a","version":1}
{"cert":{"format":1,"kind":"yes","lines":[{"label":["C","(not C)"],"peer":0,"why":{"name":"C","rule":"clash"}},{"label":["B","(not B)"],"peer":0,"why":{"name":"B","rule":"clash"}},{"label":["B","(not C)"],"peer":0,"why":{"axiom":1,"left":1,"right":0,"rule":"axiom"}},{"label":["(not A)","A"],"peer":0,"why":{"name":"A","rule":"clash"}},{"label":["A","(not C)"],"peer":0,"why":{"axiom":0,"left":3,"right":2,"rule":"axiom"}}]},"from":"search","id":3,"pin":[1],"verdict":"yes"}
"#;

/// What is told of a source and a sink: what the sink was given by sessions one after another, each with its words, and
/// then the digits of their statuses.
fn told(
    alloc: Global,
    sessions: &[&[&str]],
    mut source: MemSource,
    mut sink: MemSink,
) -> Result<Vec<u8>, AllocError> {
    let statuses = statuses_of(alloc, sessions, &mut source, &mut sink)?;
    [sink.bytes(), statuses.as_slice()].concat(alloc)
}

fn statuses_of(
    alloc: Global,
    sessions: &[&[&str]],
    source: &mut MemSource,
    sink: &mut MemSink,
) -> Result<Vec<u8>, AllocError> {
    let mut statuses = Vec::new(alloc);
    for texts in sessions {
        add_status(alloc, texts, source, sink, &mut statuses)?;
    }
    Ok(statuses)
}

/// Adds the digit of the status of a session with these words.
fn add_status(
    alloc: Global,
    texts: &[&str],
    source: &mut MemSource,
    sink: &mut MemSink,
    statuses: &mut Vec<u8>,
) -> Result<(), AllocError> {
    let words = words_of(alloc, texts)?;
    let status = drago_alone(alloc, words.as_slice(), source, sink);
    statuses.push(b'0' + status.number())?;
    Ok(())
}

fn words_of(alloc: Global, texts: &[&str]) -> Result<Vec<String>, AllocError> {
    let mut words = Vec::new(alloc);
    for text in texts {
        add_word(alloc, text, &mut words)?;
    }
    Ok(words)
}

fn add_word(alloc: Global, text: &str, words: &mut Vec<String>) -> Result<(), AllocError> {
    words.push(String::from_str(alloc, text)?)?;
    Ok(())
}

/// A session with the right word.
const ALONE: &[&[&str]] = &[&["alone"]];

/// A session in which each request ends its window.
const ONE_BY_ONE: &[&[&str]] = &[&["alone", "--window=1"]];

/// A call that no session here makes, so that none fails.
const NEVER: u64 = u64::MAX;

/// What is told at ends that never fail, where a read brings at most `piece` bytes.
fn answers(alloc: Global, input: &[u8], piece: usize) -> Result<Vec<u8>, AllocError>
    requires { 1 ≤ piece }
{
    let source = source_of(alloc, input, piece, NEVER)?;
    let sink = sink_of(alloc, 65_536, 4096, NEVER)?;
    told(alloc, ALONE, source, sink)
}

/// A source of this input, of which a read brings at most `piece` bytes and this one fails, counted from 0.
fn source_of(alloc: Global, input: &[u8], piece: usize, fails: u64) -> Result<MemSource, AllocError>
    requires { 1 ≤ piece }
{
    let bytes = input.to_vec(alloc)?;
    Ok(MemSource::new(bytes, piece, [fails].to_vec(alloc)?))
}

/// A sink for this many bytes, of which a write takes at most `piece` and this one fails, counted from 0.
fn sink_of(alloc: Global, capacity: usize, piece: usize, fails: u64) -> Result<MemSink, AllocError>
    requires { 1 ≤ piece }
{
    MemSink::new(alloc, capacity, piece, [fails].to_vec(alloc)?)
}

/// An input and what is told at its end.
struct Run {
    input: &'static [u8],
    told: &'static str,
}

const RUNS: &[Run] = &[
    // An input without a request, by lines without a byte or with a carriage return alone.
    Run {
        input: b"",
        told: "0",
    },
    Run {
        input: b"\n\r\n\n",
        told: "0",
    },
    Run {
        input: b"\r",
        told: "0",
    },
    // Those lines have no number, and a last line needs no line feed.
    Run {
        input: b"\n{\"op\":\"peers\",\"names\":[\"a\"]}\r\n\r\n\nnull",
        told: "{\"id\":1,\"peers\":1}\n{\"code\":2,\"error\":\"bad_shape\",\"id\":2}\n0",
    },
    // Spaces, and two carriage returns, are requests.
    Run {
        input: b" \n\r\r",
        told: "{\"code\":1,\"error\":\"bad_json\",\"id\":1}\n{\"code\":1,\"error\":\"bad_json\",\"id\":2}\n0",
    },
    // What is not UTF-8 is no value.
    Run {
        input: b"\"\xff\"\n{\"op\":\"peers\",\"names\":[\"\xc3\"]}\n{\"op\":\"peers\",\"names\":[\"a\"]}",
        told: "{\"code\":1,\"error\":\"bad_json\",\"id\":1}\n{\"code\":1,\"error\":\"bad_json\",\"id\":2}\n{\"id\":3,\"peers\":1}\n0",
    },
];

fn runs_are_told(alloc: Global) -> Result<(), Failure> {
    for row in 0..RUNS.len() {
        run_is_told(alloc, row, 1)?;
        run_is_told(alloc, row, 4096)?;
    }
    Ok(())
}

fn run_is_told(alloc: Global, row: usize, piece: usize) -> Result<(), Failure>
    requires { 1 ≤ piece }
{
    if let Some(run) = RUNS.get(row) {
        let told = answers(alloc, run.input, piece)?;
        return is_wanted(row, told.as_slice(), Some(&[]), run.told);
    }
    Ok(())
}

/// Whether these are the bytes and a text behind them.
fn is_wanted(row: usize, told: &[u8], front: Option<&[u8]>, behind: &str) -> Result<(), Failure> {
    if let Some(front) = front {
        if told.strip_prefix(front) == Some(behind.as_bytes()) {
            return Ok(());
        }
    }
    Err(Failure::Row { row })
}

#[test]
fn each_line_with_a_byte_is_a_request(rt: HostRuntime) -> Result<(), Failure> {
    runs_are_told(rt.alloc())
}

/// The three requests, each a window of its own, read by 10 bytes and written by 16, at ends that fail. A row is: how many bytes there are to
/// read, the read that fails, counted from 0, the bytes that the sink holds, and the write that fails; then how many
/// bytes of the replies are given, and what is told behind them.
const CUTS: &[(usize, u64, usize, u64, usize, &str)] = &[
    // The input ends early.
    (0, NEVER, 4096, NEVER, 0, "0"),
    (
        27,
        NEVER,
        4096,
        NEVER,
        0,
        "{\"code\":1,\"error\":\"bad_json\",\"id\":1}\n0",
    ),
    (28, NEVER, 4096, NEVER, 19, "0"),
    (
        94,
        NEVER,
        4096,
        NEVER,
        19,
        "{\"code\":1,\"error\":\"bad_json\",\"id\":2}\n0",
    ),
    (95, NEVER, 4096, NEVER, 50, "0"),
    (143, NEVER, 4096, NEVER, 525, "0"),
    // A read fails.
    (143, 0, 4096, NEVER, 0, "3"),
    (143, 2, 4096, NEVER, 0, "3"),
    (143, 3, 4096, NEVER, 19, "3"),
    (143, 9, 4096, NEVER, 19, "3"),
    (143, 10, 4096, NEVER, 50, "3"),
    (143, 14, 4096, NEVER, 50, "3"),
    (143, 15, 4096, NEVER, 525, "3"),
    // A write fails, or the sink is full.
    (143, NEVER, 4096, 0, 0, "4"),
    (143, NEVER, 4096, 1, 16, "4"),
    (143, NEVER, 4096, 2, 19, "4"),
    (143, NEVER, 4096, 3, 35, "4"),
    (143, NEVER, 4096, 4, 50, "4"),
    (143, NEVER, 4096, 33, 514, "4"),
    (143, NEVER, 0, NEVER, 0, "4"),
    (143, NEVER, 20, NEVER, 20, "4"),
];

fn cuts_are_told(alloc: Global) -> Result<(), Failure> {
    for row in 0..CUTS.len() {
        cut_is_told(alloc, row)?;
    }
    Ok(())
}

fn cut_is_told(alloc: Global, row: usize) -> Result<(), Failure> {
    if let Some((input, read, capacity, write, given, behind)) = CUTS.get(row) {
        let told = breaks(alloc, *input, *read, *capacity, *write)?;
        return is_wanted(
            row,
            told.as_slice(),
            REPLIES.as_bytes().get(..*given),
            behind,
        );
    }
    Ok(())
}

/// What is told of the first bytes of the three requests at ends of which these calls fail.
fn breaks(
    alloc: Global,
    input: usize,
    read: u64,
    capacity: usize,
    write: u64,
) -> Result<Vec<u8>, AllocError> {
    let bytes = REQUESTS.as_bytes().get(..input).unwrap_or(&[]);
    let source = source_of(alloc, bytes, 10, read)?;
    let sink = sink_of(alloc, capacity, 16, write)?;
    told(alloc, ONE_BY_ONE, source, sink)
}

#[test]
fn what_was_given_before_an_end_stays(rt: HostRuntime) -> Result<(), Failure> {
    cuts_are_told(rt.alloc())
}

/// Words that are no command, and then the right word.
const OTHER_WORDS: &[&[&str]] = &[
    &["serve"],
    &["alone", "alone"],
    &["Alone"],
    &["alone "],
    &[""],
    &[],
    &["alone"],
];

/// What is told of the three requests by sessions with those words.
fn told_by_words(alloc: Global) -> Result<Vec<u8>, AllocError> {
    let source = source_of(alloc, REQUESTS.as_bytes(), 4096, NEVER)?;
    let sink = sink_of(alloc, 4096, 4096, NEVER)?;
    told(alloc, OTHER_WORDS, source, sink)
}

fn words_are_told(alloc: Global) -> Result<(), Failure> {
    let told = told_by_words(alloc)?;
    is_wanted(0, told.as_slice(), Some(REPLIES.as_bytes()), "2222220")
}

#[test]
fn other_words_read_and_write_nothing(rt: HostRuntime) -> Result<(), Failure> {
    assert!(rt; USAGE == b"usage: drago serve|alone|make|drill [options]\n".as_slice());
    words_are_told(rt.alloc())
}
