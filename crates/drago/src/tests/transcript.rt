use super::answers;
use std::alloc::{AllocError, Global};

/// Why a session went otherwise than its transcript.
#[derive(Debug, Drop)]
pub enum Failure {
    /// The first line that was given otherwise: a reply by its number in its session, from 1, or the status behind
    /// them. Sessions count from 0.
    Line { session: usize, number: usize },
    /// What was told of a row of a table, by its number from 0, is not what is wanted.
    Row { row: usize },
    /// Memory ran out.
    NoMemory,
}

impl From<AllocError> for Failure {
    fn from(_: AllocError) -> Failure {
        Failure::NoMemory
    }
}

/// Whether sessions go as their transcripts say, each to the status 0.
///
/// A line that begins with `> ` is a line of the input, and one that begins with `< ` is the reply that is wanted. A
/// line `---` ends a session, and others are remarks. In a line of the input or of the replies `~N*TEXT~` stands for N
/// copies of TEXT, in which `#` stands, at most once, for the number of the copy, from 0; `^N*TEXT^` does the same,
/// also within such a text.
pub fn follows(alloc: Global, transcripts: &str) -> Result<(), Failure> {
    let mut input = String::new(alloc);
    let mut wanted = String::new(alloc);
    sessions_follow(alloc, transcripts, &mut input, &mut wanted)
}

fn sessions_follow(
    alloc: Global,
    transcripts: &str,
    input: &mut String,
    wanted: &mut String,
) -> Result<(), Failure> {
    let mut session: usize = 0;
    for line in transcripts.lines() {
        if line == "---" {
            ends_as_wanted(alloc, session, input, wanted)?;
            session = session.saturating_add(1);
        } else {
            add_line(alloc, line, input, wanted)?;
        }
    }
    ends_as_wanted(alloc, session, input, wanted)
}

fn add_line(
    alloc: Global,
    line: &str,
    input: &mut String,
    wanted: &mut String,
) -> Result<(), AllocError> {
    if let Some(text) = line.strip_prefix("> ") {
        return add_whole(alloc, input, text);
    }
    if let Some(text) = line.strip_prefix("< ") {
        return add_whole(alloc, wanted, text);
    }
    Ok(())
}

/// Whether a session with this input is told as it is wanted, to the status 0. Leaves both texts empty.
fn ends_as_wanted(
    alloc: Global,
    session: usize,
    input: &mut String,
    wanted: &mut String,
) -> Result<(), Failure> {
    wanted.push_str("0")?;
    let told = answers(alloc, input.as_bytes(), 4096)?;
    let line = first_other_line(told.as_slice(), wanted.as_bytes());
    input.clear();
    wanted.clear();
    match line {
        Some(number) => Err(Failure::Line { session, number }),
        None => Ok(()),
    }
}

/// The number of the first line that is told otherwise, from 1.
fn first_other_line(told: &[u8], wanted: &[u8]) -> Option<usize> {
    let mut number: usize = 1;
    for at in 0..told.len() {
        if wanted.get(at) != Some(&told[at]) {
            return Some(number);
        }
        if told[at] == b'\n' {
            number = number.saturating_add(1);
        }
    }
    if told.len() == wanted.len() {
        None
    } else {
        Some(number)
    }
}

/// Adds a line with all its copies written out.
fn add_whole(alloc: Global, lines: &mut String, text: &str) -> Result<(), AllocError> {
    let mut inner = String::new(alloc);
    add_with_copies(&mut inner, text, '^')?;
    add_with_copies(lines, inner.as_str(), '~')?;
    lines.push_str("\n")
}

/// Adds a text with its copies written out, which stand between these marks.
fn add_with_copies(whole: &mut String, text: &str, mark: char) -> Result<(), AllocError> {
    for part in text.split(mark) {
        add_part(whole, part)?;
    }
    Ok(())
}

fn add_part(whole: &mut String, part: &str) -> Result<(), AllocError> {
    if let Some((count, text)) = part.split_once('*') {
        if let Ok(count) = count.parse() {
            return add_copies(whole, text, count);
        }
    }
    whole.push_str(part)
}

fn add_copies(whole: &mut String, text: &str, count: u32) -> Result<(), AllocError> {
    for number in 0..count {
        add_copy(whole, text, number)?;
    }
    Ok(())
}

fn add_copy(whole: &mut String, text: &str, number: u32) -> Result<(), AllocError> {
    match text.split_once('#') {
        Some((before, after)) => write!(whole, "{before}{number}{after}"),
        None => whole.push_str(text),
    }
}
