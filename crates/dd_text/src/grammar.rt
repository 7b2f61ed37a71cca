ghost use Rattle.std.specs.Prelude.{◌≡◌, ◌∷◌, ◌++◌, [], Some, None, IfOk, OnOk, OnErr, MatchOption, length, ◌<◌, ◌^◌, MatchBool, is_some};
ghost use Rattle.dd_text.specs.Names.{begins_with_letter};
ghost use Rattle.dd_text.specs.Automaton.{Scans, Steps, after, after_keyword, continues, continues_keyword, extends, finished, is_leaf, is_whole, leaf_sign, role_sign, role_step, start, step, step_in, with_byte, with_form, with_leaf};
ghost use Rattle.dd_text.specs.declared.grammar.Mode.TheVariants as mode;

use crate::names::{ALL, AND, BOTTOM, NOT, OR, SOME, TOP, is_name, is_name_byte, is_word};
use dd_concept::{Items, NoMemory};
use std::alloc::Global;
use std::marker::Model;
use std::mem;

/// What the next byte belongs to.
#[derive(Clone, Copy)]
pub enum Mode {
    /// A concept begins.
    Concept,
    /// A name, `top` or `bottom`.
    Word,
    /// The word of a form.
    Keyword,
    /// The role of a `some`.
    SomeRole,
    /// The role of an `all`.
    AllRole,
    /// A concept has ended.
    Done,
}

/// What comes after a concept within a form: another part, or the bracket.
#[derive(Clone, Copy)]
pub enum Frame {
    First,
    Last,
}

/// A node of a concept, without its parts.
#[derive(Drop)]
pub enum Sign {
    Top,
    Bottom,
    Name(Items<u8>),
    Not,
    And,
    Or,
    HasSome(Items<u8>),
    HasAll(Items<u8>),
}

/// The forms round a place, the innermost first.
#[derive(Drop)]
pub struct Stack {
    frames: Vec<Frame>,
}

impl Model for Stack {
    ghost use Rattle.std.specs.Prelude.{List, reverse};
    ghost use Rattle.dd_text.specs.declared.grammar.Frame.{Frame};

    ghost Value = { List Frame };

    ghost view = { λ s. reverse s.frames.items };
}

impl Stack {
    fn new(alloc: Global) -> Stack
        ensures { result ≡ [] }
    {
        Stack {
            frames: Vec::new(alloc),
        }
    }

    fn len(&self) -> usize
        ensures value { result ≡ length self.now }
        ensures small { result < 2 ^ 63 }
    {
        self.frames.len()
    }

    fn push(&mut self, frame: Frame) -> Result<(), NoMemory>
        ensures { OnOk result (self.new ≡ frame ∷ self.old) }
    {
        self.frames.push(frame)?;
        Ok(())
    }

    fn pop(&mut self) -> Option<Frame>
        ensures { MatchOption result ((self.old ≡ []) × (self.new ≡ [])) (λ frame. self.old ≡ frame ∷ self.new) }
    {
        self.frames.pop()
    }
}

/// The state of the reader between two bytes.
#[derive(Drop)]
pub struct Scan {
    pub mode: Mode,
    pub word: Items<u8>,
    pub stack: Stack,
    pub signs: Items<Sign>,
    pub depth: usize,
}

/// How far a text could be read.
#[derive(Drop)]
pub struct Scanned {
    /// The number of bytes that fit.
    pub read: usize,
    /// Whether these bytes are a concept.
    pub whole: bool,
    /// Its nodes, in the order of the text.
    pub signs: Items<Sign>,
    /// Its depth.
    pub depth: usize,
}

fn goes_on(keyword: &[u8], word: &[u8], byte: u8) -> bool
    ensures { result ≡ continues keyword.now word.now byte }
{
    word.len() < keyword.len() && keyword.starts_with(word) && keyword[word.len()] == byte
}

fn begins_as_name_with(word: &[u8], byte: u8) -> bool
    ensures { result ≡ begins_with_letter (word.now ++ byte ∷ []) }
{
    match word {
        [] => byte.is_ascii_alphabetic(),
        [first, ..] => first.is_ascii_alphabetic(),
    }
}

fn may_extend(word: &[u8], byte: u8) -> bool
    ensures { result ≡ extends word.now byte }
{
    is_name_byte(byte) && word.len() < 64 && begins_as_name_with(word, byte)
}

fn may_extend_keyword(word: &[u8], byte: u8) -> bool
    ensures { result ≡ continues_keyword word.now byte }
{
    goes_on(NOT, word, byte)
        || goes_on(AND, word, byte)
        || goes_on(OR, word, byte)
        || goes_on(SOME, word, byte)
        || goes_on(ALL, word, byte)
}

fn is_concept_word(word: &[u8]) -> bool
    ensures { result ≡ is_leaf word.now }
{
    is_word(word, TOP) || is_word(word, BOTTOM) || is_name(word)
}

fn sign_of_word(word: Items<u8>) -> Sign
    ensures { result ≡ leaf_sign word }
{
    if is_word(word.as_slice(), TOP) {
        return Sign::Top;
    }
    if is_word(word.as_slice(), BOTTOM) {
        return Sign::Bottom;
    }
    Sign::Name(word)
}

impl Scan {
    fn new(alloc: Global) -> Scan
        ensures { result ≡ start }
    {
        Scan {
            mode: Mode::Concept,
            word: Items::new(alloc),
            stack: Stack::new(alloc),
            signs: Items::new(alloc),
            depth: 0,
        }
    }

    fn end_leaf(&mut self, alloc: Global) -> Result<(), NoMemory>
        ensures { OnOk result (self.new ≡ with_leaf self.old) }
    {
        let word = mem::replace(&mut self.word, Items::new(alloc));
        self.signs.push(sign_of_word(word))?;
        self.depth = self.depth.max(self.stack.len() + 1);
        self.mode = Mode::Done;
        Ok(())
    }

    fn begin_form(&mut self, alloc: Global, sign: Sign, frame: Frame) -> Result<(), NoMemory>
        ensures { OnOk result (self.new ≡ with_form self.old sign frame) }
    {
        self.signs.push(sign)?;
        self.stack.push(frame)?;
        self.word = Items::new(alloc);
        self.mode = Mode::Concept;
        Ok(())
    }

    // The byte belongs to the word.
    fn add_byte(&mut self, byte: u8) -> Result<(), NoMemory>
        ensures { OnOk result (self.new ≡ with_byte self.old byte) }
    {
        self.word.push(byte)?;
        Ok(())
    }

    // After a concept that ended.
    fn go_on(&mut self, byte: u8) -> Result<bool, NoMemory>
        ensures { IfOk result (Steps (after self.old self.old.stack byte) self.old self.new) }
    {
        let Some(frame) = self.stack.pop() else {
            return Ok(false);
        };
        match frame {
            Frame::First => {
                if byte == b' ' {
                    self.stack.push(Frame::Last)?;
                    self.mode = Mode::Concept;
                    return Ok(true);
                }
                self.stack.push(frame)?;
                return Ok(false);
            }
            Frame::Last => {
                if byte == b')' {
                    return Ok(true);
                }
                self.stack.push(frame)?;
                return Ok(false);
            }
        }
    }

    // After the word of a form.
    fn end_keyword(&mut self, alloc: Global) -> Result<bool, NoMemory>
        ensures { IfOk result (Steps (after_keyword self.old) self.old self.new) }
    {
        let word = self.word.as_slice();
        if is_word(word, NOT) {
            self.begin_form(alloc, Sign::Not, Frame::Last)?;
            return Ok(true);
        }
        if is_word(word, AND) {
            self.begin_form(alloc, Sign::And, Frame::First)?;
            return Ok(true);
        }
        if is_word(word, OR) {
            self.begin_form(alloc, Sign::Or, Frame::First)?;
            return Ok(true);
        }
        if is_word(word, SOME) {
            self.begin_role(alloc, Mode::SomeRole);
            return Ok(true);
        }
        if is_word(word, ALL) {
            self.begin_role(alloc, Mode::AllRole);
            return Ok(true);
        }
        Ok(false)
    }

    fn begin_role(&mut self, alloc: Global, mode: Mode)
        ensures { self.new ≡ record self.old { mode = mode; word = [] } }
    {
        self.mode = mode;
        self.word = Items::new(alloc);
    }

    fn step_concept(&mut self, byte: u8) -> Result<bool, NoMemory>
        ensures { IfOk result (Steps (step_in mode.Concept self.old byte) self.old self.new) }
    {
        if byte == b'(' {
            self.mode = Mode::Keyword;
            return Ok(true);
        }
        if may_extend(self.word.as_slice(), byte) {
            self.add_byte(byte)?;
            self.mode = Mode::Word;
            return Ok(true);
        }
        Ok(false)
    }

    fn step_word(&mut self, alloc: Global, byte: u8) -> Result<bool, NoMemory>
        requires { self.old.mode ≡ mode.Word }
        ensures { IfOk result (Steps (step_in mode.Word self.old byte) self.old self.new) }
    {
        if may_extend(self.word.as_slice(), byte) {
            self.add_byte(byte)?;
            return Ok(true);
        }
        if !is_concept_word(self.word.as_slice()) {
            return Ok(false);
        }
        self.end_leaf(alloc)?;
        self.go_on(byte)
    }

    fn step_keyword(&mut self, alloc: Global, byte: u8) -> Result<bool, NoMemory>
        ensures { IfOk result (Steps (step_in mode.Keyword self.old byte) self.old self.new) }
    {
        if byte == b' ' {
            return self.end_keyword(alloc);
        }
        if !may_extend_keyword(self.word.as_slice(), byte) {
            return Ok(false);
        }
        self.add_byte(byte)?;
        Ok(true)
    }

    fn step_role(&mut self, alloc: Global, byte: u8) -> Result<bool, NoMemory>
        ensures { IfOk result (Steps (role_step self.old byte) self.old self.new) }
    {
        if may_extend(self.word.as_slice(), byte) {
            self.add_byte(byte)?;
            return Ok(true);
        }
        if byte != b' ' {
            return Ok(false);
        }
        if !is_name(self.word.as_slice()) {
            return Ok(false);
        }
        let role = mem::replace(&mut self.word, Items::new(alloc));
        let sign = sign_of_role(self.mode, role);
        self.begin_form(alloc, sign, Frame::Last)?;
        Ok(true)
    }

    /// Whether the byte fits. The state is then the one after it.
    fn step(&mut self, alloc: Global, byte: u8) -> Result<bool, NoMemory>
        ensures { IfOk result (Steps (step self.old byte) self.old self.new) }
    {
        match self.mode {
            Mode::Concept => self.step_concept(byte),
            Mode::Word => self.step_word(alloc, byte),
            Mode::Keyword => self.step_keyword(alloc, byte),
            Mode::SomeRole => self.step_role(alloc, byte),
            Mode::AllRole => self.step_role(alloc, byte),
            Mode::Done => self.go_on(byte),
        }
    }

    fn finish(&mut self, alloc: Global) -> Result<(), NoMemory>
        ensures { OnOk result (self.new ≡ finished self.old) }
    {
        match self.mode {
            Mode::Word => {
                if is_concept_word(self.word.as_slice()) {
                    self.end_leaf(alloc)?;
                }
                Ok(())
            }
            _ => Ok(()),
        }
    }

    fn is_whole(&self) -> bool
        ensures { result ≡ is_whole self.now }
    {
        match self.mode {
            Mode::Done => self.stack.len() == 0,
            _ => false,
        }
    }

    fn scanned(self, alloc: Global, read: usize) -> Result<Scanned, NoMemory>
        ensures read { IfOk result (λ r. r.read ≡ read) }
        ensures whole { IfOk result (λ r. r.whole ≡ is_whole (finished self)) }
        ensures signs { IfOk result (λ r. r.signs ≡ (finished self).signs) }
        ensures depth { IfOk result (λ r. r.depth ≡ (finished self).depth) }
    {
        let mut scan = self;
        scan.finish(alloc)?;
        let whole = scan.is_whole();
        let Scan { signs, depth, .. } = scan;
        Ok(Scanned {
            read,
            whole,
            signs,
            depth,
        })
    }
}

fn sign_of_role(mode: Mode, role: Items<u8>) -> Sign
    ensures { result ≡ role_sign mode role }
{
    match mode {
        Mode::AllRole => Sign::HasAll(role),
        _ => Sign::HasSome(role),
    }
}

/// Reads a concept from the front of the text, as far as its bytes fit.
pub fn scan_concept(alloc: Global, text: &[u8]) -> Result<Scanned, NoMemory>
    ensures { IfOk result (Scans text.now) }
{
    let mut scan = Scan::new(alloc);
    for (read, byte) in text.iter().enumerate() {
        if !scan.step(alloc, *byte)? {
            return scan.scanned(alloc, read);
        }
    }
    scan.scanned(alloc, text.len())
}
