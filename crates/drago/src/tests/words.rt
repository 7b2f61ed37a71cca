//! The words of the program, from arguments in memory.

use crate::words::words;
use std::alloc::AllocError;
use std::env::{Env, FillError};

/// The arguments of a process, the program's name first.
#[derive(Drop)]
struct Arguments {
    texts: &'static [&'static [u8]],
}

impl Env for Arguments {
    fn arg(&self, i: usize, buf: &mut [u8]) -> Result<usize, FillError> {
        let Some(text) = self.texts.get(i) else {
            return Err(FillError::NotPresent);
        };
        let Some(room) = buf.get_mut(..text.len()) else {
            return Err(FillError::TooLong);
        };
        room.copy_from_slice(text);
        Ok(text.len())
    }

    fn var(&self, _name: &str, _buf: &mut [u8]) -> Result<usize, FillError> {
        Err(FillError::NotPresent)
    }

    fn var_at(&self, _i: usize, _buf: &mut [u8]) -> Result<usize, FillError> {
        Err(FillError::NotPresent)
    }
}

/// How many words these arguments have.
fn counted(rt: &HostRuntime, texts: &'static [&'static [u8]]) -> Result<usize, AllocError> {
    Ok(words(&(Arguments { texts }, rt.alloc()))?.len())
}

#[test]
fn what_is_not_utf_8_is_no_word(rt: HostRuntime) {
    assert!(rt; counted(&rt, &[b"drago", b"alone", b"\xc3\xa4"]) == Ok(2));
    assert!(rt; counted(&rt, &[b"drago", b"alone", b"\xc3"]) == Ok(0));
    assert!(rt; counted(&rt, &[b"\xff", b"alone"]) == Ok(1));
}
