//! The words after the program's name.

use std::alloc::AllocError;
use std::env::{Env, FillError};
use std::{env, io};

/// The words after the program's name, and none where one of them is not UTF-8, since no command has such a word. It fails
/// where there is no memory for them.
pub fn words<R: Env + AllocGlobal>(rt: &R) -> Result<Vec<String>, AllocError> {
    match env::args(&(WithoutName { rt }, rt.alloc())) {
        Ok(words) => words.collect(rt.alloc()),
        Err(e) if e.kind() == io::ErrorKind::OutOfMemory => Err(AllocError),
        Err(_) => Ok(Vec::new(rt.alloc())),
    }
}

/// The arguments of a process without the first, its name. The library reads all arguments as texts, and the name may be none.
#[derive(Drop)]
struct WithoutName<'a, R> {
    rt: &'a R,
}

impl<R: Env> Env for WithoutName<'_, R> {
    fn arg(&self, i: usize, buf: &mut [u8]) -> Result<usize, FillError> {
        match i.checked_add(1) {
            Some(behind) => self.rt.arg(behind, buf),
            None => Err(FillError::NotPresent),
        }
    }

    fn var(&self, name: &str, buf: &mut [u8]) -> Result<usize, FillError> {
        self.rt.var(name, buf)
    }

    fn var_at(&self, i: usize, buf: &mut [u8]) -> Result<usize, FillError> {
        self.rt.var_at(i, buf)
    }
}
