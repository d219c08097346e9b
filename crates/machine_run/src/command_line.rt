//! The words of the command line.
use std::env::{self, Env};
use std::io;

/// The words after the program's name. If a word isn't UTF-8, the list is empty, which is no command either.
pub fn words_of<R: Env + AllocGlobal>(rt: &R) -> io::Result<Vec<String>> {
    match env::args(rt) {
        Ok(args) => Ok(args.skip(1).collect(rt.alloc())?),
        Err(e) if e.kind() == io::ErrorKind::InvalidData => Ok(Vec::new(rt.alloc())),
        Err(e) => Err(e),
    }
}
