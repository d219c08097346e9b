//! The words that the system passes to a program.
use crate::checks::holds;
use machine_run::words_of;
use std::alloc::Global;
use std::env::{Env, FillError};
use std::process::Abort;

// A machine that passes these words to a program. Its name is the first.
#[derive(Drop)]
struct Machine {
    words: &'static [&'static [u8]],
}

impl Env for Machine {
    fn arg(&self, i: usize, buf: &mut [u8]) -> Result<usize, FillError> {
        let Some(word) = self.words.get(i) else {
            return Err(FillError::NotPresent);
        };
        if buf.len() < word.len() {
            return Err(FillError::TooLong);
        }
        buf[..word.len()].copy_from_slice(word);
        Ok(word.len())
    }

    fn var(&self, _name: &str, _buf: &mut [u8]) -> Result<usize, FillError> {
        Err(FillError::NotPresent)
    }

    fn var_at(&self, _i: usize, _buf: &mut [u8]) -> Result<usize, FillError> {
        Err(FillError::NotPresent)
    }
}

// Fails unless `wanted` of these words are passed on.
fn hands_on(rt: &impl Abort, alloc: Global, words: &'static [&'static [u8]], wanted: &[&str]) {
    let handed = words_of(&(Machine { words }, alloc)).expect(rt, "no memory");
    let is_so = handed.len() == wanted.len()
        && handed
            .iter()
            .zip(wanted)
            .all(|(word, other)| word.as_str() == *other);
    holds(rt, is_so, "the words that are handed on");
}

#[test]
fn the_name_of_the_program_is_not_handed_on(rt: HostRuntime) {
    hands_on(&rt, rt.alloc(), &[b"mdloc", b"play", b"-"], &["play", "-"]);
}

#[test]
fn where_a_word_is_no_text_none_is_handed_on(rt: HostRuntime) {
    hands_on(&rt, rt.alloc(), &[b"mdloc", b"play", b"\xff-"], &[]);
}

#[test]
fn a_name_alone_leaves_no_word(rt: HostRuntime) {
    hands_on(&rt, rt.alloc(), &[b"mdloc"], &[]);
}
