//! Files of the temporary folder.
use crate::checks::same_bytes;
use std::env::Env;
use std::fs::Files;
use std::path::PathBuf;
use std::process::Abort;
use std::{env, fs};

/// Where a file of this name is.
pub fn path_of<R: Abort + Env + AllocGlobal>(rt: &R, name: &str) -> PathBuf {
    let mut path = env::temp_dir(rt).expect(rt, "no folder");
    path.push(name).expect(rt, "no path");
    path
}

/// Removes a file, and fails unless it held these bytes.
pub fn expect_taken_away<R: Abort + Files + AllocGlobal>(rt: &R, name: &str, bytes: &[u8]) {
    let held = fs::read(rt, name).expect(rt, "the file isn't read");
    fs::remove_file(rt, name).expect(rt, "the file isn't taken away");
    same_bytes(rt, held.as_slice(), bytes);
}
