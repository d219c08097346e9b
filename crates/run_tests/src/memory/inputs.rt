//! Words and rows.
use std::alloc::{AllocError, Global};

/// An input that begins with `front`, and then repeats a row `count` times.
pub fn repeated(alloc: Global, front: &str, count: u32, row: &str) -> Result<String, AllocError> {
    let mut input = String::from_str(alloc, front)?;
    for _ in 0..count {
        input.push_str(row)?;
    }
    Ok(input)
}

pub fn words(alloc: Global, all: &[&str]) -> Result<Vec<String>, AllocError> {
    let mut words = Vec::new(alloc);
    for word in all {
        words.push(String::from_str(alloc, word)?)?;
    }
    Ok(words)
}
