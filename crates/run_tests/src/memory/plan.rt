//! The inputs of a run.
use disk_mem::Fail;

/// The inputs of a run: the words, the input, the bytes of the file, and the calls of each end that fail, by their
/// numbers.
#[derive(Clone, Copy)]
pub struct Plan<'a> {
    pub words: &'a [&'a str],
    pub input: &'a str,
    /// If it is `None`, the drive fails at each call.
    pub file: Option<&'a [u8]>,
    pub reads: &'a [u64],
    pub puts: &'a [u64],
    pub calls: &'a [Fail],
}
