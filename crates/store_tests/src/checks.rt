//! Assertions as calls, for shorter proofs of the tests that make them.
use std::fmt::Debug;
use std::process::Abort;

/// Ends the test with these words unless `is_so` holds.
pub fn holds(rt: &impl Abort, is_so: bool, words: &str) {
    if !is_so {
        rt.panic(words)
    }
}

/// Ends the test with the name of what was compared unless both are the same.
pub fn same<T: PartialEq + Debug>(rt: &impl Abort, left: &T, right: &T, compared: &str) {
    assert_eq!(rt; left, right, "{compared}");
}
