//! A drive may be sent to another thread if its opener `R` and its file may.
use crate::disk::FileDisk;
use std::fs::Files;

fn sent<T: Send>() {}

fn may_be_sent<R: Files + Drop + Send>()
where
    R::File: Send,
{
    sent::<FileDisk<R>>();
}
