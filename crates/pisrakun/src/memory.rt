//! Stores in memory, without a log.
ghost use Rattle.std.specs.Prelude.{◌≡◌, ◌↔◌, false, Err, IfOk};
ghost use Rattle.store_file.specs.Refused.{is_bucket};
ghost use Rattle.pisrakun.specs.Memory.{BeginsEmpty};

use crate::no_drive::NoDrive;
use book_lock::Pass;
use commit_book::Book;
use index_layer::Index;
use sessions::{SharedBook, Store};
use std::alloc::Global;
use std::marker::Brand;
use store_file::{LEAST_BUCKET, MOST_BUCKET};
use thiserror::Error;
use zorder::Memory;

/// A store in memory, and the pass that has all parts of it.
pub struct InMemory<I: Index> {
    pub store: Store<I, NoDrive, Brand>,
    pub pass: Pass<SharedBook<I, NoDrive, Brand>>,
}

/// Why there is no store in memory.
#[derive(Clone, Copy, Debug, PartialEq, Eq, Error)]
pub enum NotInMemory {
    #[error("a bucket has from 4 to 4,096 objects")]
    Bucket,
    #[error("out of memory")]
    Memory,
}

impl From<Memory> for NotInMemory {
    ghost use Rattle.pisrakun.specs.declared.memory.NotInMemory.TheVariants.{Memory};

    ghost from_gives = { λ _ cause. cause ≡ Memory };

    fn from(_: Memory) -> NotInMemory {
        NotInMemory::Memory
    }
}

/// Creates a store without objects in memory. `bucket` is how many objects a leaf should have, 4 to 4,096: 64 serves
/// most programs.
pub fn in_memory<I: Index>(alloc: Global, bucket: u32) -> Result<InMemory<I>, NotInMemory>
    ensures store { IfOk result (λ r. BeginsEmpty bucket r.store r.pass) }
    ensures bucket { result ≡ Err NotInMemory.Bucket ↔ is_bucket bucket ≡ false }
{
    if bucket < LEAST_BUCKET || bucket > MOST_BUCKET {
        return Err(NotInMemory::Bucket);
    }
    let book = Book::<I, NoDrive>::fresh(alloc, bucket)?;
    match Store::<I, NoDrive, Brand>::new(alloc, book.without_list()) {
        Ok((store, pass)) => Ok(InMemory { store, pass }),
        Err(_) => Err(NotInMemory::Memory),
    }
}
