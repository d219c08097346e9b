//! A store in memory as one value.
ghost use Rattle.std.specs.Prelude.{◌≡◌, ◌↔◌, ℕ, length, false, Err, IfOk};
ghost use Rattle.book_lock.specs.Own.{times, once_below};
ghost use Rattle.store_file.specs.Refused.{is_bucket};
ghost use Rattle.pisrakun.specs.Fresh.{IsFreshIn};
ghost use Rattle.pisrakun.specs.Memory.{empty_origin};

use crate::memory::{InMemory, NotInMemory, in_memory};
use crate::no_drive::NoDrive;
use crate::object_store::ObjectStore;
use index_layer::Index;
use std::alloc::Global;
use std::marker::Brand;

/// A store in memory. Nothing of it is left when the program ends.
pub type MemoryStore<I> = ObjectStore<I, NoDrive, Brand>;

impl<I: Index> ObjectStore<I, NoDrive, Brand> {
    /// Creates a store without objects in memory. `bucket` is how many objects a leaf should have, 4 to 4,096: 64
    /// serves most programs.
    pub fn in_memory(
        alloc: Global,
        bucket: u32,
    ) -> Result<ObjectStore<I, NoDrive, Brand>, NotInMemory>
        ensures store { IfOk result (λ store. IsFreshIn (empty_origin bucket) store) }
        ensures bucket { result ≡ Err NotInMemory.Bucket ↔ is_bucket bucket ≡ false }
    {
        match in_memory::<I>(alloc, bucket) {
            Ok(InMemory { store, pass }) => Ok(ObjectStore::from_parts(alloc, store, pass)),
            Err(cause) => Err(cause),
        }
    }

    /// Ends the store. Views of it stay.
    pub fn close(self)
        ensures own { (p : ℕ) → times p self.pass.own ≡ once_below p (length self.pass.seen) }
    {
        let (store, pass) = self.into_parts();
        store.close(pass);
    }
}
