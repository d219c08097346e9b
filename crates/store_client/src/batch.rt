//! Operations that a client makes in one step.
ghost use Rattle.std.specs.Prelude.{◌≡◌, ◌==◌, [], ◌∷◌, length};
ghost use Rattle.std.specs.List.{AllByRecursion};
ghost use Rattle.commit_book.specs.Answers.{IsUpdate};
ghost use Rattle.store_client.specs.Batches.{Adds, IsBatch};

use plain_list::Op;
use std::alloc::Global;
use std::marker::Model;
use thiserror::Error;
use zorder::Point;

/// The most operations of a batch.
pub const MOST_BATCH: usize = 65_536;

/// Why an operation was not added. The batch is unchanged.
#[derive(Clone, Copy, Debug, PartialEq, Eq, Error)]
pub enum NotAdded {
    /// The batch would have more than `MOST_BATCH` operations.
    #[error("the batch is full")]
    TooLong,
    /// Memory ran out.
    #[error("out of memory")]
    Memory,
}

/// Changes and finds that `Client::apply` makes in one step, in this order. A batch is only a list: it asks no store,
/// and one batch may be applied several times. Contracts see it as the list of its operations.
#[derive(Drop)]
pub struct Batch {
    ops: Vec<Op>,
}

impl Model for Batch {
    ghost use Rattle.std.specs.Prelude.{List};
    ghost use Rattle.plain_list.specs.declared.ops.Op.{Op};
    ghost use Rattle.store_client.specs.Batches.{IsBatch};

    ghost Value = { List Op };

    ghost view = { λ b. b.ops.items };

    ghost invariant = { λ b. IsBatch b.ops.items };
}

impl Batch {
    /// An empty batch. It takes memory when operations are added.
    pub fn new(alloc: Global) -> Batch
        ensures { result ≡ [] }
    {
        Batch {
            ops: Vec::new(alloc),
        }
    }

    /// The number of operations.
    pub fn len(&self) -> usize
        ensures { result ≡ length self.now }
    {
        self.ops.len()
    }

    pub fn is_empty(&self) -> bool
        ensures { result ≡ (length self.now == 0) }
    {
        self.ops.is_empty()
    }

    /// The operations, in their order.
    pub fn ops(&self) -> &[Op]
        ensures ops { result.now ≡ self.now }
        ensures batch { IsBatch result.now }
    {
        &self.ops
    }

    /// Removes all operations, and keeps the memory for the next ones.
    pub fn clear(&mut self)
        ensures { self.new ≡ [] }
    {
        self.ops.clear();
    }

    // Adds all of these operations or none.
    fn add(&mut self, ops: &[Op]) -> Result<(), NotAdded>
        requires { AllByRecursion IsUpdate ops.now }
        ensures { Adds ops.now self.old self.new result }
    {
        if ops.len() > MOST_BATCH - self.ops.len() {
            return Err(NotAdded::TooLong);
        }
        match self.ops.extend_from_slice(ops) {
            Ok(()) => Ok(()),
            Err(_) => Err(NotAdded::Memory),
        }
    }

    /// Adds the put of a new object. `apply` answers `Present` if there is an object with this id.
    pub fn put(&mut self, id: u64, at: Point, moment: u64) -> Result<(), NotAdded>
        ensures { Adds (Op.Put id at moment ∷ []) self.old self.new result }
    {
        self.add(&[Op::Put { id, at, moment }])
    }

    /// Adds the move of an object. `apply` answers `Absent` if there is no such object, and `Stale` if it has a later
    /// moment.
    pub fn move_to(&mut self, id: u64, at: Point, moment: u64) -> Result<(), NotAdded>
        ensures { Adds (Op.Move id at moment ∷ []) self.old self.new result }
    {
        self.add(&[Op::Move { id, at, moment }])
    }

    /// Adds the removal of an object. `apply` answers `Absent` if there is no such object.
    pub fn remove(&mut self, id: u64) -> Result<(), NotAdded>
        ensures { Adds (Op.Remove id ∷ []) self.old self.new result }
    {
        self.add(&[Op::Remove { id }])
    }

    /// Adds a find. Its answer is as of its place: it has the changes that stand before it in the batch.
    pub fn find(&mut self, id: u64) -> Result<(), NotAdded>
        ensures { Adds (Op.Find id ∷ []) self.old self.new result }
    {
        self.add(&[Op::Find { id }])
    }

    /// Adds two operations that say where an object is now: a move, and a put. The object moves if it is there and its
    /// moment is not later, and then the put answers `Present`. If there is no such object, the put creates it.
    pub fn report(&mut self, id: u64, at: Point, moment: u64) -> Result<(), NotAdded>
        ensures { Adds (Op.Move id at moment ∷ Op.Put id at moment ∷ []) self.old self.new result }
    {
        self.add(&[Op::Move { id, at, moment }, Op::Put { id, at, moment }])
    }

    /// Adds two operations that set an object whatever its moment: its removal, and a put.
    pub fn set(&mut self, id: u64, at: Point, moment: u64) -> Result<(), NotAdded>
        ensures { Adds (Op.Remove id ∷ Op.Put id at moment ∷ []) self.old self.new result }
    {
        self.add(&[Op::Remove { id }, Op::Put { id, at, moment }])
    }
}
