//! Continues a book on another log, and prepares what is written there before.
ghost use Rattle.std.specs.Prelude.{◌≡◌, IfOk};
ghost use Rattle.index_layer.specs.Leaves.{names_of};
ghost use Rattle.plain_list.specs.History.{world_after};
ghost use Rattle.plain_list.specs.State.{ComesBySplits, state_after};
ghost use Rattle.plain_list.specs.World.{IsWorld};
ghost use Rattle.point_table.specs.Sized.{StandsBySize};
ghost use Rattle.kept_log.specs.Journal.{log_in};
ghost use Rattle.commit_book.specs.IsBook.{IsBook};
ghost use Rattle.commit_book.specs.OpenedLog.{IsOpenedLog};
ghost use Rattle.commit_book.specs.Rotation.{HasContent, HasContentAnew, book_on, rotated};

use crate::book::{Book, on_log};
use disk_trait::LogDisk;
use index_layer::Index;
use plain_list::World;
use point_table::leaf_names;
use recovery::{Leaves, Opened};
use split_log::SplitLog;
use std::alloc::Global;
use zorder::Memory;

/// Copies of the objects and of the names of the leaves.
#[derive(Drop)]
pub struct Content {
    pub world: World,
    pub leaves: Leaves,
}

/// Copies of the objects, an index over them with the leaves that the bucket size requires, and the names of these
/// leaves.
#[derive(Drop)]
pub struct Anew<I: Index> {
    pub index: I,
    pub content: Content,
}

/// A book that continues on another log, and what it kept of the log before.
pub struct Replaced<I: Index, D: LogDisk> {
    pub book: Book<I, D>,
    /// The log up to the rotation, if there was one.
    pub log: Option<SplitLog<D>>,
}

impl<I: Index, D: LogDisk> Book<I, D> {
    /// Copies the objects and the names of the leaves. Open splits are not part of the copy.
    pub fn content(&self) -> Result<Content, Memory>
        ensures world { IfOk result (λ c. c.world ≡ world_after self.now.opening.world self.now.entries) }
        ensures leaves { IfOk result (λ c. c.leaves ≡ (state_after I.WIDTH self.now.opening self.now.entries).leaves) }
        ensures comes { IfOk result (λ c. ComesBySplits I.WIDTH c.leaves) }
        ensures is_world { IfOk result (λ c. IsWorld c.world) }
        ensures book { IsBook D.drive I.WIDTH self.now }
    {
        self.keep();
        let world = self.table.to_world()?;
        let leaves = Leaves::from_vec(self.table.leaf_names()?);
        Ok(Content { world, leaves })
    }

    /// Copies the objects, and builds an index over them with the leaves that the bucket size requires and no more. The
    /// book's own index is unchanged.
    pub fn anew(&self, alloc: Global) -> Result<Anew<I>, Memory>
        ensures world { IfOk result (λ a. a.content.world ≡ world_after self.now.opening.world self.now.entries) }
        ensures leaves { IfOk result (λ a. a.content.leaves ≡ names_of (I.leaves a.index)) }
        ensures stands { IfOk result (λ a. StandsBySize I.WIDTH self.now.bucket a.content.world (I.leaves a.index)) }
        ensures comes { IfOk result (λ a. ComesBySplits I.WIDTH a.content.leaves) }
        ensures is_world { IfOk result (λ a. IsWorld a.content.world) }
        ensures book { IsBook D.drive I.WIDTH self.now }
    {
        self.keep();
        let index = self.table.index_anew()?;
        let world = self.table.to_world()?;
        let leaves = Leaves::from_vec(leaf_names(alloc, &index)?);
        Ok(Anew {
            index,
            content: Content { world, leaves },
        })
    }

    /// Continues on another log, which must have the book's objects and leaves. The objects and the leaves are not
    /// copied, no memory is taken, and the device is not called. A split that is still open is given up, as at the
    /// opening of a log. The next split's number follows those of the other log. The new book keeps the list of its
    /// entries if and only if this one did. It writes each record at once, whether or not this one did, and records that
    /// wait are not written to the old log.
    pub fn rotate(self, alloc: Global, opened: Opened<D>) -> Replaced<I, D>
        requires opened { IsOpenedLog D.drive I.WIDTH opened.seen opened.start.value opened.log }
        requires content { HasContent I.WIDTH self opened.seen }
        ensures rotated { result.book ≡ rotated opened.seen opened.log opened.start.value self }
        ensures log { result.log ≡ log_in self.log }
    {
        let kept = self.history.is_kept();
        let Book { table, journal, .. } = self;
        Replaced {
            book: on_log(alloc, kept, table, opened),
            log: journal.into_log(),
        }
    }

    /// The same with fresh leaves: the index that `anew` built replaces the present one.
    pub fn rotate_anew(self, alloc: Global, index: I, opened: Opened<D>) -> Replaced<I, D>
        requires opened { IsOpenedLog D.drive I.WIDTH opened.seen opened.start.value opened.log }
        requires content { HasContentAnew I.WIDTH self (I.leaves index) opened.seen }
        ensures rotated { result.book ≡ book_on self.kept opened.seen opened.log opened.start.value (I.leaves index) self.bucket }
        ensures log { result.log ≡ log_in self.log }
    {
        let kept = self.history.is_kept();
        let Book {
            mut table,
            journal,
            ..
        } = self;
        table.take_index(index);
        Replaced {
            book: on_log(alloc, kept, table, opened),
            log: journal.into_log(),
        }
    }
}
