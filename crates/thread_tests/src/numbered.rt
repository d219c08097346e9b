//! An index whose versions have numbers, and know which of them is the newest.
ghost use Rattle.std.specs.Prelude.{◌≡◌, IfOk};

use bucket_versions::Bucket;
use index_layer::{Below, Index, IndexFault, Part};
use std::alloc::{AllocError, Global};
use std::sync::Arc;
use std::sync::atomic::{AtomicU64, Ordering};
use zorder::{Memory, Name};

// What all versions of an index share.
#[derive(Drop)]
struct Versions {
    newest: AtomicU64,
    late_reads: AtomicU64,
}

/// A version of an index. A change creates the next one, which is the newest from then on. Sharing a version creates
/// none.
#[derive(Drop)]
pub struct Numbered<I: Index> {
    index: I,
    number: u64,
    versions: Arc<Versions>,
}

impl<I: Index> Numbered<I> {
    /// How often a version was read that was no longer the newest.
    pub fn late_reads(&self) -> u64 {
        self.versions.late_reads.load(Ordering::SeqCst)
    }

    // Notes that this version is read.
    fn note_read(&self) {
        if self.versions.newest.load(Ordering::SeqCst) != self.number {
            self.versions.late_reads.fetch_add(1, Ordering::SeqCst);
        }
    }

    // The version after the newest, with this index.
    fn next(&self, index: I) -> Result<Numbered<I>, AllocError>
        ensures { IfOk result (λ next. next.index ≡ index) }
    {
        let versions = Arc::try_clone(&self.versions)?;
        let number = versions
            .newest
            .fetch_add(1, Ordering::SeqCst)
            .wrapping_add(1);
        Ok(Numbered {
            index,
            number,
            versions,
        })
    }
}

impl<I: Index> Index for Numbered<I> {
    type Place = I::Place;

    ghost leaves = { λ s. I.leaves s.index };

    ghost is_at = { λ s. I.is_at s.index };

    ghost WIDTH = { I.WIDTH };

    const WIDTH: u8 = I::WIDTH;

    ghost are_leaves = { λ s. I.are_leaves s.index };

    ghost width = { I.width };

    fn whole(alloc: Global, bucket: Arc<Bucket>) -> Result<Self, Memory> {
        let versions = Versions {
            newest: AtomicU64::new(0),
            late_reads: AtomicU64::new(0),
        };
        Ok(Numbered {
            index: I::whole(alloc, bucket)?,
            number: 0,
            versions: Arc::new(alloc, versions)?,
        })
    }

    fn share(&self) -> Result<Self, Memory> {
        Ok(Numbered {
            index: self.index.share()?,
            number: self.number,
            versions: Arc::try_clone(&self.versions)?,
        })
    }

    fn leaf_of(&self, key: u64) -> (Name, &Arc<Bucket>) {
        self.note_read();
        self.index.leaf_of(key)
    }

    fn part(&self, name: &Name) -> Part<'_> {
        self.note_read();
        self.index.part(name)
    }

    fn top(&self) -> &I::Place {
        self.index.top()
    }

    fn below<'a>(&'a self, name: &Name, place: &'a I::Place) -> Below<'a, I::Place> {
        self.note_read();
        self.index.below(name, place)
    }

    fn replaced(&self, name: &Name, bucket: Arc<Bucket>) -> Result<Self, IndexFault> {
        Ok(self.next(self.index.replaced(name, bucket)?)?)
    }

    fn split(&self, name: &Name, children: &[Arc<Bucket>]) -> Result<Self, IndexFault> {
        Ok(self.next(self.index.split(name, children)?)?)
    }
}
