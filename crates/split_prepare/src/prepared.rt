//! A split that is ready to be installed.
ghost use Rattle.std.specs.Prelude.{◌≡◌, map};
ghost use Rattle.std.specs.Arc.{arc_value};
ghost use Rattle.bucket_versions.specs.Rows.{same_rows};
ghost use Rattle.split_prepare.specs.Prepared.{IsPrepared};

use bucket_versions::Bucket;
use std::marker::Model;
use std::sync::Arc;
use zorder::Name;

/// A split's number and name, the rows that were cut, and the children's buckets.
#[derive(Drop)]
pub struct Prepared {
    pub(crate) number: u64,
    pub(crate) name: Name,
    pub(crate) width: u8,
    pub(crate) bucket: Arc<Bucket>,
    pub(crate) children: Vec<Arc<Bucket>>,
}

impl Model for Prepared {
    ghost use Rattle.split_prepare.specs.Prepared.{PreparedView};

    ghost Value = { PreparedView };

    ghost use Rattle.split_prepare.specs.PreparedInside.{seen, IsWhole};

    ghost view = { seen };

    ghost invariant = { IsWhole };
}

impl Prepared {
    /// Returns the number of the split.
    pub fn number(&self) -> u64
        ensures { result ≡ self.now.number }
    {
        self.number
    }

    /// Returns the name of the leaf to be split.
    pub fn name(&self) -> Name
        ensures name { result ≡ self.now.name }
        ensures prepared { IsPrepared self.now }
    {
        self.name
    }

    /// Returns whether the children were cut from the base of this bucket.
    pub fn is_cut_from(&self, bucket: &Bucket) -> bool
        ensures base { result ≡ same_rows bucket.now.base self.now.base }
        ensures prepared { IsPrepared self.now }
    {
        bucket.has_base_of(&self.bucket)
    }

    /// Returns the children's buckets, in key order.
    pub fn children(&self) -> &[Arc<Bucket>]
        ensures children { map arc_value result.now ≡ self.now.children }
        ensures prepared { IsPrepared self.now }
    {
        self.children.as_slice()
    }
}
