//! A walk over all leaves of an index.
ghost use Rattle.std.specs.Prelude.{◌≡◌, ◌∷◌, [], MatchOption};
ghost use Rattle.std.specs.Arc.{arc_value};

use bucket_versions::Bucket;
use index_layer::Index;
use prefix_names::key_range;
use std::marker::Model;
use std::sync::Arc;
use zorder::Name;

/// A walk over the leaves of an index. Contracts see it as the list of the leaves that are left.
#[derive(Drop)]
pub struct LeafWalk<'a, I: Index> {
    index: &'a I,
    key: Option<u64>,
}

impl<'a, I: Index> Model for LeafWalk<'a, I> {
    ghost use Rattle.std.specs.Prelude.{List};
    ghost use Rattle.index_layer.specs.Leaves.{Leaf};

    ghost Value = { List Leaf };

    ghost use Rattle.index_layer.specs.Walk.{leaves_left, IsAt};

    ghost view = { λ w. leaves_left w.key (I.leaves w.index.now) };

    ghost invariant = { λ w. IsAt w.key (I.leaves w.index.now) };
}

impl<'a, I: Index> LeafWalk<'a, I> {
    /// Creates a walk that begins at the first leaf.
    pub fn over(index: &'a I) -> LeafWalk<'a, I>
        ensures { result ≡ I.leaves index.now }
    {
        LeafWalk {
            index,
            key: Some(0),
        }
    }

    /// Returns the next leaf's name and bucket. After the last leaf, each call returns `None`. No call opens a bucket.
    pub fn next_leaf(&mut self) -> Option<(Name, &'a Arc<Bucket>)>
        ensures { MatchOption result ((self.old ≡ []) × (self.new ≡ [])) (λ leaf.
            self.old ≡ record { name = leaf.0; bucket = arc_value leaf.1.now } ∷ self.new) }
    {
        let key = self.key?;
        let (name, bucket) = self.index.leaf_of(key);
        let (_, last) = key_range(&name);
        self.key = last.checked_add(1);
        Some((name, bucket))
    }
}
