//! Buckets for the indexes of the tests.
ghost use Rattle.std.specs.Prelude.{◌≡◌, ◌*◌, [], ◌∷◌, false, take, IfOk};
ghost use Rattle.std.specs.Arc.{arc_value};
ghost use Rattle.zorder.specs.Key.{key_bits};
ghost use Rattle.bucket_versions.specs.Rows.{as_base};
ghost use Rattle.index_layer.specs.Leaves.{AreUnder, one_leaf};

use crate::worlds::world_of;
use bucket_versions::{Bucket, BucketFault, Row, RowChange};
use index_build::build;
use index_layer::{Index, IndexFault};
use plain_list::World;
use std::alloc::Global;
use std::process::Abort;
use std::sync::Arc;
use zorder::{Memory, Name, Placed, child, first_bits};

/// No rows.
pub(crate) fn empty(alloc: Global) -> Result<Arc<Bucket>, Memory>
    ensures { IfOk result (λ b. arc_value b ≡ as_base []) }
{
    Bucket::from_rows(alloc, &[])?.into_shared()
}

/// An index of one empty leaf.
pub(crate) fn one_empty_leaf<I: Index>(alloc: Global) -> Result<I, Memory>
    ensures { IfOk result (λ index. I.leaves index ≡ one_leaf (as_base [])) }
{
    I::whole(alloc, empty(alloc)?)
}

/// The name of the leaf that a key is under, if the whole space was split once.
pub(crate) fn child_over<I: Index>(key: u64) -> Name
    ensures { result ≡ take I.WIDTH (key_bits key) }
{
    first_bits(key, I::WIDTH)
}

/// The name that it would have, if that leaf were split too.
pub(crate) fn grandchild_over<I: Index>(key: u64) -> Name {
    first_bits(key, 2 * I::WIDTH)
}

fn split_in_two<I: Index>(alloc: Global, whole: &I) -> Result<I, IndexFault>
    requires { I.WIDTH ≡ 1 }
{
    whole.split(&Name::whole(), &[empty(alloc)?, empty(alloc)?])
}

fn split_in_four<I: Index>(alloc: Global, whole: &I) -> Result<I, IndexFault>
    requires { I.WIDTH ≡ 2 }
{
    let (first, second) = (empty(alloc)?, empty(alloc)?);
    let (third, fourth) = (empty(alloc)?, empty(alloc)?);
    whole.split(&Name::whole(), &[first, second, third, fourth])
}

/// An index in which empty leaves replace the whole space.
pub(crate) fn split_whole<I: Index>(alloc: Global, whole: &I) -> Result<I, IndexFault> {
    if I::WIDTH == 1 {
        split_in_two(alloc, whole)
    } else {
        split_in_four(alloc, whole)
    }
}

/// Two or four empty leaves.
pub(crate) fn empty_leaves<I: Index>(alloc: Global) -> Result<I, IndexFault> {
    split_whole(alloc, &one_empty_leaf::<I>(alloc)?)
}

fn two_leaves<I: Index>(alloc: Global, world: &World) -> Result<I, Memory>
    requires { I.WIDTH ≡ 1 }
{
    let zero = child(&Name::whole(), false);
    let one = child(&Name::whole(), true);
    build::<I>(alloc, world, &[zero, one])
}

fn four_leaves<I: Index>(alloc: Global, world: &World) -> Result<I, Memory>
    requires { I.WIDTH ≡ 2 }
{
    let zero = child(&Name::whole(), false);
    let one = child(&Name::whole(), true);
    let (first, second) = (child(&zero, false), child(&zero, true));
    let (third, fourth) = (child(&one, false), child(&one, true));
    build::<I>(alloc, world, &[first, second, third, fourth])
}

/// These objects in two or four leaves.
pub(crate) fn leaves_over<I: Index>(alloc: Global, objects: &[Placed]) -> Result<I, Memory> {
    let world = world_of(alloc, objects)?;
    if I::WIDTH == 1 {
        two_leaves(alloc, &world)
    } else {
        four_leaves(alloc, &world)
    }
}

/// Three rows on a base of two, all in the first of two leaves, and of four.
fn three_rows(alloc: Global) -> Result<Arc<Bucket>, BucketFault>
    ensures { IfOk result (λ b. AreUnder (false ∷ []) (arc_value b).rows × AreUnder (false ∷ false ∷ []) (arc_value b).rows) }
{
    let two = [Row { key: 1, id: 9 }, Row { key: 27, id: 7 }];
    let bucket = Bucket::from_rows(alloc, &two)?;
    let bucket = bucket.with_put(Row { key: 2, id: 4 })?;
    Ok(bucket.into_shared()?)
}

/// The index with three rows in the leaf of key 0.
pub(crate) fn filled<I: Index>(rt: &impl Abort, alloc: Global, index: &I) -> I {
    let bucket = three_rows(alloc).expect(rt, "three rows");
    index
        .replaced(&child_over::<I>(0), bucket)
        .expect(rt, "an index")
}

/// A row that is added or removed.
pub(crate) fn change(key: u64, id: u64, keeps_base: bool) -> RowChange
    ensures { result.row ≡ record { key = key; id = id } }
{
    RowChange {
        row: Row { key, id },
        keeps_base,
    }
}
