//! Building an index over a world.
ghost use Rattle.std.specs.Prelude.{IfOk};
ghost use Rattle.std.specs.List.{AllByRecursion};
ghost use Rattle.plain_list.specs.World.{places_of};
ghost use Rattle.index_layer.specs.Stands.{Stands};
ghost use Rattle.index_build.specs.Grown.{IsGrown, IsFolded};

use crate::growing::{Growing, grow};
use crate::rows::rows_of;
use bucket_versions::Bucket;
use index_layer::Index;
use plain_list::World;
use split_prepare::cut_out;
use std::alloc::Global;
use zorder::{Memory, Name};

/// Builds an index over the objects of the world. Its leaves have these names, in key order, and each bucket is its own
/// base.
pub fn build<I: Index>(alloc: Global, world: &World, leaves: &[Name]) -> Result<I, Memory>
    requires { IsGrown I.WIDTH leaves.now }
    ensures stands { IfOk result (λ index. Stands (I.leaves index) (places_of world.now) leaves.now) }
    ensures folded { IfOk result (λ index. AllByRecursion IsFolded (I.leaves index)) }
{
    let whole = Bucket::from_vec(alloc, rows_of(alloc, world)?);
    let name = Name::whole();
    let index = I::whole(alloc, cut_out(&whole, &name)?)?;
    let growing = grow(alloc, Growing { index, done: 0 }, &name, &whole, leaves)?;
    Ok(growing.index)
}
