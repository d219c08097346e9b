//! A table of a given world.
ghost use Rattle.std.specs.Prelude.{◌≡◌, IfOk};
ghost use Rattle.index_layer.specs.Leaves.{names_of};
ghost use Rattle.index_build.specs.Grown.{IsGrown};
ghost use Rattle.point_table.specs.Crowds.{crowded_of};

use crate::crowded::{Crowded, is_over};
use crate::table::PointTable;
use index_build::build;
use index_layer::Index;
use plain_list::{MemberShards, World};
use std::alloc::{AllocError, Global};
use table_share::LeafWalk;
use zorder::{Memory, Name};

impl<I: Index> PointTable<I> {
    /// Builds a table of the objects of a world. Its leaves have these names, in key order.
    pub fn built(
        alloc: Global,
        world: &World,
        leaves: &[Name],
        size: u32,
    ) -> Result<PointTable<I>, Memory>
        requires { IsGrown I.WIDTH leaves.now }
        ensures world { IfOk result (λ t. t.world ≡ world.now) }
        ensures leaves { IfOk result (λ t. names_of t.leaves ≡ leaves.now) }
        ensures size { IfOk result (λ t. t.size ≡ size) }
    {
        let index: I = build(alloc, world, leaves)?;
        let names = crowded_names(alloc, &index, size)?;
        Ok(PointTable {
            alloc,
            index,
            members: MemberShards::from_world(alloc, world)?,
            crowded: Crowded::from_names(names),
            size,
        })
    }
}

// The names of the leaves that are to be split, in key order.
fn crowded_names<I: Index>(alloc: Global, index: &I, size: u32) -> Result<Vec<Name>, AllocError>
    ensures { IfOk result (λ names. names.items ≡ crowded_of I.WIDTH size (I.leaves index.now)) }
{
    let mut names = Vec::new(alloc);
    let mut walk = LeafWalk::over(index);
    while let Some(leaf) = walk.next_leaf() {
        let (name, bucket) = leaf;
        if is_over(size, I::WIDTH, &name, bucket) {
            names.push(name)?;
        }
    }
    Ok(names)
}
