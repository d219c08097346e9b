//! A fresh index over the objects of a table, with the leaves that its bucket size requires.
ghost use Rattle.std.specs.Prelude.{◌≡◌, IfOk, OnOk};
ghost use Rattle.bucket_versions.specs.declared.row.Row.{Row};
ghost use Rattle.bucket_versions.specs.Rows.{IsRows, has_row};
ghost use Rattle.plain_list.specs.World.{places_of};
ghost use Rattle.index_layer.specs.Leaves.{names_of};
ghost use Rattle.index_layer.specs.Stands.{places_have};
ghost use Rattle.point_table.specs.BySize.{StandsThere, IsSplitOn};
ghost use Rattle.point_table.specs.Sized.{StandsBySize};

use crate::crowded::{Crowded, is_over};
use crate::table::PointTable;
use bucket_versions::{Bucket, Row};
use index_build::split;
use index_layer::{Index, Part};
use split_prepare::{child_at, cut_out};
use std::alloc::Global;
use std::marker::Brand;
use std::sync::ledger::{Blank, Ledger};
use step_count::Steps;
use table_share::{LeafWalk, scan};
use zorder::{Memory, Name};

impl<I: Index> PointTable<I> {
    /// Builds an index over the same objects, with the leaves that the size requires and no more. It shares no memory
    /// with the present index.
    pub fn index_anew(&self) -> Result<I, Memory>
        ensures { IfOk result (λ index. StandsBySize I.WIDTH self.now.size self.now.world (I.leaves index)) }
    {
        let rows = self.rows::<Brand>(Blank::new(1))?;
        let whole = Bucket::from_vec(self.alloc, rows);
        let name = Name::whole();
        let mut index = I::whole(self.alloc, cut_out(&whole, &name)?)?;
        split_on(self.alloc, &mut index, &name, &whole, self.size)?;
        Ok(index)
    }

    // The rows of all leaves, in key order. The count of opened leaves is dropped.
    fn rows<L: Ledger>(&self, blank: Blank) -> Result<Vec<Row>, Memory>
        requires name { blank.name ≡ L.name }
        requires parts { blank.parts ≡ L.parts }
        requires one_part { blank.parts ≡ 1 }
        ensures in_order { IfOk result (λ rows. IsRows rows.items) }
        ensures has { IfOk result (λ rows. (r : Row) → has_row r rows.items ≡ places_have (places_of self.now.world) r) }
    {
        let mut steps = Steps::<L>::new(blank);
        scan(self.alloc, &self.index, 0, u64::MAX, &mut steps)
    }

    /// Puts an index from `index_anew` in place of the present one.
    pub fn take_index(&mut self, index: I)
        requires { StandsBySize I.WIDTH self.old.size self.old.world (I.leaves index) }
        ensures { self.new ≡ record self.old { leaves = I.leaves index } }
    {
        self.index = index;
        self.crowded = Crowded::new(self.alloc);
    }
}

// Splits the leaf of this name, and then its children in the same way, while they have more rows than the size. Each
// child gets the rows under its name, taken from a bucket of all rows.
fn split_on<I: Index>(
    alloc: Global,
    index: &mut I,
    name: &Name,
    whole: &Bucket,
    size: u32,
) -> Result<(), Memory>
    requires { StandsThere I.WIDTH size whole.now.base name.now (I.leaves index.old) }
    ensures { OnOk result (IsSplitOn I.WIDTH size whole.now.base name.now (I.leaves index.old) (I.leaves index.new)) }
{
    let Part::Leaf(bucket) = index.part(name) else {
        unreachable!();
    };
    if !is_over(size, I::WIDTH, name, bucket) {
        return Ok(());
    }
    split(alloc, index, name, whole)?;
    for place in 0..1 << I::WIDTH {
        let child = child_at(name, I::WIDTH, place);
        split_on(alloc, index, &child, whole, size)?;
    }
    Ok(())
}

/// The names of an index's leaves, in key order.
pub fn leaf_names<I: Index>(alloc: Global, index: &I) -> Result<Vec<Name>, Memory>
    ensures { IfOk result (λ names. names.items ≡ names_of (I.leaves index.now)) }
{
    let mut names = Vec::new(alloc);
    let mut walk = LeafWalk::over(index);
    while let Some((name, _)) = walk.next_leaf() {
        names.push(name)?;
    }
    Ok(names)
}
