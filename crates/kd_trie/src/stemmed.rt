//! A trie with its stem, and the changes of it.
ghost use Rattle.std.specs.Prelude.{◌≡◌, ◌≤◌, ◌+◌, ◌-◌, ◌^◌, min, ℕ, [], Some, length, true, false, IfOk, IfSome, OnOk, OnErr};
ghost use Rattle.std.specs.Arc.{arc_value};
ghost use Rattle.zorder.specs.Bits.{low_bits};
ghost use Rattle.zorder.specs.Key.{is_under};
ghost use Rattle.bucket_versions.specs.Told.{Told};
ghost use Rattle.bit_trie.specs.Tries.{height, name_at, bucket_at, graft, tip, rows_in};
ghost use Rattle.bit_trie.specs.Ways.{has_under, put_under, gone_under, count_under, MayMove};
ghost use Rattle.kd_trie.specs.Wholes.{whole};
ghost use Rattle.kd_trie.specs.Nodes.{seen, is_counted, twins};
ghost use Rattle.bit_trie.specs.Walks.{Agrees};

use crate::node::{Node, agreed, graft, leaf_of, recounted, tally, twins};
use crate::rows;
use crate::stem::{Stem, Stemmed, has_leaf_half, leaf_past, step, stretch, unwound};
use bit_trie::{Coming, Going};
use bucket_versions::{Bucket, Commit, RowChange, Undone};
use std::alloc::{AllocError, Global};
use std::sync::Arc;
use zorder::{Name, begins};

// How many changes in sequence could have lengthened a stem before the next one does.
const CHANGES_WAITED: u8 = 63;

impl Stemmed {
    /// Creates a trie with one leaf.
    pub(crate) fn leaf(alloc: Global, bucket: Arc<Bucket>) -> Result<Stemmed, AllocError>
        ensures { IfOk result (λ s. whole s ≡ tip (arc_value bucket)) }
    {
        let stem = Stem::none(alloc)?;
        Ok(Stemmed {
            alloc,
            stem,
            root: Node::Leaf(bucket),
            waited: 0,
            counts_hold: true,
        })
    }

    /// Returns an equal trie, which shares all nodes.
    pub(crate) fn share(&self) -> Result<Stemmed, AllocError>
        ensures { IfOk result (λ s. whole s ≡ whole self.now) }
    {
        let stem = self.stem.share()?;
        let root = self.root.share()?;
        Ok(Stemmed {
            alloc: self.alloc,
            stem,
            root,
            waited: self.waited,
            counts_hold: self.counts_hold,
        })
    }

    /// Returns the bucket to which a key leads, and how many of its bits are left at its leaf.
    pub(crate) fn leaf_of(&self, key: u64) -> (u8, &Arc<Bucket>)
        requires { height (whole self.now) ≤ 64 }
        ensures bucket { bucket_at (low_bits 64 key) (whole self.now) ≡ Some (arc_value result.1.now) }
        ensures left { result.0 + length (name_at (low_bits 64 key) (whole self.now)) ≡ 64 }
    {
        if begins(&self.stem.name, key) {
            leaf_of(&self.root, key, 64 - self.stem.name.len())
        } else {
            leaf_past(&self.stem.aside, &self.root, key, 64)
        }
    }

    /// Returns the node at which the paths of two keys under the stem separate, and how many of their bits are left
    /// there.
    pub(crate) fn parting(&self, from: u64, to: u64) -> Option<(u8, &Node)>
        requires { height (whole self.now) ≤ 64 }
        ensures agrees { IfSome result (λ p. Agrees from to 64 p.0 (whole self.now) (seen p.1.now)) }
        ensures rest { IfSome result (λ p. p.0 ≤ 64) }
        ensures counted { self.now.counts_hold ≡ true → IfSome result (λ p. is_counted p.1.now ≡ true) }
    {
        if begins(&self.stem.name, from) && begins(&self.stem.name, to) {
            Some(agreed(&self.root, from, to, 64 - self.stem.name.len()))
        } else {
            None
        }
    }

    /// Returns the number of rows below a node, at most 2^64 - 1.
    pub(crate) fn count_of(&self, node: &Node) -> u64
        requires { self.now.counts_hold ≡ true → is_counted node.now ≡ true }
        ensures { result ≡ min (rows_in (seen node.now)) (2 ^ 64 - 1) }
    {
        if self.counts_hold {
            node.count()
        } else {
            tally(node)
        }
    }

    // Makes the stem one that the key is under, and makes the counts right.
    #[inline(always)]
    fn open_to(&mut self, key: u64) -> Result<(), AllocError>
        ensures whole { whole self.new ≡ whole self.old }
        ensures counts { OnOk result (self.new.counts_hold ≡ true) }
        ensures under { OnOk result (is_under self.new.stem.name key ≡ true) }
        ensures keeps { OnOk result ((k : ℕ) → is_under self.old.stem.name k ≡ true → is_under self.new.stem.name k ≡ true) }
    {
        if begins(&self.stem.name, key) && self.counts_hold {
            return Ok(());
        }
        self.open(key)
    }

    // The same if there is something to do. It is apart from the changes, which seldom need it.
    #[inline(never)]
    fn open(&mut self, key: u64) -> Result<(), AllocError>
        ensures whole { whole self.new ≡ whole self.old }
        ensures counts { OnOk result (self.new.counts_hold ≡ true) }
        ensures under { OnOk result (is_under self.new.stem.name key ≡ true) }
        ensures keeps { OnOk result ((k : ℕ) → is_under self.old.stem.name k ≡ true → is_under self.new.stem.name k ≡ true) }
    {
        if !self.counts_hold {
            self.recount()?;
        }
        if begins(&self.stem.name, key) {
            return Ok(());
        }
        self.unwind()
    }

    // Makes the counts right.
    fn recount(&mut self) -> Result<(), AllocError>
        ensures whole { whole self.new ≡ whole self.old }
        ensures stem { self.new.stem ≡ self.old.stem }
        ensures counts { OnOk result (self.new.counts_hold ≡ true) }
    {
        let root = recounted(self.alloc, &self.root)?;
        self.root = root;
        self.counts_hold = true;
        Ok(())
    }

    // Replaces the stem by pairs.
    fn unwind(&mut self) -> Result<(), AllocError>
        requires { self.old.counts_hold ≡ true }
        ensures whole { whole self.new ≡ whole self.old }
        ensures name { OnOk result (self.new.stem.name ≡ []) }
        ensures counts { self.new.counts_hold ≡ true }
    {
        let stem = &self.stem;
        let root = unwound(self.alloc, &stem.aside, &self.root)?;
        self.stem = Stem::none(self.alloc)?;
        self.root = root;
        Ok(())
    }

    // Lengthens the stem to the first branch, after many changes in sequence that could have. Else a stem would be
    // built and undone each time, if changes far off alternate with near ones. If memory runs out, the stem is
    // unchanged.
    #[inline(always)]
    fn wind(&mut self)
        ensures { whole self.new ≡ whole self.old }
    {
        if has_leaf_half(&self.root) || !self.counts_hold {
            self.rewind();
        }
    }

    // The same for a root with a leaf half, which may be without rows. If counts are wrong, it only makes them right. A
    // trie of many leaves seldom has such a root, and a change seldom fails.
    #[inline(never)]
    fn rewind(&mut self)
        ensures { whole self.new ≡ whole self.old }
    {
        if !self.counts_hold {
            let _ = self.recount();
        } else if step(&self.root).is_none() {
            self.waited = 0;
        } else if self.waited < CHANGES_WAITED {
            self.waited += 1;
        } else {
            self.waited = 0;
            let _ = self.lengthen();
        }
    }

    fn lengthen(&mut self) -> Result<(), AllocError>
        requires { self.old.counts_hold ≡ true }
        ensures { whole self.new ≡ whole self.old }
    {
        let stem = &self.stem;
        let whole = unwound(self.alloc, &stem.aside, &self.root)?;
        let mut name = Name::whole();
        let mut aside = Vec::new(self.alloc);
        let root = stretch(&mut name, &mut aside, &whole)?;
        let aside = Arc::new(self.alloc, aside)?;
        self.stem = Stem { name, aside };
        self.root = root;
        Ok(())
    }

    /// Replaces the bucket to which a key leads, once the step has succeeded.
    pub(crate) fn put<C: Commit>(
        &mut self,
        key: u64,
        bucket: Arc<Bucket>,
        commit: &mut C,
    ) -> Result<(), Undone>
        requires can { C.can commit.old }
        requires height { height (whole self.old) ≤ 64 }
        ensures ok { OnOk result (whole self.new ≡ graft (low_bits 64 key) (tip (arc_value bucket)) (whole self.old)) }
        ensures err { OnErr result (whole self.new ≡ whole self.old) }
        ensures told { Told C.done C.lost commit.old commit.new result }
    {
        self.open_to(key)?;
        let left = 64 - self.stem.name.len();
        let gain = bucket.count();
        let done = graft(&mut self.root, key, left, Node::Leaf(bucket), gain, commit);
        self.wind();
        done
    }

    /// Replaces the leaf to which a key leads by two leaves, once the step has succeeded.
    pub(crate) fn divide<C: Commit>(
        &mut self,
        key: u64,
        zero: Arc<Bucket>,
        one: Arc<Bucket>,
        commit: &mut C,
    ) -> Result<(), Undone>
        requires can { C.can commit.old }
        requires height { height (whole self.old) ≤ 64 }
        ensures ok { OnOk result (whole self.new ≡ graft (low_bits 64 key) (twins (arc_value zero) (arc_value one)) (whole self.old)) }
        ensures err { OnErr result (whole self.new ≡ whole self.old) }
        ensures told { Told C.done C.lost commit.old commit.new result }
    {
        let children = twins(self.alloc, zero, one)?;
        self.open_to(key)?;
        let left = 64 - self.stem.name.len();
        let gain = children.count();
        let done = graft(&mut self.root, key, left, children, gain, commit);
        self.wind();
        done
    }

    /// Adds a row to the leaf of its key, once the step has succeeded, and returns the new number of rows in this leaf.
    pub(crate) fn put_row<C: Commit>(
        &mut self,
        change: &RowChange,
        commit: &mut C,
    ) -> Result<u64, Undone>
        requires can { C.can commit.old }
        requires height { height (whole self.old) ≤ 64 }
        requires absent { has_under 64 change.now.row (whole self.old) ≡ false }
        ensures ok { OnOk result (whole self.new ≡ put_under 64 change.now (whole self.old)) }
        ensures count { IfOk result (λ n. n ≡ count_under 64 change.now.row (whole self.new)) }
        ensures err { OnErr result (whole self.new ≡ whole self.old) }
        ensures told { Told C.done C.lost commit.old commit.new result }
    {
        self.open_to(change.row.key)?;
        let left = 64 - self.stem.name.len();
        let mut to = Coming {
            change: *change,
            ended: Err(Undone::Memory),
        };
        rows::put_row(&mut self.root, &mut to, left, commit);
        self.counts_hold = to.ended.is_ok();
        self.wind();
        to.ended
    }

    /// Removes a row from the leaf of its key, once the step has succeeded.
    pub(crate) fn take_row<C: Commit>(
        &mut self,
        change: &RowChange,
        commit: &mut C,
    ) -> Result<(), Undone>
        requires can { C.can commit.old }
        requires height { height (whole self.old) ≤ 64 }
        requires present { has_under 64 change.now.row (whole self.old) ≡ true }
        ensures ok { OnOk result (whole self.new ≡ gone_under 64 change.now (whole self.old)) }
        ensures err { OnErr result (whole self.new ≡ whole self.old) }
        ensures told { Told C.done C.lost commit.old commit.new result }
    {
        self.open_to(change.row.key)?;
        let left = 64 - self.stem.name.len();
        let mut from = Going {
            change: *change,
            ended: Err(Undone::Memory),
        };
        rows::take_row(&mut self.root, &mut from, left, commit);
        self.counts_hold = from.ended.is_ok();
        self.wind();
        from.ended
    }

    /// Removes a row and adds another one, once the step has succeeded. Returns the new number of rows in the leaf of
    /// the added row.
    pub(crate) fn shift_row<C: Commit>(
        &mut self,
        from: &RowChange,
        to: &RowChange,
        commit: &mut C,
    ) -> Result<u64, Undone>
        requires can { C.can commit.old }
        requires height { height (whole self.old) ≤ 64 }
        requires rows { MayMove 64 from.now 64 to.now (whole self.old) (gone_under 64 from.now (whole self.old)) }
        ensures ok { OnOk result (whole self.new ≡ put_under 64 to.now (gone_under 64 from.now (whole self.old))) }
        ensures count { IfOk result (λ n. n ≡ count_under 64 to.now.row (whole self.new)) }
        ensures err { OnErr result (whole self.new ≡ whole self.old) }
        ensures told { Told C.done C.lost commit.old commit.new result }
    {
        self.open_to(from.row.key)?;
        self.open_to(to.row.key)?;
        let left = 64 - self.stem.name.len();
        let mut to = Coming {
            change: *to,
            ended: Err(Undone::Memory),
        };
        rows::shift_row(&mut self.root, from, &mut to, left, commit);
        self.counts_hold = to.ended.is_ok();
        self.wind();
        to.ended
    }
}
