//! The splits that were begun and haven't ended.
ghost use Rattle.std.specs.Prelude.{◌≡◌, ◌≢◌, ◌++◌, [], ◌∷◌, true, false, Some, length, OnOk, OnErr};
ghost use Rattle.plain_list.specs.State.{split_name, without_number};
ghost use Rattle.recovery.specs.SplitMap.{AreBelow, IsRisingSplits, without_split};

use std::alloc::{AllocError, Global};
use std::collections::BTreeMap;
use std::marker::Model;
use zorder::Name;

/// The name of each open split, by its number. Contracts see them as a list in the order of their begins.
#[derive(Drop)]
pub(crate) struct SplitMap {
    names: BTreeMap<u64, Name>,
}

impl Model for SplitMap {
    ghost use Rattle.std.specs.Prelude.{List};
    ghost use Rattle.plain_list.specs.State.{OpenSplit};

    ghost Value = { List OpenSplit };

    ghost use Rattle.recovery.specs.SplitMap.{splits_of, IsRisingSplits};

    ghost view = { λ m. splits_of m.names.entries };

    ghost invariant = { λ m. IsRisingSplits (splits_of m.names.entries) };
}

impl SplitMap {
    pub(crate) fn new(alloc: Global) -> SplitMap
        ensures { result ≡ [] }
    {
        SplitMap {
            names: BTreeMap::new(alloc),
        }
    }

    pub(crate) fn len(&self) -> usize
        ensures len { result ≡ length self.now }
        ensures rising { IsRisingSplits self.now }
    {
        self.names.len()
    }

    /// The name of the split with this number.
    pub(crate) fn name(&self, number: u64) -> Option<Name>
        ensures { result ≡ split_name self.now number }
    {
        self.names.get(&number).copied()
    }

    /// Adds a split whose number is above all others. It replaces the split `earlier`, if that split is open and has
    /// the same name.
    pub(crate) fn begin_again(
        &mut self,
        earlier: u64,
        number: u64,
        name: Name,
    ) -> Result<(), AllocError>
        requires { AreBelow number self.old }
        ensures ok { OnOk result (self.new ≡ without_split earlier name self.old ++ record { number = number; name = name } ∷ []) }
        ensures err { OnErr result (self.new ≡ self.old) }
    {
        let again = self.is_split(earlier, &name);
        self.push(number, name)?;
        if again {
            self.remove(earlier);
        }
        Ok(())
    }

    /// Whether the split with this number is open and has this name.
    fn is_split(&self, number: u64, name: &Name) -> bool
        ensures yes { result ≡ true → split_name self.now number ≡ Some name.now }
        ensures no { result ≡ false → split_name self.now number ≢ Some name.now }
        ensures rising { IsRisingSplits self.now }
    {
        let _rising = self.names.len();
        let Some(found) = self.name(number) else {
            return false;
        };
        found == *name
    }

    fn push(&mut self, number: u64, name: Name) -> Result<(), AllocError>
        requires { AreBelow number self.old }
        ensures ok { OnOk result (self.new ≡ self.old ++ record { number = number; name = name } ∷ []) }
        ensures err { OnErr result (self.new ≡ self.old) }
    {
        self.names.insert(number, name)?;
        Ok(())
    }

    /// Removes the split with this number, if it is open.
    pub(crate) fn remove(&mut self, number: u64)
        ensures { self.new ≡ without_number number self.old }
    {
        self.names.remove(&number);
    }
}
