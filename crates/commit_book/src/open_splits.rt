//! The splits that have begun and not ended.
ghost use Rattle.std.specs.Prelude.{◌≡◌, ◌+◌, ◌-◌, ◌<◌, ◌^◌, ◌++◌, ◌∷◌, [], OnOk, length};
ghost use Rattle.plain_list.specs.State.{split_name, without_number};
ghost use Rattle.commit_book.specs.Moves.{first_open};
ghost use Rattle.commit_book.specs.Refusals.{split_number, is_open};
ghost use Rattle.point_table.specs.Splits.{splits_of};

use point_table::Begun;
use std::alloc::{AllocError, Global};
use std::marker::Model;
use zorder::Name;

/// Open splits in the order of their begins, with memory for one that is promised.
#[derive(Drop)]
pub(crate) struct OpenSplits {
    splits: Vec<Begun>,
    begun: u64,
    room: usize,
}

impl Model for OpenSplits {
    ghost use Rattle.commit_book.specs.SplitsView.{SplitsView};

    ghost Value = { SplitsView };

    ghost use Rattle.commit_book.specs.Splits.{opens_of, HasRoom};

    ghost view = { opens_of };

    ghost invariant = { HasRoom };
}

impl OpenSplits {
    /// No open split, after this many were begun.
    pub(crate) fn after(alloc: Global, begun: u64) -> OpenSplits
        ensures { result ≡ record { splits = []; begun = begun; room = 0 } }
    {
        OpenSplits {
            splits: Vec::new(alloc),
            begun,
            room: 0,
        }
    }

    /// The open splits, in the order of their begins.
    pub(crate) fn as_slice(&self) -> &[Begun]
        ensures { splits_of result.now ≡ self.now.splits }
    {
        &self.splits
    }

    /// How many splits are open.
    pub(crate) fn len(&self) -> usize
        ensures { result ≡ length self.now.splits }
    {
        self.splits.len()
    }

    /// The number of the split that began first of those that are open.
    pub(crate) fn first(&self) -> Option<u64>
        ensures { result ≡ first_open self.now.splits }
    {
        first_among(&self.splits)
    }

    /// The number of the open split of this name.
    pub(crate) fn number(&self, name: &Name) -> Option<u64>
        ensures { result ≡ split_number self.now.splits name.now }
    {
        number_among(&self.splits, name)
    }

    /// The name of the open split with this number.
    pub(crate) fn name(&self, number: u64) -> Option<Name>
        ensures { result ≡ split_name self.now.splits number }
    {
        name_among(&self.splits, number)
    }

    /// Whether the open split with this number has this name.
    pub(crate) fn is_open(&self, number: u64, name: &Name) -> bool
        ensures { result ≡ is_open self.now.splits number name.now }
    {
        match self.name(number) {
            Some(other) => other == *name,
            None => false,
        }
    }

    /// Makes room for one more split.
    pub(crate) fn reserve(&mut self) -> Result<(), AllocError>
        ensures splits { self.new.splits ≡ self.old.splits }
        ensures begun { self.new.begun ≡ self.old.begun }
        ensures ok { OnOk result (self.new.room ≡ 1) }
    {
        self.room = 0;
        self.splits.reserve(1)?;
        self.room = 1;
        Ok(())
    }

    /// How many splits were ever begun.
    pub(crate) fn begun(&self) -> u64
        ensures { result ≡ self.now.begun }
    {
        self.begun
    }

    /// The number of the split that begins next.
    pub(crate) fn next_number(&self) -> u64
        requires { self.now.begun < 2 ^ 63 }
        ensures { result ≡ self.now.begun + 1 }
    {
        self.begun + 1
    }

    /// Begins a split, which uses one place of the room.
    pub(crate) fn push(&mut self, name: &Name)
        requires room { 0 < self.old.room }
        requires few { self.old.begun < 2 ^ 63 }
        ensures splits { self.new.splits ≡ self.old.splits ++ record { number = self.old.begun + 1; name = name.now } ∷ [] }
        ensures begun { self.new.begun ≡ self.old.begun + 1 }
    {
        self.room -= 1;
        self.begun += 1;
        let _ = self.splits.push(Begun {
            number: self.begun,
            name: *name,
        });
    }

    /// Ends the split with this number.
    pub(crate) fn remove(&mut self, number: u64)
        ensures splits { self.new.splits ≡ without_number number self.old.splits }
        ensures begun { self.new.begun ≡ self.old.begun }
    {
        self.room = 0;
        self.splits.retain(|s| s.number != number);
    }
}

fn first_among(splits: &[Begun]) -> Option<u64>
    ensures { result ≡ first_open (splits_of splits.now) }
{
    match splits.first() {
        Some(split) => Some(split.number),
        None => None,
    }
}

fn number_among(splits: &[Begun], name: &Name) -> Option<u64>
    ensures { result ≡ split_number (splits_of splits.now) name.now }
{
    for split in splits {
        if split.name == *name {
            return Some(split.number);
        }
    }
    None
}

fn name_among(splits: &[Begun], number: u64) -> Option<Name>
    ensures { result ≡ split_name (splits_of splits.now) number }
{
    for split in splits {
        if split.number == number {
            return Some(split.name);
        }
    }
    None
}
