//! The names of the leaves that are to be split, in key order.
ghost use Rattle.std.specs.Prelude.{◌≡◌, ◌==◌, ◌+◌, ◌-◌, ◌<◌, ◌≤◌, [], IfOk, OnOk, length, vec_len, vec_capacity};
ghost use Rattle.std.specs.List.{list_any};
ghost use Rattle.zorder.specs.SameName.{same_name};
ghost use Rattle.plain_list.specs.State.{is_splitting};
ghost use Rattle.point_table.specs.Crowded.{AreRising, remarked, remarked_each, marked, unmarked, key_place, has_key, first_free};
ghost use Rattle.point_table.specs.Crowds.{is_crowded};
ghost use Rattle.point_table.specs.Splits.{splits_of};

use bucket_versions::Bucket;
use std::alloc::{AllocError, Global};
use std::marker::Model;
use zorder::Name;

/// A split that has begun and not ended.
#[derive(Clone, Copy, Debug)]
pub struct Begun {
    pub number: u64,
    pub name: Name,
}

/// A leaf's name, and whether it is to be split.
#[derive(Clone, Copy)]
pub(crate) struct Mark {
    pub(crate) name: Name,
    pub(crate) crowded: bool,
}

/// Names of leaves in the order of their first keys, with memory for those that are promised.
#[derive(Drop)]
pub(crate) struct Crowded {
    names: Vec<Name>,
    room: usize,
}

impl Model for Crowded {
    ghost use Rattle.point_table.specs.Crowded.{Crowd};

    ghost Value = { Crowd };

    ghost use Rattle.point_table.specs.CrowdedInside.{crowd_of, IsCrowded};

    ghost view = { crowd_of };

    ghost invariant = { IsCrowded };
}

impl Crowded {
    pub(crate) fn new(alloc: Global) -> Crowded
        ensures { result ≡ record { names = []; room = 0 } }
    {
        Crowded {
            names: Vec::new(alloc),
            room: 0,
        }
    }

    /// Takes names in key order. There is no room for more until `reserve`.
    pub(crate) fn from_names(names: Vec<Name>) -> Crowded
        requires { AreRising names.items }
        ensures { result ≡ record { names = names.items; room = 0 } }
    {
        Crowded { names, room: 0 }
    }

    /// Copies the names. The copy has no room for more until `reserve`.
    pub(crate) fn copy(&self, alloc: Global) -> Result<Crowded, AllocError>
        ensures { IfOk result (λ copy. copy ≡ record { names = self.now.names; room = 0 }) }
    {
        Ok(Crowded {
            names: Vec::from_slice(alloc, &self.names)?,
            room: 0,
        })
    }

    pub(crate) fn is_empty(&self) -> bool
        ensures { result ≡ (length self.now.names == 0) }
    {
        self.names.is_empty()
    }

    /// The first name in key order that has no open split.
    pub(crate) fn first_free(&self, begun: &[Begun]) -> Option<Name>
        ensures { result ≡ first_free (splits_of begun.now) self.now.names }
    {
        free_among(&self.names, begun)
    }

    /// Makes room for this many more names, at most 4. On `Err` the names are unchanged and there is no room.
    pub(crate) fn reserve(&mut self, names: usize) -> Result<(), AllocError>
        requires { names ≤ 4 }
        ensures names { self.new.names ≡ self.old.names }
        ensures ok { OnOk result (self.new.room ≡ names) }
    {
        self.room = 0;
        self.names.reserve(names)?;
        self.room = names;
        Ok(())
    }

    /// Inserts a name if its leaf is crowded, or removes the one with the same first key if not. Uses one place of the
    /// room.
    pub(crate) fn set(&mut self, name: &Name, crowded: bool)
        requires { 0 < self.old.room }
        ensures { self.new ≡ record { names = remarked crowded name.now self.old.names; room = self.old.room - 1 } }
    {
        self.room -= 1;
        if crowded {
            mark_name(&mut self.names, name);
        } else {
            unmark_name(&mut self.names, name);
        }
    }

    /// Sets the name of each leaf, the last one first.
    pub(crate) fn set_each(&mut self, mut marks: Vec<Mark>)
        requires { length marks.items ≤ self.old.room }
        ensures { self.new ≡ record { names = remarked_each marks.items self.old.names; room = self.old.room - length marks.items } }
    {
        while let Some(mark) = marks.pop() {
            self.set(&mark.name, mark.crowded);
        }
    }
}

fn free_among(names: &[Name], begun: &[Begun]) -> Option<Name>
    ensures { result ≡ first_free (splits_of begun.now) names.now }
{
    for name in names {
        if !is_among(begun, name) {
            return Some(*name);
        }
    }
    None
}

/// Whether a split of this name is open.
pub fn is_among(begun: &[Begun], name: &Name) -> bool
    ensures { result ≡ is_splitting (splits_of begun.now) name.now }
{
    has_name(begun, name)
}

fn has_name(begun: &[Begun], name: &Name) -> bool
    ensures { result ≡ list_any (λ b. same_name b.name name.now) begun.now }
{
    begun.iter().any(|s| s.name == *name)
}

fn place_of(names: &[Name], name: &Name) -> usize
    requires { AreRising names.now }
    ensures place { result ≡ key_place name.now names.now }
    ensures within { result ≤ length names.now }
{
    let key = name.bits();
    names.partition_point(|other| other.bits() < key)
}

// Whether the name at this index has this first key.
fn has_key(names: &[Name], place: usize, key: u64) -> bool
    ensures { result ≡ has_key place key names.now }
{
    match names.get(place) {
        Some(name) => name.bits() == key,
        None => false,
    }
}

fn mark_name(names: &mut Vec<Name>, name: &Name)
    requires rising { AreRising names.old.items }
    requires room { vec_len names.old < vec_capacity names.old }
    ensures names { names.new.items ≡ marked name.now names.old.items }
    ensures room { vec_capacity names.old ≤ vec_capacity names.new }
{
    let place = place_of(names, name);
    if has_key(names, place, name.bits()) {
        names[place] = *name;
    } else {
        let _ = names.insert(place, *name);
    }
}

fn unmark_name(names: &mut Vec<Name>, name: &Name)
    requires { AreRising names.old.items }
    ensures names { names.new.items ≡ unmarked name.now names.old.items }
    ensures room { vec_capacity names.old ≤ vec_capacity names.new }
{
    let place = place_of(names, name);
    if has_key(names, place, name.bits()) {
        names.remove(place);
    }
}

/// Whether a leaf has more rows than the size, and bits left to split it.
pub(crate) fn is_over(size: u32, width: u8, name: &Name, bucket: &Bucket) -> bool
    ensures { result ≡ is_crowded width size (record { name = name.now; bucket = bucket.now }) }
{
    bucket.count() > u64::from(size) && u32::from(name.len()) + u32::from(width) <= 64
}
