//! The rule of the lock, and the kinds of step that keep it. These types are for proofs alone.
ghost use Rattle.book_lock.specs.Rule.{LockRule, newcomer, without_parts, parts_from, note_of, both, spent};
ghost use Rattle.book_lock.specs.Steps.{taken, noted, released, compared};

use crate::held::Held;
use crate::view::View;
use atomic_table::{Join, Play, Split, TableRule};
use std::marker::{Brand, PhantomData};
use std::snapshot::Snapshot;

pub struct Law;

impl<V: Held> TableRule<Option<V>, View, Snapshot<V>> for Law {
    ghost holds = { λ key. LockRule V.entries V.origin (V.origin key.value) };

    ghost first = { λ key. newcomer (V.origin key.value) };
}

/// A seat takes the lock, if the lock was free.
pub struct Take;

impl<V: Held> Play<Option<V>, View> for Take {
    ghost then = { taken V.entries V.origin };
}

/// The entry that a step adds. Each call of `note` chooses it.
pub trait Noting {
    ghost use Rattle.plain_list.specs.declared.entries.Entry.{Entry};

    ghost entry: { Entry };
}

impl Noting for Brand {
    ghost use Rattle.plain_list.specs.declared.entries.Entry.TheVariants.{Install};

    ghost entry = { Install 0 };
}

/// An entry is added to the history.
pub struct Note<J> {
    entry: PhantomData<J>,
}

impl<V, J: Noting> Play<Option<V>, View> for Note<J> {
    ghost then = { noted J.entry };
}

/// The lock is free again.
pub struct Release;

impl<V> Play<Option<V>, View> for Release {
    ghost then = { released };
}

/// What was told is compared with what was seen.
pub struct Compare;

impl<V> Play<Option<V>, View> for Compare {
    ghost then = { compared };
}

/// The parts of a seat that is split off. Each call of `split_parts` chooses how many.
pub trait Sharing {
    ghost use Rattle.std.specs.Prelude.{ℕ};

    ghost parts: { ℕ };
}

impl Sharing for Brand {
    ghost parts = { 1 };
}

/// A seat with some of the parts is split off.
pub struct Cut<J> {
    parts: PhantomData<J>,
}

impl<J: Sharing> Split<View> for Cut<J> {
    ghost left = { without_parts J.parts };

    ghost right = { parts_from J.parts };
}

/// A seat without a part, which carries what was seen.
pub struct Copy;

impl Split<View> for Copy {
    ghost left = { λ v. v };

    ghost right = { note_of };
}

/// Two seats become one.
pub struct Both;

impl Join<View> for Both {
    ghost both = { both };

    ghost spent = { spent };
}
