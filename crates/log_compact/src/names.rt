//! The inner names of leaves, one after the other.
ghost use Rattle.std.specs.Prelude.{◌≡◌, ◌+◌, ◌<◌, ◌∷◌, [], length, MatchOption};
ghost use Rattle.log_compact.specs.Walk.{left_at, names_left, all_new_names};

use std::marker::Model;
use zorder::{Name, first_bits};

/// An iterator over the inner names of leaves. Each name comes at the first leaf under it, so the iterator needs no
/// memory. Contracts see it as the names that are left.
#[derive(Drop)]
pub(crate) struct InnerNames<'a> {
    width: u8,
    leaves: &'a [Name],
    // The least number of bits of the next name at the first of the leaves.
    least: u8,
}

impl<'a> Model for InnerNames<'a> {
    ghost use Rattle.std.specs.Prelude.{Bool, List, ◌<◌};
    ghost use Rattle.log_compact.specs.Walk.{names_left};

    ghost Value = { List (List Bool) };

    ghost view = { λ n. names_left n.width n.leaves.now n.least };

    ghost invariant = { λ n. 0 < n.width };
}

impl<'a> InnerNames<'a> {
    pub(crate) fn over(leaves: &'a [Name], width: u8) -> InnerNames<'a>
        requires { 0 < width }
        ensures { result ≡ all_new_names width leaves.now }
    {
        InnerNames {
            width,
            leaves,
            least: 0,
        }
    }
}

impl<'a> Iterator for InnerNames<'a> {
    ghost use Rattle.std.specs.Iterator.{YieldsFirst, item_count};

    type Item = Name;

    ghost next_gives = { YieldsFirst (λ left. left) };

    ghost remaining = { item_count (λ left. left) };

    fn next(&mut self) -> Option<Name> {
        match next_name(self.leaves, self.least, self.width) {
            Some((name, leaves)) => {
                self.leaves = leaves;
                self.least = name.len() + 1;
                Some(name)
            }
            None => {
                self.leaves = &[];
                None
            }
        }
    }
}

// The first of the names that are left, and the leaves from its own first leaf on.
fn next_name<'a>(leaves: &'a [Name], least: u8, width: u8) -> Option<(Name, &'a [Name])>
    requires { 0 < width }
    ensures { MatchOption result (names_left width leaves.now least ≡ [])
        (λ next. names_left width leaves.now least ≡ next.0 ∷ names_left width next.1.now (length next.0 + 1)) }
{
    let mut left = leaves;
    let mut from = least;
    'leaves: while let Some((leaf, others)) = left.split_first() {
        if let Some(name) = next_at(leaf, from, width) {
            return Some((name, left));
        }
        left = others;
        from = 0;
    }
    None
}

// The first name that comes at this leaf and has at least `least` bits.
fn next_at(leaf: &Name, least: u8, width: u8) -> Option<Name>
    requires { 0 < width }
    ensures { MatchOption result (left_at width leaf.now least ≡ [])
        (λ name. left_at width leaf.now least ≡ name ∷ left_at width leaf.now (length name + 1)) }
{
    for len in least..leaf.len() {
        let name = first_bits(leaf.bits(), len);
        if len % width == 0 && name.bits() == leaf.bits() {
            return Some(name);
        }
    }
    None
}
