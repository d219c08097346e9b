//! A value that counts its entries. All of them are the same call.
ghost use Rattle.std.specs.Prelude.{◌≡◌, [], ◌∷◌, ◌++◌, replicate, MatchBool};
ghost use Rattle.benches.specs.Tally.{one_find};

use book_lock::Held;

#[derive(Drop)]
pub struct Tally {
    finds: u64,
    is_slow: bool,
}

impl Held for Tally {
    ghost use Rattle.book_lock.specs.Rule.{no_origin};

    ghost entries = { λ t. replicate t.finds one_find };

    ghost origin = { λ _. no_origin };

    fn events(&self) -> u64 {
        self.finds
    }

    fn is_slow(&self) -> bool {
        self.is_slow
    }
}

impl Tally {
    /// A tally without entries. `is_slow` says whether its rounds are slow or quick.
    pub fn new(is_slow: bool) -> Tally
        ensures { result.finds ≡ 0 }
    {
        Tally { finds: 0, is_slow }
    }

    pub fn count(&self) -> u64
        ensures { result ≡ self.now.finds }
    {
        self.finds
    }

    // Counts one more, unless the count is at its limit. Returns whether it did.
    pub(crate) fn add(&mut self) -> bool
        ensures { MatchBool result (replicate self.new.finds one_find ≡ replicate self.old.finds one_find ++ one_find ∷ [])
            (self.new ≡ self.old) }
    {
        match self.finds.checked_add(1) {
            Some(finds) => {
                self.finds = finds;
                true
            }
            None => false,
        }
    }
}
