//! Reading a key bit by bit, on the way down a trie.
ghost use Rattle.std.specs.Prelude.{◌≡◌, ◌<◌, ◌≤◌, ◌-◌, ◌==◌};
ghost use Rattle.std.specs.Int.{bit_at};

/// Returns whether the first of the last `left` bits of a key is 1.
pub fn next_bit(key: u64, left: u8) -> bool
    requires some { 0 < left }
    requires most { left ≤ 64 }
    ensures { result ≡ (bit_at key (left - 1) == 1) }
{
    (key >> (left - 1)) % 2 == 1
}
