//! The lengths that a record determines, and where its last successful sync is.
use crate::touches::Touch;

/// The lengths of a file after some entries of its record, and the number of entries up to the last sync that
/// succeeded.
#[derive(Clone, Copy)]
pub struct Scan {
    pub len: usize,
    pub cut: usize,
    pub least: usize,
    pub greatest: usize,
    pub synced: usize,
}

impl Scan {
    ghost use Rattle.std.specs.Prelude.{◌≡◌, ℕ, ◌+◌, ◌<◌, ◌≤◌, ◌^◌, List, length};
    ghost use Rattle.std.specs.List.{All};
    ghost use Rattle.disk_mem.specs.Recorded.{IsStored};
    ghost use Rattle.disk_mem.specs.Scans.{scanned, IsSmall, IsScan};

    /// Scans the record of a file that began with these bytes and nothing pending.
    pub fn of(first: &[u8], touches: &[Touch]) -> Scan
        requires { All IsSmall touches.now }
        ensures synced { result.synced ≤ length touches.now }
        ensures scan { (pieces : List ℕ) → All (IsStored (length pieces)) touches.now → IsScan first.now pieces touches.now result }
    {
        let len = first.len();
        let mut scan = Scan {
            len,
            cut: len,
            least: len,
            greatest: len,
            synced: 0,
        };
        for (before, touch) in touches.iter().enumerate() {
            scan = scan.with(*touch, before);
        }
        scan
    }

    fn with(self, touch: Touch, before: usize) -> Scan
        requires small { IsSmall touch }
        requires fits { before + 1 < 2 ^ 64 }
        ensures { result ≡ scanned touch before self }
    {
        match touch {
            Touch::Wrote { at, len, .. } => Scan {
                len: self.len.max(at.min(self.len) + len),
                greatest: self.greatest.max(at + len),
                ..self
            },
            Touch::FailedWrite { at, len } => Scan {
                greatest: self.greatest.max(at + len),
                ..self
            },
            Touch::DidCut { len } => Scan {
                len: len.min(self.len),
                cut: self.cut.min(len),
                least: self.least.min(len),
                ..self
            },
            Touch::FailedCut { len } => Scan {
                cut: self.cut.min(len),
                least: self.least.min(len),
                ..self
            },
            Touch::Synced => Scan {
                len: self.len,
                cut: self.len,
                least: self.len,
                greatest: self.len,
                synced: before + 1,
            },
            Touch::FailedSync => self,
        }
    }
}
