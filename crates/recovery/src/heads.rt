//! Reads the head of a file: the version and the width of its log.
ghost use Rattle.std.specs.Prelude.{◌≡◌, ◌≢◌, ◌⊎◌, ◌≤◌, ℕ, true, false, List, Some, None, length, take, drop, replicate, IfOk, IfErr, IfSome};
ghost use Rattle.cell_format.specs.Spelling.{newest, header_text};
ghost use Rattle.recovery.specs.declared.seen.OpenFault.{OpenFault};
ghost use Rattle.recovery.specs.declared.seen.OpenFault.TheVariants.{OldLog, Memory};
ghost use Rattle.recovery.specs.Found.{IsWanted};
ghost use Rattle.recovery.specs.Headers.{HasHeader, HasHead, FailsHead, RefusesHead};
ghost use Rattle.recovery.specs.Reading.{OnlyReads};
ghost use Rattle.recovery.specs.Walks.{RefusesWalk};
ghost use Rattle.zorder.specs.Width.{IsWidth};
ghost use Rattle.recovery.specs.Widths.{HasOtherHead, IsWidthOf};
ghost use Rattle.recovery.specs.Wanted.{IsWidthFor, IsNoWidthFor, IsOtherFor};

use crate::seen::OpenFault;
use crate::wanted::{FIRST, NEWEST};
use cell_format::header;
use disk_trait::LogDisk;

/// The version and the width that the head of a log names.
#[derive(Clone, Copy)]
pub(crate) struct Head {
    pub(crate) version: u8,
    pub(crate) width: u8,
}

/// Returns the width that the head of a log of version 1 or 2 names. Use it if you need nothing else of the log.
pub fn width_of<D: LogDisk>(disk: &mut D) -> Result<u8, OpenFault>
    ensures told { IfOk result (IsWidthOf (D.drive disk.old)) }
    ensures refused { IfErr result (λ e. (e ≢ Memory) × ((most : ℕ) → RefusesWalk None most (D.drive disk.old) (D.drive disk.new) e)) }
    ensures reads { OnlyReads (D.drive disk.old) (D.drive disk.new) result }
{
    let len = disk.len()?;
    let head = read_wanted(disk, len, FIRST, None)?;
    Ok(head.width)
}

/// Reads the head of a file of `len` bytes.
pub(crate) fn read_head<D: LogDisk>(disk: &mut D, len: u64) -> Result<Head, OpenFault>
    requires len { (xs : List ℕ) → (D.drive disk.old).bytes ≡ Some xs → length xs ≡ len }

    ensures ok { IfOk result (λ h. (17 ≤ len) × ((xs : List ℕ) → (D.drive disk.old).bytes ≡ Some xs → HasHeader h.version h.width xs)) }
    ensures err { IfErr result (FailsHead (D.drive disk.old)) }
    ensures reads { OnlyReads (D.drive disk.old) (D.drive disk.new) result }
{
    if len < 17 {
        return Err(OpenFault::NotLog);
    }
    let mut bytes = [0; 16];
    let got = disk.read(0, &mut bytes)?;
    if got < 16 {
        return Err(OpenFault::NotLog);
    }
    if !has_marks(&bytes) {
        return Err(OpenFault::NotLog);
    }
    Ok(Head {
        version: bytes[8],
        width: bytes[9],
    })
}

/// Reads the head of a file of `len` bytes, if its log is wanted: of version `oldest` or later, and of the width that
/// `wanted` names. `None` means either width.
pub(crate) fn read_wanted<D: LogDisk>(
    disk: &mut D,
    len: u64,
    oldest: u8,
    wanted: Option<u8>,
) -> Result<Head, OpenFault>
    requires len { (xs : List ℕ) → (D.drive disk.old).bytes ≡ Some xs → length xs ≡ len }
    requires width { IfSome wanted IsWidth }

    ensures ok { IfOk result (λ h. HasHead oldest wanted len (D.drive disk.old) h.version h.width) }
    ensures err { IfErr result (RefusesHead oldest wanted (D.drive disk.old)) }
    ensures reads { OnlyReads (D.drive disk.old) (D.drive disk.new) result }
{
    let head = read_head(disk, len)?;
    head.wanted(oldest, wanted)
}

impl Head {
    /// Returns the head if its log is wanted.
    fn wanted(self, oldest: u8, wanted: Option<u8>) -> Result<Head, OpenFault>
        ensures ok { IfOk result (λ h. (h ≡ self) × IsWanted oldest self.version × IsWidthFor wanted self.width) }
        ensures err { IfErr result (λ e. (e ≡ OldLog self.version self.width) × IsOtherFor oldest wanted self.version self.width) }
    {
        if self.version < oldest || NEWEST < self.version || !self.has_width(wanted) {
            return Err(OpenFault::OldLog {
                version: self.version,
                width: self.width,
            });
        }
        Ok(self)
    }

    fn has_width(self, wanted: Option<u8>) -> bool
        ensures yes { result ≡ true → IsWidthFor wanted self.width }
        ensures no { result ≡ false → IsNoWidthFor wanted self.width }
    {
        match wanted {
            Some(width) => self.width == width,
            None => self.width == 1 || self.width == 2,
        }
    }
}

/// Whether the file begins with the letters of a header and has its zeros.
fn has_marks(head: &[u8; 16]) -> bool
    ensures yes { result ≡ true → (take 8 head.now ≡ take 8 (header_text newest 1)) × (take 6 (drop 10 head.now) ≡ replicate 6 0) }
    ensures no { result ≡ false → HasOtherHead head.now }
{
    let whole = header(NEWEST, 1);
    head[..8] == whole[..8] && head[10..] == whole[10..]
}
