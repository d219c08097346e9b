//! Creates a log of no cells.
ghost use Rattle.std.specs.Prelude.{◌≡◌, ◌⊎◌, ◌++◌, ◌∷◌, [], OnOk, IfOk, IfErr, MatchResult};
ghost use Rattle.zorder.specs.Width.{IsWidth};
ghost use Rattle.cell_format.specs.Spelling.{newest, header_text};
ghost use Rattle.recovery.specs.Making.{Makes, RefusesInit, KeepsSmall};

use crate::seen::{InitFault, InitRefused};
use crate::wanted::NEWEST;
use cell_format::header;
use disk_trait::LogDisk;

/// The most bytes that a file may have for `init` to create a log in it: the length of a log of no cells.
const MOST_BYTES: u64 = 17;

/// Creates a log whose splits will create `2 ^ width` children. The file must have at most 17 bytes. A crash during the
/// call leaves at most 17 bytes, of any content, so the call may be repeated.
pub fn init<D: LogDisk>(mut disk: D, width: u8) -> Result<D, InitRefused<D>>
    requires width { IsWidth width }

    ensures made { IfOk result (λ new. Makes width (D.drive disk) (D.drive new)) }
    ensures refused { IfErr result (λ e. RefusesInit (D.drive disk) (D.drive e.disk) e.cause) }
    ensures small { MatchResult result (λ new. KeepsSmall (D.drive disk) (D.drive new)) (λ e. KeepsSmall (D.drive disk) (D.drive e.disk)) }
{
    match make(&mut disk, width) {
        Ok(()) => Ok(disk),
        Err(cause) => Err(InitRefused { disk, cause }),
    }
}

fn make<D: LogDisk>(disk: &mut D, width: u8) -> Result<(), InitFault>
    ensures made { OnOk result (Makes width (D.drive disk.old) (D.drive disk.new)) }
    ensures refused { IfErr result (RefusesInit (D.drive disk.old) (D.drive disk.new)) }
    ensures small { KeepsSmall (D.drive disk.old) (D.drive disk.new) }
{
    let len = disk.len()?;
    if len > MOST_BYTES {
        return Err(InitFault::InUse { len });
    }
    disk.write(0, &empty_log(width))?;
    disk.sync()?;
    Ok(())
}

/// A header and a clear commit byte.
fn empty_log(width: u8) -> [u8; 17]
    ensures { result ≡ header_text newest width ++ 0 ∷ [] }
{
    let mut bytes = [0; 17];
    bytes[..16].copy_from_slice(&header(NEWEST, width));
    bytes
}
