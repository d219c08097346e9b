//! Opens the log in a file, and creates a book on it.
ghost use Rattle.std.specs.Prelude.{◌≡◌, [], false, Some, None, IfOk, IfErr};
ghost use Rattle.kept_log.specs.Kept.{IsOpened, found_state};
ghost use Rattle.recovery.specs.Found.{IsFound};
ghost use Rattle.run_ends.specs.Limits.{oldest_played, most_played};
ghost use Rattle.play_run.specs.inside.Books.{IsNewBook, OpensFile};
ghost use Rattle.play_run.specs.Playing.{IsNotOpened};

use commit_book::Book;
use disk_trait::LogDisk;
use index_layer::Index;
use plain_list::World;
use recovery::{OpenRefused, Opened, OpenedLog, Wanted, open_log};
use run_ends::{MOST_PLAYED, Refusal, Unmade, attach, log_refusal};
use std::alloc::Global;

/// Opens the log in a file of this name, if it has the newest version, with the width that it has.
pub(crate) fn open_file<D: LogDisk>(
    alloc: Global,
    file: &str,
    mut disk: D,
) -> Result<OpenedLog<D>, Unmade<D>>
    ensures opened { IfOk result (λ l. OpensFile file.now (D.drive disk) (D.drive l.opened.start.value)
        (D.drive l.opened.log.disk) l.width l.opened.seen) }
    ensures log { IfOk result (λ l. (l.opened.log.cells ≡ l.opened.seen.cells) × (l.opened.log.failed ≡ None)) }
    ensures refused { IfErr result (λ e. IsNotOpened file.now (D.drive disk) (D.drive e.disk) e.why) }
{
    if let Err(why) = attach(alloc, file, false, &mut disk) {
        return Err(Unmade { disk, why });
    }
    let wanted = Wanted {
        width: None,
        most: MOST_PLAYED,
    };
    match open_log(alloc, disk, wanted) {
        Ok(log) => Ok(log),
        Err(OpenRefused { disk, cause }) => {
            let why = log_refusal(cause);
            Err(Unmade { disk, why })
        }
    }
}

/// Creates a book on an opened log. `size` is the bucket size in rows.
pub(crate) fn book_of<I: Index, D: LogDisk>(
    alloc: Global,
    opened: Opened<D>,
    size: u32,
) -> Result<Book<I, D>, Unmade<D>>
    requires log { (opened.log.cells ≡ opened.seen.cells) × (opened.log.failed ≡ None) }
    requires found { IsFound oldest_played I.WIDTH most_played (D.drive opened.start.value) opened.seen }
    requires ready { IsOpened I.WIDTH (found_state opened.seen) (D.drive opened.start.value) (D.drive opened.log.disk) }
    ensures opening { IfOk result (λ b. (b.opening ≡ found_state opened.seen) × (b.bucket ≡ size)) }
    ensures log { IfOk result (λ b. b.log ≡ Some (record {
      disk = opened.log.disk;
      cells = opened.log.cells;
      failed = None;
      start = opened.start.value;
      first = opened.log.cells;
      waiting = [];
      at_sync = false;
      moves = false;
      earlier = None;
    })) }
    ensures new { IfOk result (λ b. IsNewBook b) }
    ensures back { IfErr result (λ e. (e.disk ≡ opened.log.disk) × (e.why ≡ Refusal.Memory)) }
{
    let _objects = opened.seen.world.as_slice();
    match Book::opened(alloc, opened, size) {
        Ok(book) => Ok(book),
        Err(back) => Err(Unmade {
            disk: back.log.give_back(),
            why: Refusal::Memory,
        }),
    }
}
