//! Opens and closes a store over a log in a file, and continues it over a second file.
//!
//! Contracts see what an opening finds as the origin of the store. It is what the cells of the log leave.
//! - `open_store` creates the log if the file has at most 17 bytes, and opens it. It also returns the latest moment,
//!   and how many objects and records it found (`OpensStore`). If it refuses, it returns the drive and the cause. A
//!   crash then leaves what was in the file (`NotOpens`).
//! - `close_store` returns the drive. If no append failed, the log has the cells that the opening found, and then those of
//!   the history that the last pass has seen (`ClosesStore`). So the next opening begins with what the last close left
//!   (`finds-closed`, proofs/Again).
//! - `rotate_store` continues over a second file. It writes the objects and the leaves there as a fresh log, and only
//!   then ends the store and empties the first log (`IsRotated`). If nothing was written, it returns the store
//!   (`NotRotated::Kept`).
//! - `rotate_anew` does the same with the leaves that the bucket size requires for the objects (`FitsSize`). No other
//!   leaves that need no split are fewer (`fewest`, proofs/Fewest).
//! - `open_either` opens both files, and continues over the one that has records (`OpensEither`). If a crash during a
//!   rotation left records in both files, they leave the same objects. So the store begins with the objects that the
//!   history left, wherever the crash came (`finds-left`, proofs/Between).
//! - `open_at_sync`, `open_either_at_sync`, `close_at_sync` and `rotate_at_sync` do the same for a store whose records may
//!   wait in memory for a sync (`IsAtSync`). Such a close writes what waits. If it can't, `ClosesUnsynced` says what the
//!   file may lack. `let_wait` makes such a store of one that was opened or rotated.
//! - `let_rotate` makes of such a store, or of one that writes each record at once, one that keeps the drive of a second
//!   file, over which it may continue while its history goes on (`Rotating`). `close_rotating` writes what waits, and
//!   returns both drives. If nothing is lost, the next opening begins with the objects that the history left, however many
//!   fresh logs have replaced the log (`ClosesMoved`; `finds-moved`, proofs/MovedAgain).
//! - `rotate_above` continues a store over its second file inside a call, if its log has more than so many records. The
//!   history goes on, and other callers only wait (`MovesOver`). If a drive fails, the store takes no more calls
//!   (`StopsStore`). `tend` does so if the store is due (`Turn`), and is what the calls of a client do now and then.
//!
//! Not here: the calls of a store (`sessions`), and shorter calls (`store_client`).
#![tactic(auto)]

mod closing;
mod either;
mod faults;
mod files;
mod moving;
mod objects;
mod opening;
mod rotating;
mod rotating_at_sync;
mod spare;
mod start;
mod waiting;

pub use closing::{ClosedStore, close_over, close_store};
pub use either::{OpenedEither, Which, open_either, open_either_at_sync};
pub use faults::{EitherCause, NotEither, NotOpened, OpenCause};
pub use moving::{NotRotatedOver, Rotation, StayCause, rotate_above, tend};
pub use objects::latest_of;
pub use opening::{LEAST_BUCKET, MOST_BUCKET, OpenedStore, open_at_sync, open_over, open_store};
pub use rotating::{NotRotated, RotateCause, Rotated, rotate_anew, rotate_store};
pub use rotating_at_sync::{EndCause, EndedRotation, rotate_at_sync};
pub use spare::{ClosedPair, NotPaired, close_rotating, let_rotate};
pub use start::{AtSync, OverFile, Rotating};
pub use waiting::{SyncCause, Unsynced, close_at_sync, let_wait};
