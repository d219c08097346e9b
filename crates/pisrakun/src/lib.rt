//! What a program needs to keep moving objects in a store: the one crate to name.
//!
//! | To do | Begin with |
//! |---|---|
//! | keep objects in memory | `MemoryStore::in_memory` |
//! | keep them in a file, or in two alternately | `FileStore::open_file`, `FileStore::open_pair` |
//! | make many changes per sync | `BufferedStore::open_file`, `BufferedStore::open_pair`, and `sync` |
//! | put, move, find, remove and ask | the calls of the store: `put`, `report`, `find`, `within`, `nearest`, .. |
//! | make many changes in one step | `apply`, with a `Batch` |
//! | see what it has, and how much more it takes | `len`, `count`, `room`, `status`, `world_at` |
//! | learn whether it takes more calls | `closed` |
//! | let threads share it | `work_all`, and a `Work` for each thread, which calls by a `Client` |
//! | let threads take clients whenever they like | `pool`, and a `Service` for each thread, which calls by a `Guest` |
//! | ask several questions of one moment | `view`, which returns a `View` |
//! | let it continue over a second file by itself, while others call | `RotatingStore::open_pair` |
//! | do so by hand, with an empty history | `rotate`, and `or_kept` if it is refused |
//! | watch fences | `Fences`, `Tally`, and `last_change` after each call |
//!
//! Both are an `ObjectStore`: a store with the right to call and to end it, in one value. Contracts see it as a caller
//! that has all parts of the store. So the answer of each call is exactly that of a plain list of the objects as they
//! are (`DoesNow`), and you may lend a store to any function without a clause about it.
//!
//! A store is over an `Index`: `KdTrie` splits a leaf into two and `QuadTrie` into four. A drive is a `FileDisk`, or any
//! other `LogDisk`; a store in memory has none, and its drive is `NoDrive`, which no call returns. The guide is
//! docs/LIBRARY.md. The parts of a store (`Store`, `Pass`, `Client`), and the functions over them, are here too, for
//! programs that hand out clients by themselves: `into_parts` and `from_parts` lead there and back.
//!
//! Each other name comes from the crate that its contract names. Not here: logs by themselves (`recovery`,
//! `log_compact`), a follower of a log (`follower`), and the rows of CSV (`csv_rows`).
#![tactic(auto)]

mod batches;
mod buffered_store;
mod file_store;
mod label;
mod lending;
mod looks;
mod memory;
mod memory_store;
mod no_drive;
mod object_store;
mod pool;
mod rotating_store;
mod session;
mod syncing;
mod team;
mod verbs;

pub use book_lock::Pass;
pub use browse_query::Browse;
pub use buffered_store::BufferedStore;
pub use commit_book::Book;
pub use commit_book::BookFault;
pub use commit_book::Room;
pub use disk_file::FileDisk;
pub use disk_file::Reason;
pub use disk_trait::LogDisk;
pub use fence_watch::AlongFault;
pub use fence_watch::BadFences;
pub use fence_watch::Crossing;
pub use fence_watch::Event;
pub use fence_watch::Fence;
pub use fence_watch::FenceCount;
pub use fence_watch::Fences;
pub use fence_watch::MOST_FENCE_EVENTS;
pub use fence_watch::MOST_FENCES;
pub use fence_watch::Tally;
pub use fence_watch::WatchFault;
pub use file_store::EndedStore;
pub use file_store::FileStore;
pub use file_store::Found;
pub use file_store::KeptStore;
pub use file_store::NotRotatedStore;
pub use file_store::OpenedPair;
pub use file_store::RotatedStore;
pub use index_layer::Index;
pub use index_view::View;
pub use index_view::Visit;
pub use io_edge::OpenGate;
pub use kd_trie::KdTrie;
pub use label::Label;
pub use lending::Errand;
pub use looks::Status;
pub use memory::InMemory;
pub use memory::NotInMemory;
pub use memory::in_memory;
pub use memory_store::MemoryStore;
pub use no_drive::NoDrive;
pub use object_store::ObjectStore;
pub use plain_list::Answer;
pub use plain_list::Change;
pub use plain_list::Entries;
pub use plain_list::Entry;
pub use plain_list::Member;
pub use plain_list::Op;
pub use plain_list::PlacedList;
pub use plain_list::Stamped;
pub use plain_list::World;
pub use quad_trie::QuadTrie;
pub use rotating_store::OpenedRotating;
pub use rotating_store::RotatingStore;
pub use session::Session;
pub use sessions::CallFault;
pub use sessions::Settled;
pub use sessions::SharedBook;
pub use sessions::Split;
pub use sessions::Start;
pub use sessions::Store;
pub use sessions::WorldAt;
pub use store_client::Batch;
pub use store_client::Client;
pub use store_client::Guest;
pub use store_client::Lender;
pub use store_client::Listed;
pub use store_client::MOST_BATCH;
pub use store_client::MOST_CELLS;
pub use store_client::MOST_CLIENTS;
pub use store_client::MOST_LISTED;
pub use store_client::MOST_MEMBERS;
pub use store_client::MOST_NEAREST;
pub use store_client::MoveReply;
pub use store_client::NotAdded;
pub use store_client::Pool;
pub use store_client::PutReply;
pub use store_client::Replies;
pub use store_client::Reply;
pub use store_client::Report;
pub use store_client::Service;
pub use store_client::Work;
pub use store_client::Worker;
pub use store_client::at_once;
pub use store_file::AtSync;
pub use store_file::ClosedPair;
pub use store_file::ClosedStore;
pub use store_file::EitherCause;
pub use store_file::EndCause;
pub use store_file::EndedRotation;
pub use store_file::LEAST_BUCKET;
pub use store_file::MOST_BUCKET;
pub use store_file::NotEither;
pub use store_file::NotOpened;
pub use store_file::NotPaired;
pub use store_file::NotRotated;
pub use store_file::NotRotatedOver;
pub use store_file::OpenCause;
pub use store_file::OpenedEither;
pub use store_file::OpenedStore;
pub use store_file::OverFile;
pub use store_file::RotateCause;
pub use store_file::Rotated;
pub use store_file::Rotating;
pub use store_file::Rotation;
pub use store_file::StayCause;
pub use store_file::SyncCause;
pub use store_file::Unsynced;
pub use store_file::Which;
pub use store_file::close_at_sync;
pub use store_file::close_rotating;
pub use store_file::close_store;
pub use store_file::let_rotate;
pub use store_file::let_wait;
pub use store_file::open_at_sync;
pub use store_file::open_either;
pub use store_file::open_either_at_sync;
pub use store_file::open_store;
pub use store_file::rotate_anew;
pub use store_file::rotate_at_sync;
pub use store_file::rotate_store;
pub use zorder::Memory;
pub use zorder::Name;
pub use zorder::Placed;
pub use zorder::Point;
pub use zorder::Region;
