//! Short calls on a store: a client is one caller, with all that it needs.
//!
//! Contracts see a `Client` as its pass, its session, the number of its next row, the place of its last answer, and what
//! that call has changed.
//!
//! | Call | What it does |
//! |---|---|
//! | `ask` | one call of the store, and then the split of a full leaf (`Asked`) |
//! | `put`, `move_to`, `remove`, `find`, `within`, `nearest` | the same call, each with just its own answers |
//! | `report` | a move, or a put if there is no such object |
//! | `apply` | all operations of a `Batch` as one step (`Applies`) |
//! | `world`, `world_at`, `view` | a copy of all objects, also with its place, or a view without a copy |
//! | `place`, `last_change` | the place of the last call that was answered, and what it has changed |
//! | `Replies::changes` | what a batch has changed |
//! | `closed` | the record whose append failed, if one did |
//! | `rotate_above` | lets the store continue over its second file, if its log has so many records (`RotatesAbove`) |
//! | `another`, `join`, `learn` | share the store with other callers |
//! | `work_all` | lets a team work at once, each in its own thread (`TeamDid`) |
//! | `host` | lets a crew work at once, by clients that it takes from a `Pool` and gives back (`HasHosted`) |
//!
//! No call changes a client's store, its origin, its parts or its session (`Keeps`). So a caller that has joined all
//! clients again may rotate or close the store. The limits of a store are constants here.
//!
//! Not here: what a store is, and how it is opened and closed (`sessions`).
#![tactic(auto)]

mod answers;
mod batch;
mod batches;
mod changes;
mod client;
mod crowd;
mod guest;
mod limits;
mod pool;
mod rotating;
mod service;
mod shares;
mod syncing;
mod tending;
mod verbs;

pub use answers::{
    Listed, MoveReply, PutReply, Report, at_reply, gone_reply, listed_reply, move_reply,
    nearest_reply, put_reply, put_report,
};
pub use batch::{Batch, MOST_BATCH, NotAdded};
pub use batches::{Replies, more_splits, rows_of, split_some};
pub use client::{Client, Reply, try_split};
pub use crowd::{Work, Worker, at_once};
pub use guest::Guest;
pub use limits::{
    MOST_CELLS, MOST_CELLS_TO_BEGIN, MOST_CLIENTS, MOST_LISTED, MOST_MEMBERS, MOST_NEAREST,
    has_no_room,
};
pub use plain_list::Change;
pub use pool::{Lender, Pool};
pub use service::Service;
pub use tending::{tend_and_apply, tend_and_call};
