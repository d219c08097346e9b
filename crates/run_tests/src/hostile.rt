//! The top call against everything that can go wrong around it.
//!
//! Damaged logs; drives, sources and sinks that fail; what a crash leaves; ids that all sessions share; and lanes that
//! wait for each other. The expected results come from the tables of docs/FORMATS, written again here (`records`).
mod clock;
mod compacts;
mod crashes;
mod damage;
mod draws;
mod ends;
mod follows;
mod gates;
mod machine;
mod one_id;
pub mod records;
pub mod runs;
mod schedules;
mod shared_ids;
