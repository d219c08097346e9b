//! Reads the rows of a CSV input, and writes rows and answers as text.
//!
//! Contracts see the rows of an input as `rows_of` its bytes: a list of rows, or the first fault. Both come from the
//! records that `csv` reads. `read_rows` returns exactly this, or fails if memory runs out. Contracts see `Rows` as a
//! list of rows, each of which keeps the rules of its columns.
//!
//! `write_title`, `write_line` and `write_rows` put exactly the texts that `Lines` and `RowLines` define, and take no
//! memory. The text of `write_rows` reads as the same rows. A `Gathered` puts many lines in large pieces. Other crates
//! write their lines into a `Piece`.
//!
//! `read_table` reads rows of any type that implements `ReadsRow`. Contracts see these rows as `rows_of_text` of a
//! `Table`, which says what a record means after the rows before it.
//!
//! Not here: the answers to operations (`plain_list`), refusals and the lines of commands (`run_ends`).
#![tactic(auto)]

mod columns;
mod fields;
mod gathering;
mod lines;
mod numbers;
mod pieces;
mod read;
mod records;
mod row_lines;
mod rows;
mod tables;
mod written;

pub use columns::{COORDINATE, ID, Rule, at_least, point_of};
pub use fields::{field_in, is_text, number_at};
pub use gathering::Gathered;
pub use lines::{write_line, write_title};
pub use numbers::number_in;
pub use pieces::{Piece, add_number, add_pair, make_room, push_str};
pub use read::read_rows;
pub use row_lines::write_rows;
pub use rows::{InRow, Rows, RowsFault, Wrong};
pub use tables::{ReadsRow, read_table};
