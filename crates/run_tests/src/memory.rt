//! Runs of the program over ends in memory. Each test of the top call begins with them.
//!
//! Only here tests call `run`. The function has no clauses, so the proof of a test knows nothing of the promise that it
//! tries. The test compares what a run left while it runs.
mod inputs;
mod left;
mod logs;
mod noting;
mod plan;
mod runs;

pub use inputs::repeated;
pub use left::Left;
pub use logs::{EMPTY_LOG, EMPTY_QUAD_LOG, PUT_LOG, TWO_LEAVES_LOG};
pub use plan::Plan;
pub use runs::{held_disk, run_both, run_drives, run_gated, run_over, run_plan};
