//! Definitions and lemmas that lead from lanes to one history, and to its splits. The top call cites them.
//!
//! The lanes were played on one store, each with the rows of one session. Their passes were joined to one with the
//! whole history. The calls of each session in that history are a prefix of its rows. A row that a lane kept has the
//! place of its call there, and the answer of the plain list at that place.
//!
//! The splits at the end were settled. Then the history stayed below its limits. If no lane had a fault, no split is
//! open, and each leaf is within the size or there was no room. Begins of leaves other than the first full one are no
//! more than the calls.
//!
//! Not here: how a lane is played and how a split is made (`sessions`), and lines (`csv_rows`).
#![tactic(auto)]
