//! Whether a new block would store into a place that an earlier block of its tensor has stored into.
#![tactic(auto)]

pub mod blocks;
pub mod clash;
mod interval;
pub mod laws;
mod merge;
mod row;
pub mod shared;
