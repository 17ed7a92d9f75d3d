//! Which refusal a call meets, in which order, and what an accepted one adds: nothing is written here.
#![tactic(auto)]

pub mod call;
pub mod check;
pub mod fault;
pub mod opening;
pub mod phase;
mod room;
