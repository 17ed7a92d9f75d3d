//! What the stage keeps of tensors, blocks, variables and binary tables, how much of each table and
//! buffer is in use, and how much may be.
#![tactic(auto)]

pub mod counts;
pub mod limits;
pub mod record;
