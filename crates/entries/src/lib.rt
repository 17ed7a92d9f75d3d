//! What a block adds to the index table besides its translation: the places of a sparse source, and
//! the binary tables that its names need, each once.
#![tactic(auto)]

pub mod fresh;
pub mod needed;
pub mod write;
