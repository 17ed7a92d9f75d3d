//! Names in expressions: which element of its layout a name reads, which names may stand, and what
//! an expression is at the places of a source layout.
#![tactic(auto)]

pub mod binary_table;
pub mod check;
mod element;
pub mod evaluate;
pub mod fault;
pub mod laws;
mod layout_or_scalar;
pub mod permutation;
pub mod places;
mod read;
pub mod scope;
pub mod variable;
