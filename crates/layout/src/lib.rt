//! Layouts of tensors: which indices have a number, and which number each has.
//!
//! A catalogue is asked by layout number; everything above it is written once, for any catalogue.
#![tactic(auto)]

pub mod catalogue;
pub mod fault;
pub mod find;
pub mod index;
pub mod kind;
pub mod layout_ref;
pub mod room;
pub mod shape;
