//! Expressions: nodes in postfix order, the functions that they call, and the hosts that answer for these.
#![tactic(auto)]

pub mod codes;
pub mod fault;
pub mod formed;
pub mod function;
pub mod functions;
pub mod host;
pub mod laws;
pub mod letters;
pub mod node;
pub mod root_host;
pub mod table_host;
