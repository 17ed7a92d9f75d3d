//! A catalogue that reads its layouts from lent records and a lent pool of entries.
#![tactic(auto)]

mod kept_layout;
mod places;
pub mod record;
pub mod rules;
mod sparse;
pub mod table;
