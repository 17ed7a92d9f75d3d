//! Expressions run on examples.
#![tactic(auto)]

#[cfg(test)]
mod formed;
#[cfg(test)]
mod hosts;
#[cfg(test)]
mod reading;
#[cfg(test)]
mod tables;
