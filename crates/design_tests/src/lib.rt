//! Tests of reading designs, of reports and of pictures.
#![tactic(auto)]

#[cfg(test)]
mod pictures;
#[cfg(test)]
mod refusals;
#[cfg(test)]
mod reports;
