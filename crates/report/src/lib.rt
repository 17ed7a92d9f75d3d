//! Answers a design: as a report in plain words, or as facts for comparing.
#![tactic(auto)]

pub mod answer;
pub mod block;
pub mod facts;
pub mod picture;
pub mod report;
pub mod run;
pub mod text;
pub mod translations;
pub mod words;
