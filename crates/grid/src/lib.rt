//! A catalogue of dense and diagonal layouts that keeps their shapes and works the places out.
#![tactic(auto)]

pub mod grid;
mod radix;
pub mod rules;
pub mod shapes;
pub mod sound_shape;
