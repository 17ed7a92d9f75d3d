//! What a catalogue says of a layout without naming its places.
use crate::kind::LayoutKind;

/// One layout without its places. A length from the rank on is 1.
#[derive(Clone, Copy, PartialEq, Eq)]
pub struct Shape {
    pub kind: LayoutKind,
    pub rank: usize,
    pub lengths: [usize; 4],
    pub count: usize,
}
