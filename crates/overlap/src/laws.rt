//! That recorded blocks are what the search for a clash requires.
ghost use Rattle.overlap.specs.Laws.{MadeOrderly, StaysOrderly};

/// A block is orderly once it is recorded, and stays so while the index table grows.
pub fn orderly_laws_stand()
    ensures made { MadeOrderly }
    ensures stays { StaysOrderly }
{}
