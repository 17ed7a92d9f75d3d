//! Questions about layouts and translations.
ghost use Rattle.std.specs.Prelude.{Some};
ghost use Rattle.design.specs.Keywords.{lookup_word};

use layout::index::Index;
use std::fmt;

/// An index as a question gives it: so many entries, and 0 beyond. All four are looked up, so they
/// are no list that ends.
#[derive(Clone, Copy)]
pub struct Entries {
    pub count: usize,
    pub index: Index,
}

/// How an index is looked up.
#[derive(Clone, Copy, PartialEq, Eq)]
pub enum Lookup {
    /// An entry above 0 on an axis of length 1 counts as 0.
    Wide,
    /// The index is found only inside the shape.
    Strict,
}

impl fmt::Display for Lookup {
    ghost output = { λ how. Some (lookup_word how) };

    fn fmt<W: fmt::Write>(&self, f: &mut fmt::Formatter<W>) -> fmt::Result {
        f.write_str(match *self {
            Lookup::Wide => "wide",
            Lookup::Strict => "strict",
        })
    }
}

/// What a question asks.
#[derive(Clone, Copy)]
pub enum Ask {
    /// The lookup of an index.
    Lookup {
        how: Lookup,
        layout: usize,
        entries: Entries,
    },
    /// The place with a number.
    Place {
        layout: usize,
        number: usize,
    },
    /// How a source makes the elements of a via.
    From {
        source: usize,
        via: usize,
    },
    /// The translation of a source by way of a via that begins at `start` in a target.
    Trans {
        source: usize,
        via: usize,
        target: usize,
        start: Entries,
    },
}

/// A question with its line: the line's number, and its text without a comment.
#[derive(Clone, Copy)]
pub struct Question<'a> {
    pub line: usize,
    pub text: &'a str,
    pub ask: Ask,
}
