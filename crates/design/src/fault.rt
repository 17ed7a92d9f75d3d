//! What is wrong with a design, and what was expected in its place.
use layout::fault::Rule;
use layout::kind::LayoutKind;
use std::alloc::{AllocError, AllocFailed};
use std::fmt;

/// Why a word does not fit where it stands.
#[derive(Clone, Copy)]
pub enum Odd {
    /// It means nothing here.
    Unknown,
    /// It begins lines that are not read yet.
    Unread,
    /// It is no decimal number.
    NoNumber,
    /// It is a number that is too large or too small for its use.
    OutOfRange,
    /// It is a `:` or `,` that does not belong here.
    OutOfPlace,
    /// It stands after the last word of its line.
    Extra,
}

impl fmt::Display for Odd {
    fn fmt<W: fmt::Write>(&self, f: &mut fmt::Formatter<W>) -> fmt::Result {
        f.write_str(match *self {
            Odd::Unknown => "is unknown",
            Odd::Unread => "lines are not read yet",
            Odd::NoNumber => "is no number here",
            Odd::OutOfRange => "is out of range",
            Odd::OutOfPlace => "is out of place",
            Odd::Extra => "is a word too many",
        })
    }
}

/// What a line has, or lacks, where something else was expected.
#[derive(Clone, Copy)]
pub enum What<'a> {
    /// The line ends.
    End,
    /// A word that does not fit.
    Word(&'a str, Odd),
    /// A place with so many entries, fewer than the shape has axes.
    ShortPlace { place: usize, entries: usize },
    /// A place with an entry for each axis, and then this word.
    LongPlace { place: usize, word: &'a str },
    /// An index with so many entries, fewer or more than the layout has axes.
    Entries(usize),
}

/// So many entries, as they are told.
#[derive(Clone, Copy)]
struct EntryCount(usize);

impl fmt::Display for EntryCount {
    fn fmt<W: fmt::Write>(&self, f: &mut fmt::Formatter<W>) -> fmt::Result {
        match self.0 {
            1 => write!(f, "1 entry"),
            n => write!(f, "{n} entries"),
        }
    }
}

impl fmt::Display for What<'_> {
    fn fmt<W: fmt::Write>(&self, f: &mut fmt::Formatter<W>) -> fmt::Result {
        match *self {
            What::End => write!(f, "the line ends here"),
            What::Word(word, odd) => write!(f, "`{word}` {odd}"),
            What::ShortPlace { place, entries } => write!(
                f,
                "place {place} has {}",
                EntryCount(entries)
            ),
            What::LongPlace { place, word } => write!(f, "place {place} goes on with `{word}`"),
            What::Entries(entries) => write!(f, "the index has {}", EntryCount(entries)),
        }
    }
}

/// What a line was expected to have.
#[derive(Clone, Copy)]
pub enum Expected {
    Command,
    Kind,
    /// The number of a layout.
    Layout,
    /// The length of an axis.
    Length,
    /// `:`, before the places of a sparse layout.
    Colon,
    /// An entry of a place of a sparse layout.
    PlaceEntry,
    /// An entry of an index that is looked up.
    IndexEntry,
    /// The number of a place.
    Place,
    /// Entries for no more axes than a layout can have.
    FewEntries,
    /// `,` or the end, after a place's entries.
    Comma,
    End,
    /// So many entries, one for each axis.
    Entries(usize),
}

impl fmt::Display for Expected {
    fn fmt<W: fmt::Write>(&self, f: &mut fmt::Formatter<W>) -> fmt::Result {
        match *self {
            Expected::Command => write!(f, "layout, find, number, place, from or trans"),
            Expected::Kind => write!(f, "dense, diagonal or sparse"),
            Expected::Layout => write!(f, "the number of a layout, from 0"),
            Expected::Length => write!(f, "the length of an axis, 1 to 4,096"),
            Expected::Colon => write!(f, "`:` and the places"),
            Expected::PlaceEntry => write!(f, "an entry of 0 to 65,535"),
            Expected::IndexEntry => write!(f, "an entry that fits 64 bits with a sign"),
            Expected::Place => write!(f, "the number of a place, which fits 64 bits"),
            Expected::FewEntries => write!(f, "at most 4 entries"),
            Expected::Comma => write!(f, "`,` or the end of the line"),
            Expected::End => write!(f, "the end of the line"),
            Expected::Entries(n) => write!(f, "{}, one for each axis", EntryCount(n)),
        }
    }
}

/// Why a design is refused.
#[derive(Clone, Copy)]
pub enum Fault<'a> {
    /// There is not enough memory.
    Memory,
    /// A line is not as the format has it.
    Line {
        line: usize,
        what: What<'a>,
        expected: Expected,
    },
    /// A layout breaks a rule, the first that it breaks.
    Layout {
        line: usize,
        layout: usize,
        broken: Broken,
    },
}

impl<'a> From<AllocError> for Fault<'a> {
    fn from(_e: AllocError) -> Fault<'a> {
        Fault::Memory
    }
}

impl<'a, T: Drop> From<AllocFailed<T>> for Fault<'a> {
    fn from(_e: AllocFailed<T>) -> Fault<'a> {
        Fault::Memory
    }
}

/// A rule that a layout of a kind breaks.
#[derive(Clone, Copy)]
pub struct Broken {
    pub kind: LayoutKind,
    pub rule: Rule,
}

/// The fewest axes of a layout of a kind.
fn least_rank(kind: LayoutKind) -> usize {
    match kind {
        LayoutKind::Dense => 0,
        LayoutKind::Diagonal | LayoutKind::Sparse => 1,
    }
}

impl fmt::Display for Broken {
    fn fmt<W: fmt::Write>(&self, f: &mut fmt::Formatter<W>) -> fmt::Result {
        let Broken { kind, rule } = *self;
        match rule {
            Rule::Room => write!(f, "there is no room for so many layouts"),
            Rule::Kind => write!(f, "there can be no layout of this kind here"),
            Rule::Rank => write!(
                f,
                "a {kind} layout must have {} to 4 axes",
                least_rank(kind)
            ),
            Rule::Length => write!(f, "each axis must have a length of 1 to 4,096"),
            Rule::Count => write!(f, "a layout must have 1 to 65,536 places"),
            Rule::Axes => write!(f, "the axes of a diagonal layout must be of one length"),
            Rule::Pool => write!(f, "each place must have an entry for each axis"),
            Rule::Inside => write!(f, "each place must be inside the shape"),
            Rule::Order => write!(f, "each place must come before the next one"),
        }
    }
}

/// A fault with the name of the file that it is in, as it is told.
#[derive(Clone, Copy)]
pub struct Complaint<'a> {
    pub file: &'a str,
    pub fault: Fault<'a>,
}

impl fmt::Display for Complaint<'_> {
    fn fmt<W: fmt::Write>(&self, f: &mut fmt::Formatter<W>) -> fmt::Result {
        let file = self.file;
        match self.fault {
            Fault::Memory => write!(f, "{file}: there is not enough memory"),
            Fault::Line {
                line,
                what,
                expected,
            } => write!(f, "{file}:{line}: {what}, expected {expected}"),
            Fault::Layout {
                line,
                layout,
                broken,
            } => write!(f, "{file}:{line}: layout {layout}: {broken}"),
        }
    }
}
