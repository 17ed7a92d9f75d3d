//! The kinds of layout, and the words for them.
ghost use Rattle.std.specs.Prelude.{Some};
ghost use Rattle.layout.specs.Words.{kind_word, KindRead};

use std::fmt;
use std::str::FromStr;

/// Which indices a layout has places for.
#[derive(Clone, Copy, PartialEq, Eq)]
pub enum LayoutKind {
    /// Every index inside the shape.
    Dense,
    /// The indices with equal entries, of a shape with equal axes.
    Diagonal,
    /// A list of indices, in order.
    Sparse,
}

impl fmt::Display for LayoutKind {
    ghost output = { λ kind. Some (kind_word kind) };

    fn fmt<W: fmt::Write>(&self, f: &mut fmt::Formatter<W>) -> fmt::Result {
        f.write_str(match *self {
            LayoutKind::Dense => "dense",
            LayoutKind::Diagonal => "diagonal",
            LayoutKind::Sparse => "sparse",
        })
    }
}

/// A word that names no kind.
#[derive(Clone, Copy, PartialEq, Eq)]
pub struct UnknownKind;

impl FromStr for LayoutKind {
    type Err = UnknownKind;

    ghost from_str_gives = { KindRead };

    fn from_str(word: &str) -> Result<LayoutKind, UnknownKind> {
        match word {
            "dense" => Ok(LayoutKind::Dense),
            "diagonal" => Ok(LayoutKind::Diagonal),
            "sparse" => Ok(LayoutKind::Sparse),
            _ => Err(UnknownKind),
        }
    }
}
