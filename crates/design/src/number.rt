//! Words read as decimal numbers.
ghost use Rattle.std.specs.Prelude.{◌≡◌, Result, slice_index_or};
ghost use Rattle.std.specs.declared.num.ParseIntError.{ParseIntError};
ghost use Rattle.std.specs.Str.Parse.{error_kind};
ghost use Rattle.design.specs.Numbers.{blame, blamed, four};

use std::array;
use std::num::{IntErrorKind, ParseIntError};
use std::str::FromStr;

/// Why a word is not the number that it should be.
#[derive(Clone, Copy, PartialEq, Eq)]
pub enum NumberFault {
    /// It is no decimal number.
    NoNumber,
    /// It is one, but too large or too small.
    OutOfRange,
}

impl From<ParseIntError> for NumberFault {
    ghost from_gives = { λ e fault. fault ≡ blame (error_kind e) };

    fn from(e: ParseIntError) -> NumberFault {
        match e.kind() {
            IntErrorKind::PosOverflow | IntErrorKind::NegOverflow => NumberFault::OutOfRange,
            IntErrorKind::Empty | IntErrorKind::InvalidDigit | IntErrorKind::Zero =>
                NumberFault::NoNumber,
        }
    }
}

/// The number that a word writes in decimal, after a sign if any.
pub fn number<N: FromStr<Err = ParseIntError>>(word: &str) -> Result<N, NumberFault>
    ensures { (p : Result N ParseIntError) × N.from_str_gives word.now p × (result ≡ blamed p) }
{
    Ok(word.parse::<N>()?)
}

/// The first four of some items, and `beyond` where there are fewer.
pub fn first_four<T: Copy>(items: &[T], beyond: T) -> [T; 4]
    ensures { result ≡ four beyond items.now }
{
    array::from_fn(|i| items.get(i).copied().unwrap_or(beyond))
}
