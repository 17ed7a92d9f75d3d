//! Letters of blocks and names.
ghost use Rattle.std.specs.Prelude.{◌≡◌, ◌≤◌, length};
ghost use Rattle.expression.specs.Letterings.{letters_of, position, among, distinct};

use crate::node::Letters;

/// The letters that are meant.
pub fn meant(l: &Letters) -> &[u8]
    ensures value { result.now ≡ letters_of l.now }
    ensures few { length result.now ≤ 4 }
{
    let n = usize::from(l.count).min(4);
    &l.codes[..n]
}

/// Where a letter stands, or how many letters there are.
pub fn position_of(letter: u8, letters: &[u8]) -> usize
    ensures value { result ≡ position letter letters.now }
    ensures within { result ≤ length letters.now }
{
    letters
        .iter()
        .position(|l| *l == letter)
        .unwrap_or(letters.len())
}

/// Whether a letter stands among letters.
pub fn is_among(letter: u8, letters: &[u8]) -> bool
    ensures { result ≡ among letter letters.now }
{
    letters.contains(&letter)
}

/// Whether no letter stands twice.
pub fn are_distinct(letters: &[u8]) -> bool
    ensures { result ≡ distinct letters.now }
{
    let mut rest = letters;
    while let Some((letter, after)) = rest.split_first() {
        if is_among(*letter, after) {
            return false;
        }
        rest = after;
    }
    true
}
