//! The first place that two rows share.
ghost use Rattle.std.specs.Prelude.{◌≡◌, ◌-◌, ◌<◌, ◌≤◌, ◌⊎◌, Decides};
ghost use Rattle.overlap.specs.Rows.{Skips, shared_by};

use crate::interval::{first_common, lie_apart};
use crate::row::Row;

/// From number `from` on, the first of a row that is not before a place.
fn skip_before<R: Row>(row: &R, from: usize, place: usize) -> usize
    requires { from ≤ (R.places row.now).many }
    ensures { Skips (R.places row.now).at (R.places row.now).many from place result }
{
    let count = row.len();
    (from..count)
        .find(|k| row.place(*k) >= place)
        .unwrap_or(count)
}

/// One pass over both rows.
fn merged<A: Row, B: Row>(a: &A, b: &B) -> Option<usize>
    ensures { result ≡ shared_by (A.places a.now) (B.places b.now) }
{
    let count = b.len();
    let mut j = 0;
    for k in 0..a.len() {
        let place = a.place(k);
        j = skip_before(b, j, place);
        if j == count {
            return None;
        }
        if b.place(j) == place {
            return Some(k);
        }
    }
    None
}

/// Whether two rows lie one before the other.
fn ends_apart<A: Row, B: Row>(a: &A, b: &B) -> bool
    requires some { 0 < (A.places a.now).many }
    requires other_some { 0 < (B.places b.now).many }
    ensures { Decides result (((A.places a.now).at ((A.places a.now).many - 1) < (B.places b.now).at 0) ⊎ ((B.places b.now).at ((B.places b.now).many - 1) < (A.places a.now).at 0)) }
{
    lie_apart(
        a.place(0),
        a.place(a.len() - 1),
        b.place(0),
        b.place(b.len() - 1),
    )
}

/// The first place that two rows share, by their places.
fn listed_clash<A: Row, B: Row>(a: &A, b: &B) -> Option<usize>
    ensures { result ≡ shared_by (A.places a.now) (B.places b.now) }
{
    if a.len() == 0 || b.len() == 0 || ends_apart(a, b) {
        return None;
    }
    merged(a, b)
}

/// The number in row `a` of the first place that is in row `b` too.
pub(crate) fn first_shared<A: Row, B: Row>(a: &A, b: &B) -> Option<usize>
    ensures { result ≡ shared_by (A.places a.now) (B.places b.now) }
{
    match (a.start(), b.start()) {
        (Some(start), Some(other)) => first_common(start, a.len(), other, b.len()),
        _ => listed_clash(a, b),
    }
}
