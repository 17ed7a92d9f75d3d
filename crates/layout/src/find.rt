//! What is worked out above any catalogue, asked by number.
ghost use Rattle.std.specs.Prelude.{◌≡◌};
ghost use Rattle.layout.specs.Answers.{wide_asked, SameAsked};

use crate::catalogue::Catalogue;
use crate::fault::LayoutFault;
use crate::index::Index;
use crate::layout_ref::LayoutRef;

/// The number of an index, looked up wide: an entry above 0 on an axis of length 1 counts as 0,
/// except in diagonal layouts.
pub fn find_nnz_index<C: Catalogue>(
    c: &C,
    layout: usize,
    index: Index,
) -> Result<Option<usize>, LayoutFault>
    ensures { result ≡ wide_asked (C.layouts c.now) layout index }
{
    Ok(LayoutRef::new(c, layout)?.find_nnz_index(index))
}

/// Whether two layouts have the same kind, shape and places.
pub fn eq_nonzeros<C: Catalogue>(c: &C, a: usize, b: usize) -> Result<bool, LayoutFault>
    ensures { SameAsked (C.layouts c.now) a b result }
{
    let s = LayoutRef::new(c, a)?;
    let t = LayoutRef::new(c, b)?;
    Ok(a == b || s.eq_nonzeros(&t))
}
