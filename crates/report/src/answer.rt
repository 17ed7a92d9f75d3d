//! Answers to lookups.
ghost use Rattle.std.specs.Prelude.{◌≡◌};
ghost use Rattle.report.specs.Told.{lookup_told, place_found, place_told};

use design::ask::Lookup;
use layout::catalogue::Catalogue;
use layout::fault::LayoutFault;
use layout::index::Index;
use layout::layout_ref::LayoutRef;

/// What a lookup finds.
#[derive(Clone, Copy)]
pub enum Found {
    /// The number of a place.
    Number(usize),
    /// A place: the first `rank` entries of an index.
    Place { rank: usize, index: Index },
}

/// What is found in a layout, if it has such a place.
pub type Answer = Result<Option<Found>, LayoutFault>;

/// The number of an index.
pub fn lookup_answer<C: Catalogue>(c: &C, how: Lookup, layout: usize, index: Index) -> Answer
    ensures { result ≡ lookup_told how (C.layouts c.now) layout index }
{
    let layout = LayoutRef::new(c, layout)?;
    let number = match how {
        Lookup::Wide => layout.find_nnz_index(index),
        Lookup::Strict => layout.number(index),
    };
    Ok(number.map(Found::Number))
}

fn find_place<C: Catalogue>(layout: &LayoutRef<C>, number: usize) -> Option<Found>
    ensures { result ≡ place_found layout.now number }
{
    let index = layout.place(number)?;
    Some(Found::Place {
        rank: layout.rank(),
        index,
    })
}

/// The place with a number.
pub fn place_answer<C: Catalogue>(c: &C, layout: usize, number: usize) -> Answer
    ensures { result ≡ place_told (C.layouts c.now) layout number }
{
    Ok(find_place(&LayoutRef::new(c, layout)?, number))
}
