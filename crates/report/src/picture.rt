//! Pictures of layouts.
ghost use Rattle.std.specs.Prelude.{◌≡◌, ◌<◌, ◌≤◌, ◌++◌, length, string_bytes, OnOk};
ghost use Rattle.layout.specs.Layouts.{rank, strict};
ghost use Rattle.report.specs.Told.{cell_index};
ghost use Rattle.report.specs.Pictures.{width_of, cell_text, row_text, grid_text, place_text, more_text, list_text, picture_text, picture_asked};

use crate::text::{first, put_joined};
use layout::catalogue::Catalogue;
use layout::layout_ref::LayoutRef;
use std::alloc::AllocError;

/// Larger pictures are not drawn.
const MOST_ROWS: usize = 16;

const MOST_COLUMNS: usize = 16;

/// No more places are listed.
const MOST_PLACES: usize = 32;

/// The number of the place that a picture has at a row and a column.
fn cell<C: Catalogue>(layout: &LayoutRef<C>, row: usize, column: usize) -> Option<usize>
    requires rows { row < 16 }
    requires columns { column < 16 }
    ensures { result ≡ strict layout.now (cell_index (rank layout.now) row column) }
{
    let index = if layout.rank() < 2 {
        [column as i64, 0, 0, 0]
    } else {
        [row as i64, column as i64, 0, 0]
    };
    layout.number(index)
}

/// How wide the numbers below `count` are at most, in a picture.
fn width_below(count: usize) -> usize
    ensures { result ≡ width_of count }
{
    match count {
        0..=10 => 1,
        11..=100 => 2,
        _ => 3,
    }
}

/// Writes a cell: the number of a place, or a dot where there is none.
#[tactic(auto, using(crate::proofs::Cells::number_on_the_right, crate::proofs::Cells::dot_on_the_right))]
fn put_cell(out: &mut String, width: usize, number: Option<usize>) -> Result<(), AllocError>
    ensures { OnOk result (string_bytes out.new ≡ string_bytes out.old ++ cell_text width number) }
{
    match number {
        Some(number) => write!(out, " {number:>width$}"),
        None => write!(out, " {:>width$}", "."),
    }
}

#[tactic(auto, using(crate::proofs::Texts::more_counted))]
fn put_row<C: Catalogue>(
    out: &mut String,
    layout: &LayoutRef<C>,
    row: usize,
    columns: usize,
) -> Result<(), AllocError>
    requires rows { row < 16 }
    requires columns { columns ≤ 16 }
    ensures { OnOk result (string_bytes out.new ≡ string_bytes out.old ++ row_text layout.now columns row) }
{
    let width = width_below(layout.count());
    write!(out, "   ")?;
    for column in 0..columns {
        put_cell(out, width, cell(layout, row, column))?;
    }
    writeln!(out)
}

#[tactic(auto, using(crate::proofs::Texts::more_counted))]
fn put_grid<C: Catalogue>(
    out: &mut String,
    layout: &LayoutRef<C>,
    rows: usize,
    columns: usize,
) -> Result<(), AllocError>
    ensures { OnOk result (string_bytes out.new ≡ string_bytes out.old ++ grid_text layout.now rows columns) }
{
    if rows > MOST_ROWS || columns > MOST_COLUMNS {
        return writeln!(out, "    too large to draw");
    }
    for row in 0..rows {
        put_row(out, layout, row, columns)?;
    }
    Ok(())
}

fn put_place<C: Catalogue>(
    out: &mut String,
    layout: &LayoutRef<C>,
    number: usize,
) -> Result<(), AllocError>
    ensures { OnOk result (string_bytes out.new ≡ string_bytes out.old ++ place_text layout.now number) }
{
    let place = layout.place_or_zeros(number);
    write!(out, "    place {number}: (")?;
    put_joined(out, first(&place, layout.rank()), ", ")?;
    writeln!(out, ")")
}

/// Writes how many of so many places are not listed, if any.
fn put_more(out: &mut String, count: usize) -> Result<(), AllocError>
    ensures { OnOk result (string_bytes out.new ≡ string_bytes out.old ++ more_text count) }
{
    if count > MOST_PLACES {
        let more = count - MOST_PLACES;
        writeln!(out, "    .. and {more} more")
    } else {
        Ok(())
    }
}

#[tactic(auto, using(crate::proofs::Texts::more_counted, crate::proofs::Texts::then_written))]
fn put_list<C: Catalogue>(out: &mut String, layout: &LayoutRef<C>) -> Result<(), AllocError>
    ensures { OnOk result (string_bytes out.new ≡ string_bytes out.old ++ list_text layout.now) }
{
    let count = layout.count();
    for number in 0..count.min(MOST_PLACES) {
        put_place(out, layout, number)?;
    }
    put_more(out, count)
}

/// Writes the places of a layout: up to two axes drawn, with a `.` where there is no place, and more axes listed; one line that says so where it is too large to draw.
pub fn put_picture<C: Catalogue>(out: &mut String, layout: &LayoutRef<C>) -> Result<(), AllocError>
    ensures { OnOk result (string_bytes out.new ≡ string_bytes out.old ++ picture_text layout.now) }
{
    let shape = layout.shape();
    match shape.rank {
        0 | 1 => put_grid(out, layout, 1, shape.lengths[0]),
        2 => put_grid(out, layout, shape.lengths[0], shape.lengths[1]),
        _ => put_list(out, layout),
    }
}

/// Writes the picture of the layout with a number, whatever the number is: nothing where there is no such layout.
#[tactic(auto, using(crate::proofs::Pictured::picture_found))]
pub fn put_picture_of<C: Catalogue>(
    out: &mut String,
    c: &C,
    layout: usize,
) -> Result<(), AllocError>
    ensures none { length (C.layouts c.now) ≤ layout → out.new ≡ out.old }
    ensures there { OnOk result (string_bytes out.new ≡ string_bytes out.old ++ picture_asked (C.layouts c.now) layout) }
{
    match LayoutRef::new(c, layout) {
        Ok(layout) => put_picture(out, &layout),
        Err(_) => Ok(()),
    }
}
