//! What an opening comes to.
ghost use Rattle.std.specs.Prelude.{◌≡◌, true};
ghost use Rattle.layout.specs.Layouts.{blank, count as count_of};
ghost use Rattle.names.specs.Variables.{class_of};
ghost use Rattle.planning.specs.Openings.{offset_for, opening_adds, opening_fits, opened_as, opening as OpeningOf};

use crate::fault::StageFault;
use crate::phase::{Incoming, check_phase};
use crate::room::{fits, is_opening_short};
use layout::catalogue::Catalogue;
use names::variable::Class;
use records::counts::{Amounts, Counts, Room};
use records::limits::LIMITS;
use records::record::TensorRecord;

/// What a new tensor of a class adds to each table and buffer.
pub fn opening_amounts(class: Class, places: usize) -> Amounts
    ensures { result ≡ opening_adds class places }
{
    Amounts {
        tensors: 1,
        variables: 1,
        constants: if class == Class::Constant { places } else { 0 },
        data: if class == Class::Data { places } else { 0 },
        ..Amounts::default()
    }
}

/// Where the values of a new tensor begin.
fn offset_of(class: Class, n: Counts) -> usize
    ensures { result ≡ offset_for class n }
{
    match class {
        Class::Constant => n.used.constants,
        Class::Data => n.used.data,
        Class::Unstored => 0,
    }
}

/// Whether there is room for a tensor of a class with so many places.
fn has_room(n: Counts, room: Room, class: Class, places: usize) -> bool
    ensures { result ≡ opening_fits n room class places }
{
    let more = opening_amounts(class, places);
    let Room { brought, .. } = room;
    let Counts { used, .. } = n;
    (fits(more.tensors, LIMITS.tensors, brought.tensors, used.tensors)
        & fits(
            more.variables,
            LIMITS.variables,
            brought.variables,
            used.variables,
        ))
        & (fits(
            more.constants,
            LIMITS.constants,
            brought.constants,
            used.constants,
        ) & fits(more.data, LIMITS.data, brought.data, used.data))
}

/// The record of a new tensor of the class with a number.
fn open_as<C: Catalogue>(
    c: &C,
    n: Counts,
    room: Room,
    layout: usize,
    class: u8,
) -> Result<TensorRecord, StageFault>
    ensures { result ≡ opened_as (C.layouts c.now) n room layout (class_of class) }
{
    let class = Class::try_from(class)?;
    let places = c.shape(layout)?.count;
    if !has_room(n, room, class, places) {
        return Err(StageFault::Short);
    }
    Ok(TensorRecord {
        layout,
        places,
        class,
        offset: offset_of(class, n),
        variable: (n.used.variables + 2) as u8,
    })
}

/// The outcome of an opening: the record of the new tensor, or the refusal. Any number may be given
/// for a class.
pub fn plan_opening<C: Catalogue>(
    c: &C,
    n: Counts,
    room: Room,
    layout: usize,
    class: u8,
) -> Result<TensorRecord, StageFault>
    ensures { result ≡ OpeningOf (C.layouts c.now) n room layout class }
{
    if is_opening_short(n, room) {
        return Err(StageFault::Short);
    }
    check_phase(n.opened, Incoming::Opening)?;
    open_as(c, n, room, layout, class)
}
