//! Layout lines.
ghost use Rattle.std.specs.Prelude.{◌≡◌, ◌≤◌, [], ◌∷◌, IfOk, if◌then◌else◌, codes, OnOk};
ghost use Rattle.layout.specs.Words.{kind_word};
ghost use Rattle.design.specs.Lines.{unread, Pooled, PlacesSaid, LayoutSaid};

use crate::fault::{Expected, Fault, Odd, What};
use crate::number::first_four;
use crate::words::Words;
use layout::kind::{LayoutKind, UnknownKind};
use std::alloc::Global;
use table::record::LayoutRecord;

/// A layout with the number of its line.
#[derive(Clone, Copy)]
pub struct LayoutLine {
    pub line: usize,
    pub layout: LayoutRecord,
}

fn read_kind<'a>(words: &mut Words<'a>) -> Result<LayoutKind, Fault<'a>>
    ensures { IfOk result (λ k. unread words.old ≡ kind_word k ∷ unread words.new) }
{
    let word = words.word(Expected::Kind)?;
    match word.parse::<LayoutKind>() {
        Ok(kind) => Ok(kind),
        Err(UnknownKind) => Err(words.fault(What::Word(word, Odd::Unknown), Expected::Kind)),
    }
}

// Whether a place has an entry for each axis.
fn check_place<'a>(
    words: &Words<'a>,
    place: usize,
    entries: usize,
    rank: usize,
) -> Result<(), Fault<'a>>
    ensures { OnOk result (rank ≤ entries) }
{
    if entries < rank {
        return Err(words.fault(What::ShortPlace { place, entries }, Expected::Entries(rank)));
    }
    Ok(())
}

/// Reads places of `rank` entries up to the end of the line into the pool, and counts them.
fn read_places<'a>(
    words: &mut Words<'a>,
    rank: usize,
    pool: &mut Vec<u16>,
) -> Result<usize, Fault<'a>>
    ensures { IfOk result (λ count. Pooled rank (unread words.old) count pool.old.items pool.new.items) }
{
    if rank == 0 {
        words.end()?;
        return Ok(0);
    }
    // Place and entries are what a refusal tells.
    let mut place = 0;
    let mut entries = 0;
    while let Some(word) = words.next_word() {
        if word == "," {
            check_place(words, place, entries, rank)?;
            place += 1;
            entries = 0;
        } else if entries < rank {
            let entry = words.read(word, Expected::PlaceEntry)?;
            pool.push(entry)?;
            entries += 1;
        } else {
            return Err(words.fault(What::LongPlace { place, word }, Expected::Comma));
        }
    }
    if place == 0 && entries == 0 {
        return Ok(0);
    }
    check_place(words, place, entries, rank)?;
    Ok(place + 1)
}

/// Reads what follows the axes of a layout, and counts the places that it lists.
fn read_rest<'a>(
    words: &mut Words<'a>,
    kind: LayoutKind,
    colon: bool,
    rank: usize,
    pool: &mut Vec<u16>,
) -> Result<usize, Fault<'a>>
    ensures { IfOk result (λ count. PlacesSaid kind (if colon then codes ":" ∷ unread words.old else []) rank count pool.old.items pool.new.items) }
{
    match (kind, colon) {
        (LayoutKind::Sparse, true) => read_places(words, rank, pool),
        (LayoutKind::Sparse, false) => Err(words.fault(What::End, Expected::Colon)),
        (LayoutKind::Dense | LayoutKind::Diagonal, true) => Err(words.stray_colon()),
        (LayoutKind::Dense | LayoutKind::Diagonal, false) => Ok(0),
    }
}

/// Reads a layout after its first word.
pub fn read_layout<'a>(
    heap: Global,
    words: &mut Words<'a>,
    pool: &mut Vec<u16>,
) -> Result<LayoutRecord, Fault<'a>>
    ensures { IfOk result (λ l. LayoutSaid (unread words.old) l pool.old.items pool.new.items) }
{
    let kind = read_kind(words)?;
    let numbers = words.numbers::<usize>(heap, Expected::Length)?;
    let rank = numbers.values.len();
    let lengths = first_four(numbers.values.as_slice(), 1);
    let start = pool.len();
    let count = read_rest(words, kind, numbers.colon, rank, pool)?;
    Ok(LayoutRecord {
        kind,
        rank,
        lengths,
        start,
        count,
    })
}
