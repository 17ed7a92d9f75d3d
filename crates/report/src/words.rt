//! Translations in plain words.
use crate::block::Block;
use crate::text::{first, put_joined, put_refused};
use layout::catalogue::Catalogue;
use std::alloc::AllocError;
use translation::kinds::{Translation, TranslationFault, TranslationFrom, TranslationTo};
use translation::route::Route;

fn put_kind(out: &mut String, from: TranslationFrom) -> Result<(), AllocError> {
    match from {
        TranslationFrom::DenseContraction { contract_len, .. } => write!(
            out,
            "each run of {contract_len} elements is joined into one"
        ),
        TranslationFrom::DiagonalContraction { .. } => write!(
            out,
            "each element of the diagonal goes to a place of its own"
        ),
        TranslationFrom::SparseContraction { .. } => write!(
            out,
            "each range of elements is joined into one"
        ),
        TranslationFrom::ElementWise => write!(out, "each element goes to a place of its own"),
        TranslationFrom::Broadcast { broadcast_len, .. } => write!(
            out,
            "each element goes to {broadcast_len} places"
        ),
    }
}

fn put_reason(out: &mut String, fault: TranslationFault) -> Result<(), AllocError> {
    match fault {
        TranslationFault::Unknown => write!(out, "there is no such layout"),
        TranslationFault::Start => write!(
            out,
            "the via has more axes than the target, or the start has an entry beyond them"
        ),
        TranslationFault::NoTranslation => write!(
            out,
            "no translation leads between these ranks and kinds"
        ),
        TranslationFault::Elements => write!(
            out,
            "the elements made are not as many as the places of the via"
        ),
        TranslationFault::Uncovered => write!(
            out,
            "a source place lies over no via place, or a via place under none"
        ),
        TranslationFault::NoDestination { place } => write!(
            out,
            "place {place} of the via has no place in the target"
        ),
        TranslationFault::Short => write!(out, "the index table is full"),
    }
}

fn put_fault(out: &mut String, fault: TranslationFault) -> Result<(), AllocError> {
    put_refused(out, fault.report())?;
    put_reason(out, fault)
}

/// Writes in words how a source makes the elements of a via.
pub fn put_from_words<C: Catalogue>(
    out: &mut String,
    c: &C,
    source: usize,
    via: usize,
) -> Result<(), AllocError> {
    match TranslationFrom::new(c, source, via) {
        Ok(from) => put_kind(out, from),
        Err(fault) => put_fault(out, fault),
    }
}

/// No more entries are written.
const MOST_ENTRIES: usize = 32;

fn put_entries(out: &mut String, entries: &[i32]) -> Result<(), AllocError> {
    put_joined(out, first(entries, MOST_ENTRIES), " ")?;
    if entries.len() > MOST_ENTRIES {
        let more = entries.len() - MOST_ENTRIES;
        write!(out, " .. and {more} more")?;
    }
    Ok(())
}

fn put_lists(
    out: &mut String,
    translation: Translation,
    ranges: &[i32],
    list: &[i32],
) -> Result<(), AllocError> {
    if !ranges.is_empty() {
        write!(out, "; ranges, by start and end: ")?;
        put_entries(out, ranges)?;
    }
    let elements = translation.elements;
    match translation.to {
        TranslationTo::Contiguous { start, .. } => write!(
            out,
            "; stored one after another from place {start} on, {elements} in all"
        ),
        TranslationTo::Listed => {
            write!(out, "; stored at places ")?;
            put_entries(out, list)
        }
    }
}

fn put_block<C: Catalogue>(out: &mut String, block: &Block<C>) -> Result<(), AllocError> {
    let translation = block.translation;
    let entries = block.entries(*out.allocator())?;
    let (ranges, list) = entries
        .as_slice()
        .split_at(translation.get_to_index_in_data_layout());
    put_kind(out, translation.from)?;
    put_lists(out, translation, ranges, list)
}

/// Writes in words the translation of a block.
pub fn put_trans_words<C: Catalogue>(
    out: &mut String,
    c: &C,
    route: Route,
) -> Result<(), AllocError> {
    match Block::new(c, route) {
        Ok(block) => put_block(out, &block),
        Err(fault) => put_fault(out, fault),
    }
}
