//! Facts of translations.
ghost use Rattle.std.specs.Prelude.{◌≡◌, ◌++◌, map, Ok, string_bytes, codes, OnOk};
ghost use Rattle.std.specs.Fmt.{signed_decimal};
ghost use Rattle.report.specs.Facts.{separated};
ghost use Rattle.translation.specs.Entries.{entries_of as entries_between};
ghost use Rattle.report.specs.Translations.{kind_fact, ranges_fact, destinations_fact, trans_fact, from_told, trans_told};

use crate::block::Block;
use crate::text::{put_joined, put_refusal};
use layout::catalogue::Catalogue;
use std::alloc::AllocError;
use translation::kinds::{TranslationFrom, TranslationTo};
use translation::route::Route;

/// Writes a kind with its axes and length, as far as it has them.
pub fn put_kind(out: &mut String, from: TranslationFrom) -> Result<(), AllocError>
    ensures { OnOk result (string_bytes out.new ≡ string_bytes out.old ++ kind_fact from) }
{
    match from {
        TranslationFrom::DenseContraction {
            contract_by: by,
            contract_len: long,
        } => write!(out, "dense-contraction by {by} length {long}"),
        TranslationFrom::DiagonalContraction { contract_by: by } => write!(
            out,
            "diagonal-contraction by {by}"
        ),
        TranslationFrom::SparseContraction { contract_by: by } => write!(
            out,
            "sparse-contraction by {by}"
        ),
        TranslationFrom::ElementWise => write!(out, "element-wise"),
        TranslationFrom::Broadcast {
            broadcast_by: by,
            broadcast_len: long,
        } => write!(out, "broadcast by {by} length {long}"),
    }
}

fn put_entries(out: &mut String, entries: &[i32]) -> Result<(), AllocError>
    ensures { OnOk result (string_bytes out.new ≡ string_bytes out.old ++ separated (codes " ") (map signed_decimal entries.now)) }
{
    put_joined(out, entries, " ")
}

fn put_ranges(out: &mut String, ranges: &[i32]) -> Result<(), AllocError>
    ensures { OnOk result (string_bytes out.new ≡ string_bytes out.old ++ ranges_fact ranges.now) }
{
    if ranges.is_empty() {
        write!(out, "none")
    } else {
        put_entries(out, ranges)
    }
}

fn put_destinations(out: &mut String, to: TranslationTo, list: &[i32]) -> Result<(), AllocError>
    ensures { OnOk result (string_bytes out.new ≡ string_bytes out.old ++ destinations_fact to list.now) }
{
    match to {
        TranslationTo::Contiguous { start, end } => write!(out, "contiguous {start} {end}"),
        TranslationTo::Listed => {
            write!(out, "listed ")?;
            put_entries(out, list)
        }
    }
}

/// Writes a block's translation: its ranges, the first of its entries, and its destinations, the others.
fn put_block<C: Catalogue>(out: &mut String, block: &Block<C>) -> Result<(), AllocError>
    ensures { OnOk result (string_bytes out.new ≡ string_bytes out.old ++ trans_fact (C.layouts block.now.catalogue.now) block.now.route.source block.now.route.via block.now.route.start block.now.route.target (Ok block.now.translation)) }
{
    let translation = block.translation;
    let entries = block.entries(*out.allocator())?;
    let (ranges, list) = entries
        .as_slice()
        .split_at(translation.get_to_index_in_data_layout());
    put_kind(out, translation.from)?;
    write!(out, " ranges ")?;
    put_ranges(out, ranges)?;
    write!(out, " dest ")?;
    put_destinations(out, translation.to, list)
}

/// Writes the translation of a block.
pub fn put_trans<C: Catalogue>(out: &mut String, c: &C, route: Route) -> Result<(), AllocError>
    ensures { OnOk result (string_bytes out.new ≡ string_bytes out.old ++ trans_told (C.layouts c.now) route.source route.via route.start route.target) }
{
    match Block::new(c, route) {
        Ok(block) => put_block(out, &block),
        Err(fault) => put_refusal(out, fault.report()),
    }
}

/// Writes a block's kind, with ranges that are all its entries.
fn put_source<C: Catalogue>(out: &mut String, block: &Block<C>) -> Result<(), AllocError>
    ensures { OnOk result (string_bytes out.new ≡ string_bytes out.old ++ (kind_fact block.now.translation.from ++ (codes " ranges " ++ ranges_fact (entries_between (C.layouts block.now.catalogue.now) block.now.translation block.now.route.source block.now.route.via block.now.route.start block.now.route.target)))) }
{
    let entries = block.entries(*out.allocator())?;
    put_kind(out, block.translation.from)?;
    write!(out, " ranges ")?;
    put_ranges(out, entries.as_slice())
}

/// Writes how a source makes the elements of a via.
pub fn put_from<C: Catalogue>(
    out: &mut String,
    c: &C,
    source: usize,
    via: usize,
) -> Result<(), AllocError>
    ensures { OnOk result (string_bytes out.new ≡ string_bytes out.old ++ from_told (C.layouts c.now) source via) }
{
    match Block::of_source(c, source, via) {
        Ok(block) => put_source(out, &block),
        Err(fault) => put_refusal(out, fault.report()),
    }
}
