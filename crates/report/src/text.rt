//! Text that reports and facts share.
ghost use Rattle.std.specs.Prelude.{◌≡◌, ℕ, List, ◌++◌, map, take, Some, string_bytes, OnOk};
ghost use Rattle.report.specs.Facts.{separated, refusal_fact};

use layout::fault::Report;
use std::alloc::AllocError;
use std::fmt::Display;

/// The first `count` items, or all where there are fewer.
pub(crate) fn first<T>(items: &[T], count: usize) -> &[T]
    ensures { result.now ≡ take count items.now }
{
    &items[..count.min(items.len())]
}

/// Writes items with `between` between them.
pub fn put_joined<N: Display>(
    out: &mut String,
    items: &[N],
    between: &str,
) -> Result<(), AllocError>
    ensures { OnOk result ((show : N → List ℕ) → ((x : N) → N.output x ≡ Some (show x)) → string_bytes out.new ≡ string_bytes out.old ++ separated between.now (map show items.now)) }
{
    let Some((head, rest)) = items.split_first() else {
        return Ok(());
    };
    write!(out, "{head}")?;
    for item in rest {
        write!(out, "{between}{item}")?;
    }
    Ok(())
}

/// Writes a refusal as a fact: its number, layer and place.
pub fn put_refusal(out: &mut String, report: Report) -> Result<(), AllocError>
    ensures { OnOk result (string_bytes out.new ≡ string_bytes out.old ++ refusal_fact report) }
{
    let Report {
        number,
        layer,
        place,
    } = report;
    write!(out, "refuse {number} {layer} {place}")
}

/// Writes a refusal in words, up to its reason.
pub(crate) fn put_refused(out: &mut String, report: Report) -> Result<(), AllocError> {
    let Report {
        number,
        layer,
        place,
    } = report;
    write!(out, "refused ({number}, {layer}, place {place}): ")
}
