//! Where the elements of a block go.
ghost use Rattle.std.specs.Prelude.{◌≡◌, ◌+◌, ◌<◌, ◌≤◌, length, pos, Some, None, IfSome, IfOk, MatchResult};
ghost use Rattle.std.specs.Option.{unwrap_or};
ghost use Rattle.layout.specs.Layouts.{Valid, strict, count as place_count};
ghost use Rattle.translation.specs.declared.kinds.TranslationFault.TheVariants.{NoDestination};
ghost use Rattle.translation.specs.Tos.{destination as destination_of, to_of, unless_nowhere, destination_entries};

use crate::kinds::{TranslationFault, TranslationTo};
use crate::route::Routed;
use crate::start::shifted;
use layout::catalogue::Catalogue;
use layout::index::Index;
use layout::layout_ref::LayoutRef;

/// The number of an index in a target, looked up strictly.
#[tactic(auto, using(crate::proofs::Landing::strict_within))]
fn number_in<C: Catalogue>(target: &LayoutRef<C>, index: Index) -> Option<usize>
    ensures is { result ≡ strict target.now index }
    ensures within { IfSome result (λ n. n < 65536) }
    ensures valid { Valid target.now }
{
    target.number(index)
}

/// The target's place for place `k` of the via: start plus place, looked up strictly.
pub fn destination<C: Catalogue>(
    via: &LayoutRef<C>,
    start: Index,
    target: &LayoutRef<C>,
    k: usize,
) -> Option<usize>
    ensures is { result ≡ destination_of via.now start target.now k }
    ensures within { IfSome result (λ n. n < 65536) }
{
    let place = via.place_or_zeros(k);
    number_in(target, shifted(start, place))
}

/// The destination of place `k`, refused where there is none.
fn landing<C: Catalogue>(block: &Routed<C>, k: usize) -> Result<usize, TranslationFault>
    ensures is { MatchResult result
        (λ n. destination_of block.now.via block.now.start block.now.target k ≡ Some n)
        (λ f. (f ≡ NoDestination k) × (destination_of block.now.via block.now.start block.now.target k ≡ None)) }
    ensures within { IfOk result (λ n. n < 65536) }
{
    destination(&block.via, block.start, &block.target, k).ok_or(TranslationFault::NoDestination {
        place: k,
    })
}

impl TranslationTo {
    /// Where the places of a via go; refused at the first that goes nowhere.
    pub(crate) fn new<C: Catalogue>(block: &Routed<C>) -> Result<TranslationTo, TranslationFault>
        ensures { result ≡ unless_nowhere (to_of (destination_of block.now.via block.now.start block.now.target) (place_count block.now.via)) }
    {
        let count = block.via.count();
        let first = landing(block, 0)?;
        let mut last = first;
        let mut together = true;
        for k in 1..count {
            let next = landing(block, k)?;
            together = together & (next == last + 1);
            last = next;
        }
        if together {
            Ok(TranslationTo::Contiguous {
                start: first,
                end: first + count,
            })
        } else {
            Ok(TranslationTo::Listed)
        }
    }
}

/// Writes each destination.
pub(crate) fn write_destinations<C: Catalogue>(block: &Routed<C>, table: &mut [i32])
    requires { length table.old ≡ place_count block.now.via }
    ensures { table.new ≡ destination_entries (destination_of block.now.via block.now.start block.now.target) (place_count block.now.via) }
{
    for (k, place) in table.iter_mut().enumerate() {
        *place = entry(destination(&block.via, block.start, &block.target, k));
    }
}

/// A destination as an entry of the index table.
fn entry(number: Option<usize>) -> i32
    requires { IfSome number (λ n. n < 65536) }
    ensures { result ≡ pos (unwrap_or number 0) }
{
    number.unwrap_or(0) as i32
}
