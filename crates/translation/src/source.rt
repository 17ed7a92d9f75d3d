//! What is made of a block's source.
ghost use Rattle.std.specs.Prelude.{◌≡◌, ◌<◌, ◌≤◌, IfSome, slice_index};
ghost use Rattle.layout.specs.Layouts.{rank};
ghost use Rattle.layout.specs.Answers.{shape_of};
ghost use Rattle.grouping.specs.Keys.{tail_size as tail_size_rule};
ghost use Rattle.translation.specs.Froms.{contracted, taken_up, spread, from_of, Long};

use crate::kinds::TranslationFrom;
use layout::catalogue::Catalogue;
use layout::kind::LayoutKind;
use layout::layout_ref::LayoutRef;

/// The product of the axes past the first `m`.
fn tail_size<C: Catalogue>(layout: &LayoutRef<C>, m: usize) -> usize
    ensures { result ≡ tail_size_rule m (shape_of layout.now).lengths }
{
    // Written out, since a product over the slice needs a bound on each partial product.
    let n = layout.shape().lengths;
    match m {
        0 => n[1] * n[2] * n[3] * n[0],
        1 => n[3] * n[2] * n[1],
        2 => n[3] * n[2],
        3 => n[3],
        _ => 1,
    }
}

/// The length that the axes of a diagonal layout have.
fn diagonal_length<C: Catalogue>(diagonal: &LayoutRef<C>) -> usize
    ensures { result ≡ slice_index (shape_of diagonal.now).lengths 0 }
{
    diagonal.shape().lengths[0]
}

fn contraction<C: Catalogue>(source: &LayoutRef<C>, via_rank: usize) -> TranslationFrom
    requires { via_rank < rank source.now }
    ensures { result ≡ contracted source.now.kind (shape_of source.now) via_rank }
{
    let shape = source.shape();
    let contract_by = shape.rank - via_rank;
    match shape.kind {
        LayoutKind::Dense => TranslationFrom::DenseContraction {
            contract_by,
            contract_len: tail_size(source, via_rank),
        },
        LayoutKind::Diagonal if via_rank == 0 => TranslationFrom::DenseContraction {
            contract_by,
            contract_len: diagonal_length(source),
        },
        LayoutKind::Diagonal => TranslationFrom::DiagonalContraction { contract_by },
        LayoutKind::Sparse => TranslationFrom::SparseContraction { contract_by },
    }
}

/// How many of the via's axes a source takes up: each of its axes two, where it is dense and the via is not.
fn axes_taken(source: LayoutKind, via: LayoutKind, rank: usize) -> usize
    requires { rank ≤ 4 }
    ensures { result ≡ taken_up source via rank }
{
    match (source, via) {
        (LayoutKind::Dense, LayoutKind::Diagonal) | (LayoutKind::Dense, LayoutKind::Sparse) => 2
            * rank,
        (LayoutKind::Dense, LayoutKind::Dense)
        | (LayoutKind::Diagonal, _)
        | (LayoutKind::Sparse, _) => rank,
    }
}

fn broadcast<C: Catalogue>(
    broadcast_by: usize,
    source_rank: usize,
    via: &LayoutRef<C>,
) -> Option<TranslationFrom>
    ensures { result ≡ spread via.now.kind broadcast_by source_rank (shape_of via.now) }
{
    let shape = via.shape();
    match shape.kind {
        LayoutKind::Dense => Some(TranslationFrom::Broadcast {
            broadcast_by,
            broadcast_len: tail_size(via, source_rank),
        }),
        LayoutKind::Diagonal => Some(TranslationFrom::Broadcast {
            broadcast_by,
            broadcast_len: diagonal_length(via),
        }),
        LayoutKind::Sparse => None,
    }
}

/// How a source makes the elements of a via by their shapes, or none.
pub(crate) fn from_shapes<C: Catalogue>(
    source: &LayoutRef<C>,
    via: &LayoutRef<C>,
) -> Option<TranslationFrom>
    ensures is { result ≡ from_of (shape_of source.now) (shape_of via.now) }
    ensures long { IfSome result Long }
{
    let s = source.shape();
    let v = via.shape();
    if v.rank < s.rank {
        return Some(contraction(source, v.rank));
    }
    let taken = axes_taken(s.kind, v.kind, s.rank);
    if v.rank < taken {
        None
    } else if v.rank == taken {
        Some(TranslationFrom::ElementWise)
    } else {
        broadcast(v.rank - taken, s.rank, via)
    }
}
