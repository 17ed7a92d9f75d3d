//! Which element of its layout a name reads.
ghost use Rattle.std.specs.Prelude.{◌≡◌, ◌<◌, pos, IfSome, if◌then◌else◌, nat_lt, slice_index_or, slice_set};
ghost use Rattle.layout.specs.Layouts.{rank as rank_of, count as count_of};
ghost use Rattle.expression.specs.Letterings.{letters_of, position};
ghost use Rattle.names.specs.Reading.{dense_entry as dense_entry_of, dense_index as dense_index_of, dense_element as dense_element_of, permuted as permuted_index, table_element as table_element_of, permutation as permutation_of, element as element_of};

use crate::layout_or_scalar::LayoutOrScalar;
use crate::permutation::letters_permuted;
use expression::letters::{meant, position_of};
use expression::node::Letters;
use layout::catalogue::Catalogue;
use layout::index::Index;
use layout::kind::LayoutKind;

/// A place of the source under the letters of the block.
#[derive(Clone, Copy)]
pub(crate) struct LetteredPlace {
    pub(crate) letters: Letters,
    pub(crate) index: Index,
}

impl LetteredPlace {
    /// The entry of a letter; for one that the block has not, the entry just after those.
    fn entry(&self, letter: u8) -> i64
        ensures { result ≡ slice_index_or self.now.index (position letter (letters_of self.now.letters)) (pos 0) }
    {
        let i = position_of(letter, meant(&self.letters));
        self.index.get(i).copied().unwrap_or(0)
    }

    /// The entry on axis `i` that a dense name is read at.
    fn dense_entry(&self, lengths: [usize; 4], name: Letters, i: usize) -> i64
        requires { i < 4 }
        ensures { result ≡ dense_entry_of (letters_of self.now.letters) self.now.index lengths (letters_of name) i }
    {
        if lengths[i] == 1 {
            return 0;
        }
        let letter = meant(&name).get(i).copied().unwrap_or(0);
        self.entry(letter)
    }

    /// The index that a dense name is read at.
    fn dense_index(&self, lengths: [usize; 4], name: Letters) -> Index
        ensures { result ≡ dense_index_of (letters_of self.now.letters) self.now.index lengths (letters_of name) }
    {
        [
            self.dense_entry(lengths, name, 0),
            self.dense_entry(lengths, name, 1),
            self.dense_entry(lengths, name, 2),
            self.dense_entry(lengths, name, 3),
        ]
    }

    /// The element that a dense name reads.
    fn dense_element<C: Catalogue>(
        &self,
        layout: &LayoutOrScalar<C>,
        name: Letters,
    ) -> Option<usize>
        ensures { result ≡ dense_element_of layout.now (letters_of self.now.letters) self.now.index (letters_of name) }
    {
        if meant(&name).is_empty() {
            return Some(0);
        }
        layout.number(self.dense_index(layout.shape().lengths, name))
    }

    /// The element that another name reads.
    fn table_element<C: Catalogue>(
        &self,
        layout: &LayoutOrScalar<C>,
        name: Letters,
    ) -> Option<usize>
        ensures { result ≡ table_element_of layout.now (permutation_of (rank_of layout.now) (letters_of self.now.letters) (letters_of name)) self.now.index }
    {
        let rank = layout.shape().rank;
        let slots = letters_permuted(rank, self.letters, name);
        layout.find_nnz_index(permuted(rank, slots.as_slice(), self.index))
    }

    /// The element of its layout that a name reads, if there is one.
    pub(crate) fn element<C: Catalogue>(
        &self,
        layout: &LayoutOrScalar<C>,
        name: Letters,
    ) -> Option<usize>
        ensures is { result ≡ element_of layout.now (letters_of self.now.letters) self.now.index (letters_of name) }
        ensures inside { IfSome result (λ n. n < count_of layout.now) }
    {
        match layout.shape().kind {
            LayoutKind::Dense => self.dense_element(layout, name),
            LayoutKind::Diagonal | LayoutKind::Sparse => self.table_element(layout, name),
        }
    }
}

/// Puts an entry at its slot, if that is below the rank.
fn put_entry(y: &mut Index, rank: usize, slot: usize, entry: i64)
    ensures { y.new ≡ (if nat_lt slot rank then slice_set y.old slot entry else y.old) }
{
    if slot < rank && slot < 4 {
        y[slot] = entry;
    }
}

/// The index that a source place is read at in a layout of a rank.
pub(crate) fn permuted(rank: usize, slots: &[usize], x: Index) -> Index
    ensures { result ≡ permuted_index rank slots.now x }
{
    let mut y = [0, 0, 0, 0];
    for (i, slot) in slots.iter().enumerate() {
        put_entry(&mut y, rank, *slot, x.get(i).copied().unwrap_or(0));
    }
    y
}
