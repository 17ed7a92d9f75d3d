//! Where the entries of a source place go in a name.
ghost use Rattle.std.specs.Prelude.{◌≡◌, ◌+◌, ◌<◌, ◌≤◌, [], ◌∷◌, ◌++◌, length, nat_eq, if◌then◌else◌};
ghost use Rattle.std.proofs.Common.{rules};
ghost use Rattle.std.specs.Cmp.Lexicographic.{pointwise};
ghost use Rattle.std.specs.Cmp.Rules.{comparing};
ghost use Rattle.arrayvec.specs.ArrayVec.{array_vec_len};
ghost use Rattle.expression.specs.Letterings.{letters_of, among};
ghost use Rattle.names.specs.Reading.{slots_of, packed as packed_of, slot as slot_of, permutation as permutation_of};

use arrayvec::ArrayVec;
use expression::letters::{meant, position_of};
use expression::node::Letters;

/// A slot of the name for each entry of a source place: the slots before `count` are meant. A plain
/// record of fixed size, as it stands in lent tables.
#[derive(Clone, Copy)]
pub struct Permutation {
    pub count: usize,
    pub slots: [usize; 8],
}

impl Permutation {
    /// The permutation of a name of a rank under a block. A slot that is not meant is 0.
    pub fn new(rank: usize, block: Letters, name: Letters) -> Permutation
        ensures is { result ≡ packed_of (permutation_of rank (letters_of block) (letters_of name)) }
        ensures slots { slots_of result ≡ permutation_of rank (letters_of block) (letters_of name) }
    {
        packed(letters_permuted(rank, block, name).as_slice())
    }

    /// The slots that are meant.
    pub fn meant(&self) -> &[usize]
        ensures { result.now ≡ slots_of self.now }
    {
        let n = self.count.min(8);
        &self.slots[..n]
    }
}

/// Two are equal where the slots that are meant are.
impl PartialEq for Permutation {
    ghost eq = { λ p q. pointwise nat_eq (slots_of p) (slots_of q) };

    ghost laws = { Prim.search (comparing, rules) };

    fn eq(&self, other: &Permutation) -> bool {
        self.meant() == other.meant()
    }
}

impl Eq for Permutation {
    ghost laws = { Prim.search (comparing, rules) };
}

/// The permutation with these slots.
fn packed(slots: &[usize]) -> Permutation
    requires { length slots.now ≤ 8 }
    ensures is { result ≡ packed_of slots.now }
    ensures slots { slots_of result ≡ slots.now }
{
    let mut all = [0; 8];
    all[..slots.len()].copy_from_slice(slots);
    Permutation {
        count: slots.len(),
        slots: all,
    }
}

/// The position of a block's letter in the name, or the rank.
fn slot(rank: usize, name: &[u8], letter: u8) -> usize
    ensures { result ≡ slot_of rank name.now letter }
{
    let position = position_of(letter, name);
    if position < name.len() {
        position
    } else {
        rank
    }
}

/// Appends the position of a letter that the block has not.
fn push_foreign(slots: &mut ArrayVec<usize, 8>, block: &[u8], letter: u8, position: usize)
    requires { array_vec_len slots.old < 8 }
    ensures slots { slots.new.items ≡ (if among letter block.now then slots.old.items else slots.old.items ++ position ∷ []) }
    ensures count { array_vec_len slots.new ≤ array_vec_len slots.old + 1 }
{
    if position_of(letter, block) == block.len() {
        slots.push(position);
    }
}

/// The slots of letters under a block's.
pub(crate) fn letters_permuted(rank: usize, block: Letters, name: Letters) -> ArrayVec<usize, 8>
    ensures { result.items ≡ permutation_of rank (letters_of block) (letters_of name) }
{
    let block = meant(&block);
    let name = meant(&name);
    let mut slots = ArrayVec::new();
    for letter in block {
        slots.push(slot(rank, name, *letter));
    }
    for (i, letter) in name.iter().enumerate() {
        push_foreign(&mut slots, block, *letter, i);
    }
    slots
}
