//! Which names may stand in an expression.
ghost use Rattle.std.specs.Prelude.{◌≡◌, ◌&&◌, length, ◌==◌, slice_index_or};
ghost use Rattle.layout.specs.Layouts.{rank as rank_of, blank};
ghost use Rattle.expression.specs.Letterings.{letters_of, distinct};
ghost use Rattle.names.specs.Reading.{permutation as permutation_of};
ghost use Rattle.names.specs.Variables.{environment, ready_but};
ghost use Rattle.names.specs.Checks.{Setting, supplied, fitting_slots, fitting, name_verdict, node_verdict, names_verdict, checked};

use crate::layout_or_scalar::LayoutOrScalar;
use crate::permutation::Permutation;
use crate::scope::{Block, Scope};
use crate::variable::{described, is_constant, is_ready};
use expression::fault::ExpressionFault;
use expression::formed::is_well_formed;
use expression::letters::{are_distinct, meant};
use expression::node::{Letters, Node, VariableNumber};
use layout::catalogue::Catalogue;
use layout::kind::LayoutKind;
use std::marker::Model;

/// Whether each slot that is used has an entry of the source.
fn are_supplied(source_rank: usize, rank: usize, slots: &[usize]) -> bool
    ensures { result ≡ supplied source_rank rank 0 slots.now }
{
    slots
        .iter()
        .enumerate()
        .all(|(i, slot)| rank <= *slot || i < source_rank)
}

/// Whether a permutation is short enough, and each slot that is used has an entry.
fn slots_fit(source_rank: usize, rank: usize, slots: &[usize]) -> bool
    ensures { result ≡ fitting_slots source_rank rank slots.now }
{
    slots.len().saturating_sub(1) <= source_rank && are_supplied(source_rank, rank, slots)
}

/// What the names of an expression in a block are checked by.
#[derive(Drop)]
struct NameCheck<'a, C: Catalogue> {
    scope: &'a Scope<'a, C>,
    constant: bool,
    letters: Letters,
    source_rank: usize,
}

impl<'a, C: Catalogue> Model for NameCheck<'a, C> {
    ghost Value = { Setting };

    ghost view = { λ n. record { layouts = C.layouts n.scope.now.catalogue.now; variables = n.scope.now.variables.now; opened = n.scope.now.opened; constant = n.constant; block = letters_of n.letters; rank = n.source_rank } };
}

impl<'a, C: Catalogue> NameCheck<'a, C> {
    /// Whether the letters of a name may stand whose layout has a rank and is not dense.
    fn others_fit(&self, rank: usize, name: Letters) -> bool
        ensures { result ≡ (length (letters_of name) == rank && distinct (letters_of name)) && fitting_slots self.now.rank rank (permutation_of rank self.now.block (letters_of name)) }
    {
        let letters = meant(&name);
        let permutation = Permutation::new(rank, self.letters, name);
        letters.len() == rank
            && are_distinct(letters)
            && slots_fit(self.source_rank, rank, permutation.meant())
    }

    /// Whether the letters of a name may stand for a variable with a layout.
    fn letters_fit(&self, layout: &LayoutOrScalar<C>, name: Letters) -> bool
        ensures { result ≡ fitting layout.now self.now.rank self.now.block (letters_of name) }
    {
        let shape = layout.shape();
        let count = meant(&name).len();
        match shape.kind {
            LayoutKind::Dense => count == shape.rank || count == 0,
            LayoutKind::Diagonal | LayoutKind::Sparse => self.others_fit(shape.rank, name),
        }
    }

    /// Whether the name at a node may stand.
    fn check_name(
        &self,
        node: usize,
        variable: VariableNumber,
        name: Letters,
    ) -> Result<(), ExpressionFault>
        ensures { result ≡ name_verdict self.now node variable (letters_of name) }
    {
        let Some(record) = described(self.scope.variables, variable) else {
            return Err(ExpressionFault::NotReady { node });
        };
        if !is_ready(self.scope.opened, variable) {
            return Err(ExpressionFault::NotReady { node });
        }
        if self.constant && !is_constant(record.class) {
            return Err(ExpressionFault::NotConstant { node });
        }
        let layout = LayoutOrScalar::new(self.scope.catalogue, record.layout);
        if !self.letters_fit(&layout, name) {
            return Err(ExpressionFault::Letters { node });
        }
        Ok(())
    }

    /// Whether node `i` may stand, which each does but a name.
    fn check_node(&self, i: usize, node: Node) -> Result<(), ExpressionFault>
        ensures { result ≡ node_verdict self.now i node }
    {
        match node {
            Node::Name { variable, letters } => self.check_name(i, variable, letters),
            Node::Number(_)
            | Node::Binary(_)
            | Node::Unary(_)
            | Node::Call {
                code: _,
                arguments: _,
            } => Ok(()),
        }
    }

    /// Whether every name may stand.
    fn check_names(&self, nodes: &[Node]) -> Result<(), ExpressionFault>
        ensures { result ≡ names_verdict self.now nodes.now }
    {
        for (i, node) in nodes.iter().enumerate() {
            self.check_node(i, *node)?;
        }
        Ok(())
    }
}

/// Whether an expression may stand in a block, which is constant or not: refused where it is
/// malformed, and then at the first name that may not stand.
pub fn expression_fault<C: Catalogue>(
    scope: &Scope<C>,
    block: Block,
    constant: bool,
    nodes: &[Node],
) -> Result<(), ExpressionFault>
    ensures { result ≡ checked (environment (C.layouts scope.now.catalogue.now) scope.now.variables.now) (ready_but scope.now.opened) constant (letters_of block.letters) (rank_of (slice_index_or (C.layouts scope.now.catalogue.now) block.source blank)) nodes.now }
{
    if !is_well_formed(nodes) {
        return Err(ExpressionFault::Malformed);
    }
    let source = LayoutOrScalar::new(scope.catalogue, Some(block.source));
    let check = NameCheck {
        scope,
        constant,
        letters: block.letters,
        source_rank: source.shape().rank,
    };
    check.check_names(nodes)
}
