//! The binary table that a name needs.
ghost use Rattle.std.specs.Prelude.{◌≡◌, ◌<◌, length, slice_index_or};
ghost use Rattle.layout.specs.Layouts.{blank};
ghost use Rattle.expression.specs.Letterings.{letters_of};
ghost use Rattle.names.specs.Reading.{slots_of};
ghost use Rattle.names.specs.Variables.{described as described_by};
ghost use Rattle.entries.specs.Needed.{own_number, named_table, variable_table, needed};

use expression::node::{Letters, Node, VariableNumber};
use layout::catalogue::Catalogue;
use layout::kind::LayoutKind;
use layout::layout_ref::LayoutRef;
use names::binary_table::{TableKey, needs_no_table};
use names::permutation::Permutation;
use names::scope::{Block, Scope};
use names::variable::described;

/// What decides which binary tables the names of a block need: what they stand for, and the block,
/// whose source exists.
#[derive(Drop)]
pub struct BlockNames<'a, C: Catalogue> {
    pub scope: &'a Scope<'a, C>,
    pub block: Block,
    pub ghost source_exists: { block.source < length (C.layouts scope.now.catalogue.now) },
}

impl<'a, C: Catalogue> BlockNames<'a, C> {
    /// The table of a name with a layout, unless the source place's own number counts.
    #[tactic(auto, using(crate::proofs::Sameness::own_asked))]
    fn table_of_name(&self, layout: usize, name: Letters) -> Option<TableKey>
        ensures { result ≡ named_table (C.layouts self.now.scope.now.catalogue.now) self.now.block.source (letters_of self.now.block.letters) (letters_of name) layout }
    {
        let shape = LayoutRef::new(self.scope.catalogue, layout).ok()?.shape();
        if shape.kind == LayoutKind::Dense {
            return None;
        }
        let key = TableKey {
            layout,
            source: self.block.source,
            permutation: Permutation::new(shape.rank, self.block.letters, name),
        };
        if needs_no_table(self.scope.catalogue, &key).unwrap_or(false) {
            None
        } else {
            Some(key)
        }
    }

    /// The table of a variable under letters.
    fn table_of_variable(&self, variable: VariableNumber, name: Letters) -> Option<TableKey>
        ensures { result ≡ variable_table (C.layouts self.now.scope.now.catalogue.now) self.now.block.source (letters_of self.now.block.letters) (letters_of name) (described_by self.now.scope.now.variables.now variable) }
    {
        let record = described(self.scope.variables, variable)?;
        self.table_of_name(record.layout?, name)
    }

    /// The table that a node needs: that of a name that is not dense, unless the source place's own
    /// number counts.
    pub fn table_needed(&self, node: Node) -> Option<TableKey>
        ensures { result ≡ needed (C.layouts self.now.scope.now.catalogue.now) self.now.scope.now.variables.now (letters_of self.now.block.letters) self.now.block.source node }
    {
        match node {
            Node::Name { variable, letters } => self.table_of_variable(variable, letters),
            Node::Number(_)
            | Node::Binary(_)
            | Node::Unary(_)
            | Node::Call {
                code: _,
                arguments: _,
            } => None,
        }
    }
}
