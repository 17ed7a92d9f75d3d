//! The value of an expression at a source place.
ghost use Rattle.std.specs.Prelude.{◌≡◌, ◌<◌, ◌≤◌, true, [], ◌∷◌, ◌++◌, Ok, length, take, slice_index_or};
ghost use Rattle.arrayvec.specs.ArrayVec.{array_vec_len};
ghost use Rattle.layout.specs.Layouts.{blank, count as count_of, rank as rank_of};
ghost use Rattle.expression.specs.Letterings.{letters_of};
ghost use Rattle.expression.specs.Nodes.{takes, well_formed};
ghost use Rattle.expression.specs.Values.{node_value, evaluated};
ghost use Rattle.names.specs.Variables.{environment, read_from, ready_but};
ghost use Rattle.names.specs.Checks.{and_then, checked};
ghost use Rattle.names.specs.Outcomes.{Evaluable, by_host, value_of, outcome_of};

use crate::check::expression_fault;
use crate::element::LetteredPlace;
use crate::layout_or_scalar::LayoutOrScalar;
use crate::read::Reading;
use crate::scope::{Block, Scope};
use arrayvec::ArrayVec;
use expression::fault::ExpressionFault;
use expression::formed::values_taken;
use expression::functions::{binary, call, unary};
use expression::host::Host;
use expression::node::{Letters, Node};
use layout::catalogue::Catalogue;
use std::marker::Model;

/// What an expression is evaluated with.
#[derive(Drop)]
pub struct Evaluation<'a, C: Catalogue, H: Host> {
    pub scope: Scope<'a, C>,
    pub constants: &'a [f64],
    pub host: &'a H,
}

/// The value of a node at the values that it takes, or none where the host has none.
fn value_of_node<C: Catalogue, H: Host>(
    host: &H,
    reading: &Reading<C>,
    node: Node,
    taken: &[f64],
) -> Option<f64>
    requires { length taken.now ≡ takes node }
    ensures { result ≡ node_value (H.answers host.now) (read_from reading.now) node taken.now }
{
    match node {
        Node::Number(value) => Some(value),
        Node::Name { variable, letters } => Some(reading.read(variable, letters)),
        Node::Binary(operator) => Some(binary(operator, taken[0], taken[1])),
        Node::Unary(operator) => Some(unary(operator, taken[0])),
        Node::Call { code, arguments: _ } => call(host, code, taken),
    }
}

/// Puts a value in the place of those from `low` on.
fn put_from(stack: &mut ArrayVec<f64, 32>, low: usize, value: f64)
    requires within { low ≤ array_vec_len stack.old }
    requires room { low < 32 }
    ensures { stack.new.items ≡ take low stack.old.items ++ value ∷ [] }
{
    match stack.get_mut(low) {
        Some(first) => {
            *first = value;
            while stack.len() > low + 1 {
                stack.pop();
            }
        },
        None => stack.push(value),
    }
}

/// The value of nodes in postfix order, on a stack of 32 values.
fn run<C: Catalogue, H: Host>(
    host: &H,
    reading: &Reading<C>,
    nodes: &[Node],
) -> Result<f64, ExpressionFault>
    requires { well_formed nodes.now ≡ true }
    ensures { result ≡ by_host (evaluated (node_value (H.answers host.now) (read_from reading.now)) nodes.now) }
{
    let mut stack = ArrayVec::<f64, 32>::new();
    for (i, node) in nodes.iter().enumerate() {
        let low = stack.len() - values_taken(*node);
        let value = value_of_node(host, reading, *node, &stack.as_slice()[low..]).ok_or(
            ExpressionFault::NoHostValue { node: i },
        )?;
        put_from(&mut stack, low, value);
    }
    Ok(stack.as_slice()[0])
}

/// An expression that may stand in a constant block.
#[derive(Drop)]
pub(crate) struct Checked<'a, C: Catalogue> {
    scope: &'a Scope<'a, C>,
    constants: &'a [f64],
    letters: Letters,
    source: LayoutOrScalar<'a, C>,
    nodes: &'a [Node],
}

impl<'a, C: Catalogue> Model for Checked<'a, C> {
    ghost Value = { Evaluable };

    ghost view = { λ e. record { layouts = C.layouts e.scope.now.catalogue.now; variables = e.scope.now.variables.now; constants = e.constants.now; block = letters_of e.letters; source = e.source; nodes = e.nodes.now } };

    ghost invariant = { λ e. well_formed e.nodes.now ≡ true };
}

impl<'a, C: Catalogue> Checked<'a, C> {
    /// Checks an expression in a constant block.
    pub(crate) fn new<H: Host>(
        evaluation: &'a Evaluation<'a, C, H>,
        block: Block,
        nodes: &'a [Node],
    ) -> Result<Checked<'a, C>, ExpressionFault>
        ensures { result ≡ and_then (checked (environment (C.layouts evaluation.now.scope.catalogue.now) evaluation.now.scope.variables.now) (ready_but evaluation.now.scope.opened) true (letters_of block.letters) (rank_of (slice_index_or (C.layouts evaluation.now.scope.catalogue.now) block.source blank)) nodes.now) (Ok (record { layouts = C.layouts evaluation.now.scope.catalogue.now; variables = evaluation.now.scope.variables.now; constants = evaluation.now.constants.now; block = letters_of block.letters; source = slice_index_or (C.layouts evaluation.now.scope.catalogue.now) block.source blank; nodes = nodes.now })) }
    {
        expression_fault(&evaluation.scope, block, true, nodes)?;
        Ok(Checked {
            scope: &evaluation.scope,
            constants: evaluation.constants,
            letters: block.letters,
            source: LayoutOrScalar::new(evaluation.scope.catalogue, Some(block.source)),
            nodes,
        })
    }

    /// How many source places there are.
    pub(crate) fn place_count(&self) -> usize
        ensures { result ≡ count_of self.now.source }
    {
        self.source.shape().count
    }

    /// The value at a source place, or the node that the host has no value for.
    pub(crate) fn value_at<H: Host>(&self, host: &H, number: usize) -> Result<f64, ExpressionFault>
        ensures { result ≡ value_of (H.answers host.now) self.now number }
    {
        let reading = Reading {
            scope: self.scope,
            constants: self.constants,
            place: LetteredPlace {
                letters: self.letters,
                index: self.source.place_or_zeros(number),
            },
        };
        run(host, &reading, self.nodes)
    }
}

/// What becomes of an expression at a place of the source, in a constant block: every refusal and
/// every value.
pub fn evaluate_at<C: Catalogue, H: Host>(
    evaluation: &Evaluation<C, H>,
    block: Block,
    number: usize,
    nodes: &[Node],
) -> Result<f64, ExpressionFault>
    ensures { result ≡ outcome_of (H.answers evaluation.now.host.now) (C.layouts evaluation.now.scope.catalogue.now) evaluation.now.scope.variables.now evaluation.now.scope.opened evaluation.now.constants.now block.letters block.source nodes.now number }
{
    Checked::new(evaluation, block, nodes)?.value_at(evaluation.host, number)
}
