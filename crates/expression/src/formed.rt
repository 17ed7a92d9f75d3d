//! Whether nodes are an expression.
ghost use Rattle.std.specs.Prelude.{◌≡◌, ◌+◌, ◌-◌};
ghost use Rattle.std.specs.Bool.{then_some};
ghost use Rattle.expression.specs.Nodes.{sound_letters, sound_call, known, takes, may_follow, sound_count, well_formed};

use crate::function::Function;
use crate::letters::meant;
use crate::node::{Letters, Node};

/// Whether letters are at most four, each of a to z.
pub fn letters_sound(l: Letters) -> bool
    ensures { result ≡ sound_letters l }
{
    (l.count <= 4) && meant(&l).iter().all(u8::is_ascii_lowercase)
}

fn call_sound(code: u8, arguments: u8) -> bool
    ensures { result ≡ sound_call code arguments }
{
    match Function::try_from(code) {
        Ok(Function::Piecewise) => (1..=15).contains(&arguments),
        Ok(Function::Pow) => arguments == 2,
        Ok(_) => arguments == 1,
        Err(_) => false,
    }
}

fn is_known(node: Node) -> bool
    ensures { result ≡ known node }
{
    match node {
        Node::Number(_) | Node::Binary(_) | Node::Unary(_) => true,
        Node::Name { letters, .. } => letters_sound(letters),
        Node::Call { code, arguments } => call_sound(code, arguments),
    }
}

/// How many values a node takes. It leaves one.
pub fn values_taken(node: Node) -> usize
    ensures { result ≡ takes node }
{
    match node {
        Node::Number(_) | Node::Name { .. } => 0,
        Node::Binary(_) => 2,
        Node::Unary(_) => 1,
        Node::Call { arguments, .. } => usize::from(arguments),
    }
}

fn count_sound(count: usize) -> bool
    ensures { result ≡ sound_count count }
{
    (1..=256).contains(&count)
}

/// How many values lie after a node where `depth` lay before, or none where it may not follow.
fn depth_after(depth: usize, node: Node) -> Option<usize>
    ensures { result ≡ then_some (may_follow depth node) (depth - takes node + 1) }
{
    let rest = depth.checked_sub(values_taken(node))?;
    (is_known(node) && rest < 32).then(|| rest + 1)
}

/// Whether nodes are an expression: 1 to 256 nodes, at most 32 values deep, that leave one value.
pub fn is_well_formed(nodes: &[Node]) -> bool
    ensures { result ≡ well_formed nodes.now }
{
    count_sound(nodes.len())
        && nodes
            .iter()
            .try_fold(0, |depth, node| depth_after(depth, *node))
            == Some(1)
}
