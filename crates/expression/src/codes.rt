//! Functions by name and operators by character.
ghost use Rattle.std.specs.Prelude.{◌≡◌};
ghost use Rattle.expression.specs.Codes.{code_of, binary_of, unary_of};

use crate::fault::ExpressionFault;
use crate::function::Function;
use crate::node::{BinaryOperator, UnaryOperator};

/// The code of a function.
pub fn function_code(name: &str) -> Result<u8, ExpressionFault>
    ensures { result ≡ code_of name.now }
{
    name.parse::<Function>().map(u8::from)
}

impl TryFrom<char> for BinaryOperator {
    type Error = ExpressionFault;

    ghost try_from_gives = { λ c r. r ≡ binary_of c };

    fn try_from(c: char) -> Result<BinaryOperator, ExpressionFault> {
        match c {
            '+' => Ok(BinaryOperator::Add),
            '-' => Ok(BinaryOperator::Subtract),
            '*' => Ok(BinaryOperator::Multiply),
            '/' => Ok(BinaryOperator::Divide),
            _ => Err(ExpressionFault::Malformed),
        }
    }
}

impl TryFrom<char> for UnaryOperator {
    type Error = ExpressionFault;

    ghost try_from_gives = { λ c r. r ≡ unary_of c };

    fn try_from(c: char) -> Result<UnaryOperator, ExpressionFault> {
        match c {
            '+' => Ok(UnaryOperator::Plus),
            '-' => Ok(UnaryOperator::Minus),
            _ => Err(ExpressionFault::Malformed),
        }
    }
}
