//! A host that has the square root and nothing else.
ghost use Rattle.expression.specs.Hosts.{root_answer};

use crate::function::Function;
use crate::host::Host;

/// Answers code 10 at one argument.
#[derive(Clone, Copy)]
pub struct RootHost;

impl Host for RootHost {
    ghost answers = { λ _. root_answer };

    fn ask(&self, code: u8, arguments: &[f64]) -> Option<f64> {
        match arguments {
            [x] if code == u8::from(Function::Sqrt) => Some(x.sqrt()),
            _ => None,
        }
    }
}
