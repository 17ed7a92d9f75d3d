//! The functions that an expression calls, their codes and their names.
ghost use Rattle.std.specs.Prelude.{◌≡◌};
ghost use Rattle.expression.specs.Codes.{function_code, Decodes, Names};

use crate::fault::ExpressionFault;
use std::str::FromStr;

/// A function by its code.
#[derive(Clone, Copy, PartialEq, Eq)]
pub enum Function {
    Sin = 1,
    Cos = 2,
    Tan = 3,
    Sinh = 4,
    Cosh = 5,
    Tanh = 6,
    Exp = 7,
    Log = 8,
    Log10 = 9,
    Sqrt = 10,
    Abs = 11,
    Sigmoid = 12,
    Arcsinh = 13,
    Arccosh = 14,
    Heaviside = 15,
    Pow = 16,
    Piecewise = 17,
}

impl From<Function> for u8 {
    ghost from_gives = { λ f n. n ≡ function_code f };

    fn from(function: Function) -> u8 {
        function as u8
    }
}

impl TryFrom<u8> for Function {
    type Error = ExpressionFault;

    ghost try_from_gives = { Decodes };

    fn try_from(code: u8) -> Result<Function, ExpressionFault> {
        match code {
            1 => Ok(Function::Sin),
            2 => Ok(Function::Cos),
            3 => Ok(Function::Tan),
            4 => Ok(Function::Sinh),
            5 => Ok(Function::Cosh),
            6 => Ok(Function::Tanh),
            7 => Ok(Function::Exp),
            8 => Ok(Function::Log),
            9 => Ok(Function::Log10),
            10 => Ok(Function::Sqrt),
            11 => Ok(Function::Abs),
            12 => Ok(Function::Sigmoid),
            13 => Ok(Function::Arcsinh),
            14 => Ok(Function::Arccosh),
            15 => Ok(Function::Heaviside),
            16 => Ok(Function::Pow),
            17 => Ok(Function::Piecewise),
            _ => Err(ExpressionFault::Malformed),
        }
    }
}

impl FromStr for Function {
    type Err = ExpressionFault;

    ghost from_str_gives = { Names };

    fn from_str(name: &str) -> Result<Function, ExpressionFault> {
        match name {
            "sin" => Ok(Function::Sin),
            "cos" => Ok(Function::Cos),
            "tan" => Ok(Function::Tan),
            "sinh" => Ok(Function::Sinh),
            "cosh" => Ok(Function::Cosh),
            "tanh" => Ok(Function::Tanh),
            "exp" => Ok(Function::Exp),
            "log" => Ok(Function::Log),
            "log10" => Ok(Function::Log10),
            "sqrt" => Ok(Function::Sqrt),
            "abs" => Ok(Function::Abs),
            "sigmoid" => Ok(Function::Sigmoid),
            "arcsinh" => Ok(Function::Arcsinh),
            "arccosh" => Ok(Function::Arccosh),
            "heaviside" => Ok(Function::Heaviside),
            "pow" => Ok(Function::Pow),
            "piecewise" => Ok(Function::Piecewise),
            _ => Err(ExpressionFault::Malformed),
        }
    }
}
