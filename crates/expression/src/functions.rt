//! Operators, and functions at their arguments.
ghost use Rattle.std.specs.Prelude.{◌≡◌, ◌≤◌, [], ◌∷◌, length};
ghost use Rattle.std.specs.Float.Ieee.{le, neg};
ghost use Rattle.std.specs.Float.{float_zero};
ghost use Rattle.std.specs.Option.{option_map};
ghost use Rattle.expression.specs.Values.{binary as binary_value, unary as unary_value, heaviside as heaviside_value, logistic as logistic_value, piecewise as piecewise_value, called};

use crate::function::Function;
use crate::host::Host;
use crate::node::{BinaryOperator, UnaryOperator};

/// An operator between two values.
pub fn binary(operator: BinaryOperator, x: f64, y: f64) -> f64
    ensures { result ≡ binary_value operator x y }
{
    match operator {
        BinaryOperator::Add => x + y,
        BinaryOperator::Subtract => x - y,
        BinaryOperator::Multiply => x * y,
        BinaryOperator::Divide => x / y,
    }
}

/// An operator before one value.
pub fn unary(operator: UnaryOperator, x: f64) -> f64
    ensures { result ≡ unary_value operator x }
{
    match operator {
        UnaryOperator::Plus => x,
        UnaryOperator::Minus => -x,
    }
}

/// Whether a condition holds.
fn holds(condition: f64) -> bool
    ensures { result ≡ le float_zero condition }
{
    condition >= 0.0
}

fn heaviside(x: f64) -> f64
    ensures { result ≡ heaviside_value x }
{
    if holds(x) { 1.0 } else { 0.0 }
}

fn logistic(e: f64) -> f64
    ensures { result ≡ logistic_value e }
{
    1.0 / (1.0 + e)
}

/// The argument after the first condition that holds, or the last one.
fn piecewise(arguments: &[f64]) -> f64
    requires { 1 ≤ length arguments.now }
    ensures { result ≡ piecewise_value arguments.now }
{
    let mut rest = arguments;
    while let [condition, value, _, ..] = rest {
        if holds(*condition) {
            return *value;
        }
        rest = &rest[2..];
    }
    rest[rest.len() - 1]
}

/// By the host's exponential.
fn sigmoid<H: Host>(host: &H, x: f64) -> Option<f64>
    ensures { result ≡ option_map logistic_value (H.answers host.now 7 (neg x ∷ [])) }
{
    host.ask(Function::Exp.into(), &[-x]).map(logistic)
}

/// A function at its arguments: none where it has no argument, or the host has no value.
pub fn call<H: Host>(host: &H, code: u8, arguments: &[f64]) -> Option<f64>
    ensures { result ≡ called (H.answers host.now) code arguments.now }
{
    let x = *arguments.first()?;
    match Function::try_from(code) {
        Ok(Function::Abs) => Some(x.abs()),
        Ok(Function::Sigmoid) => sigmoid(host, x),
        Ok(Function::Heaviside) => Some(heaviside(x)),
        Ok(Function::Piecewise) => Some(piecewise(arguments)),
        _ => host.ask(code, arguments),
    }
}
