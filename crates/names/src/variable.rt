//! What is kept of a variable.
ghost use Rattle.std.specs.Prelude.{◌≡◌};
ghost use Rattle.std.specs.Result.{result_ok};
ghost use Rattle.names.specs.Variables.{class_of, recorded, described as described_by, ready_but, is_constant as constant_class};

use expression::node::VariableNumber;

/// Where the values of a variable are kept.
#[derive(Clone, Copy, PartialEq, Eq)]
pub enum Class {
    /// Among the constants.
    Constant,
    /// Among the data.
    Data,
    /// In neither.
    Unstored,
}

/// A number that no class has.
#[derive(Clone, Copy, PartialEq, Eq)]
pub struct UnknownClass;

impl TryFrom<u8> for Class {
    type Error = UnknownClass;

    ghost try_from_gives = { λ number r. result_ok r ≡ class_of number };

    fn try_from(number: u8) -> Result<Class, UnknownClass> {
        match number {
            0 => Ok(Class::Constant),
            1 => Ok(Class::Data),
            2 => Ok(Class::Unstored),
            _ => Err(UnknownClass),
        }
    }
}

/// A variable: its layout, none for a scalar, its class, and where its values begin. Variables 0
/// and 1, t and N, have no record: record i of a list is that of variable i + 2.
#[derive(Clone, Copy)]
pub struct VariableRecord {
    pub layout: Option<usize>,
    pub class: Class,
    pub offset: usize,
}

/// The record of a variable, if it has one.
pub(crate) fn record_of(
    variables: &[VariableRecord],
    variable: VariableNumber,
) -> Option<VariableRecord>
    ensures { result ≡ recorded variables.now variable }
{
    let i = variable.checked_sub(2)?;
    variables.get(i as usize).copied()
}

/// What is known of a variable: t and N are scalars, and not constant.
pub fn described(variables: &[VariableRecord], variable: VariableNumber) -> Option<VariableRecord>
    ensures { result ≡ described_by variables.now variable }
{
    if variable < 2 {
        return Some(VariableRecord {
            layout: None,
            class: Class::Unstored,
            offset: 0,
        });
    }
    record_of(variables, variable)
}

/// Whether a variable is ready, which each is but that of the open tensor.
pub(crate) fn is_ready(opened: Option<VariableNumber>, variable: VariableNumber) -> bool
    ensures { result ≡ ready_but opened variable }
{
    variable < 2 || opened != Some(variable)
}

/// Whether the values of a class are constant.
pub fn is_constant(class: Class) -> bool
    ensures { result ≡ constant_class class }
{
    class == Class::Constant
}
