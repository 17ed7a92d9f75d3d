//! A host that has a list of entries.
ghost use Rattle.std.specs.Prelude.{◌≡◌};
ghost use Rattle.expression.specs.Hosts.{arguments_of, same_arguments, matches, table_answer};

use crate::host::Host;

/// The arguments of an entry.
#[derive(Clone, Copy)]
pub enum Arguments {
    One(f64),
    Two(f64, f64),
}

/// A function's value at its arguments.
#[derive(Clone, Copy)]
pub struct HostEntry {
    pub code: u8,
    pub arguments: Arguments,
    pub value: f64,
}

fn equal_arguments(a: Arguments, arguments: &[f64]) -> bool
    ensures { result ≡ same_arguments (arguments_of a) arguments.now }
{
    match a {
        Arguments::One(x) => [x].as_slice() == arguments,
        Arguments::Two(x, y) => [x, y].as_slice() == arguments,
    }
}

fn entry_matches(e: HostEntry, code: u8, arguments: &[f64]) -> bool
    ensures { result ≡ matches e code arguments.now }
{
    (e.code == code) & equal_arguments(e.arguments, arguments)
}

fn first_value(entries: &[HostEntry], code: u8, arguments: &[f64]) -> Option<f64>
    ensures { result ≡ table_answer entries.now code arguments.now }
{
    entries
        .iter()
        .find(|e| entry_matches(**e, code, arguments))
        .map(|e| e.value)
}

/// Answers by the first entry with equal code and arguments.
#[derive(Drop)]
pub struct TableHost<'a> {
    entries: &'a [HostEntry],
}

impl<'a> TableHost<'a> {
    /// A host over a lent list.
    pub fn new(entries: &'a [HostEntry]) -> TableHost<'a>
        ensures { result.entries.now ≡ entries.now }
    {
        TableHost { entries }
    }
}

impl<'a> Host for TableHost<'a> {
    ghost answers = { λ t. table_answer t.entries.now };

    fn ask(&self, code: u8, arguments: &[f64]) -> Option<f64> {
        first_value(self.entries, code, arguments)
    }
}
