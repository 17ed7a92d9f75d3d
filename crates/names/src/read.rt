//! What a name is at a source place.
ghost use Rattle.std.specs.Prelude.{◌≡◌, ◌+◌, slice_index_or};
ghost use Rattle.std.specs.Float.{float_zero as zero_value};
ghost use Rattle.expression.specs.Letterings.{letters_of};
ghost use Rattle.names.specs.Variables.{Readable, read_from};

use crate::element::LetteredPlace;
use crate::layout_or_scalar::LayoutOrScalar;
use crate::scope::Scope;
use crate::variable::{VariableRecord, record_of};
use expression::node::{Letters, VariableNumber};
use layout::catalogue::Catalogue;
use std::marker::Model;

/// An element of a buffer from an offset on, 0.0 past its end.
fn constant_at(constants: &[f64], offset: usize, n: usize) -> f64
    ensures { result ≡ slice_index_or constants.now (offset + n) zero_value }
{
    match offset.checked_add(n) {
        Some(i) => constants.get(i).copied().unwrap_or(0.0),
        None => 0.0,
    }
}

/// What names are read from at a source place.
#[derive(Drop)]
pub(crate) struct Reading<'a, C: Catalogue> {
    pub(crate) scope: &'a Scope<'a, C>,
    pub(crate) constants: &'a [f64],
    pub(crate) place: LetteredPlace,
}

impl<'a, C: Catalogue> Model for Reading<'a, C> {
    ghost Value = { Readable };

    ghost view = { λ r. record { layouts = C.layouts r.scope.now.catalogue.now; variables = r.scope.now.variables.now; constants = r.constants.now; block = letters_of r.place.letters; place = r.place.index } };
}

impl<'a, C: Catalogue> Reading<'a, C> {
    /// What a variable with letters is, 0.0 where it has no record.
    pub(crate) fn read(&self, variable: VariableNumber, name: Letters) -> f64
        ensures { result ≡ read_from self.now variable name }
    {
        let Some(record) = record_of(self.scope.variables, variable) else {
            return 0.0;
        };
        let layout = LayoutOrScalar::new(self.scope.catalogue, record.layout);
        match self.place.element(&layout, name) {
            Some(n) => constant_at(self.constants, record.offset, n),
            None => 0.0,
        }
    }
}
