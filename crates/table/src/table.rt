//! The table catalogue.
ghost use Rattle.std.specs.Prelude.{◌≡◌, ◌<◌, ◌≤◌, true, length, MatchOption, MatchResult, slice_index_or};
ghost use Rattle.layout.specs.Layouts.{blank};
ghost use Rattle.table.specs.Records.{AllKept, FirstFaulty, kept as kept_rule, record_layout, table_layouts};

use crate::kept_layout::KeptLayout;
use crate::record::LayoutRecord;
use crate::rules::check_records;
use layout::catalogue::Catalogue;
use layout::fault::LayoutFault;
use layout::index::Index;
use layout::shape::Shape;

/// Lent records, each of which keeps the rules over the lent pool.
#[derive(Drop)]
pub struct Table<'a> {
    records: &'a [LayoutRecord],
    pool: &'a [u16],
    ghost kept: { AllKept pool.now records.now },
}

impl<'a> Table<'a> {
    /// The catalogue of records that `check_records` has passed.
    pub fn new(records: &'a [LayoutRecord], pool: &'a [u16]) -> Table<'a>
        requires { AllKept pool.now records.now }
        ensures { (result.records.now ≡ records.now) × (result.pool.now ≡ pool.now) }
    {
        Table { records, pool }
    }

    /// The catalogue of records, or the first of them that breaks a rule.
    pub fn try_new(records: &'a [LayoutRecord], pool: &'a [u16]) -> Result<Table<'a>, LayoutFault>
        ensures { MatchResult result (λ t. (t.records.now ≡ records.now) × (t.pool.now ≡ pool.now)) (λ f. FirstFaulty pool.now records.now f) }
    {
        check_records(records, pool)?;
        Ok(Table::new(records, pool))
    }

    /// The record with a number, which keeps the rules.
    fn record(&self, number: usize) -> Option<LayoutRecord>
        ensures { MatchOption result (length self.now.records.now ≤ number) (λ r. (number < length self.now.records.now) × (kept_rule self.now.pool.now r ≡ true) × (slice_index_or (table_layouts self.now.pool.now self.now.records.now) number blank ≡ record_layout self.now.pool.now r)) }
    {
        let record = self.records.get(number)?;
        Some(*record)
    }
}

impl<'a> Catalogue for Table<'a> {
    ghost layouts = { λ t. table_layouts t.pool.now t.records.now };

    fn count(&self) -> usize {
        self.records.len()
    }

    fn shape(&self, layout: usize) -> Result<Shape, LayoutFault> {
        let record = self.record(layout).ok_or(LayoutFault::Unknown)?;
        Ok(KeptLayout::known(self.pool, record).shape())
    }

    fn place(&self, layout: usize, number: usize) -> Option<Index> {
        let record = self.record(layout)?;
        KeptLayout::known(self.pool, record).place(number)
    }

    fn number(&self, layout: usize, index: Index) -> Result<Option<usize>, LayoutFault> {
        let record = self.record(layout).ok_or(LayoutFault::Unknown)?;
        Ok(KeptLayout::known(self.pool, record).number(index))
    }
}
