//! The check of layout records.
ghost use Rattle.std.specs.Prelude.{◌≡◌, true, Some, MatchResult};
ghost use Rattle.layout.specs.declared.fault.LayoutFault.TheVariants.{Faulty};
ghost use Rattle.layout.specs.declared.fault.Rule.{Rule};
ghost use Rattle.table.specs.Records.{record_broken, kept, AllKept, FirstFaulty};

use crate::kept_layout::KeptLayout;
use crate::record::LayoutRecord;
use layout::fault::LayoutFault;

/// Refuses record `n` if it breaks a rule.
fn check_record(pool: &[u16], n: usize, layout: LayoutRecord) -> Result<(), LayoutFault>
    ensures { MatchResult result (λ _. kept pool.now layout ≡ true) (λ f. (r : Rule) × (f ≡ Faulty n r) × (record_broken pool.now layout ≡ Some r)) }
{
    match KeptLayout::new(pool, layout) {
        Ok(_) => Ok(()),
        Err(rule) => Err(LayoutFault::Faulty { record: n, rule }),
    }
}

/// The check of a table: refuses the first record that breaks a rule.
pub fn check_records(records: &[LayoutRecord], pool: &[u16]) -> Result<(), LayoutFault>
    ensures { MatchResult result (λ _. AllKept pool.now records.now) (λ f. FirstFaulty pool.now records.now f) }
{
    for (n, record) in records.iter().enumerate() {
        check_record(pool, n, *record)?;
    }
    Ok(())
}
