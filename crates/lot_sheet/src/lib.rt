// The lot sheet (02, M-105): the lent list of records, from the last to the first, so that one record more stands before those already kept. This function
// alone reads the list. Each record goes by value to lot.
#![tactic(auto)]

ghost use Rattle.std.specs.Prelude.{◌≡◌};
ghost use Rattle.lot.specs.Lot.{lot_answer};

use lot::LotSheet;
use record::Record;
use refusal::Refusal;

// Refusals 18 and 21, or the sheet of each gas.
pub fn lot_sheet(records: &[Record]) -> Result<LotSheet, Refusal>
    ensures { (result ≡ lot_answer records.now) × (records.exit.now ≡ records.entry.now) }
{
    let read = lot::records_read(records.len());
    let mut running = lot::no_records();
    for i in (0..read).rev() {
        running = lot::joined(i, records[i], running);
    }
    lot::finished(records.len(), running)
}
