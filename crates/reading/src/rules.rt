// The rules on a table's records: whether one more record may come, and the table with it in place.
ghost use Rattle.std.specs.Prelude.{◌≡◌};
ghost use Rattle.reading.specs.Taken.{taken_of, record_taken};

use crate::cores::take_cores;
use crate::gang::take_gang;
use crate::thread::take_thread;
use table::Table;
use wire::refusal::Refusal;
use wire::table_record::TableRecord;

// One more record; a refused one leaves the table as it came. A short GANG has the default budget.
pub(crate) fn take(table: &mut Table, default: u32, one: TableRecord) -> Result<(), Refusal>
    ensures { taken_of table.new result ≡ record_taken default table.old one }
{
    match one {
        TableRecord::Cores(count) => take_cores(table, count),
        TableRecord::Gang { priority, budget } => take_gang(table, priority, budget),
        TableRecord::ShortGang(priority) => take_gang(table, priority, default),
        TableRecord::Thread { gang, core } => take_thread(table, gang, core),
    }
}
