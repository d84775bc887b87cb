// A CORES record.
ghost use Rattle.std.specs.Prelude.{◌≡◌};
ghost use Rattle.reading.specs.Taken.{taken_of, cores_taken};

use table::{MAX_CORES, Table};
use wire::refusal::Refusal;

// CORES comes first and once: a table has no cores before it, and some after.
#[tactic(auto, unfolding(crate::specs::Taken::cores_taken, table::specs::Rules::within))]
pub(crate) fn take_cores(table: &mut Table, count: u8) -> Result<(), Refusal>
    ensures { taken_of table.new result ≡ cores_taken table.old count }
{
    if table.sizes.cores != 0 {
        return Err(Refusal::NotCoresFirst);
    }
    if !(1..=MAX_CORES).contains(&count) {
        return Err(Refusal::OutOfRange);
    }
    table.sizes.cores = count;
    Ok(())
}
