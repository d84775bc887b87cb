// Whether a table may end: each gang has a thread by then.
ghost use Rattle.std.specs.Prelude.{◌≡◌};
ghost use Rattle.reading.specs.Ending.{ending};

use table::Table;
use wire::refusal::Refusal;

// The table's end.
#[tactic(auto, unfolding(crate::specs::Ending::ending))]
pub(crate) fn ending(table: &Table) -> Result<(), Refusal>
    ensures { result ≡ ending table.now }
{
    if table.sizes.cores == 0 {
        return Err(Refusal::Unfinished);
    }
    if table.sizes.gangs == 0 {
        return Err(Refusal::Unfinished);
    }
    if table.lent().manned() {
        Ok(())
    } else {
        Err(Refusal::Unfinished)
    }
}
