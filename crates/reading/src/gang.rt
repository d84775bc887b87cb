// A GANG record.
ghost use Rattle.std.specs.Prelude.{◌≡◌};
ghost use Rattle.reading.specs.Taken.{taken_of, gang_fits, gang_taken};

use table::{MAX_BUDGET, MAX_GANGS, TOP_PRIORITY, Table};
use wire::refusal::Refusal;

// The priority and the budget are in range.
#[tactic(auto, unfolding(crate::specs::Taken::gang_fits, table::specs::Rules::within))]
fn gang_fits(priority: u8, budget: u32) -> bool
    ensures { result ≡ gang_fits priority budget }
{
    (1..=TOP_PRIORITY).contains(&priority) && budget <= MAX_BUDGET
}

// The next gang, of priority p and budget m: its number is how many were read before it. The tests stand in the order of the refusal numbers.
#[tactic(auto, unfolding(crate::specs::Taken::gang_taken))]
pub(crate) fn take_gang(table: &mut Table, p: u8, m: u32) -> Result<(), Refusal>
    ensures { taken_of table.new result ≡ gang_taken table.old p m }
{
    let gangs = table.sizes.gangs;
    if table.sizes.cores == 0 {
        return Err(Refusal::NotCoresFirst);
    }
    if gangs >= MAX_GANGS {
        return Err(Refusal::TooMany);
    }
    if !gang_fits(p, m) {
        return Err(Refusal::OutOfRange);
    }
    if table.lent().priority_taken(p) {
        return Err(Refusal::PriorityTaken);
    }
    table.priority[gangs as usize] = p;
    table.budget[gangs as usize] = m;
    table.sizes.gangs = gangs + 1;
    Ok(())
}
