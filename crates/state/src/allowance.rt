// The allowance of map drawing: the kept counts and the stop.
ghost use Rattle.std.specs.Prelude.{◌≡◌};
ghost use Rattle.state.specs.Allowance.{sum_of, stopped_at};

use lists::{at, at_or};
use table::TableRef;

// The most that a TRAFFIC may carry, and that a kept count comes to.
pub const MAX_TRAFFIC: u32 = 1000000;

// The kept count and some transactions together, at 1,000,000 at most.
#[tactic(auto, unfolding(crate::specs::Allowance::sum_of))]
pub fn sum_of(kept: u32, transactions: u32) -> u32
    ensures { result ≡ sum_of kept transactions }
{
    kept.saturating_add(transactions).min(MAX_TRAFFIC)
}

// Whether core c is stopped: no occupant, the lock held, and its kept count at least the holder's budget.
// The occupants and the holder are handed in: this crate knows no lock.
#[tactic(auto, unfolding(crate::specs::Allowance::stopped_at, crate::specs::Allowance::holder_budget))]
pub fn is_stopped(
    occupant: &[u8; 32],
    holder: u8,
    table: TableRef<'_>,
    kept: &[u32; 32],
    c: u8,
) -> bool
    ensures { result ≡ stopped_at occupant.now holder table.entry.budget.now kept.now c }
{
    let budget = table.budget;
    at_or(occupant, c, coreset::NONE) == coreset::NONE
        && holder != coreset::NONE
        && at(budget, holder) <= at(kept, c)
}
