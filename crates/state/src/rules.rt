// The rules of the threads' states and of the kept counts: each a part of well-formedness.
ghost use Rattle.std.specs.Prelude.{◌≡◌};
ghost use Rattle.state.specs.Rules.{state_ok, count_ok, states_ok, counts_ok};

use lists::{at, every_place};

// Whether s may be the state at place t, where there are n threads.
// Two rules, and no generic one: each is a clause of "Well formed".
#[tactic(auto, unfolding(crate::specs::Rules::state_ok))]
fn state_ok(s: u8, t: u8, n: u8) -> bool
    ensures { result ≡ state_ok n t s }
{
    if t < n {
        s <= table::WAITING
    } else {
        s == table::FINISHED
    }
}

// Whether k may be the kept count at place c, where there are n cores.
#[tactic(auto, unfolding(crate::specs::Rules::count_ok))]
fn count_ok(k: u32, c: u8, n: u8) -> bool
    ensures { result ≡ count_ok n c k }
{
    if c < n {
        k <= crate::allowance::MAX_TRAFFIC
    } else {
        k == 0
    }
}

// Whether every place of the states is right, where there are n threads.
pub fn states_ok(state: &[u8; 128], n: u8) -> bool
    ensures { result ≡ states_ok n state.now }
{
    every_place(table::MAX_THREADS, |t| state_ok(at(state, t), t, n))
}

// Whether every place of the kept counts is right, where there are n cores.
pub fn counts_ok(kept: &[u32; 32], n: u8) -> bool
    ensures { result ≡ counts_ok n kept.now }
{
    every_place(table::MAX_CORES, |c| count_ok(at(kept, c), c, n))
}
