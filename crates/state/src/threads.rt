// Threads: one that runs, and those of a gang together. A number past the last place names nothing.
ghost use Rattle.std.specs.Prelude.{◌≡◌};
ghost use Rattle.state.specs.Threads.{is_running, finished_in, all_finished, readied, owed_by};

use lists::{at, at_or, put};
use table::TableRef;

// Whether thread t is its core's occupant and is ready.
// The occupants are handed in: this crate knows no lock.
#[tactic(auto, unfolding(crate::specs::Threads::is_running))]
pub fn is_running(state: &[u8; 128], table: TableRef<'_>, occupant: &[u8; 32], t: u8) -> bool
    ensures { result ≡ is_running state.now table.entry.core.now occupant.now t }
{
    let core = table.core;
    at(state, t) == table::READY && at_or(occupant, at(core, t), coreset::NONE) == t
}

// Whether thread t is finished, if it is gang g's.
#[tactic(auto, unfolding(crate::specs::Threads::finished_in))]
fn finished_in(state: &[u8; 128], table: TableRef<'_>, g: u8, t: u8) -> bool
    ensures { result ≡ finished_in state.now table.entry.gang.now g t }
{
    let gang = table.gang;
    at(gang, t) != g || at(state, t) == table::FINISHED
}

// Whether all of gang g's threads are finished.
// The loop counts places and goes over no list: a table may claim more threads than there are places, and past the last `at` gives an unused one.
#[tactic(auto, using(crate::proofs::Gangs::finished_so_far), unfolding(crate::specs::Threads::all_finished, ranges::specs::Range::every))]
pub fn all_finished(state: &[u8; 128], table: TableRef<'_>, g: u8) -> bool
    ensures { result ≡ all_finished state.now table.entry.gang.now g table.entry.sizes.threads }
{
    for t in 0..table.sizes.threads {
        if !finished_in(state, table, g, t) {
            return false;
        }
    }
    true
}

// Gang g's threads become ready.
// The loop counts places and goes over no list: a table may claim more threads than there are places, and past the last `at` gives an unused one.
#[tactic(auto, using(crate::proofs::Gangs::readied_so_far), unfolding(crate::specs::Threads::readied))]
pub fn make_ready(state: &mut [u8; 128], table: TableRef<'_>, g: u8)
    ensures { state.new ≡ readied table.entry.gang.now g table.entry.sizes.threads state.old }
{
    let gang = table.gang;
    for t in 0..table.sizes.threads {
        if at(gang, t) == g {
            put(state, t, table::READY);
        }
    }
}

// The owing cores, with those that gang g's threads are pinned to.
// The loop counts places and goes over no list: a table may claim more threads than there are places, and past the last `at` gives an unused one.
#[tactic(auto, using(crate::proofs::Gangs::owed_so_far), unfolding(crate::specs::Threads::owed_by))]
pub fn make_owe(owing: u32, table: TableRef<'_>, g: u8) -> u32
    ensures { result ≡ owed_by table.entry.core.now table.entry.gang.now g table.entry.sizes.threads owing }
{
    let gang = table.gang;
    let core = table.core;
    let mut owe = owing;
    for t in 0..table.sizes.threads {
        if at(gang, t) == g {
            owe = coreset::set(owe, at(core, t));
        }
    }
    owe
}
