// Document 02, K3, "Why isn't my thread running?": for a thread, the first reason that holds.
#![tactic(auto)]

ghost use Rattle.std.specs.Prelude.{◌≡◌};
ghost use Rattle.reason.specs.Why.{reason_number, reason_which, outranked_reason, ready_reason, reason_of, why_of};

use lists::at;
use state::threads::is_running;
use system::System;
use wire::refusal::Refusal;

// Why a thread stands as it does, in the order in which they are asked.
#[derive(Clone, Copy, PartialEq, Eq, Debug)]
pub enum Reason {
    Finished,
    Waiting,
    RunningLocked,
    RunningDisplaced,
    CoreOwes,
    // Another thread, the first ready one of its core.
    ThreadAhead(u8),
    // The gang that holds the lock, of higher priority.
    GangHolds(u8),
    NoneOfThese,
}

// A reason's number: its place in the request.
impl From<Reason> for u8 {
    ghost from_gives = { λ reason n. n ≡ reason_number reason };

    fn from(reason: Reason) -> u8 {
        match reason {
            Reason::Finished => 1,
            Reason::Waiting => 2,
            Reason::RunningLocked => 3,
            Reason::RunningDisplaced => 4,
            Reason::CoreOwes => 5,
            Reason::ThreadAhead(_) => 6,
            Reason::GangHolds(_) => 7,
            Reason::NoneOfThese => 8,
        }
    }
}

impl Reason {
    // The thread or gang that a reason names, or NONE.
    // A number, as gjalvorn_why and the printed line have it.
    pub fn which(self) -> u8
        ensures { result ≡ reason_which self }
    {
        match self {
            Reason::ThreadAhead(thread) => thread,
            Reason::GangHolds(gang) => gang,
            _ => coreset::NONE,
        }
    }
}

// The first reason that holds of thread t: 14 first, then 6.
#[tactic(auto, unfolding(crate::specs::Why::why_of))]
pub fn why(system: &System, t: u8) -> Result<Reason, Refusal>
    ensures { result ≡ (why_of system.now t).explanation }
{
    if !system.well_formed() {
        return Err(Refusal::NotWellFormed);
    }
    if system.table.sizes.threads <= t {
        return Err(Refusal::OutOfRange);
    }
    Ok(reason_in(system, t))
}

// Of a thread that is finished, that waits or that runs; and else of one that is ready.
#[tactic(auto, unfolding(crate::specs::Why::reason_of))]
fn reason_in(system: &System, t: u8) -> Reason
    ensures { result ≡ reason_of system.now t }
{
    let table = system.table.lent();
    let state = at(&system.state, t);
    if state == table::FINISHED {
        return Reason::Finished;
    }
    if state == table::WAITING {
        return Reason::Waiting;
    }
    if is_running(&system.state, table, &system.lock.occupant, t) {
        if coreset::test(system.lock.locked, at(&system.table.core, t)) {
            return Reason::RunningLocked;
        }
        return Reason::RunningDisplaced;
    }
    ready_reason(system, t)
}

// Of a thread that is ready and does not run.
#[tactic(auto, unfolding(crate::specs::Why::ready_reason))]
fn ready_reason(system: &System, t: u8) -> Reason
    ensures { result ≡ ready_reason system.now t }
{
    let c = at(&system.table.core, t);
    if coreset::test(system.lock.owing, c) {
        return Reason::CoreOwes;
    }
    let first = system.table.lent().first_ready(&system.state, c);
    if first != t {
        return Reason::ThreadAhead(first);
    }
    outranked_reason(system, t)
}

// Of a thread that is its core's first ready one: whether a gang of higher priority holds the lock.
#[tactic(auto, unfolding(crate::specs::Why::outranked_reason))]
fn outranked_reason(system: &System, t: u8) -> Reason
    ensures { result ≡ outranked_reason system.now t }
{
    let holder = system.lock.holder;
    if holder == coreset::NONE {
        return Reason::NoneOfThese;
    }
    if system.table.lent().ahead(holder, at(&system.table.gang, t)) {
        return Reason::GangHolds(holder);
    }
    Reason::NoneOfThese
}
