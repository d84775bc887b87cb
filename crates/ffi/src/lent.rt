// Any event in place: for a caller that lends the parts of its system, so that none is copied.
ghost use Rattle.std.specs.Prelude.{◌≡◌};
ghost use Rattle.system.specs.Parts.{system_of, system_now, SamePlaces};
ghost use Rattle.system.specs.Events.{reply_of};
ghost use Rattle.ffi.specs.Calls.{answered_of, applied_of};
ghost use Rattle.ffi.specs.Outcomes.{AppliedInPlace, outcome_of, held_in};

use crate::events::EventValue;
use ledger::LedgerRef;
use lock::{Held, LockRef};
use system::{SystemMut, SystemRef};
use table::{Sizes, TableRef};
use wire::answer::{Answer, AnswerRecord, record_of};
use wire::event::Event;
use wire::refusal::Refusal;

// What an event comes to, beside the parts that it was lent: the holder and the blocked cores, and its ANSWER, with the owing and the locked ones.
// The layout is that of gjalvorn_outcome in the C interface.
#[repr(C)]
#[derive(Clone, Copy, PartialEq, Eq, Debug)]
pub struct Outcome {
    pub holder: u8,
    pub blocked: u32,
    pub answer: AnswerRecord,
}

impl Outcome {
    // An answer, beside the holder and the core sets after it.
    fn new(held: Held, answer: Answer) -> Outcome
        ensures { result ≡ outcome_of held answer }
    {
        Outcome {
            holder: held.holder,
            blocked: held.blocked,
            answer: record_of(answer, held.owing, held.locked),
        }
    }
}

// Any event, as `gjalvorn_apply` does it, on the parts of a system that are lent.
// Its parameters are those of the C interface, which hands over each part by itself.
#[tactic(auto, unfolding(system::specs::Parts::system_of))]
#[unsafe(no_mangle)]
pub extern "C" fn gjalvorn_apply_lent<'a>(
    sizes: Sizes,
    priority: &'a [u8; 32],
    budget: &'a [u32; 32],
    gang: &'a [u8; 128],
    core: &'a [u8; 128],
    state: &'a mut [u8; 128],
    number: &'a mut [u32; 32],
    served: &'a mut [u32; 32],
    skipped: &'a mut [u32; 32],
    job: &'a mut [u32; 32],
    held: Held,
    occupant: &'a mut [u8; 32],
    kept: &'a mut [u32; 32],
    event: EventValue,
) -> Outcome
    ensures { AppliedInPlace
        (system_of sizes priority.now budget.now gang.now core.now state.old
        number.old served.old skipped.old job.old held occupant.old kept.old) event
        (system_of sizes priority.now budget.now gang.now core.now state.new
        number.new served.new skipped.new job.new (held_in result) occupant.new kept.new) result }
{
    let mut lent = SystemMut {
        table: TableRef {
            sizes,
            priority,
            budget,
            gang,
            core,
        },
        state,
        number,
        served,
        skipped,
        job,
        held,
        occupant,
        kept,
    };
    let answer = apply_in_place(&mut lent, event);
    Outcome::new(lent.held, answer)
}

// The answer of any event on a system that is lent: 14 first, then 2, then the event's own.
#[tactic(auto, unfolding(system::specs::Events::checked))]
fn apply_in_place(lent: &mut SystemMut<'_>, event: EventValue) -> Answer
    ensures did { applied_of (system_now lent.old) event ≡ answered_of (reply_of (system_now lent.new) result) }
    ensures places { SamePlaces lent.old lent.new }
{
    let seen = SystemRef {
        table: lent.table,
        state: &*lent.state,
        ledger: LedgerRef {
            number: &*lent.number,
            served: &*lent.served,
            skipped: &*lent.skipped,
            job: &*lent.job,
        },
        lock: LockRef {
            held: lent.held,
            occupant: &*lent.occupant,
        },
        kept: &*lent.kept,
    };
    if !seen.well_formed() {
        return Answer::Refused(Refusal::NotWellFormed);
    }
    match Event::try_from(event) {
        Ok(known) => lent.step(known),
        Err(refusal) => Answer::Refused(refusal),
    }
}
