// The seven events, and any event by its kind.
ghost use Rattle.std.specs.Prelude.{◌≡◌};
ghost use Rattle.table.specs.Numbers.{finished, waiting};
ghost use Rattle.system.specs.Events.{refused_by, checked, release_step, leave_step, wake_step, serve_step, traffic_step, tick_step};
ghost use Rattle.ffi.specs.Calls.{answered_of, named_by, applied_of};

use system::{Reply, System};
use wire::answer::{Answer, AnswerRecord, record_of};
use wire::event::Event;
use wire::kinds::{FINISH, RELEASE, SERVE, TICK, TRAFFIC, WAIT, WAKE};
use wire::refusal::Refusal;

// The system after an event, and the fields of its ANSWER.
// The layout is that of gjalvorn_answered in the C interface.
#[repr(C)]
#[derive(Clone, Copy, PartialEq, Eq, Debug)]
pub struct Answered {
    pub system: System,
    pub answer: AnswerRecord,
}

// An event by its kind: `number` is its gang, thread or core, and only TRAFFIC has transactions.
// The layout is that of gjalvorn_event in the C interface.
#[repr(C)]
#[derive(Clone, Copy, PartialEq, Eq, Debug)]
pub struct EventValue {
    pub kind: u16,
    pub number: u8,
    pub transactions: u32,
}

// The event that a kind names; a kind that is no event's is refused as a record of that kind is.
impl TryFrom<EventValue> for Event {
    type Error = Refusal;

    ghost try_from_gives = { λ value r. r ≡ named_by value };

    #[tactic(auto, unfolding(crate::specs::Calls::named_by))]
    fn try_from(value: EventValue) -> Result<Event, Refusal> {
        let number = value.number;
        match value.kind {
            RELEASE => Ok(Event::Release(number)),
            FINISH => Ok(Event::Finish(number)),
            WAIT => Ok(Event::Wait(number)),
            WAKE => Ok(Event::Wake(number)),
            SERVE => Ok(Event::Serve(number)),
            TRAFFIC => Ok(Event::Traffic {
                core: number,
                transactions: value.transactions,
            }),
            TICK => Ok(Event::Tick),
            _ => Err(Refusal::WrongKind),
        }
    }
}

// The system after an event, and its answer as the fields of its record.
impl From<Reply> for Answered {
    ghost from_gives = { λ reply answered. answered ≡ answered_of reply };

    fn from(reply: Reply) -> Answered {
        let Reply { system, answer } = reply;
        let answer = record_of(answer, system.lock.owing, system.lock.locked);
        Answered { system, answer }
    }
}

// RELEASE a gang.
// This and each one below is a call of the C interface.
#[unsafe(no_mangle)]
pub extern "C" fn gjalvorn_release(system: System, gang: u8) -> Answered
    ensures { result ≡ answered_of (checked system (release_step system gang)) }
{
    Answered::from(system.release(gang))
}

// FINISH a thread.
#[unsafe(no_mangle)]
pub extern "C" fn gjalvorn_finish(system: System, thread: u8) -> Answered
    ensures { result ≡ answered_of (checked system (leave_step system thread finished)) }
{
    Answered::from(system.finish(thread))
}

// WAIT of a thread.
#[unsafe(no_mangle)]
pub extern "C" fn gjalvorn_wait(system: System, thread: u8) -> Answered
    ensures { result ≡ answered_of (checked system (leave_step system thread waiting)) }
{
    Answered::from(system.wait(thread))
}

// WAKE a thread.
#[unsafe(no_mangle)]
pub extern "C" fn gjalvorn_wake(system: System, thread: u8) -> Answered
    ensures { result ≡ answered_of (checked system (wake_step system thread)) }
{
    Answered::from(system.wake(thread))
}

// SERVE a core.
#[unsafe(no_mangle)]
pub extern "C" fn gjalvorn_serve(system: System, core: u8) -> Answered
    ensures { result ≡ answered_of (checked system (serve_step system core)) }
{
    Answered::from(system.serve(core))
}

// TRAFFIC from a core.
#[unsafe(no_mangle)]
pub extern "C" fn gjalvorn_traffic(system: System, core: u8, transactions: u32) -> Answered
    ensures { result ≡ answered_of (checked system (traffic_step system core transactions)) }
{
    Answered::from(system.traffic(core, transactions))
}

// TICK.
#[unsafe(no_mangle)]
pub extern "C" fn gjalvorn_tick(system: System) -> Answered
    ensures { result ≡ answered_of (checked system (tick_step system)) }
{
    Answered::from(system.tick())
}

// Any event. A kind that is no event's is refused as a record of that kind is: 14 first, then 2.
#[unsafe(no_mangle)]
pub extern "C" fn gjalvorn_apply(system: System, event: EventValue) -> Answered
    ensures { result ≡ applied_of system event }
{
    match Event::try_from(event) {
        Ok(known) => Answered::from(system.apply(known)),
        Err(refusal) => Answered::from(refused(system, refusal)),
    }
}

// The system as it came, beside the refusal of an event that has no kind: 14 first.
#[tactic(auto, unfolding(system::specs::Events::checked))]
fn refused(system: System, refusal: Refusal) -> Reply
    ensures { result ≡ checked system (refused_by system refusal) }
{
    let refusal = if system.well_formed() {
        refusal
    } else {
        Refusal::NotWellFormed
    };
    Reply {
        system,
        answer: Answer::Refused(refusal),
    }
}
