// Events as values, and what an event record means.
ghost use Rattle.std.specs.Prelude.{◌≡◌};
ghost use Rattle.wire.specs.declared.kinds.Stream.TheVariants.{Events};
ghost use Rattle.wire.specs.Event.{event_of, next_event, event_reads, kind_of};

use crate::kinds::{FINISH, RELEASE, SERVE, Stream, TICK, TRAFFIC, WAIT, WAKE};
use crate::number::{byte_at, u32_at};
use crate::of_record::OfRecord;

#[derive(Clone, Copy, PartialEq, Eq, Debug)]
pub enum Event {
    Release(u8),
    Finish(u8),
    Wait(u8),
    Wake(u8),
    Serve(u8),
    Traffic { core: u8, transactions: u32 },
    Tick,
}

// The event of a kind and a payload. Any kind that is no other event's is read as TICK: the record question has let no such kind by.
impl OfRecord for Event {
    ghost next = { next_event };

    ghost STREAM = { Events };

    ghost of_record = { event_of };

    const STREAM: Stream = Stream::Events;

    #[tactic(auto, unfolding(crate::specs::Event::event_of))]
    fn of_record(kind: u16, payload: &[u8]) -> Event {
        let number = byte_at(payload, 0);
        match kind {
            RELEASE => Event::Release(number),
            FINISH => Event::Finish(number),
            WAIT => Event::Wait(number),
            WAKE => Event::Wake(number),
            SERVE => Event::Serve(number),
            TRAFFIC => Event::Traffic {
                core: number,
                transactions: u32_at(payload, 1),
            },
            _ => Event::Tick,
        }
    }

    ghost reads = { event_reads };
}

// The kind of an event's record.
// A call by its name, and no From: a u16 made of an event does not say that it is the kind.
pub fn kind_of(event: Event) -> u16
    ensures { result ≡ kind_of event }
{
    match event {
        Event::Release(_) => RELEASE,
        Event::Finish(_) => FINISH,
        Event::Wait(_) => WAIT,
        Event::Wake(_) => WAKE,
        Event::Serve(_) => SERVE,
        Event::Traffic { .. } => TRAFFIC,
        Event::Tick => TICK,
    }
}
