// Document 01, "The listing": where the events of an input start, and what one event prints; and what one thread prints after it.
#![tactic(auto)]

ghost use Rattle.std.specs.Prelude.{◌≡◌, ◌≤◌, length};
ghost use Rattle.listed.specs.Start.{split_at, events_start};
ghost use Rattle.listed.specs.Listed.{line_with, event_listed};

mod messages;
mod reasons;

use lines::Line;
pub use messages::{list_stopped, list_table_refused, list_too_long};
pub use reasons::list_reason;
use system::{Reply, System};
use wire::answer::{AnswerRecord, record_of};
use wire::event::{Event, kind_of};
use wire::kinds::Stream;
use wire::number::u16_at;
use wire::of_record::Next;
use wire::record::{HEADER, Record, next, record_at};
use wire::refusal::Refusal;

// The lowest kind that starts the events. A number: a bound on kinds, which are any u16 (wire's kinds).
pub const FIRST_EVENT_KIND: u16 = 16;

// Where a record's kind stands, after its length.
const KIND_AT: usize = 2;

// The most bytes of an input that is not too long.
pub const MOST_BYTES: usize = 32768;

// Where the events start, or the length of the bytes where none do: past every table record. A place and no Option: then all is table.
pub fn events_start(bytes: &[u8]) -> usize
    ensures { result ≡ events_start bytes.now }
{
    let mut at = 0;
    // No `for`: the next place is a whole record further, and what the record is says how long it is.
    while let Ok(Record { next, .. }) = record_at(Stream::Table, bytes, at) {
        at = next;
    }
    split_at(bytes, at)
}

// Where the events start if no table record stands at a place: there, where a kind starts the events, whatever its length.
#[tactic(auto, unfolding(crate::specs::Start::split_at))]
fn split_at(bytes: &[u8], at: usize) -> usize
    requires { at ≤ length bytes.now }
    ensures { result ≡ split_at bytes.now at }
{
    if bytes.len() - at < HEADER {
        return bytes.len();
    }
    if u16_at(bytes, at + KIND_AT) < FIRST_EVENT_KIND {
        bytes.len()
    } else {
        at
    }
}

// What listing an event comes to: the system after it, how many bytes its record takes, and its line.
#[derive(Clone, Copy, PartialEq, Eq, Debug)]
pub struct Listed {
    pub system: System,
    pub size: usize,
    pub line: Line,
}

// Applies the event at the start of the bytes left. Where its record is refused, nothing is applied: the system is the caller's, as it came.
#[tactic(auto, unfolding(crate::specs::Listed::event_listed))]
pub fn list_event(system: System, position: u32, left: &[u8]) -> Result<Listed, Refusal>
    ensures { result ≡ event_listed system position left.now }
{
    let Next { found, next } = next::<Event>(left)?;
    let Reply { system, answer } = system.apply(found);
    let lock = system.lock;
    let record = record_of(answer, lock.owing, lock.locked);
    let line = line_of(position, kind_of(found), record, lock.holder);
    Ok(Listed {
        system,
        size: next,
        line,
    })
}

// The line of an event's position, kind, answer and holder. A call and no From: it puts several values together.
fn line_of(position: u32, kind: u16, answer: AnswerRecord, holder: u8) -> Line
    ensures { result ≡ line_with position kind answer holder }
{
    Line {
        position,
        kind,
        refusal: answer.refusal,
        value: answer.value,
        number: answer.number,
        owing: answer.owing,
        locked: answer.locked,
        holder,
    }
}
