// The record question and the payload.
ghost use Rattle.std.specs.Prelude.{◌≡◌};
ghost use Rattle.wire.specs.Record.{record_at, record_told, payload_of, payload_at};
ghost use Rattle.wire.specs.Question.{SeenAt};

use crate::kinds::{Stream, in_stream, length_fits};
use crate::number::u16_at;
use crate::of_record::{Next, OfRecord};
use crate::refusal::Refusal;

// The bytes of a length and a kind.
pub const HEADER: usize = 4;

// The bytes of a length, which the length does not count.
const UNCOUNTED: usize = 2;

// A whole record's kind, and the place of the next record.
#[derive(Clone, Copy, PartialEq, Eq, Debug)]
pub struct Record {
    pub kind: u16,
    pub next: usize,
}

// The record question: what stands at a place, or why not. Put where it is asked: what it gives is then not moved for each record.
#[inline(always)]
#[tactic(auto, unfolding(crate::specs::Record::record_at))]
pub fn record_at(stream: Stream, s: &[u8], place: usize) -> Result<Record, Refusal>
    ensures { result ≡ record_at stream s.now place }
{
    let left = s.len().saturating_sub(place);
    if left < HEADER {
        return Err(Refusal::CutShort);
    }
    let len = u16_at(s, place);
    let kind = u16_at(s, place + UNCOUNTED);
    if !in_stream(stream, kind) {
        return Err(Refusal::WrongKind);
    }
    if !length_fits(kind, len) {
        return Err(Refusal::WrongLength);
    }
    let whole = usize::from(len) + UNCOUNTED;
    if left < whole {
        return Err(Refusal::CutShort);
    }
    Ok(Record {
        kind,
        next: place + whole,
    })
}

// What the question finds, in document 01's numbers: refusal 0 with the kind and the next place, or the refusal with both 0.
// Numbers and no Result: record_told is what document 01 tells.
#[derive(Clone, Copy, PartialEq, Eq, Debug)]
pub struct RecordTold {
    pub refusal: u8,
    pub kind: u16,
    pub next: usize,
}

// The numbers of what the question finds.
impl From<Result<Record, Refusal>> for RecordTold {
    ghost from_gives = { λ seen told. told ≡ record_told seen };

    fn from(seen: Result<Record, Refusal>) -> RecordTold {
        match seen {
            Ok(Record { kind, next }) => RecordTold {
                refusal: 0,
                kind,
                next,
            },
            Err(refusal) => RecordTold {
                refusal: u8::from(refusal),
                kind: 0,
                next: 0,
            },
        }
    }
}

// The payload of the record that the question found at a place, as the very part of s; empty where it is refused.
fn payload_of(seen: Result<Record, Refusal>, s: &[u8], place: usize) -> &[u8]
    requires { SeenAt s.now place seen }
    ensures { result.now ≡ payload_of seen s.now place }
{
    match seen {
        Ok(Record { next, .. }) => &s[place + HEADER..next],
        Err(_) => &s[..0],
    }
}

// The payload of the record at a place, as the very part of s; empty where the record is refused.
#[tactic(auto, using(crate::specs::Question::seen_at))]
pub fn payload_at(stream: Stream, s: &[u8], place: usize) -> &[u8]
    ensures { result.now ≡ payload_at stream s.now place }
{
    payload_of(record_at(stream, s, place), s, place)
}

// Reads the record at the start of s: an event, or a table's record.
#[tactic(auto, using(crate::specs::Question::seen_at))]
pub fn next<T: OfRecord>(s: &[u8]) -> Result<Next<T>, Refusal>
    ensures { result ≡ T.next s.now }
{
    let seen = record_at(T::STREAM, s, 0);
    let Record { kind, next } = seen?;
    let found = T::of_record(kind, payload_of(seen, s, 0));
    Ok(Next { found, next })
}
