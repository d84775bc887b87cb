// Events through a batch. A case has its output's room, a bar, the table's records, a slash, and the events.
mod answers;

use crate::MOST_BYTES;
use crate::text::place_of;
use std::io;
use system::System;

// Room for more answers than a case has events. No heap: a buffer of this size, and how much of it is filled.
const ROOM: usize = 720;

// No case gives as much room as this.
const MOST_GIVEN: u64 = 1024;

// The fresh system of a case's table.
fn started(records: &[u8]) -> System {
    let slash = place_of(records, b'/');
    let mut bytes = [0u8; MOST_BYTES];
    let n = crate::numbers::bytes(&records[..slash], &mut bytes);
    reading::read_system(&bytes[..n]).system
}

// A batch of a case's events into the output given.
fn run(
    rt: &impl Print,
    name: &[u8],
    system: System,
    events: &[u8],
    out: &mut [u8],
) -> io::Result<()> {
    let mut bytes = [0u8; MOST_BYTES];
    let n = crate::numbers::bytes(events, &mut bytes);
    let done = batch::batch(system, &bytes[..n], out);
    answers::show(rt, name, done, out)
}

// The gang has taken 4,294,967,294 numbers, which no bytes lead to: it takes one more, and then none.
fn last_number(mut s: System) -> System {
    s.ledger.number[0] = 4294967294;
    s.ledger.skipped[0] = 4294967294;
    s
}

// A count above the highest: the system is not well formed.
fn kept_too_high(mut s: System) -> System {
    s.kept[0] = 1000001;
    s
}

// The system that a case starts from: its table's, or one that no bytes lead to.
// The letter of the case's text: an enum would be read from it by the same match.
fn system_of(does: u8, records: &[u8]) -> System {
    let s = started(records);
    match does {
        b'l' => last_number(s),
        b'k' => kept_too_high(s),
        _ => s,
    }
}

// The system and the events of a case, with the room that it gives.
fn run_in(
    rt: &impl Print,
    name: &[u8],
    does: u8,
    records: &[u8],
    out: &mut [u8],
) -> io::Result<()> {
    let system = system_of(does, records);
    let slash = place_of(records, b'/');
    run(rt, name, system, &records[slash..], out)
}

// One case. What is done is said by its first letter.
pub(crate) fn case(rt: &impl Print, name: &[u8], does: u8, what: &[u8]) -> io::Result<()> {
    let bar = place_of(what, b'|');
    let given = crate::numbers::number(&what[..bar], 0) % MOST_GIVEN;
    let mut out = [0u8; ROOM];
    let room = (given as usize).min(ROOM);
    run_in(rt, name, does, &what[bar..], &mut out[..room])
}
