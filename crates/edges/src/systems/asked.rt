// Events and questions on three systems: the empty one, one whose gang 0 has one release number left, and that gang's with none left.
use crate::numbers::byte;
use std::io;
use system::{Reply, System};
use wire::answer::{answer_number, answer_refusal, answer_value};
use wire::kinds::{FINISH, RELEASE, SERVE, TRAFFIC, WAIT, WAKE};
use wire::refusal::Refusal;

const EMPTY: u8 = 0;

const ONE_LEFT: u8 = 1;

// Gang 0 has taken 4,294,967,294 numbers, two of them served.
fn one_left() -> System {
    super::changed::system_of(b'r', b"0 4294967294 2 4294967292 1")
}

fn system_of(n: u8) -> System {
    match n {
        EMPTY => System::empty(),
        ONE_LEFT => one_left(),
        _ => one_left().release(0).system,
    }
}

// An event by its kind, on gang, thread or core 0.
fn applied(s: System, kind: u16) -> Reply {
    match kind {
        RELEASE => s.release(0),
        FINISH => s.finish(0),
        WAIT => s.wait(0),
        WAKE => s.wake(0),
        SERVE => s.serve(0),
        TRAFFIC => s.traffic(0, 0),
        _ => s.tick(),
    }
}

// An event's refusal, value and number.
fn event_on(rt: &impl Print, s: System, kind: u16) -> io::Result<()> {
    let answer = applied(s, kind).answer;
    println!(rt;
        " {} {} {}",
        answer_refusal(answer),
        answer_value(answer),
        answer_number(answer)
    )
}

// A question in the order of document 01, about gang or core 0.
// The number of the case's text: an enum would be read from it by the same match.
fn found(s: &System, question: u8) -> Result<u32, Refusal> {
    match question {
        1 => s.occupant(0),
        2 => s.stopped(0),
        3 => s.release_number(0),
        4 => s.served(0),
        5 => s.skipped(0),
        6 => s.job_number(0),
        7 => s.lowest_owing(),
        _ => s.owing_count(),
    }
}

// A question's refusal and value.
fn question_of(rt: &impl Print, s: &System, question: u8) -> io::Result<()> {
    match found(s, question) {
        Ok(value) => println!(rt; " 0 {value}"),
        Err(refusal) => println!(rt; " {} 0", u8::from(refusal)),
    }
}

// An event is applied, a question asked: the system's number, and then its own.
pub(crate) fn case(rt: &impl Print, name: &[u8], does: u8, what: &[u8]) -> io::Result<()> {
    let s = system_of(byte(what, 0));
    let n = byte(what, 1);
    crate::show::name(rt, name)?;
    if does == b'a' {
        event_on(rt, s, u16::from(n))
    } else {
        question_of(rt, &s, n)
    }
}
