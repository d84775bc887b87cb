// The answer of an event, the ANSWER record, and its writer.
ghost use Rattle.std.specs.Prelude.{◌≡◌};
ghost use Rattle.wire.specs.Answer.{answer_refusal, answer_value, answer_number, record_of, answer_bytes, written_in, put_over};

use crate::kinds::{ANSWER, length_of};
use crate::refusal::Refusal;

// What an event comes to.
// A refused event is answered like any other, in a record of its own, and a batch goes on after it: so Refused is a case, and no Err.
#[derive(Clone, Copy, PartialEq, Eq, Debug)]
pub enum Answer {
    Refused(Refusal),
    // RELEASE took this number, and was served.
    Served(u32),
    // RELEASE took this number, and was skipped.
    Skipped(u32),
    // SERVE left the core this occupant, 255 for none.
    Occupant(u8),
    // TRAFFIC brought the core's kept count to this.
    Counted { stopped: bool, count: u32 },
    // FINISH, WAIT, WAKE or TICK was done.
    Done,
}

// The fields of an ANSWER record.
// Numbers, as the record has them: gjalvorn_answer of the C interface.
#[repr(C)]
#[derive(Clone, Copy, PartialEq, Eq, Debug)]
pub struct AnswerRecord {
    pub refusal: u8,
    pub value: u8,
    pub number: u32,
    pub owing: u32,
    pub locked: u32,
}

// The bytes of an ANSWER record.
pub const ANSWER_SIZE: usize = 18;

// What a value of 1 says: served, or stopped.
const YES: u8 = 1;

// The refusal number of an answer, 0 where the event was accepted.
// Three calls and no struct: each is public, with its own clause (answer_refusal, answer_value, answer_number).
pub fn answer_refusal(answer: Answer) -> u8
    ensures { result ≡ answer_refusal answer }
{
    match answer {
        Answer::Refused(refusal) => u8::from(refusal),
        _ => 0,
    }
}

// The value of an answer.
pub fn answer_value(answer: Answer) -> u8
    ensures { result ≡ answer_value answer }
{
    match answer {
        Answer::Served(_) => YES,
        Answer::Occupant(thread) => thread,
        Answer::Counted { stopped: true, .. } => YES,
        _ => 0,
    }
}

// The number of an answer.
pub fn answer_number(answer: Answer) -> u32
    ensures { result ≡ answer_number answer }
{
    match answer {
        Answer::Served(number) | Answer::Skipped(number) => number,
        Answer::Counted { count, .. } => count,
        _ => 0,
    }
}

// The ANSWER record of an answer, beside the owing and the locked cores.
pub fn record_of(answer: Answer, owing: u32, locked: u32) -> AnswerRecord
    ensures { result ≡ record_of answer owing locked }
{
    AnswerRecord {
        refusal: answer_refusal(answer),
        value: answer_value(answer),
        number: answer_number(answer),
        owing,
        locked,
    }
}

// The bytes of an ANSWER record.
#[tactic(auto, unfolding(crate::specs::Answer::answer_bytes, crate::specs::Kinds::lengths))]
pub fn answer_bytes(a: AnswerRecord) -> [u8; ANSWER_SIZE]
    ensures { result ≡ answer_bytes a }
{
    let len = length_of(ANSWER).to_le_bytes();
    let kind = ANSWER.to_le_bytes();
    let n = a.number.to_le_bytes();
    let o = a.owing.to_le_bytes();
    let l = a.locked.to_le_bytes();
    [
        len[0], len[1], kind[0], kind[1], a.refusal, a.value, n[0], n[1], n[2], n[3], o[0], o[1],
        o[2], o[3], l[0], l[1], l[2], l[3],
    ]
}

// Writes one ANSWER record into the start of out, and says how many bytes it wrote; or nothing where it has no room.
#[tactic(auto, unfolding(crate::specs::Answer::written_in, crate::specs::Answer::put_over, crate::specs::Answer::answer_bytes))]
pub fn write_answer(out: &mut [u8], a: AnswerRecord) -> Result<usize, Refusal>
    ensures value { result ≡ written_in out.old }
    ensures out_after { out.new ≡ put_over (answer_bytes a) out.old }
{
    if out.len() < ANSWER_SIZE {
        return Err(Refusal::NoRoom);
    }
    out[..ANSWER_SIZE].copy_from_slice(&answer_bytes(a));
    Ok(ANSWER_SIZE)
}
