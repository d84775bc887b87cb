// Printing what a batch came to: bytes read, bytes written, number, then each answer's refusal, value, number, owing and locked cores,
// then who holds the lock and which cores are blocked.
use batch::Batched;
use lock::Lock;
use std::io;
use wire::answer::ANSWER_SIZE;
use wire::number::{byte_at, u32_at};

// Where an ANSWER record has its fields.
const REFUSAL: usize = 4;

const VALUE: usize = 5;

const NUMBER: usize = 6;

const OWING: usize = 10;

const LOCKED: usize = 14;

// The fields of an ANSWER record.
fn answer(rt: &impl Print, record: &[u8]) -> io::Result<()> {
    let refusal = byte_at(record, REFUSAL);
    let value = byte_at(record, VALUE);
    let number = u32_at(record, NUMBER);
    let owing = u32_at(record, OWING);
    let locked = u32_at(record, LOCKED);
    println!(rt; "  {refusal} {value} {number} {owing:08x} {locked:08x}")
}

// The answers that were written, each in a record of the output.
fn each_answer(rt: &impl Print, out: &[u8], written: usize) -> io::Result<()> {
    for record in out.chunks(ANSWER_SIZE).take(written / ANSWER_SIZE) {
        answer(rt, record)?;
    }
    Ok(())
}

// Who holds the lock, and which cores are blocked.
fn lock(rt: &impl Print, lock: Lock) -> io::Result<()> {
    println!(rt; "  holder {} blocked {:08x}", lock.holder, lock.blocked)
}

// What a batch came to, with the answers in its output.
pub(crate) fn show(rt: &impl Print, name: &[u8], done: Batched, out: &[u8]) -> io::Result<()> {
    crate::show::name(rt, name)?;
    println!(rt; " {} {} {}", done.read, done.written, done.number)?;
    each_answer(rt, out, done.written)?;
    let system = done.system;
    lock(rt, system.lock)
}
