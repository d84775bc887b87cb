// A system that no table gives: one that events have reached, with some of its numbers changed. It prints the refusals of TICK and of a
// question: 14 twice, or 0 twice.
use crate::numbers::{byte, number, word};
use ledger::Ledger;
use lists::put;
use lock::Lock;
use std::io;
use system::System;
use table::{Sizes, Table};
use wire::answer::answer_refusal;

// How many gangs or cores, and how many threads, there is room for.
const PLACES: u64 = 32;

const THREADS: u64 = 128;

// Three cores; gang 0 of priority 10 on cores 0 and 1, gang 1 of priority 20 on core 2. The counts may be others.
fn table_of(cores: u8, gangs: u8, threads: u8) -> Table {
    let mut table = Table::empty();
    let sizes = Sizes {
        cores,
        gangs,
        threads,
    };
    table.sizes = sizes;
    table.priority[0] = 10;
    table.priority[1] = 20;
    table.budget[0] = 100;
    table.gang[2] = 1;
    table.core[1] = 1;
    table.core[2] = 2;
    table
}

fn worked_table() -> Table {
    table_of(3, 2, 3)
}

// Gang 0 is released and core 0 served: gang 0 holds the lock, core 0 is locked, core 1 owes.
fn started() -> System {
    let released = System::fresh(worked_table()).release(0);
    released.system.serve(0).system
}

// A gang, its priority and its budget.
// Two functions: a gang's second list is of words, a thread's of bytes.
fn gang(table: &mut Table, what: &[u8]) {
    let g = (number(what, 0) % PLACES) as u8;
    put(&mut table.priority, g, byte(what, 1));
    put(&mut table.budget, g, word(what, 2));
}

// A thread, its gang and its core.
fn thread(table: &mut Table, what: &[u8]) {
    let t = (number(what, 0) % THREADS) as u8;
    put(&mut table.gang, t, byte(what, 1));
    put(&mut table.core, t, byte(what, 2));
}

// A gang, its release number, its served and skipped counts and its job.
fn releases(ledger: &mut Ledger, what: &[u8]) {
    let g = (number(what, 0) % PLACES) as u8;
    put(&mut ledger.number, g, word(what, 1));
    put(&mut ledger.served, g, word(what, 2));
    put(&mut ledger.skipped, g, word(what, 3));
    put(&mut ledger.job, g, word(what, 4));
}

// The holder, the locked, blocked and owing cores, and a core and its occupant.
fn lock(lock: &mut Lock, what: &[u8]) {
    lock.holder = byte(what, 0);
    lock.locked = word(what, 1);
    lock.blocked = word(what, 2);
    lock.owing = word(what, 3);
    put(
        &mut lock.occupant,
        (number(what, 4) % PLACES) as u8,
        byte(what, 5),
    );
}

// The system of a case, by the letter of what it changes; no such letter: the empty system.
// The letter of the case's text: an enum would be read from it by the same match.
pub(crate) fn system_of(does: u8, what: &[u8]) -> System {
    let mut s = started();
    match does {
        // How many cores, gangs and threads.
        b'c' => s.table = table_of(byte(what, 0), byte(what, 1), byte(what, 2)),
        b'g' => gang(&mut s.table, what),
        b't' => thread(&mut s.table, what),
        // A thread and its state.
        b's' => put(
            &mut s.state,
            (number(what, 0) % THREADS) as u8,
            byte(what, 1),
        ),
        // A core and its kept count.
        b'k' => put(&mut s.kept, (number(what, 0) % PLACES) as u8, word(what, 1)),
        b'r' => releases(&mut s.ledger, what),
        b'l' => lock(&mut s.lock, what),
        _ => s = System::empty(),
    }
    s
}

// The refusal number of a system's TICK.
fn ticked(s: System) -> u8 {
    answer_refusal(s.tick().answer)
}

// The refusal number of the question how many of its cores owe.
fn counted(s: &System) -> u8 {
    match s.owing_count() {
        Ok(_) => 0,
        Err(refusal) => u8::from(refusal),
    }
}

// A case's line: its name, and both refusal numbers.
pub(crate) fn case(rt: &impl Print, name: &[u8], does: u8, what: &[u8]) -> io::Result<()> {
    let s = system_of(does, what);
    crate::show::name(rt, name)?;
    println!(rt; " {} {}", ticked(s), counted(&s))
}
