// Document 01: "A batch reads event records and writes one ANSWER each into the lent output".
#![tactic(auto)]

ghost use Rattle.std.specs.Prelude.{◌≡◌, length};
ghost use Rattle.batch.specs.Turn.{Came, batched_with};
ghost use Rattle.batch.specs.Batch.{batch_of};

use system::System;
use turns::{Turns, take_turns};
use wire::refusal::Refusal;

mod turns;

// What a batch comes to: the system, the bytes read and written, and the number it stopped with, 0 at the end of the events.
// The layout is that of gjalvorn_batched in the C interface.
#[repr(C)]
#[derive(Clone, Copy, PartialEq, Eq, Debug)]
pub struct Batched {
    pub system: System,
    pub read: usize,
    pub written: usize,
    pub number: u8,
}

// Reads event records and answers each in the lent output. The system is looked at once: every event keeps it well formed.
#[tactic(auto, unfolding(crate::specs::Batch::batch_of))]
pub fn batch(mut system: System, events: &[u8], out: &mut [u8]) -> Batched
    ensures { Came (batch_of system events.now (length out.old)) out.old out.new result }
{
    if !system.well_formed() {
        return told(system, Turns::refused(Refusal::NotWellFormed));
    }
    let turns = take_turns(&mut system, events, out);
    told(system, turns)
}

// What the turns come to, beside the system after them. A call and no From: it puts several values together.
fn told(system: System, turns: Turns) -> Batched
    ensures { result ≡ batched_with system turns }
{
    Batched {
        system,
        read: turns.read,
        written: turns.written,
        number: match turns.end {
            Ok(()) => 0,
            Err(refusal) => u8::from(refusal),
        },
    }
}
