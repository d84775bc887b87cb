// The calls for C and Rust: each takes and gives plain values and byte slices, and comes to what the call that it names comes to.
#![tactic(auto)]

ghost use Rattle.std.specs.Prelude.{◌≡◌, length};
ghost use Rattle.system.specs.WellFormed.{well_formed};
ghost use Rattle.reading.specs.Reading.{default_budget};
ghost use Rattle.reading.specs.SystemRead.{system_read};
ghost use Rattle.batch.specs.Turn.{Came};
ghost use Rattle.batch.specs.Batch.{batch_of};

use batch::Batched;
use reading::SystemRead;
use system::System;

mod events;
mod lent;
mod questions;

pub use events::{Answered, EventValue};
pub use lent::Outcome;
pub use questions::{Found, ReasonFound};

// Reads a whole table into its fresh system.
#[unsafe(no_mangle)]
pub extern "C" fn gjalvorn_read_table(bytes: &[u8]) -> SystemRead
    ensures { result ≡ system_read default_budget bytes.now }
{
    reading::read_system(bytes)
}

// Reads event records and answers each in the lent output.
#[unsafe(no_mangle)]
pub extern "C" fn gjalvorn_batch(system: System, events: &[u8], out: &mut [u8]) -> Batched
    ensures { Came (batch_of system events.now (length out.old)) out.old out.new result }
{
    batch::batch(system, events, out)
}

// Whether the system is well formed.
#[unsafe(no_mangle)]
pub extern "C" fn gjalvorn_well_formed(system: System) -> bool
    ensures { result ≡ well_formed system }
{
    system.well_formed()
}
