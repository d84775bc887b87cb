// The system: a table, its threads' states, each gang's releases, the lock, and the kept counts of the allowance. Seven events change
// it, each of which takes the system by value and hands it back beside its answer, and eight questions ask about it.
#![tactic(auto)]

ghost use Rattle.std.specs.Prelude.{◌≡◌};
ghost use Rattle.system.specs.System.{empty_system, fresh_system};
ghost use Rattle.system.specs.Parts.{system_seen};
ghost use Rattle.system.specs.WellFormed.{well_formed};

use ledger::Ledger;
use lock::Lock;
use table::Table;

mod events;
mod parts;
mod questions;
mod steps;
mod well_formed;

pub use events::Reply;
pub use parts::{SystemMut, SystemRef};

#[repr(C)]
#[derive(Clone, Copy, PartialEq, Eq, Debug)]
pub struct System {
    pub table: Table,
    // Each thread's state: finished, ready or waiting.
    pub state: [u8; 128],
    pub ledger: Ledger,
    pub lock: Lock,
    // Each core's transactions since the last TICK, kept at 1,000,000 at most.
    pub kept: [u32; 32],
}

impl System {
    // The empty system: no cores, gangs or threads.
    pub fn empty() -> System
        ensures { result ≡ empty_system }
    {
        System::fresh(Table::empty())
    }

    // The system of a table that nothing has happened to.
    pub fn fresh(table: Table) -> System
        ensures { result ≡ fresh_system table }
    {
        System {
            table,
            state: [table::FINISHED; 128],
            ledger: Ledger::empty(),
            lock: Lock::free(),
            kept: [0; 32],
        }
    }

    // The system, its parts lent to be looked at.
    pub fn lent(&self) -> SystemRef<'_>
        ensures { system_seen result ≡ self.now }
    {
        SystemRef {
            table: self.table.lent(),
            state: &self.state,
            ledger: self.ledger.lent(),
            lock: self.lock.lent(),
            kept: &self.kept,
        }
    }

    // Whether the system is well formed.
    pub fn well_formed(&self) -> bool
        ensures { result ≡ well_formed self.now }
    {
        self.lent().well_formed()
    }
}
