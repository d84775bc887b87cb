// The table of cores, gangs and pinned threads: its rules, the order of its gangs, and a core's first ready thread.
#![tactic(auto)]

ghost use Rattle.std.specs.Prelude.{◌≡◌};
ghost use Rattle.table.specs.Rules.{empty_table};
ghost use Rattle.table.specs.Seen.{table_seen};

mod order;
mod rules;

// How many cores, gangs and threads there is room for, and how large a priority and a budget may be.
pub const MAX_CORES: u8 = 32;

pub const MAX_GANGS: u8 = 32;

pub const MAX_THREADS: u8 = 128;

pub const TOP_PRIORITY: u8 = 99;

pub const MAX_BUDGET: u32 = 1000000;

// A thread's states. Numbers, not an enum: the C system has a byte for each, and a byte that is none of them is answered with 14.
pub const FINISHED: u8 = 0;

pub const READY: u8 = 1;

pub const WAITING: u8 = 2;

// How many cores, gangs and threads there are.
#[repr(C)]
#[derive(Clone, Copy, PartialEq, Eq, Debug)]
pub struct Sizes {
    pub cores: u8,
    pub gangs: u8,
    pub threads: u8,
}

// Each gang's priority and budget, and each thread's gang and the core that it is pinned to.
// Lists, and not records: the layout is that of gjalvorn_table in the C interface.
#[repr(C)]
#[derive(Clone, Copy, PartialEq, Eq, Debug)]
pub struct Table {
    pub sizes: Sizes,
    pub priority: [u8; 32],
    pub budget: [u32; 32],
    pub gang: [u8; 128],
    pub core: [u8; 128],
}

// A table that is lent, wherever its parts lie: the sizes, and each list where it stands. Copied only: nothing compares or shows it.
#[derive(Clone, Copy)]
pub struct TableRef<'a> {
    pub sizes: Sizes,
    pub priority: &'a [u8; 32],
    pub budget: &'a [u32; 32],
    pub gang: &'a [u8; 128],
    pub core: &'a [u8; 128],
}

impl Table {
    // The empty table: no cores, gangs or threads.
    pub fn empty() -> Table
        ensures { result ≡ empty_table }
    {
        Table {
            sizes: Sizes {
                cores: 0,
                gangs: 0,
                threads: 0,
            },
            priority: [0; 32],
            budget: [0; 32],
            gang: [0; 128],
            core: [0; 128],
        }
    }

    // The table, lent.
    pub fn lent(&self) -> TableRef<'_>
        ensures { table_seen result ≡ self.now }
    {
        // One by one: as one value they are read back from memory at each record of a table that is being read.
        let Sizes {
            cores,
            gangs,
            threads,
        } = self.sizes;
        TableRef {
            sizes: Sizes {
                cores,
                gangs,
                threads,
            },
            priority: &self.priority,
            budget: &self.budget,
            gang: &self.gang,
            core: &self.core,
        }
    }
}
