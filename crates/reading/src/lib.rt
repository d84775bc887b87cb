// A table's bytes, read record by record into a Table, or refused.
#![tactic(auto)]

ghost use Rattle.std.specs.Prelude.{◌≡◌};
ghost use Rattle.table.specs.Rules.{empty_table};
ghost use Rattle.reading.specs.Reading.{default_budget, reading_told, read_of, reading_of};
ghost use Rattle.reading.specs.SystemRead.{system_read};

use system::System;
use table::Table;
use wire::record::next;
use wire::refusal::Refusal;
use wire::table_record::TableRecord;

mod cores;
mod ending;
mod gang;
mod rules;
mod thread;

// The budget of a short GANG.
pub const DEFAULT_BUDGET: u32 = 1000000;

// Why a table is refused, and the place of the refused record or, for 8, the length of the bytes.
#[derive(Clone, Copy, PartialEq, Eq, Debug)]
pub struct TableRefused {
    pub refusal: Refusal,
    pub place: usize,
}

// Reads a whole table.
pub fn read_table(bytes: &[u8]) -> Result<Table, TableRefused>
    ensures { reading_told bytes.now result ≡ reading_of default_budget bytes.now }
{
    let mut table = Table::empty();
    read_into(&mut table, DEFAULT_BUDGET, bytes)?;
    Ok(table)
}

// What reading comes to, as a system. Accepted: a fresh one of the table, 0 and the length of the bytes.
// Refused: the empty system, the refusal's number and the place.
// The layout is that of gjalvorn_read in the C interface.
#[repr(C)]
#[derive(Clone, Copy, PartialEq, Eq, Debug)]
pub struct SystemRead {
    pub system: System,
    pub number: u8,
    pub place: usize,
}

// Reads a whole table into its fresh system.
pub fn read_system(bytes: &[u8]) -> SystemRead
    ensures { result ≡ system_read default_budget bytes.now }
{
    let mut table = Table::empty();
    let (number, place) = match read_into(&mut table, DEFAULT_BUDGET, bytes) {
        Ok(()) => (0, bytes.len()),
        Err(refused) => {
            table = Table::empty();
            (u8::from(refused.refusal), refused.place)
        }
    };
    SystemRead {
        system: System::fresh(table),
        number,
        place,
    }
}

// The records from the first byte on, each taken into an empty table where it lies; then the table's end.
// The table is lent: one that comes back in the result is moved on its way, and misses the bar of speed for a small table.
fn read_into(table: &mut Table, default: u32, bytes: &[u8]) -> Result<(), TableRefused>
    requires { table.old ≡ empty_table }
    ensures { reading_told bytes.now (read_of table.new result) ≡ reading_of default bytes.now }
{
    let mut at: usize = 0;
    // No `for`: the next place is a whole record further, and what the record is says how long it is.
    while at < bytes.len() {
        // A match, and no second map_err: a record that is handed on in a result is moved at each.
        match next::<TableRecord>(&bytes[at..]) {
            Ok(one) => {
                let taken = rules::take(table, default, one.found);
                taken.map_err(|refusal| TableRefused { refusal, place: at })?;
                at += one.next;
            }
            Err(refusal) => return Err(TableRefused { refusal, place: at }),
        }
    }
    ending::ending(table).map_err(|refusal| TableRefused {
        refusal,
        place: bytes.len(),
    })
}
