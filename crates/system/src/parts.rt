// A system by its parts, each lent from where it stands: to be looked at, or for an event to change.
use ledger::LedgerRef;
use lock::{Held, LockRef};
use table::TableRef;

// A system whose parts are lent to be looked at. Copied only: nothing compares or shows it.
#[derive(Clone, Copy)]
pub struct SystemRef<'a> {
    pub table: TableRef<'a>,
    pub state: &'a [u8; 128],
    pub ledger: LedgerRef<'a>,
    pub lock: LockRef<'a>,
    pub kept: &'a [u32; 32],
}

// A system whose parts are lent for an event to change. The holder and the core sets are four numbers, taken and handed back.
// The lists of the ledger and of the lock stand here, and not in a struct each: what is lent two structs deep comes back with no proof.
// That each reference stays where it was is a clause of each method: it is said of before and after, which no invariant of a type speaks of.
#[derive(Drop)]
pub struct SystemMut<'a> {
    pub table: TableRef<'a>,
    pub state: &'a mut [u8; 128],
    pub number: &'a mut [u32; 32],
    pub served: &'a mut [u32; 32],
    pub skipped: &'a mut [u32; 32],
    pub job: &'a mut [u32; 32],
    pub held: Held,
    pub occupant: &'a mut [u8; 32],
    pub kept: &'a mut [u32; 32],
}
