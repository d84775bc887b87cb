// Each gang's releases. Every release takes the next number, served or skipped, and a job carries the number of its own release.
#![tactic(auto)]

ghost use Rattle.std.specs.Prelude.{◌≡◌, get_or, set};
ghost use Rattle.ledger.specs.Lent.{ledger_seen, ledger_now, SameLedgerPlaces};
ghost use Rattle.ledger.specs.Releases.{raised, raised_at, empty_ledger, served_of, skipped_of};
ghost use Rattle.ledger.specs.WellFormed.{counts_agree, all_zero, place_ok, ledger_ok};

use lists::{at, every_place, put};

// The last release number there is.
pub const LAST_NUMBER: u32 = 4294967295;

// How many gangs there is room for.
pub const PLACES: u8 = 32;

// For each gang: the number of its last release, how many releases were served and skipped, and its current job's number.
// Four lists, and not one list of records: the layout is that of gjalvorn_ledger in the C interface.
#[repr(C)]
#[derive(Clone, Copy, PartialEq, Eq, Debug)]
pub struct Ledger {
    pub number: [u32; 32],
    pub served: [u32; 32],
    pub skipped: [u32; 32],
    pub job: [u32; 32],
}

impl Ledger {
    // No gang has been released yet.
    pub fn empty() -> Ledger
        ensures { result ≡ empty_ledger }
    {
        Ledger {
            number: [0; 32],
            served: [0; 32],
            skipped: [0; 32],
            job: [0; 32],
        }
    }

    // The ledger, lent for reading.
    pub fn lent(&self) -> LedgerRef<'_>
        ensures { ledger_seen result ≡ self.now }
    {
        LedgerRef {
            number: &self.number,
            served: &self.served,
            skipped: &self.skipped,
            job: &self.job,
        }
    }
}

// A ledger's lists, lent for reading. Copied only: nothing compares or shows it.
#[derive(Clone, Copy)]
pub struct LedgerRef<'a> {
    pub number: &'a [u32; 32],
    pub served: &'a [u32; 32],
    pub skipped: &'a [u32; 32],
    pub job: &'a [u32; 32],
}

impl<'a> LedgerRef<'a> {
    // Whether every place obeys the rules for a table of so many gangs.
    pub fn ok(self, gangs: u8) -> bool
        ensures { result ≡ ledger_ok gangs (ledger_seen self.entry) }
    {
        let number = self.number;
        let served = self.served;
        let skipped = self.skipped;
        let job = self.job;
        every_place(PLACES, |g| {
            let place = Place {
                number: at(number, g),
                served: at(served, g),
                skipped: at(skipped, g),
                job: at(job, g),
            };
            place.ok(g < gangs)
        })
    }
}

// A ledger's lists, lent for a release.
// That each reference stays where it was is a clause of each method: it is said of before and after, which no invariant of a type speaks of.
#[derive(Drop)]
pub struct LedgerMut<'a> {
    pub number: &'a mut [u32; 32],
    pub served: &'a mut [u32; 32],
    pub skipped: &'a mut [u32; 32],
    pub job: &'a mut [u32; 32],
}

impl<'a> LedgerMut<'a> {
    // Gang g's next release is served, and the job takes that number.
    pub fn serve_release(&mut self, g: u8)
        ensures served { ledger_now self.new ≡ served_of (ledger_now self.old) g }
        ensures places { SameLedgerPlaces self.old self.new }
    {
        let taken = raise(self.number, g);
        raise(self.served, g);
        put(self.job, g, taken);
    }

    // Gang g's next release is skipped: it takes its number all the same, and the job keeps its own.
    pub fn skip_release(&mut self, g: u8)
        ensures skipped { ledger_now self.new ≡ skipped_of (ledger_now self.old) g }
        ensures places { SameLedgerPlaces self.old self.new }
    {
        raise(self.number, g);
        raise(self.skipped, g);
    }
}

// Gang g's count goes up by one, and is handed back.
fn raise(counts: &mut [u32], g: u8) -> u32
    ensures given { result ≡ raised (get_or counts.old g 0) }
    ensures kept { counts.new ≡ raised_at counts.old g }
{
    let last = at(counts, g);
    let next = raised(last);
    put(counts, g, next);
    next
}

// One more, and never past the last number.
#[tactic(auto, unfolding(crate::specs::Releases::raised))]
fn raised(n: u32) -> u32
    ensures { result ≡ raised n }
{
    n.saturating_add(1)
}

// What stands at one place of the ledger's lists. Copied only: nothing compares or shows it.
#[derive(Clone, Copy)]
struct Place {
    number: u32,
    served: u32,
    skipped: u32,
    job: u32,
}

impl Place {
    // The rule of one place, which belongs to a gang or is unused.
    #[tactic(auto, unfolding(crate::specs::WellFormed::place_ok))]
    fn ok(self, used: bool) -> bool
        ensures { result ≡ place_ok used self.number self.served self.skipped self.job }
    {
        if used {
            self.counts_agree()
        } else {
            self.all_zero()
        }
    }

    // The rule of a gang's place. The sum is wide, so that it cannot wrap.
    #[tactic(auto, unfolding(crate::specs::WellFormed::counts_agree))]
    fn counts_agree(self) -> bool
        ensures { result ≡ counts_agree self.number self.served self.skipped self.job }
    {
        self.job <= self.number
            && (self.served as u64) + (self.skipped as u64) == self.number as u64
    }

    // The rule of an unused place.
    #[tactic(auto, unfolding(crate::specs::WellFormed::all_zero))]
    fn all_zero(self) -> bool
        ensures { result ≡ all_zero self.number self.served self.skipped self.job }
    {
        self.number == 0 && self.served == 0 && self.skipped == 0 && self.job == 0
    }
}
