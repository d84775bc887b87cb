// The table rules, each tested in one pass.
ghost use Rattle.std.specs.Prelude.{◌≡◌};
ghost use Rattle.table.specs.Occurs.{Marked};
ghost use Rattle.table.specs.Rules.{sizes_ok, gang_place, gangs_ok, thread_place, threads_ok, taken, distinct, manned, table_ok};
ghost use Rattle.table.specs.Seen.{table_seen};

use crate::{MAX_BUDGET, MAX_CORES, MAX_GANGS, MAX_THREADS, Sizes, TOP_PRIORITY, TableRef};
use lists::{at, every_place};

impl Sizes {
    // With no core there is nothing; else there are cores and gangs, and no more of anything than there is room for.
    #[tactic(auto, unfolding(crate::specs::Rules::sizes_ok, crate::specs::Rules::within))]
    fn ok(self) -> bool
        ensures { result ≡ sizes_ok self }
    {
        if self.cores == 0 {
            return self.gangs == 0 && self.threads == 0;
        }
        if self.cores > MAX_CORES {
            return false;
        }
        (1..=MAX_GANGS).contains(&self.gangs) && self.threads <= MAX_THREADS
    }
}

impl<'a> TableRef<'a> {
    // Whether the table is empty or obeys the table rules, with every unused place zero.
    #[tactic(auto, unfolding(crate::specs::Rules::table_ok))]
    pub fn ok(self) -> bool
        ensures { result ≡ table_ok (table_seen self.entry) }
    {
        self.sizes.ok() && self.gangs_ok() && self.threads_ok() && self.distinct() && self.manned()
    }

    // Whether some gang has priority p.
    // The loop counts places and goes over no list: a table may claim more gangs than there are places, and past the last `at` gives an unused one.
    #[tactic(auto, using(crate::proofs::Turns::taken_so_far))]
    pub fn priority_taken(self, p: u8) -> bool
        ensures { result ≡ taken self.entry.priority.now self.entry.sizes.gangs p }
    {
        let priority = self.priority;
        for g in 0..self.sizes.gangs {
            if at(priority, g) == p {
                return true;
            }
        }
        false
    }

    // Every gang has a thread.
    #[tactic(auto, unfolding(crate::specs::Rules::manned))]
    pub fn manned(self) -> bool
        ensures { result ≡ manned self.entry.gang.now self.entry.sizes.gangs self.entry.sizes.threads }
    {
        let seen = self.gangs_of();
        every_place(self.sizes.gangs, |g| at(&seen, g) == 1)
    }

    // Every gang's place is right, used or not.
    fn gangs_ok(self) -> bool
        ensures { result ≡ gangs_ok self.entry.priority.now self.entry.budget.now self.entry.sizes.gangs }
    {
        every_place(MAX_GANGS, |g| self.gang_ok(g))
    }

    // A gang's priority and budget are in range, and an unused place is zero.
    #[tactic(auto, unfolding(crate::specs::Rules::gang_ok, crate::specs::Rules::within))]
    fn gang_ok(self, g: u8) -> bool
        ensures { result ≡ gang_place self.entry.priority.now self.entry.budget.now self.entry.sizes.gangs g }
    {
        let TableRef {
            sizes,
            priority,
            budget,
            ..
        } = self;
        let priority = at(priority, g);
        let budget = at(budget, g);
        if g < sizes.gangs {
            return (1..=TOP_PRIORITY).contains(&priority) && budget <= MAX_BUDGET;
        }
        priority == 0 && budget == 0
    }

    // Every thread's place is right, used or not.
    fn threads_ok(self) -> bool
        ensures { result ≡ threads_ok self.entry.gang.now self.entry.core.now self.entry.sizes }
    {
        every_place(MAX_THREADS, |t| self.thread_ok(t))
    }

    // A thread's gang and core are in the table, and an unused place is zero.
    #[tactic(auto, unfolding(crate::specs::Rules::thread_ok))]
    fn thread_ok(self, t: u8) -> bool
        ensures { result ≡ thread_place self.entry.gang.now self.entry.core.now self.entry.sizes t }
    {
        let TableRef {
            sizes,
            gang,
            core,
            ..
        } = self;
        let gang = at(gang, t);
        let core = at(core, t);
        if t < sizes.threads {
            return gang < sizes.gangs && core < sizes.cores;
        }
        gang == 0 && core == 0
    }

    // No two gangs have one priority: each is marked as it is met.
    // The loop counts places and goes over no list: a table may claim more gangs than there are places, and past the last `at` gives an unused one.
    // Marks are numbers: Marked is said of such a list.
    #[tactic(auto, using(ranges::specs::laws::Pass::passed_all), unfolding(crate::specs::Rules::distinct))]
    fn distinct(self) -> bool
        ensures { result ≡ distinct self.entry.priority.now self.entry.sizes.gangs }
    {
        let priority = self.priority;
        let mut seen = [0u8; 256];
        let mut ok = true;
        for g in 0..self.sizes.gangs {
            let p = at(priority, g) as usize;
            ok = ok & (seen[p] != 1);
            seen[p] = 1;
        }
        ok
    }

    // A mark for each gang number: 1 where one of the threads is that gang's.
    // The loop counts places and goes over no list: a table may claim more threads than there are places, and past the last `at` gives an unused one.
    // Marks are numbers: Marked is said of such a list.
    #[tactic(auto, using(ranges::specs::laws::Pass::upto_all, crate::specs::laws::Occurs::marked_more))]
    fn gangs_of(self) -> [u8; 256]
        ensures { Marked self.entry.gang.now self.entry.sizes.threads result }
    {
        let gang = self.gang;
        let mut seen = [0u8; 256];
        for t in 0..self.sizes.threads {
            let g = at(gang, t) as usize;
            seen[g] = 1;
        }
        seen
    }
}
