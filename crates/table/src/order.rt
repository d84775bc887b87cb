// The order of gangs, the order of ready threads, and a core's first ready thread.
ghost use Rattle.std.specs.Prelude.{◌≡◌};
ghost use Rattle.pick.specs.Pick.{pick_with};
ghost use Rattle.table.specs.Order.{ahead_by, before_by, stands_at, lineup, first_ready};

use crate::{MAX_THREADS, READY, TableRef};
use lists::at;

impl<'a> TableRef<'a> {
    // Gang g is ahead of gang h: its priority is higher.
    #[tactic(auto, unfolding(crate::specs::Order::ahead_by))]
    pub fn ahead(self, g: u8, h: u8) -> bool
        ensures { result ≡ ahead_by self.entry.priority.now g h }
    {
        let priority = self.priority;
        at(priority, h) < at(priority, g)
    }

    // Core c's first ready thread, or NONE.
    // The loop counts places and goes over no list. A table may claim more threads than there are places: past the last none stands, and the
    // loop ends there, so that no turn asks whether its thread has a place.
    // NONE and no Option: it is stored as an occupant, which the C interface has as 255 for none.
    #[tactic(auto, using(crate::proofs::Turns::first_so_far), unfolding(crate::specs::Order::first_ready, pick::specs::Pick::pick_below))]
    pub fn first_ready(self, state: &[u8; 128], c: u8) -> u8
        ensures { result
            ≡ first_ready (lineup self.entry.sizes.threads state.now self.entry.core.now self.entry.gang.now self.entry.priority.now) c }
    {
        let mut best = coreset::NONE;
        let threads = self.sizes.threads.min(MAX_THREADS);
        for t in 0..threads {
            best = self.first_with(state, c, best, t);
        }
        best
    }

    // Thread t is ready, and pinned to core c.
    #[tactic(auto, unfolding(crate::specs::Order::stands_at))]
    fn stands(self, state: &[u8; 128], c: u8, t: u8) -> bool
        ensures { result ≡ stands_at state.now self.entry.core.now c t }
    {
        let core = self.core;
        at(core, t) == c && at(state, t) == READY
    }

    // Thread t comes before thread u: its gang is ahead or, where neither is, its number is lower.
    #[tactic(auto, unfolding(crate::specs::Order::before_by))]
    fn is_before(self, t: u8, u: u8) -> bool
        ensures { result ≡ before_by self.entry.gang.now self.entry.priority.now t u }
    {
        let gang = self.gang;
        let g = at(gang, t);
        let h = at(gang, u);
        if self.ahead(g, h) {
            return true;
        }
        if self.ahead(h, g) {
            return false;
        }
        t < u
    }

    // The first of best, a ready thread of core c or NONE, and thread t.
    // NONE and no Option: it is stored as an occupant, which the C interface has as 255 for none.
    #[tactic(auto, unfolding(pick::specs::Pick::pick_with))]
    fn first_with(self, state: &[u8; 128], c: u8, best: u8, t: u8) -> u8
        ensures { result ≡ pick_with (stands_at state.now self.entry.core.now c) (before_by self.entry.gang.now self.entry.priority.now) best t }
    {
        if self.stands(state, c, t) {
            if best == coreset::NONE {
                return t;
            }
            if self.is_before(t, best) {
                return t;
            }
        }
        best
    }
}
