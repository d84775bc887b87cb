// What document 01's "Well formed" asks of the lock, clause by clause: first of the whole lock, then of one core.
ghost use Rattle.std.specs.Prelude.{◌≡◌};
ghost use Rattle.lock.specs.Lent.{lock_seen, pins_seen};
ghost use Rattle.lock.specs.LockRules.{held_ok, idle_ok, sets_ok, pinned_ok, ours_ok, core_ok, cores_ok, lock_ok};

use crate::{Held, LockRef, Pins};
use lists::{at, at_or, every_place};

// Held exactly when a core is locked, by one of the gangs.
#[tactic(auto, unfolding(crate::specs::LockRules::held_ok))]
fn held_ok(held: Held, gangs: u8) -> bool
    ensures { result ≡ held_ok gangs held.holder held.locked }
{
    if held.holder == coreset::NONE {
        held.locked == 0
    } else {
        held.locked != 0 && held.holder < gangs
    }
}

// No core blocked while the lock is free.
#[tactic(auto, unfolding(crate::specs::LockRules::idle_ok))]
fn idle_ok(held: Held) -> bool
    ensures { result ≡ idle_ok held.holder held.blocked }
{
    held.holder != coreset::NONE || held.blocked == 0
}

// Core c exists where a core set names it.
#[tactic(auto, unfolding(crate::specs::LockRules::sets_ok))]
fn sets_ok(cores: u8, c: u8, named: bool) -> bool
    ensures { result ≡ sets_ok cores c named }
{
    !named || c < cores
}

// Core c's occupant t, which is pinned to core `home`, is pinned to c, and c exists; or there is none.
#[tactic(auto, unfolding(crate::specs::LockRules::pinned_ok))]
fn pinned_ok(cores: u8, threads: u8, c: u8, t: u8, home: u8) -> bool
    ensures { result ≡ pinned_ok cores threads c t home }
{
    t == coreset::NONE || t < threads && home == c && c < cores
}

// A locked core's occupant t, of gang g, is the holder's.
#[tactic(auto, unfolding(crate::specs::LockRules::ours_ok))]
fn ours_ok(holder: u8, locked: bool, t: u8, g: u8) -> bool
    ensures { result ≡ ours_ok holder locked t g }
{
    !locked || t != coreset::NONE && g == holder
}

impl<'a> LockRef<'a> {
    // Whether this lock is well formed, against these cores, threads and gangs.
    #[tactic(auto, unfolding(crate::specs::LockRules::lock_ok))]
    pub fn ok(self, pins: Pins<'_>) -> bool
        ensures { result ≡ lock_ok (pins_seen pins.entry) (lock_seen self.entry) }
    {
        held_ok(self.held, pins.gangs) && idle_ok(self.held) && self.cores_ok(pins)
    }

    // Whether every core is as it may be.
    fn cores_ok(self, pins: Pins<'_>) -> bool
        ensures { result ≡ cores_ok (pins_seen pins.entry) (lock_seen self.entry) }
    {
        every_place(coreset::WIDTH, |c| self.core_ok(pins, c))
    }

    // What is asked of core c.
    #[tactic(auto, unfolding(crate::specs::LockRules::core_ok))]
    fn core_ok(self, pins: Pins<'_>, c: u8) -> bool
        ensures { result ≡ core_ok (pins_seen pins.entry) (lock_seen self.entry) c }
    {
        let held = self.held;
        let named = held.locked | held.blocked | held.owing;
        let occupant = self.occupant;
        let core = pins.core;
        let gang = pins.gang;
        let t = at_or(occupant, c, coreset::NONE);
        sets_ok(pins.cores, c, coreset::test(named, c))
            && pinned_ok(pins.cores, pins.threads, c, t, at(core, t))
            && ours_ok(held.holder, coreset::test(held.locked, c), t, at(gang, t))
    }
}
