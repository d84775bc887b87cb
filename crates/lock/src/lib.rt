// The gang lock, and SERVE on it. It knows no table: who is first on a core, of which gang, and whether that gang is ahead of the holder,
// is handed in.
#![tactic(auto)]

ghost use Rattle.std.specs.Prelude.{◌≡◌, ◌<◌, List, ℕ};
ghost use Rattle.lock.specs.Lent.{lock_seen, lock_now, SameLockPlaces};
ghost use Rattle.lock.specs.Serve.{free_lock, lock_of, owe_of, unmarked_of, vacated_of, freed_of, settled_of, left_of};
ghost use Rattle.lock.specs.Serve.{locked_for, displaced_of, blocked_of, claimed_of, admitted_of, serve_of};

mod rules;

use lists::put;

// Who holds the lock, which cores are locked, blocked and owing, and each core's occupant.
#[repr(C)]
#[derive(Clone, Copy, PartialEq, Eq, Debug)]
pub struct Lock {
    pub holder: u8,
    pub locked: u32,
    pub blocked: u32,
    pub owing: u32,
    pub occupant: [u8; 32],
}

// A lock but for the occupants: what an event takes and hands back, while the occupants are lent. The C interface has both structs:
// gjalvorn_lock and gjalvorn_held.
#[repr(C)]
#[derive(Clone, Copy, PartialEq, Eq, Debug)]
pub struct Held {
    pub holder: u8,
    pub locked: u32,
    pub blocked: u32,
    pub owing: u32,
}

impl Lock {
    // The lock of a fresh system: nobody holds it, and no core has an occupant.
    pub fn free() -> Lock
        ensures { result ≡ free_lock }
    {
        Lock {
            holder: coreset::NONE,
            locked: 0,
            blocked: 0,
            owing: 0,
            occupant: [coreset::NONE; 32],
        }
    }

    // The lock without its occupants.
    pub fn held(self) -> Held
        ensures { lock_of result self.occupant ≡ self }
    {
        Held {
            holder: self.holder,
            locked: self.locked,
            blocked: self.blocked,
            owing: self.owing,
        }
    }

    // The lock, its occupants lent for reading.
    pub fn lent(&self) -> LockRef<'_>
        ensures { lock_seen result ≡ self.now }
    {
        LockRef {
            held: self.held(),
            occupant: &self.occupant,
        }
    }
}

impl Held {
    // The lock with these occupants.
    pub fn with(self, occupant: [u8; 32]) -> Lock
        ensures { result ≡ lock_of self occupant }
    {
        Lock {
            holder: self.holder,
            locked: self.locked,
            blocked: self.blocked,
            owing: self.owing,
            occupant,
        }
    }

    // Core c owes.
    pub fn owe(mut self, c: u8) -> Held
        ensures { (o : List ℕ) → lock_of result o ≡ owe_of (lock_of self o) c }
    {
        self.owing = coreset::set(self.owing, c);
        self
    }
}

// What the lock is held against: how many cores, threads and gangs there are, and each thread's core and gang.
// Copied only: nothing compares or shows it.
#[derive(Clone, Copy)]
pub struct Pins<'a> {
    pub cores: u8,
    pub threads: u8,
    pub gangs: u8,
    pub core: &'a [u8; 128],
    pub gang: &'a [u8; 128],
}

// A lock whose occupants are lent for reading. Copied only: nothing compares or shows it.
#[derive(Clone, Copy)]
pub struct LockRef<'a> {
    pub held: Held,
    pub occupant: &'a [u8; 32],
}

// A core's first ready thread, or NONE, that thread's gang, and whether that gang is ahead of the holder: what step (c) goes by.
// NONE and no Option, here and in admit: as in serve. Copied only: nothing compares or shows it.
#[derive(Clone, Copy)]
struct First {
    core: u8,
    thread: u8,
    gang: u8,
    ahead: bool,
    ghost exists: { core < 32 },
}

// A lock whose occupants are lent for an event.
// That each reference stays where it was is a clause of each method: it is said of before and after, which no invariant of a type speaks of.
#[derive(Drop)]
pub struct LockMut<'a> {
    pub held: Held,
    pub occupant: &'a mut [u8; 32],
}

impl<'a> LockMut<'a> {
    // SERVE core c, where t is its first ready thread or NONE, g that thread's gang, ahead whether g is ahead of the holder.
    // NONE and no Option: it is stored as an occupant, which the C interface has as 255 for none.
    #[tactic(auto, unfolding(crate::specs::Serve::serve_of, crate::specs::Serve::serve_by))]
    pub fn serve(&mut self, c: u8, t: u8, g: u8, ahead: bool)
        ensures served { lock_now self.new ≡ serve_of (lock_now self.old) c t g ahead }
        ensures places { SameLockPlaces self.old self.new }
    {
        if c < coreset::WIDTH {
            self.unmark(c);
            self.leave(c);
            self.admit(First {
                core: c,
                thread: t,
                gang: g,
                ahead,
            });
        }
    }

    // Core c owes.
    pub fn owe(&mut self, c: u8)
        ensures owed { lock_now self.new ≡ owe_of (lock_now self.old) c }
        ensures places { SameLockPlaces self.old self.new }
    {
        self.held = self.held.owe(c);
    }

    // Step (a): c no longer owes and is no longer blocked.
    fn unmark(&mut self, c: u8)
        ensures unmarked { lock_now self.new ≡ unmarked_of (lock_now self.old) c }
        ensures places { SameLockPlaces self.old self.new }
    {
        self.held.owing = coreset::clear(self.held.owing, c);
        self.held.blocked = coreset::clear(self.held.blocked, c);
    }

    // Step (b): c gives up the lock, whatever its first ready thread t and that thread's gang g; where it was the last the lock is free.
    #[tactic(auto, unfolding(crate::specs::Serve::left_of))]
    fn leave(&mut self, c: u8)
        ensures left { (t g : ℕ) → lock_now self.new ≡ left_of (lock_now self.old) c t g }
        ensures places { SameLockPlaces self.old self.new }
    {
        self.vacate(c);
        self.settle();
    }

    // Step (b), for c itself: it is not locked, and has no occupant.
    fn vacate(&mut self, c: u8)
        ensures vacated { lock_now self.new ≡ vacated_of (lock_now self.old) c }
        ensures places { SameLockPlaces self.old self.new }
    {
        self.held.locked = coreset::clear(self.held.locked, c);
        put(self.occupant, c, coreset::NONE);
    }

    // Step (b), for the others: where no core is locked, the lock is free.
    #[tactic(auto, unfolding(crate::specs::Serve::settled_of))]
    fn settle(&mut self)
        ensures settled { lock_now self.new ≡ settled_of (lock_now self.old) }
        ensures places { SameLockPlaces self.old self.new }
    {
        if self.held.locked == 0 {
            self.free();
        }
    }

    // The lock is free, every blocked core owes and none is blocked.
    fn free(&mut self)
        ensures freed { lock_now self.new ≡ freed_of (lock_now self.old) }
        ensures places { SameLockPlaces self.old self.new }
    {
        self.held.holder = coreset::NONE;
        self.held.owing = self.held.owing | self.held.blocked;
        self.held.blocked = 0;
    }

    // Step (c): the first ready thread, or NONE, is let in.
    #[tactic(auto, unfolding(crate::specs::Serve::admitted_of))]
    fn admit(&mut self, first: First)
        ensures admitted { lock_now self.new ≡ admitted_of (lock_now self.old) first.core first.thread first.gang first.ahead }
        ensures places { SameLockPlaces self.old self.new }
    {
        if first.thread != coreset::NONE {
            self.claim(first);
        }
    }

    // Step (c), where there is a thread: its gang takes the lock, shares it, seizes it, or its core is blocked.
    #[tactic(auto, unfolding(crate::specs::Serve::claimed_of))]
    fn claim(&mut self, first: First)
        ensures claimed { lock_now self.new ≡ claimed_of (lock_now self.old) first.core first.thread first.gang first.ahead }
        ensures places { SameLockPlaces self.old self.new }
    {
        if self.held.holder == coreset::NONE {
            self.lock_for(first);
        } else if self.held.holder == first.gang {
            self.lock_for(first);
        } else if first.ahead {
            self.displace();
            self.lock_for(first);
        } else {
            self.block(first);
        }
    }

    // The thread's gang holds the lock, its core is locked, and the thread is the occupant.
    #[tactic(auto, unfolding(coreset::specs::Set::within_width))]
    fn lock_for(&mut self, first: First)
        ensures locked { lock_now self.new ≡ locked_for (lock_now self.old) first.core first.thread first.gang }
        ensures places { SameLockPlaces self.old self.new }
    {
        self.held.holder = first.gang;
        self.held.locked = coreset::set(self.held.locked, first.core);
        put(self.occupant, first.core, first.thread);
    }

    // Every locked core owes and is unlocked; its occupant stays until it is served.
    fn displace(&mut self)
        ensures displaced { lock_now self.new ≡ displaced_of (lock_now self.old) }
        ensures places { SameLockPlaces self.old self.new }
    {
        self.held.owing = self.held.owing | self.held.locked;
        self.held.locked = 0;
    }

    // The thread's core is blocked.
    #[tactic(auto, unfolding(coreset::specs::Set::within_width))]
    fn block(&mut self, first: First)
        ensures blocked { lock_now self.new ≡ blocked_of (lock_now self.old) first.core }
        ensures places { SameLockPlaces self.old self.new }
    {
        self.held.blocked = coreset::set(self.held.blocked, first.core);
    }
}
