// The seven events as steps on a system's parts, in place: what each does to any system whatever, well formed or not.
// Who calls a step has looked at the system, or answers for not having looked.
ghost use Rattle.std.specs.Prelude.{◌≡◌};
ghost use Rattle.wire.specs.declared.answer.Answer.TheVariants.{Done};
ghost use Rattle.system.specs.Parts.{system_now, SamePlaces};
ghost use Rattle.system.specs.Events.{reply_of, released_by, release_step, turned, leave_step, wake_step, serve_step, traffic_step};
ghost use Rattle.system.specs.Events.{tick_step, step_of};

use crate::SystemMut;
use ledger::LedgerMut;
use lists::{at, at_or, put};
use lock::LockMut;
use state::allowance::{is_stopped, sum_of};
use state::threads::{all_finished, is_running, make_owe, make_ready};
use wire::answer::Answer;
use wire::event::Event;
use wire::refusal::Refusal;

impl<'a> SystemMut<'a> {
    // Any event, with no look at the system: for a caller that has found it well formed already.
    #[tactic(auto, unfolding(crate::specs::Events::step_of))]
    pub fn step(&mut self, event: Event) -> Answer
        ensures did { step_of (system_now self.old) event ≡ reply_of (system_now self.new) result }
        ensures places { SamePlaces self.old self.new }
    {
        match event {
            Event::Release(g) => self.release(g),
            Event::Finish(t) => self.leave(t, table::FINISHED),
            Event::Wait(t) => self.leave(t, table::WAITING),
            Event::Wake(t) => self.wake(t),
            Event::Serve(c) => self.serve(c),
            Event::Traffic { core, transactions } => self.traffic(core, transactions),
            Event::Tick => self.tick(),
        }
    }

    // RELEASE gang g.
    #[tactic(auto, unfolding(crate::specs::Events::release_step))]
    fn release(&mut self, g: u8) -> Answer
        ensures did { release_step (system_now self.old) g ≡ reply_of (system_now self.new) result }
        ensures places { SamePlaces self.old self.new }
    {
        if self.table.sizes.gangs <= g {
            return Answer::Refused(Refusal::OutOfRange);
        }
        if at(self.number, g) == ledger::LAST_NUMBER {
            return Answer::Refused(Refusal::NumbersSpent);
        }
        self.released(g)
    }

    // RELEASE of a gang that is there and has a number left: served where all its threads are finished, and else skipped.
    #[tactic(auto, unfolding(crate::specs::Events::released_by))]
    fn released(&mut self, g: u8) -> Answer
        ensures did { released_by (system_now self.old) g ≡ reply_of (system_now self.new) result }
        ensures places { SamePlaces self.old self.new }
    {
        let table = self.table;
        let finished = all_finished(self.state, table, g);
        if finished {
            make_ready(self.state, table, g);
            self.held.owing = make_owe(self.held.owing, table, g);
        }
        let mut ledger = LedgerMut {
            number: &mut *self.number,
            served: &mut *self.served,
            skipped: &mut *self.skipped,
            job: &mut *self.job,
        };
        if finished {
            ledger.serve_release(g);
            return Answer::Served(at(ledger.number, g));
        }
        ledger.skip_release(g);
        Answer::Skipped(at(ledger.number, g))
    }

    // FINISH or WAIT thread t: it becomes v, if it is running.
    #[tactic(auto, unfolding(crate::specs::Events::leave_step))]
    fn leave(&mut self, t: u8, v: u8) -> Answer
        ensures did { leave_step (system_now self.old) t v ≡ reply_of (system_now self.new) result }
        ensures places { SamePlaces self.old self.new }
    {
        let table = self.table;
        if table.sizes.threads <= t {
            return Answer::Refused(Refusal::OutOfRange);
        }
        if is_running(self.state, table, self.occupant, t) {
            return self.turn(t, v);
        }
        Answer::Refused(Refusal::NotRunning)
    }

    // WAKE thread t.
    #[tactic(auto, unfolding(crate::specs::Events::wake_step))]
    fn wake(&mut self, t: u8) -> Answer
        ensures did { wake_step (system_now self.old) t ≡ reply_of (system_now self.new) result }
        ensures places { SamePlaces self.old self.new }
    {
        if self.table.sizes.threads <= t {
            return Answer::Refused(Refusal::OutOfRange);
        }
        if at(self.state, t) == table::WAITING {
            return self.turn(t, table::READY);
        }
        Answer::Refused(Refusal::NotWaiting)
    }

    // Thread t's state becomes v, and its core owes.
    fn turn(&mut self, t: u8, v: u8) -> Answer
        ensures did { reply_of (turned (system_now self.old) t v) Done ≡ reply_of (system_now self.new) result }
        ensures places { SamePlaces self.old self.new }
    {
        let core = self.table.core;
        put(self.state, t, v);
        let mut lock = LockMut {
            held: self.held,
            occupant: &mut *self.occupant,
        };
        lock.owe(at(core, t));
        self.held = lock.held;
        Answer::Done
    }

    // SERVE core c.
    #[tactic(auto, unfolding(crate::specs::Events::serve_step))]
    fn serve(&mut self, c: u8) -> Answer
        ensures did { serve_step (system_now self.old) c ≡ reply_of (system_now self.new) result }
        ensures places { SamePlaces self.old self.new }
    {
        let table = self.table;
        if table.sizes.cores <= c {
            return Answer::Refused(Refusal::OutOfRange);
        }
        let gang = table.gang;
        let t = table.first_ready(self.state, c);
        let g = at(gang, t);
        let ahead = table.ahead(g, self.held.holder);
        let mut lock = LockMut {
            held: self.held,
            occupant: &mut *self.occupant,
        };
        lock.serve(c, t, g, ahead);
        self.held = lock.held;
        Answer::Occupant(at_or(self.occupant, c, coreset::NONE))
    }

    // TRAFFIC from core c.
    #[tactic(auto, unfolding(crate::specs::Events::traffic_step))]
    fn traffic(&mut self, c: u8, transactions: u32) -> Answer
        ensures did { traffic_step (system_now self.old) c transactions ≡ reply_of (system_now self.new) result }
        ensures places { SamePlaces self.old self.new }
    {
        let table = self.table;
        if table.sizes.cores <= c || state::allowance::MAX_TRAFFIC < transactions {
            return Answer::Refused(Refusal::OutOfRange);
        }
        if at_or(self.occupant, c, coreset::NONE) != coreset::NONE {
            return Answer::Refused(Refusal::CoreOccupied);
        }
        let count = sum_of(at(self.kept, c), transactions);
        put(self.kept, c, count);
        Answer::Counted {
            stopped: is_stopped(self.occupant, self.held.holder, table, self.kept, c),
            count: at(self.kept, c),
        }
    }

    // TICK: all counts become 0.
    fn tick(&mut self) -> Answer
        ensures did { tick_step (system_now self.old) ≡ reply_of (system_now self.new) result }
        ensures places { SamePlaces self.old self.new }
    {
        *self.kept = [0; 32];
        Answer::Done
    }
}
