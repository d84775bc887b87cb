// The seven events, for any system whatever: 14 first, then the event's own refusals and its effect.
// Each changes in self the parts that it is about, and hands self back beside its answer; where it is refused, self is as it came.
ghost use Rattle.std.specs.Prelude.{◌≡◌};
ghost use Rattle.table.specs.Numbers.{finished, waiting};
ghost use Rattle.system.specs.Events.{reply_of, checked, release_step, leave_step, wake_step, serve_step, traffic_step, tick_step};
ghost use Rattle.system.specs.Events.{step_of, apply_of};

use crate::{System, SystemMut};
use wire::answer::Answer;
use wire::event::Event;
use wire::refusal::Refusal;

// What an event comes to, beside the system as it is then.
#[derive(Clone, Copy, PartialEq, Eq, Debug)]
pub struct Reply {
    pub system: System,
    pub answer: Answer,
}

// Each event is a method of its own with mut self, as document 01 has it; what they share is checked_step.
#[tactic(auto, unfolding(crate::specs::Events::step_of, crate::specs::Events::checked))]
impl System {
    // RELEASE gang g.
    pub fn release(mut self, g: u8) -> Reply
        ensures { result ≡ checked self (release_step self g) }
    {
        let answer = self.checked_step(Event::Release(g));
        Reply {
            system: self,
            answer,
        }
    }

    // FINISH thread t.
    pub fn finish(mut self, t: u8) -> Reply
        ensures { result ≡ checked self (leave_step self t finished) }
    {
        let answer = self.checked_step(Event::Finish(t));
        Reply {
            system: self,
            answer,
        }
    }

    // WAIT of thread t.
    pub fn wait(mut self, t: u8) -> Reply
        ensures { result ≡ checked self (leave_step self t waiting) }
    {
        let answer = self.checked_step(Event::Wait(t));
        Reply {
            system: self,
            answer,
        }
    }

    // WAKE thread t.
    pub fn wake(mut self, t: u8) -> Reply
        ensures { result ≡ checked self (wake_step self t) }
    {
        let answer = self.checked_step(Event::Wake(t));
        Reply {
            system: self,
            answer,
        }
    }

    // SERVE core c.
    pub fn serve(mut self, c: u8) -> Reply
        ensures { result ≡ checked self (serve_step self c) }
    {
        let answer = self.checked_step(Event::Serve(c));
        Reply {
            system: self,
            answer,
        }
    }

    // TRAFFIC from core c.
    pub fn traffic(mut self, c: u8, transactions: u32) -> Reply
        ensures { result ≡ checked self (traffic_step self c transactions) }
    {
        let answer = self.checked_step(Event::Traffic {
            core: c,
            transactions,
        });
        Reply {
            system: self,
            answer,
        }
    }

    // TICK.
    pub fn tick(mut self) -> Reply
        ensures { result ≡ checked self (tick_step self) }
    {
        let answer = self.checked_step(Event::Tick);
        Reply {
            system: self,
            answer,
        }
    }

    // Any event as a value.
    pub fn apply(mut self, event: Event) -> Reply
        ensures { result ≡ apply_of self event }
    {
        let answer = self.checked_step(event);
        Reply {
            system: self,
            answer,
        }
    }

    // Any event: 14 first, where self stays as it came, and else its step.
    fn checked_step(&mut self, event: Event) -> Answer
        ensures { apply_of self.old event ≡ reply_of self.new result }
    {
        if self.well_formed() {
            self.step(event)
        } else {
            Answer::Refused(Refusal::NotWellFormed)
        }
    }

    // Any event, with no look at the system: for a caller that has found it well formed already. The system's own parts are lent for it.
    pub fn step(&mut self, event: Event) -> Answer
        ensures { step_of self.old event ≡ reply_of self.new result }
    {
        let held = self.lock.held();
        let table = self.table.lent();
        let state = &mut self.state;
        let number = &mut self.ledger.number;
        let served = &mut self.ledger.served;
        let skipped = &mut self.ledger.skipped;
        let job = &mut self.ledger.job;
        let occupant = &mut self.lock.occupant;
        let kept = &mut self.kept;
        let mut lent = SystemMut {
            table,
            state,
            number,
            served,
            skipped,
            job,
            held,
            occupant,
            kept,
        };
        let answer = lent.step(event);
        let held = lent.held;
        self.lock.holder = held.holder;
        self.lock.locked = held.locked;
        self.lock.blocked = held.blocked;
        self.lock.owing = held.owing;
        answer
    }
}
