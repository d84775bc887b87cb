// The eight questions, for any system whatever: 14 first, then 6, and else the value.
ghost use Rattle.std.specs.Prelude.{◌≡◌, get_or};
ghost use Rattle.system.specs.Questions.{about_all, about_one, occupant_found, stopped_found, number_found};
ghost use Rattle.system.specs.Questions.{served_found, skipped_found, job_found, lowest_found, owing_found};

use crate::System;
use lists::{at, at_or};
use state::allowance::is_stopped;
use wire::refusal::Refusal;

impl System {
    // A question about the whole system, whose answer is value.
    #[tactic(auto, unfolding(crate::specs::Questions::about_all))]
    fn about_all(&self, value: u32) -> Result<u32, Refusal>
        ensures { result ≡ (about_all self.now value).finding }
    {
        if self.well_formed() {
            Ok(value)
        } else {
            Err(Refusal::NotWellFormed)
        }
    }

    // A question about number i, of which there are n, whose answer is value.
    #[tactic(auto, unfolding(crate::specs::Questions::about_all, crate::specs::Questions::about_one))]
    fn about_one(&self, i: u8, n: u8, value: u32) -> Result<u32, Refusal>
        ensures { result ≡ (about_one self.now i n value).finding }
    {
        let value = self.about_all(value)?;
        if i < n {
            Ok(value)
        } else {
            Err(Refusal::OutOfRange)
        }
    }

    // A question about gang g, whose answer is its place in this list.
    fn about_gang(&self, g: u8, counts: &[u32; 32]) -> Result<u32, Refusal>
        ensures { result ≡ (about_one self.now g self.now.table.sizes.gangs (get_or counts.now g 0)).finding }
    {
        self.about_one(g, self.table.sizes.gangs, at(counts, g))
    }

    // Core c's occupant, or 255.
    pub fn occupant(&self, c: u8) -> Result<u32, Refusal>
        ensures { result ≡ (occupant_found self.now c).finding }
    {
        let occupant = at_or(&self.lock.occupant, c, coreset::NONE);
        self.about_one(c, self.table.sizes.cores, occupant as u32)
    }

    // Whether core c is stopped: 1 or 0.
    pub fn stopped(&self, c: u8) -> Result<u32, Refusal>
        ensures { result ≡ (stopped_found self.now c).finding }
    {
        let stopped = is_stopped(
            &self.lock.occupant,
            self.lock.holder,
            self.table.lent(),
            &self.kept,
            c,
        );
        self.about_one(c, self.table.sizes.cores, u32::from(stopped))
    }

    // The number of gang g's last release.
    // Each of the four questions about the ledger is a call of the C interface.
    pub fn release_number(&self, g: u8) -> Result<u32, Refusal>
        ensures { result ≡ (number_found self.now g).finding }
    {
        self.about_gang(g, &self.ledger.number)
    }

    // How many of gang g's releases were served.
    pub fn served(&self, g: u8) -> Result<u32, Refusal>
        ensures { result ≡ (served_found self.now g).finding }
    {
        self.about_gang(g, &self.ledger.served)
    }

    // How many of gang g's releases were skipped.
    pub fn skipped(&self, g: u8) -> Result<u32, Refusal>
        ensures { result ≡ (skipped_found self.now g).finding }
    {
        self.about_gang(g, &self.ledger.skipped)
    }

    // The number of gang g's current job, 0 before the first.
    pub fn job_number(&self, g: u8) -> Result<u32, Refusal>
        ensures { result ≡ (job_found self.now g).finding }
    {
        self.about_gang(g, &self.ledger.job)
    }

    // The lowest owing core, or 255.
    pub fn lowest_owing(&self) -> Result<u32, Refusal>
        ensures { result ≡ (lowest_found self.now).finding }
    {
        self.about_all(coreset::first(self.lock.owing) as u32)
    }

    // How many cores owe.
    pub fn owing_count(&self) -> Result<u32, Refusal>
        ensures { result ≡ (owing_found self.now).finding }
    {
        self.about_all(coreset::size(self.lock.owing) as u32)
    }
}
