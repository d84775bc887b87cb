// Whether a system is well formed, from its parts as they are lent: nothing of it is copied.
ghost use Rattle.std.specs.Prelude.{◌≡◌};
ghost use Rattle.system.specs.Parts.{system_seen};
ghost use Rattle.system.specs.WellFormed.{well_formed};

use crate::SystemRef;
use lock::Pins;
use state::rules::{counts_ok, states_ok};

impl<'a> SystemRef<'a> {
    // Whether the system of these parts is well formed: every part is asked, whatever the others answer.
    pub fn well_formed(self) -> bool
        ensures { result ≡ well_formed (system_seen self.entry) }
    {
        let sizes = self.table.sizes;
        let pins = Pins {
            cores: sizes.cores,
            threads: sizes.threads,
            gangs: sizes.gangs,
            core: self.table.core,
            gang: self.table.gang,
        };
        self.table.ok()
            & states_ok(self.state, sizes.threads)
            & counts_ok(self.kept, sizes.cores)
            & self.ledger.ok(sizes.gangs)
            & self.lock.ok(pins)
    }
}
