// A THREAD record.
ghost use Rattle.std.specs.Prelude.{◌≡◌};
ghost use Rattle.reading.specs.Taken.{taken_of, thread_fits, thread_taken};

use table::{MAX_THREADS, Table};
use wire::refusal::Refusal;

// The gang has been read already, and the core is one of the table's.
#[tactic(auto, unfolding(crate::specs::Taken::thread_fits))]
fn thread_fits(gang: u8, gangs: u8, core: u8, cores: u8) -> bool
    ensures { result ≡ thread_fits gang gangs core cores }
{
    gang < gangs && core < cores
}

// The next thread, of gang g and on core c: its number is how many were read before it. The tests stand in the order of the refusal numbers.
#[tactic(auto, unfolding(crate::specs::Taken::thread_taken))]
pub(crate) fn take_thread(table: &mut Table, g: u8, c: u8) -> Result<(), Refusal>
    ensures { taken_of table.new result ≡ thread_taken table.old g c }
{
    let sizes = table.sizes;
    if sizes.cores == 0 {
        return Err(Refusal::NotCoresFirst);
    }
    if sizes.threads >= MAX_THREADS {
        return Err(Refusal::TooMany);
    }
    if !thread_fits(g, sizes.gangs, c, sizes.cores) {
        return Err(Refusal::OutOfRange);
    }
    let at = sizes.threads as usize;
    table.gang[at] = g;
    table.core[at] = c;
    table.sizes.threads = sizes.threads + 1;
    Ok(())
}
