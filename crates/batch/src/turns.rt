// The turns of a batch: each reads the event record at the start of the bytes left, and answers it at the start of the output left.
ghost use Rattle.std.specs.Prelude.{◌≡◌, length};
ghost use Rattle.system.specs.Events.{step_of};
ghost use Rattle.batch.specs.Batch.{run_of};
ghost use Rattle.batch.specs.Turn.{Came, turn_of, turns_in, no_turns, batched_with};

use system::System;
use wire::answer::{ANSWER_SIZE, record_of, write_answer};
use wire::event::Event;
use wire::of_record::Next;
use wire::refusal::Refusal;

// What the turns come to, beside the system: the bytes read and written, and how they end, at the end of the events or refused.
#[derive(Clone, Copy, PartialEq, Eq, Debug)]
pub(crate) struct Turns {
    pub read: usize,
    pub written: usize,
    pub end: Result<(), Refusal>,
}

impl Turns {
    // Refused before the first turn: nothing is read and nothing written.
    pub(crate) fn refused(refusal: Refusal) -> Turns
        ensures { result ≡ no_turns refusal }
    {
        Turns {
            read: 0,
            written: 0,
            end: Err(refusal),
        }
    }
}

// Turn after turn, to the end of the events or a refusal. A record's length stands in it, so no iterator of the library goes over records,
// nor over the output, whose end is asked about only after the record (13).
pub(crate) fn take_turns(system: &mut System, events: &[u8], out: &mut [u8]) -> Turns
    ensures { Came (run_of step_of (length events.now) system.old events.now (length out.old))
        out.old out.new (batched_with system.new result) }
{
    let mut read: usize = 0;
    let mut written: usize = 0;
    while read < events.len() {
        match turn(system, &events[read..], &mut out[written..]) {
            Ok(next) => {
                read += next;
                written += ANSWER_SIZE;
            }
            Err(refusal) => {
                return Turns {
                    read,
                    written,
                    end: Err(refusal),
                };
            }
        }
    }
    Turns {
        read,
        written,
        end: Ok(()),
    }
}

// One turn: the record question comes first, then the room for the answer, and only then the event. It gives how many bytes it read.
#[tactic(auto, using(crate::proofs::OneTurn::room_for), unfolding(crate::specs::Turn::turn_of))]
fn turn(system: &mut System, events: &[u8], out: &mut [u8]) -> Result<usize, Refusal>
    ensures { Came (turn_of step_of system.old events.now (length out.old))
        out.old out.new (batched_with system.new (turns_in result)) }
{
    let Next { found, next } = wire::record::next::<Event>(events)?;
    if out.len() < ANSWER_SIZE {
        return Err(Refusal::NoRoom);
    }
    let answer = system.step(found);
    let record = record_of(answer, system.lock.owing, system.lock.locked);
    write_answer(out, record)?;
    Ok(next)
}
