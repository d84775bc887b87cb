// Document 02, K3: the line that one thread prints after an event, in words that a planner developer understands.
ghost use Rattle.std.specs.Prelude.{◌≡◌};
ghost use Rattle.listed.specs.Reasons.{words_of, line_text, reason_listed, line_parts, reason_parts};

use lines::ThreadLine;
use reason::Reason;
use system::System;
use wire::refusal::Refusal;

// Why a thread isn't running, as its line; a thread that is not there is refused, and prints nothing.
#[tactic(auto, unfolding(crate::specs::Reasons::reason_listed, crate::specs::Reasons::reason_parts))]
pub fn list_reason(
    system: &System,
    position: u32,
    thread: u8,
) -> Result<ThreadLine<'static>, Refusal>
    ensures parts { line_parts result ≡ reason_parts system.now position thread }
    ensures text { line_text result ≡ reason_listed system.now position thread }
{
    let reason = reason::why(system, thread)?;
    Ok(ThreadLine {
        position,
        thread,
        words: words_of(reason),
        which: reason.which(),
    })
}

// A reason in words; the thread or gang that one names follows them.
fn words_of(reason: Reason) -> &'static [u8]
    ensures { result.now ≡ words_of reason }
{
    match reason {
        Reason::Finished => b"finished",
        Reason::Waiting => b"waiting",
        Reason::RunningLocked => b"running on a locked core",
        Reason::RunningDisplaced => b"running but displaced",
        Reason::CoreOwes => b"ready, but its core owes a reschedule",
        Reason::ThreadAhead(_) => b"ready, but another thread is ahead of it on its core: thread ",
        Reason::GangHolds(_) => b"ready, but a gang of higher priority holds the lock: gang ",
        Reason::NoneOfThese => b"none of these",
    }
}
