// Document 02, K3, "Why isn't my thread running?": prints a line for each thread after each event of standard input, or why not.
#![tactic(auto)]

ghost use Rattle.std.specs.Prelude.{OnOk};
ghost use Rattle.std.specs.Io.KnownBytes.{Appends};
ghost use Rattle.listed.specs.Reasons.{reason_text, reasons_text};

use listed::{Listed, list_reason};
use recording::{Shows, write_line};
use std::io;
use std::io::Write;
use system::System;

// A line for each thread of the system after an event, thread after thread.
struct Reasons;

impl Shows for Reasons {
    ghost shown = { λ _ event. reasons_text event.system event.line.position };

    fn show<W: Write>(&self, out: &mut W, event: &Listed) -> io::Result<()> {
        let system = &event.system;
        for thread in 0..system.table.sizes.threads {
            show_reason(out, system, event.line.position, thread)?;
        }
        Ok(())
    }
}

// A thread's line; nothing of a thread that is not there.
fn show_reason<W: Write>(out: &mut W, system: &System, position: u32, thread: u8) -> io::Result<()>
    ensures { OnOk result (Appends (W.contents out.old) (W.contents out.new) (reason_text system.now position thread)) }
{
    match list_reason(system, position, thread) {
        Ok(line) => write_line(out, &line),
        Err(_) => Ok(()),
    }
}

fn main(rt: HostRuntime) -> io::Result<()> {
    recording::run(&rt, &Reasons)
}
