// Document 01, "The listing": prints a line for each event of standard input, or why not.
#![tactic(auto)]

ghost use Rattle.lines.specs.Listing.{line_of};

use listed::Listed;
use recording::{Shows, write_line};
use std::io;
use std::io::Write;

// An event's line.
struct Lines;

impl Shows for Lines {
    ghost shown = { λ _ event. line_of event.line };

    fn show<W: Write>(&self, out: &mut W, event: &Listed) -> io::Result<()> {
        write_line(out, &event.line)
    }
}

fn main(rt: HostRuntime) -> io::Result<()> {
    recording::run(&rt, &Lines)
}
