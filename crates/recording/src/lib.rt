// The two programs over a recording, a table and then events: each reads standard input and prints something after each event, or why not.
// A read or a write that fails ends the program with its error.
#![tactic(auto)]

ghost use Rattle.std.specs.Prelude.{◌≡◌, ◌≤◌, length, List, ℕ, OnOk};
ghost use Rattle.std.specs.Io.KnownBytes.{Appends};
ghost use Rattle.wire.specs.Refusal.{number_of};
ghost use Rattle.lines.specs.Message.{refusal_line_of};
ghost use Rattle.listed.specs.Messages.{events_stopped};
ghost use Rattle.listed.specs.Output.{most_bytes};
ghost use Rattle.listed.specs.declared.Listed.{Listed};

use lines::{ROOM, RefusalLine, TextLine};
use listed::{Listed, MOST_BYTES};
use reading::SystemRead;
use std::io;
use std::io::Write;
use system::System;
use wire::refusal::Refusal;

// One byte more than an input may have, to notice an input that is too long. No heap: a buffer of this size, and how much of it is filled.
const BUFFER: usize = MOST_BYTES + 1;

// What a program prints after an event: of the system after it and of its line.
pub trait Shows {
    // The text that is shown.
    ghost shown: { Self → Listed → List ℕ };

    // Writes it.
    fn show<W: Write>(&self, out: &mut W, event: &Listed) -> io::Result<()>
        ensures { OnOk result (Appends (W.contents out.old) (W.contents out.new) (shown self.now event.now)) };
}

// Writes a line.
pub fn write_line<W: Write, T: TextLine>(out: &mut W, line: &T) -> io::Result<()>
    ensures { OnOk result (Appends (W.contents out.old) (W.contents out.new) (T.text line.now)) }
{
    let mut text = [0u8; ROOM];
    let size = line.put(&mut text);
    out.write_all(&text[..size])
}

// The whole program.
pub fn run(rt: &(impl Input + Print), shows: &impl Shows) -> io::Result<()> {
    let mut buffer = [0u8; BUFFER];
    let n = input::read_full(&mut rt.reader(), &mut buffer)?;
    let mut out = io::writer(rt);
    if n > MOST_BYTES {
        return write_line(&mut out, &listed::list_too_long());
    }
    write_input(&mut out, shows, &buffer[..n])
}

// The table, and then the events from where they start.
fn write_input(out: &mut impl Write, shows: &impl Shows, bytes: &[u8]) -> io::Result<()>
    requires { length bytes.now ≤ most_bytes }
{
    let start = listed::events_start(bytes);
    match reading::read_system(&bytes[..start]) {
        SystemRead {
            number: 0,
            system,
            ..
        } => write_events(out, shows, system, bytes, start),
        SystemRead { number, place, .. } => write_line(
            out,
            &listed::list_table_refused(number, place as u32),
        ),
    }
}

// What each event from a place on shows, and why they stop before the end.
fn write_events(
    out: &mut impl Write,
    shows: &impl Shows,
    mut system: System,
    bytes: &[u8],
    start: usize,
) -> io::Result<()>
    requires { (start ≤ length bytes.now) × (length bytes.now ≤ most_bytes) }
{
    let mut at = start;
    let mut position = 1;
    // No `for`: the next place is a whole record further, and what the record is says how long it is.
    while at < bytes.len() {
        match listed::list_event(system, position, &bytes[at..]) {
            Ok(event) => {
                shows.show(out, &event)?;
                system = event.system;
                at += event.size;
                position += 1;
            }
            Err(refusal) => return write_line(out, &stopped_line(refusal, at)),
        }
    }
    Ok(())
}

// The line of events that stop at a refused record.
fn stopped_line(refusal: Refusal, at: usize) -> RefusalLine<'static>
    requires { at ≤ most_bytes }
    ensures { refusal_line_of result.words.now result.number result.place ≡ events_stopped (number_of refusal) at }
{
    listed::list_stopped(u8::from(refusal), at as u32)
}
