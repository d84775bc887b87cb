// Runs document 01's edges and slips: tables through the reader, events through a batch, and what calls alone can show of systems. The
// file stdin has a case to a line: its name, what is done, and the numbers for it. What comes back is compared with the stored output,
// which was checked by hand.
#![tactic(auto)]

mod batches;
mod numbers;
mod show;
mod systems;
mod tables;
mod text;

use std::io;

// More than the cases have.
// No heap: a buffer of this size, and how much of it is filled.
const MOST_TEXT: usize = 32768;

// More than the records of a case have. No heap: a buffer of this size, and how much of it is filled.
const MOST_BYTES: usize = 800;

// Does what the letter says. There is none where a line has no colon: it is a comment.
// A letter is matched where it is read: an enum of them would list each a second time.
fn done(rt: &impl Print, name: &[u8], what: &[u8]) -> io::Result<()> {
    let does = text::letter(what);
    match does {
        0 => Ok(()),
        b't' => tables::case(rt, name, what),
        b's' => systems::case(rt, name, what),
        _ => batches::case(rt, name, does, what),
    }
}

// One case: its name, and from the colon on what is done.
fn case(rt: &impl Print, line: &[u8]) -> io::Result<()> {
    let colon = text::place_of(line, b':');
    done(rt, &line[..colon], &line[colon..])
}

// The cases of a text, one to a line.
fn each_line(rt: &impl Print, text: &[u8]) -> io::Result<()> {
    for line in text.split(|b| *b == b'\n') {
        case(rt, line)?;
    }
    Ok(())
}

fn main(rt: HostRuntime) -> io::Result<()> {
    let mut text = [0u8; MOST_TEXT];
    let n = input::read_full(&mut rt.reader(), &mut text)?;
    each_line(&rt, &text[..n])
}
