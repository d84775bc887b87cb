// Document 02, K3: the text of the line that one thread prints.
ghost use Rattle.std.specs.Prelude.{◌≡◌, ◌+◌, ◌≤◌, length, take};
ghost use Rattle.lines.specs.Chars.{places8};
ghost use Rattle.lines.specs.Put.{Put};
ghost use Rattle.lines.specs.ThreadLine.{which_of, thread_line_of};

use crate::{
    DECIMAL, LINE_FEED, NONE, PLACES_8, PLACES_32, ROOM, TextLine, put_decimal, put_number,
};

// The most bytes of words that a line starts with or that a thread's line has places for.
pub(crate) const MOST_WORDS: usize = 61;

// The words, at most so many bytes of them.
pub(crate) fn put_words(out: &mut [u8], at: usize, words: &[u8], most: usize) -> usize
    requires { at + most ≤ length out.old }
    ensures { Put (take most words.now) most out.old out.new at result }
{
    let size = most.min(words.len());
    out[at..at + size].copy_from_slice(&words[..size]);
    at + size
}

// The thread or gang that the words end with, where there is one. Apart from put_holder, which puts a dash for none.
fn put_which(out: &mut [u8], at: usize, which: u8) -> usize
    requires { at + places8 ≤ length out.old }
    ensures { Put (which_of which) places8 out.old out.new at result }
{
    if which == NONE {
        at
    } else {
        put_number(out, at, which as u32, DECIMAL, PLACES_8)
    }
}

// What one line says of a thread: its position, the thread, words, and the thread or gang that they end with, 255 for none: as it is printed.
#[derive(Clone, Copy, PartialEq, Eq, Debug)]
pub struct ThreadLine<'a> {
    pub position: u32,
    pub thread: u8,
    pub words: &'a [u8],
    pub which: u8,
}

impl TextLine for ThreadLine<'_> {
    ghost text = { λ line. thread_line_of line.position line.thread line.words.now line.which };

    fn put(&self, out: &mut [u8; ROOM]) -> usize {
        let mut at = put_decimal(out, 0, self.position, PLACES_32);
        at = put_decimal(out, at, self.thread as u32, PLACES_8);
        at = put_words(out, at, self.words, MOST_WORDS);
        at = put_which(out, at, self.which);
        out[at] = LINE_FEED;
        at + 1
    }
}
