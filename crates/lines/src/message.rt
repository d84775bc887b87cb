// Document 01, "The listing": the text of the message lines.
ghost use Rattle.lines.specs.Message.{words_line_of, refusal_line_of};

use crate::thread::{MOST_WORDS, put_words};
use crate::{DECIMAL, LINE_FEED, PLACES_8, PLACES_32, ROOM, TextLine, put_number};

// The bytes of " at ", which stands between a refusal's number and its place.
const AT_SIZE: usize = 4;

// The line of words alone.
#[derive(Clone, Copy, PartialEq, Eq, Debug)]
pub struct WordsLine<'a> {
    pub words: &'a [u8],
}

impl TextLine for WordsLine<'_> {
    ghost text = { λ line. words_line_of line.words.now };

    fn put(&self, out: &mut [u8; ROOM]) -> usize {
        let end = put_words(out, 0, self.words, MOST_WORDS);
        out[end] = LINE_FEED;
        end + 1
    }
}

// The line of words, a refusal's number as it is printed, and its place.
#[derive(Clone, Copy, PartialEq, Eq, Debug)]
pub struct RefusalLine<'a> {
    pub words: &'a [u8],
    pub number: u8,
    pub place: u32,
}

impl TextLine for RefusalLine<'_> {
    ghost text = { λ line. refusal_line_of line.words.now line.number line.place };

    fn put(&self, out: &mut [u8; ROOM]) -> usize {
        let mut at = put_words(out, 0, self.words, MOST_WORDS);
        at = put_number(out, at, self.number as u32, DECIMAL, PLACES_8);
        at = put_words(out, at, b" at ", AT_SIZE);
        at = put_number(out, at, self.place, DECIMAL, PLACES_32);
        out[at] = LINE_FEED;
        at + 1
    }
}
