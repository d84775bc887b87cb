// Document 01, "The listing": the message lines, of fixed byte strings. Each is a call of its own, and promises its words and its text.
ghost use Rattle.std.specs.Prelude.{◌≡◌};
ghost use Rattle.lines.specs.Message.{words_line_of, refusal_line_of};
ghost use Rattle.lines.specs.Text.{bytes_in};
ghost use Rattle.listed.specs.Messages.{input_too_long, table_refused, events_stopped};

use lines::{RefusalLine, WordsLine};

// The line of an input that is too long.
#[tactic(auto, unfolding(lines::specs::Message::words_line_of))]
pub fn list_too_long() -> WordsLine<'static>
    ensures words { result.words.now ≡ bytes_in "input too long" }
    ensures text { words_line_of result.words.now ≡ input_too_long }
{
    WordsLine {
        words: b"input too long",
    }
}

// The line of a table that is refused.
#[tactic(auto, unfolding(lines::specs::Message::refusal_line_of))]
pub fn list_table_refused(number: u8, place: u32) -> RefusalLine<'static>
    ensures words { result.words.now ≡ bytes_in "table refused " }
    ensures number { result.number ≡ number }
    ensures place { result.place ≡ place }
    ensures text { refusal_line_of result.words.now result.number result.place ≡ table_refused number place }
{
    RefusalLine {
        words: b"table refused ",
        number,
        place,
    }
}

// The line of events that stop before the end.
#[tactic(auto, unfolding(lines::specs::Message::refusal_line_of))]
pub fn list_stopped(number: u8, place: u32) -> RefusalLine<'static>
    ensures words { result.words.now ≡ bytes_in "stopped " }
    ensures number { result.number ≡ number }
    ensures place { result.place ≡ place }
    ensures text { refusal_line_of result.words.now result.number result.place ≡ events_stopped number place }
{
    RefusalLine {
        words: b"stopped ",
        number,
        place,
    }
}
