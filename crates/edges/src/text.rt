// The text of a case: a name, a colon, then words and numbers. Words are for the reader; only a letter and the numbers count.
ghost use Rattle.edges.specs.Counts.{IsPrefixLen};

// From a mark, over a blank, to the letter.
const LETTER: usize = 2;

// The first place of a byte in a text, or the text's length.
pub(crate) fn place_of(text: &[u8], byte: u8) -> usize
    ensures { IsPrefixLen result text.now }
{
    text.iter().position(|b| *b == byte).unwrap_or(text.len())
}

// The letter of what is done, in a text that starts at the mark before it, or 0.
pub(crate) fn letter(text: &[u8]) -> u8 {
    wire::number::byte_at(text, LETTER)
}
