// Document 01, "The listing": the text of the line that one event prints; of the line that one thread prints; and of the message lines.
#![tactic(auto)]

ghost use Rattle.std.specs.Prelude.{List, ℕ, ◌≡◌, ◌+◌, ◌<◌, ◌≤◌, length};
ghost use Rattle.lines.specs.Chars.{sixteen, places8, hex_places};
ghost use Rattle.lines.specs.Number.{glyph_of, numeral};
ghost use Rattle.lines.specs.Put.{Put};
ghost use Rattle.lines.specs.Listing.{field_of, decimal_of, hex_of, holder_of, line_of};
ghost use Rattle.lines.specs.Shown.{Shown};

mod message;
mod thread;

pub use message::{RefusalLine, WordsLine};
pub use thread::ThreadLine;

const SPACE: u8 = b' ';

const LINE_FEED: u8 = b'\n';

const DASH: u8 = b'-';

// What a digit below ten is added to.
const DIGITS: u8 = b'0';

// What a digit from ten on is added to.
const LETTERS: u8 = b'a' - 10;

const TEN: u32 = 10;

// How a number is written: in which base, and whether in no more digits than it takes. Copied only: nothing compares or shows it.
#[derive(Clone, Copy)]
pub(crate) struct Digits {
    base: u32,
    short: bool,
    ghost based: { (2 ≤ base) × (base ≤ sixteen) },
}

pub(crate) const DECIMAL: Digits = Digits {
    base: 10,
    short: true,
};

const HEX: Digits = Digits {
    base: 16,
    short: false,
};

// How many decimal digits a number of 8, of 16 and of 32 bits takes at most.
const PLACES_8: usize = 3;

const PLACES_16: usize = 5;

const PLACES_32: usize = 10;

// How many hex digits a set of cores takes.
const HEX_PLACES: usize = 8;

// The holder's byte where no gang holds the lock.
const NONE: u8 = 255;

// The bytes that a line is lent: the longest, a thread's, takes them all. No heap: a buffer of this size, and how much of it is filled.
pub const ROOM: usize = 80;

// A line of text. It is put into a lent buffer, as `Display` would not: a formatter may fail, and no line does.
pub trait TextLine {
    ghost text: { Self → List ℕ };

    // The line's text, at the start of out; how many bytes it takes.
    fn put(&self, out: &mut [u8; ROOM]) -> usize
        ensures { Shown (text self.now) out.old out.new result };
}

// What one line of the listing says of an event and its answer.
// Kind, refusal and holder are the numbers that document 01 prints: this crate knows no records.
#[derive(Clone, Copy, PartialEq, Eq, Debug)]
pub struct Line {
    pub position: u32,
    pub kind: u16,
    pub refusal: u8,
    pub value: u8,
    pub number: u32,
    pub owing: u32,
    pub locked: u32,
    pub holder: u8,
}

impl TextLine for Line {
    ghost text = { line_of };

    fn put(&self, out: &mut [u8; ROOM]) -> usize {
        let mut at = put_decimal(out, 0, self.position, PLACES_32);
        at = put_decimal(out, at, self.kind as u32, PLACES_16);
        at = put_decimal(out, at, self.refusal as u32, PLACES_8);
        at = put_decimal(out, at, self.value as u32, PLACES_8);
        at = put_decimal(out, at, self.number, PLACES_32);
        at = put_hex(out, at, self.owing);
        at = put_hex(out, at, self.locked);
        at = put_holder(out, at, self.holder);
        out[at] = LINE_FEED;
        at + 1
    }
}

// The character of a digit below sixteen. It and all that is put below stand byte by byte, and by no `write!`: TextLine says why.
fn glyph(d: u32) -> u8
    requires { d < sixteen }
    ensures { result ≡ glyph_of d }
{
    if d < TEN {
        DIGITS + d as u8
    } else {
        LETTERS + d as u8
    }
}

// The digits of n from place at on, in at most so many places. As every put below, it answers the place after what it put.
fn put_number(out: &mut [u8], at: usize, n: u32, digits: Digits, places: usize) -> usize
    requires { at + places ≤ length out.old }
    ensures { Put (numeral digits.base digits.short places n) places out.old out.new at result }
{
    if places == 0 {
        return at;
    }
    if digits.short && n < digits.base {
        out[at] = glyph(n);
        return at + 1;
    }
    let last = put_number(out, at, n / digits.base, digits, places - 1);
    out[last] = glyph(n % digits.base);
    last + 1
}

// A number's digits and the space after them.
fn put_field(out: &mut [u8], at: usize, n: u32, digits: Digits, places: usize) -> usize
    requires { at + places < length out.old }
    ensures { Put (field_of digits.base digits.short places n) (places + 1) out.old out.new at result }
{
    let end = put_number(out, at, n, digits, places);
    out[end] = SPACE;
    end + 1
}

// A decimal number and the space after it.
fn put_decimal(out: &mut [u8], at: usize, n: u32, places: usize) -> usize
    requires { at + places < length out.old }
    ensures { Put (decimal_of places n) (places + 1) out.old out.new at result }
{
    put_field(out, at, n, DECIMAL, places)
}

// A number in eight hex digits and the space after it.
fn put_hex(out: &mut [u8], at: usize, n: u32) -> usize
    requires { at + hex_places < length out.old }
    ensures { Put (hex_of n) (hex_places + 1) out.old out.new at result }
{
    put_field(out, at, n, HEX, HEX_PLACES)
}

// The holder, or '-' where there is none.
fn put_holder(out: &mut [u8], at: usize, holder: u8) -> usize
    requires { at + places8 ≤ length out.old }
    ensures { Put (holder_of holder) places8 out.old out.new at result }
{
    if holder == NONE {
        out[at] = DASH;
        at + 1
    } else {
        put_number(out, at, holder as u32, DECIMAL, PLACES_8)
    }
}
