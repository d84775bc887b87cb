// The numbers of a text: each is a run of digits with no digit beside it.
ghost use Rattle.std.specs.Prelude.{◌≤◌, length, ◌≡◌};
ghost use Rattle.edges.specs.Counts.{IsPrefixLen};

// Numbers above this take no further digit.
const MOST: u64 = 1000000000000;

// A number with one more digit.
fn appended(n: u64, digit: u8) -> u64 {
    if n < MOST {
        n * 10 + u64::from(digit % 16)
    } else {
        n
    }
}

// The number that some digits make.
fn value(digits: &[u8]) -> u64 {
    digits.iter().fold(0, |n, digit| appended(n, *digit))
}

// The number of a text that some others come before, or 0.
pub(crate) fn number(text: &[u8], others: usize) -> u64 {
    text.split(|b| !b.is_ascii_digit())
        .filter(|digits| !digits.is_empty())
        .map(value)
        .nth(others)
        .unwrap_or(0)
}

// How many numbers a text has.
fn count(text: &[u8]) -> usize {
    text.split(|b| !b.is_ascii_digit())
        .filter(|digits| !digits.is_empty())
        .count()
}

// Writes the numbers of a text as bytes, as many as there is room for, and says how many.
pub(crate) fn bytes(text: &[u8], out: &mut [u8]) -> usize
    ensures { IsPrefixLen result out.new }
{
    let numbers = text
        .split(|b| !b.is_ascii_digit())
        .filter(|digits| !digits.is_empty());
    for (place, digits) in out.iter_mut().zip(numbers) {
        // `as` must lose nothing: so the remainder.
        *place = (value(digits) % 256) as u8;
    }
    count(text).min(out.len())
}

// The same as a byte.
// `as` must lose nothing: so the remainder.
pub(crate) fn byte(text: &[u8], others: usize) -> u8 {
    (number(text, others) % 256) as u8
}

// The same in four bytes.
// `as` must lose nothing: so the remainder.
pub(crate) fn word(text: &[u8], others: usize) -> u32 {
    (number(text, others) % 4294967296) as u32
}
