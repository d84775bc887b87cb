// What calls alone can show: 14 by each clause of "Well formed" in turn, events and questions on the empty system, the last release
// number, and counts that would wrap. A case has the system's number if it is not changed but asked, a comma, and what is changed or asked.
mod asked;
mod changed;

use crate::text::{letter, place_of};
use std::io;

// What is done is said by the first letter after the comma.
// The letter of the case's text: an enum would be read from it by the same match.
pub(crate) fn case(rt: &impl Print, name: &[u8], what: &[u8]) -> io::Result<()> {
    let comma = place_of(what, b',');
    let does = letter(&what[comma..]);
    match does {
        b'a' | b'q' => asked::case(rt, name, does, what),
        _ => changed::case(rt, name, does, what),
    }
}
