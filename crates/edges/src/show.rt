// Printing a case's name. What came back follows it in the same line.
use std::io;
use std::io::Write;

// The name as it stands in the text, and a colon.
pub(crate) fn name(rt: &impl Print, name: &[u8]) -> io::Result<()> {
    let mut out = io::writer(rt);
    out.write_all(name)?;
    out.write_all(b":")
}
