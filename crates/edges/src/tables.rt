// Tables through the reader. A case has the table's records, and prints the refusal number and the place.
use crate::MOST_BYTES;
use std::io;

fn read(rt: &impl Print, name: &[u8], bytes: &[u8]) -> io::Result<()> {
    let (refusal, place) = match reading::read_table(bytes) {
        Ok(_) => (0, bytes.len()),
        Err(refused) => (u8::from(refused.refusal), refused.place),
    };
    crate::show::name(rt, name)?;
    println!(rt; " {refusal} {place}")
}

pub(crate) fn case(rt: &impl Print, name: &[u8], records: &[u8]) -> io::Result<()> {
    let mut bytes = [0u8; MOST_BYTES];
    let n = crate::numbers::bytes(records, &mut bytes);
    read(rt, name, &bytes[..n])
}
