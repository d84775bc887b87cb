// What the programs read: an input's bytes, in a buffer.
#![tactic(auto)]

ghost use Rattle.std.specs.Prelude.{IfOk};
ghost use Rattle.input.specs.Full.{Filled};

use std::io;
use std::io::Read;

// Fills the buffer from its start until it is full or the input ends; how many bytes were read.
pub fn read_full<R: Read>(input: &mut R, buffer: &mut [u8]) -> io::Result<usize>
    ensures { IfOk result (λ n. Filled (R.remaining input.old) (R.remaining input.new) n buffer.new) }
{
    // The library has no reading into lent memory that goes on to the input's end: its `read_exact` refuses a short input, its others allocate.
    let mut n: usize = 0;
    while n < buffer.len() {
        let more = input.read(&mut buffer[n..])?;
        if more == 0 {
            return Ok(n);
        }
        n += more;
    }
    Ok(n)
}
