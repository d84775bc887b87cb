// The records of a stream as values.
ghost use Rattle.std.specs.Prelude.{◌≡◌, ℕ, List, Result};
ghost use Rattle.wire.specs.declared.kinds.Stream.{Stream};
ghost use Rattle.wire.specs.declared.of_record.Next.{Next};
ghost use Rattle.wire.specs.declared.refusal.Refusal.{Refusal};
ghost use Rattle.wire.specs.Record.{read_as};

use crate::kinds::Stream;

// What a record of one stream is read as: an event, or a table's record.
pub trait OfRecord: Copy {
    // What is read at the start of some bytes.
    ghost next: { List ℕ → Result (Next Self) Refusal };

    ghost STREAM: { Stream };

    ghost of_record: { ℕ → List ℕ → Self };

    // The stream that the record is of.
    const STREAM: Stream;

    // The value of a kind and a payload.
    fn of_record(kind: u16, payload: &[u8]) -> Self
        ensures { result ≡ of_record kind payload.now };

    // What is read is the value of the first record's kind and payload, with the place of the next record, or the refusal.
    ghost reads: { (s : List ℕ) → read_as of_record STREAM s ≡ next s };
}

// What was found at the start of some bytes, and the place of the record after it.
#[derive(Clone, Copy, PartialEq, Eq, Debug)]
pub struct Next<T> {
    pub found: T,
    pub next: usize,
}
