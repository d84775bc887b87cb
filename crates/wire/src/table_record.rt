// A table's records as values, and what a table record means.
ghost use Rattle.std.specs.Prelude.{◌≡◌};
ghost use Rattle.wire.specs.declared.kinds.Stream.TheVariants as stream;
ghost use Rattle.wire.specs.Table.{table_record_of, next_table_record, table_record_reads};

use crate::kinds::{CORES, GANG, Stream};
use crate::number::{byte_at, u32_at};
use crate::of_record::OfRecord;

#[derive(Clone, Copy, PartialEq, Eq, Debug)]
pub enum TableRecord {
    Cores(u8),
    Gang { priority: u8, budget: u32 },
    // A GANG with no budget: what it means is the table's to say.
    ShortGang(u8),
    Thread { gang: u8, core: u8 },
}

// The bytes of a short GANG's payload.
const SHORT: usize = 1;

// The table record of a kind and a payload. Any kind but CORES and GANG is read as THREAD: the record question has let no other by.
impl OfRecord for TableRecord {
    ghost next = { next_table_record };

    ghost STREAM = { stream.Table };

    ghost of_record = { table_record_of };

    const STREAM: Stream = Stream::Table;

    #[tactic(auto, unfolding(crate::specs::Table::table_record_of))]
    fn of_record(kind: u16, payload: &[u8]) -> TableRecord {
        let first = byte_at(payload, 0);
        match kind {
            CORES => TableRecord::Cores(first),
            GANG if payload.len() <= SHORT => TableRecord::ShortGang(first),
            GANG => TableRecord::Gang {
                priority: first,
                budget: u32_at(payload, 1),
            },
            _ => TableRecord::Thread {
                gang: first,
                core: byte_at(payload, 1),
            },
        }
    }

    ghost reads = { table_record_reads };
}
