// Runs the record question and the payload over cases; what comes back is compared with the stored output, which was checked by
// hand against document 01. A line is: the case, the refusal, the kind, the place of the next record, and the payload's bytes.
#![tactic(auto)]

use std::io;
use std::io::Write;
use wire::kinds::Stream;
use wire::kinds::Stream::{Answers, Events, Table};
use wire::record::{RecordTold, payload_at, record_at};

const LARGEST: usize = 18446744073709551615;

// Two event records, one after the other.
const TICK_AND_SERVE: &[u8] = b"\x02\x00\x16\x00\x03\x00\x14\x00\x01";

// A case's name, its stream, the place that is asked about, and the stream's bytes. Copied only: nothing compares or shows it.
#[derive(Clone, Copy)]
struct Case<'a>(&'a str, Stream, usize, &'a [u8]);

// The bytes in hexadecimal.
fn show_bytes(out: &mut impl Write, s: &[u8]) -> io::Result<()> {
    for byte in s {
        write!(out, "{byte:02x}")?;
    }
    Ok(())
}

// A case's line.
fn show(out: &mut impl Write, case: Case<'_>) -> io::Result<()> {
    let Case(name, stream, place, bytes) = case;
    let told = RecordTold::from(record_at(stream, bytes, place));
    write!(
        out,
        "{name}: {} {} {} [",
        told.refusal, told.kind, told.next
    )?;
    show_bytes(out, payload_at(stream, bytes, place))?;
    writeln!(out, "]")
}

// The lines of some cases.
fn show_all(out: &mut impl Write, cases: &[Case<'_>]) -> io::Result<()> {
    for case in cases {
        show(out, *case)?;
    }
    Ok(())
}

fn every_kind_right(out: &mut impl Write) -> io::Result<()> {
    show_all(
        out,
        &[
            Case("CORES", Table, 0, b"\x03\x00\x01\x00\x05"),
            Case("GANG", Table, 0, b"\x07\x00\x02\x00\x0a\x64\x00\x00\x00"),
            Case("short GANG", Table, 0, b"\x03\x00\x02\x00\x0a"),
            Case("THREAD", Table, 0, b"\x04\x00\x03\x00\x01\x02"),
            Case("RELEASE", Events, 0, b"\x03\x00\x10\x00\x07"),
            Case("FINISH", Events, 0, b"\x03\x00\x11\x00\x07"),
            Case("WAIT", Events, 0, b"\x03\x00\x12\x00\x07"),
            Case("WAKE", Events, 0, b"\x03\x00\x13\x00\x07"),
            Case("SERVE", Events, 0, b"\x03\x00\x14\x00\x07"),
            Case(
                "TRAFFIC",
                Events,
                0,
                b"\x07\x00\x15\x00\x02\x64\x00\x00\x00",
            ),
            Case("TICK", Events, 0, b"\x02\x00\x16\x00"),
            Case(
                "ANSWER",
                Answers,
                0,
                b"\x10\x00\x40\x00\x00\x01\x02\x00\x00\x00\x03\x00\x00\x00\x04\x00\x00\x00",
            ),
        ],
    )
}

fn every_kind_one_byte_short(out: &mut impl Write) -> io::Result<()> {
    show_all(
        out,
        &[
            Case("CORES cut", Table, 0, b"\x03\x00\x01\x00"),
            Case("GANG cut", Table, 0, b"\x07\x00\x02\x00\x0a\x64\x00\x00"),
            Case("short GANG cut", Table, 0, b"\x03\x00\x02\x00"),
            Case("THREAD cut", Table, 0, b"\x04\x00\x03\x00\x01"),
            Case("RELEASE cut", Events, 0, b"\x03\x00\x10\x00"),
            Case("FINISH cut", Events, 0, b"\x03\x00\x11\x00"),
            Case("WAIT cut", Events, 0, b"\x03\x00\x12\x00"),
            Case("WAKE cut", Events, 0, b"\x03\x00\x13\x00"),
            Case("SERVE cut", Events, 0, b"\x03\x00\x14\x00"),
            Case(
                "TRAFFIC cut",
                Events,
                0,
                b"\x07\x00\x15\x00\x02\x64\x00\x00",
            ),
            Case("TICK cut", Events, 0, b"\x02\x00\x16"),
            Case(
                "ANSWER cut",
                Answers,
                0,
                b"\x10\x00\x40\x00\x00\x01\x02\x00\x00\x00\x03\x00\x00\x00\x04\x00\x00",
            ),
        ],
    )
}

fn lengths(out: &mut impl Write) -> io::Result<()> {
    show_all(
        out,
        &[
            Case("length 0", Events, 0, b"\x00\x00\x10\x00\x07"),
            Case("length 1", Events, 0, b"\x01\x00\x10\x00\x07"),
            Case("length 65535", Events, 0, b"\xff\xff\x10\x00\x07"),
            Case("GANG of length 4", Table, 0, b"\x04\x00\x02\x00\x0a\x00"),
            Case(
                "RELEASE of length 9, cut",
                Events,
                0,
                b"\x09\x00\x10\x00\x07",
            ),
            Case("kind 7 of length 500, cut", Events, 0, b"\xf4\x01\x07\x00"),
            Case("kind 7 of length 0", Events, 0, b"\x00\x00\x07\x00"),
        ],
    )
}

fn kinds_of_another_stream(out: &mut impl Write) -> io::Result<()> {
    show_all(
        out,
        &[
            Case(
                "THREAD among events",
                Events,
                0,
                b"\x04\x00\x03\x00\x01\x02",
            ),
            Case("RELEASE in a table", Table, 0, b"\x03\x00\x10\x00\x07"),
            Case("ANSWER among events", Events, 0, b"\x10\x00\x40\x00\x00"),
            Case("TICK among answers", Answers, 0, b"\x02\x00\x16\x00"),
            Case("kind 0 in a table", Table, 0, b"\x03\x00\x00\x00\x05"),
            Case(
                "kind 4 in a table",
                Table,
                0,
                b"\x07\x00\x04\x00\x00\x00\x00\x00\x00",
            ),
            Case("kind 15 among events", Events, 0, b"\x03\x00\x0f\x00\x07"),
            Case("kind 23 among events", Events, 0, b"\x03\x00\x17\x00\x07"),
            Case("kind 272 among events", Events, 0, b"\x03\x00\x10\x01\x07"),
            Case(
                "kind 65535 among events",
                Events,
                0,
                b"\x03\x00\xff\xff\x07",
            ),
        ],
    )
}

// Every place is asked about in the same bytes.
fn places(out: &mut impl Write) -> io::Result<()> {
    show_all(
        out,
        &[
            Case("first of two", Events, 0, TICK_AND_SERVE),
            Case("second of two", Events, 4, TICK_AND_SERVE),
            Case("inside a record", Events, 1, TICK_AND_SERVE),
            Case("three bytes left", Events, 6, TICK_AND_SERVE),
            Case("at the end", Events, 9, TICK_AND_SERVE),
            Case("past the end", Events, 10, TICK_AND_SERVE),
            Case("the largest place", Events, LARGEST, TICK_AND_SERVE),
        ],
    )
}

fn no_bytes(out: &mut impl Write) -> io::Result<()> {
    show_all(
        out,
        &[
            Case("no bytes", Table, 0, b""),
            Case("no bytes, past the end", Table, 1, b""),
        ],
    )
}

fn main(rt: HostRuntime) -> io::Result<()> {
    let mut out = rt.stdout();
    every_kind_right(&mut out)?;
    every_kind_one_byte_short(&mut out)?;
    lengths(&mut out)?;
    kinds_of_another_stream(&mut out)?;
    places(&mut out)?;
    no_bytes(&mut out)
}
