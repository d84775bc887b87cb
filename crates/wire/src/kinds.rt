// The kinds of record, each kind's length, and the stream that a kind belongs to.
ghost use Rattle.std.specs.Prelude.{◌≡◌};
ghost use Rattle.wire.specs.Kinds.{lengths, fits_in, length_in, in_stream};

// Numbers and no enum: in_stream, length_fits and length_of answer for every u16, and the record question tells the number (Question).
pub const CORES: u16 = 1;

pub const GANG: u16 = 2;

pub const THREAD: u16 = 3;

pub const RELEASE: u16 = 16;

pub const FINISH: u16 = 17;

pub const WAIT: u16 = 18;

pub const WAKE: u16 = 19;

pub const SERVE: u16 = 20;

pub const TRAFFIC: u16 = 21;

pub const TICK: u16 = 22;

pub const ANSWER: u16 = 64;

// A kind, and the length that its records have.
#[derive(Clone, Copy, PartialEq, Eq, Debug)]
pub struct Pair {
    pub kind: u16,
    pub len: u16,
}

const PAIRS: usize = 12;

// The one list of lengths. GANG has two.
const LENGTHS: [Pair; PAIRS] = [
    Pair {
        kind: CORES,
        len: 3,
    },
    Pair { kind: GANG, len: 7 },
    Pair { kind: GANG, len: 3 },
    Pair {
        kind: THREAD,
        len: 4,
    },
    Pair {
        kind: RELEASE,
        len: 3,
    },
    Pair {
        kind: FINISH,
        len: 3,
    },
    Pair { kind: WAIT, len: 3 },
    Pair { kind: WAKE, len: 3 },
    Pair {
        kind: SERVE,
        len: 3,
    },
    Pair {
        kind: TRAFFIC,
        len: 7,
    },
    Pair { kind: TICK, len: 2 },
    Pair {
        kind: ANSWER,
        len: 16,
    },
];

// What is being read.
#[derive(Clone, Copy, PartialEq, Eq, Debug)]
pub enum Stream {
    Table,
    Events,
    Answers,
}

// Whether a stream has records of this kind.
#[tactic(auto, unfolding(crate::specs::Kinds::in_stream))]
pub fn in_stream(stream: Stream, kind: u16) -> bool
    ensures { result ≡ in_stream stream kind }
{
    match stream {
        Stream::Table => kind >= CORES && kind <= THREAD,
        Stream::Events => kind >= RELEASE && kind <= TICK,
        Stream::Answers => kind == ANSWER,
    }
}

// Whether len is a length of this kind.
#[tactic(auto, unfolding(crate::specs::Kinds::lengths))]
pub fn length_fits(kind: u16, len: u16) -> bool
    ensures { result ≡ fits_in kind len lengths }
{
    // Compared side by side: one after the other they become a table of jumps, which is slower.
    LENGTHS.iter().any(|p| (p.kind == kind) & (p.len == len))
}

// The length that a writer gives this kind: the first one listed, or 0 where there is none.
#[tactic(auto, unfolding(crate::specs::Kinds::lengths))]
pub fn length_of(kind: u16) -> u16
    ensures { result ≡ length_in kind lengths }
{
    match LENGTHS.iter().find(|p| p.kind == kind) {
        Some(p) => p.len,
        None => 0,
    }
}
