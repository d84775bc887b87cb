// Document 01, "Refusal numbers".
ghost use Rattle.std.specs.Prelude.{◌≡◌};
ghost use Rattle.wire.specs.Refusal.{number_of};

// Why a record, a table, an event, a question or a batch is refused.
#[derive(Clone, Copy, PartialEq, Eq, Debug)]
pub enum Refusal {
    // Fewer bytes are left than the record takes.
    CutShort,
    // The kind is not of this stream.
    WrongKind,
    // The length is not that of the kind.
    WrongLength,
    // The first table record is not CORES, or CORES comes again.
    NotCoresFirst,
    // A 33rd gang or 129th thread.
    TooMany,
    // A number is out of range or not in the table.
    OutOfRange,
    // The priority is already taken.
    PriorityTaken,
    // The table ends without CORES, without a gang, or with a gang that has no thread.
    Unfinished,
    // FINISH or WAIT of a thread not running.
    NotRunning,
    // WAKE of a thread not waiting.
    NotWaiting,
    // TRAFFIC from a core with an occupant.
    CoreOccupied,
    // RELEASE when the last number is taken.
    NumbersSpent,
    // The next answer has no room.
    NoRoom,
    // The system handed in is not well formed.
    NotWellFormed,
}

// The number that document 01 gives a refusal.
impl From<Refusal> for u8 {
    ghost from_gives = { λ refusal n. n ≡ number_of refusal };

    fn from(refusal: Refusal) -> u8 {
        match refusal {
            Refusal::CutShort => 1,
            Refusal::WrongKind => 2,
            Refusal::WrongLength => 3,
            Refusal::NotCoresFirst => 4,
            Refusal::TooMany => 5,
            Refusal::OutOfRange => 6,
            Refusal::PriorityTaken => 7,
            Refusal::Unfinished => 8,
            Refusal::NotRunning => 9,
            Refusal::NotWaiting => 10,
            Refusal::CoreOccupied => 11,
            Refusal::NumbersSpent => 12,
            Refusal::NoRoom => 13,
            Refusal::NotWellFormed => 14,
        }
    }
}
