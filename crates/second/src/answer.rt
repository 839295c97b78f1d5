// The refusals, and how an answer is packed into 64 bits.
ghost use Rattle.std.specs.Prelude.{◌≡◌, ◌+◌, ◌*◌, ◌^◌, ◌≤◌, ◌<◌};
ghost use Rattle.second.specs.Answer.{highest, number, extra};

// What is wrong with a record, with its refusal's number.
#[derive(Clone, Copy)]
pub(crate) enum Flaw {
    Id = 7,
    Channel = 8,
    Class = 9,
    Flags = 10,
    Latitude = 11,
    Longitude = 12,
    Again = 27,
}

// Why a question is refused, with the extra number where there is one: a position, or how much room is needed.
#[derive(Clone, Copy)]
pub(crate) enum Refusal {
    UnderEightBytes,
    OtherMark,
    OtherVersion,
    SixthByte,
    OtherCount,
    OtherLength,
    Record(Flaw, u32),
    AskedChannel,
    AskedClass,
    AskedZone,
    NotPermitted,
    AskedSite,
    NoId,
    IdPresent(u32),
    TooShort(u32),
    TableFull,
    NoRoom(u32),
    IdAbsent,
    TooFar,
    NotMovable(u32),
    AskedStandard,
}

impl Refusal {
    // Its number and its extra number, 0 where there is none.
    fn numbers(self) -> (u32, u32)
        ensures bounded { (1 ≤ result.0) × (result.0 ≤ highest) }
        ensures told { (result.0 ≡ number self) × (result.1 ≡ extra self) }
    {
        match self {
            Refusal::UnderEightBytes => (1, 0),
            Refusal::OtherMark => (2, 0),
            Refusal::OtherVersion => (3, 0),
            Refusal::SixthByte => (4, 0),
            Refusal::OtherCount => (5, 0),
            Refusal::OtherLength => (6, 0),
            Refusal::Record(flaw, position) => (flaw as u32, position),
            Refusal::AskedChannel => (13, 0),
            Refusal::AskedClass => (14, 0),
            Refusal::AskedZone => (15, 0),
            Refusal::NotPermitted => (16, 0),
            Refusal::AskedSite => (17, 0),
            Refusal::NoId => (18, 0),
            Refusal::IdPresent(position) => (19, position),
            Refusal::TooShort(position) => (20, position),
            Refusal::TableFull => (21, 0),
            Refusal::NoRoom(need) => (22, need),
            Refusal::IdAbsent => (23, 0),
            Refusal::TooFar => (24, 0),
            Refusal::NotMovable(position) => (25, position),
            Refusal::AskedStandard => (26, 0),
        }
    }
}

// What is granted in the low half, or a refusal's number in the high half and its extra number in the low one.
pub(crate) fn packed(answer: Result<u32, Refusal>) -> u64
    ensures bounded { result < (highest + 1) * 2 ^ 32 }
    ensures granted { result < 2 ^ 32 → answer ≡ Ok result }
{
    match answer {
        Ok(granted) => u64::from(granted),
        Err(refusal) => {
            let (number, extra) = refusal.numbers();
            (u64::from(number) << 32) + u64::from(extra)
        }
    }
}
