// The refusals of the papers: each fault by its name, with the number that it is given and what it returns also.
#![tactic(auto)]

ghost use Rattle.std.specs.Prelude.{◌≡◌};

// What is wrong with a table or with what is asked of it, and what is told of it also: a position, or the room needed.
#[derive(Clone, Copy, Debug, PartialEq, Eq)]
pub enum Fault {
    // under 8 bytes
    UnderEightBytes,
    // mark differs
    MarkDiffers,
    // version neither 1 nor 2
    VersionUnknown,
    // sixth byte not 0
    SixthByteSet,
    // count outside its version's range
    CountOutside,
    // length not 8 + 16n
    LengthWrong,
    // id 0 or not above the one before
    IdNotAscending(u32),
    // channel outside 201-300
    ChannelOutside(u32),
    // class over 7
    ClassOver(u32),
    // other flag bits
    FlagsOver(u32),
    // latitude out of range
    LatitudeOutside(u32),
    // longitude out of range
    LongitudeOutside(u32),
    // asked channel outside 221-300, or first above last
    AskedChannel,
    // class over 7
    AskedClass,
    // zone not 1-3
    AskedZone,
    // class not permitted in zone
    NotPermitted,
    // a given site out of range
    AskedSite,
    // Add: id 0
    IdZero,
    // Add: id present
    IdPresent(u32),
    // Add, Move: short
    Short(u32),
    // Add: table already holds 4,000
    TableFull,
    // the answer does not fit
    DoesNotFit(u32),
    // Withdraw, Move: id absent; Check, Arrange, the reason: a nonzero id to leave aside is absent
    IdAbsent,
    // distance over 475
    TooFar,
    // Move: not movable
    NotMovable(u32),
    // Check, Arrange, the reason: a standard not 1 or 2
    StandardUnknown,
    // a record repeats an earlier one
    Repeated(u32),
}

// How a fault is told: by its number, and its extra number, 0 where it has none.
#[derive(Clone, Copy, Debug, PartialEq, Eq)]
pub struct Refusal {
    pub extra: u32,
    pub number: u32,
}

impl From<Fault> for Refusal {
    ghost use Rattle.refusals.specs.Faults.{refusal};

    ghost from_gives = { λ f r. r ≡ refusal f };

    fn from(fault: Fault) -> Refusal {
        let (number, extra) = match fault {
            Fault::UnderEightBytes => (1, 0),
            Fault::MarkDiffers => (2, 0),
            Fault::VersionUnknown => (3, 0),
            Fault::SixthByteSet => (4, 0),
            Fault::CountOutside => (5, 0),
            Fault::LengthWrong => (6, 0),
            Fault::IdNotAscending(position) => (7, position),
            Fault::ChannelOutside(position) => (8, position),
            Fault::ClassOver(position) => (9, position),
            Fault::FlagsOver(position) => (10, position),
            Fault::LatitudeOutside(position) => (11, position),
            Fault::LongitudeOutside(position) => (12, position),
            Fault::AskedChannel => (13, 0),
            Fault::AskedClass => (14, 0),
            Fault::AskedZone => (15, 0),
            Fault::NotPermitted => (16, 0),
            Fault::AskedSite => (17, 0),
            Fault::IdZero => (18, 0),
            Fault::IdPresent(position) => (19, position),
            Fault::Short(position) => (20, position),
            Fault::TableFull => (21, 0),
            Fault::DoesNotFit(need) => (22, need),
            Fault::IdAbsent => (23, 0),
            Fault::TooFar => (24, 0),
            Fault::NotMovable(position) => (25, position),
            Fault::StandardUnknown => (26, 0),
            Fault::Repeated(position) => (27, position),
        };
        Refusal { extra, number }
    }
}
