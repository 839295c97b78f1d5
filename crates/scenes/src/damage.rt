// Damage to a table image, one kind for each refusal of the judgement.
ghost use Rattle.std.specs.Prelude.{◌≤◌};
ghost use Rattle.scenes.specs.Sizes.{most_records, longest, room};

use super::chance::Chance;
use super::image::{Field, low_half, put};
use super::sizes::{LIMIT, LINE, version_for};

// A version that is none.
fn other_version(chance: &mut Chance) -> u16 {
    match chance.below(5) {
        0 => 0,
        1 => 3,
        2 => 256,
        3 => 257,
        _ => 258,
    }
}

// Gives a table of n records a count, mostly another, and a version that is not for it.
fn damage_count(chance: &mut Chance, table: &mut [u8], n: u32) {
    let count = match chance.below(6) {
        0 => LINE,
        1 => LINE + 1,
        2 => LIMIT,
        3 => LIMIT + 1,
        4 => chance.below(65_536),
        _ => n,
    };
    let version = if LIMIT < count {
        1 + chance.below(2)
    } else {
        3 - version_for(count)
    };
    put(table, 3, low_half(version).to_be_bytes());
    put(table, 6, low_half(count).to_be_bytes());
}

// A channel out of range.
fn other_channel(chance: &mut Chance) -> u16 {
    match chance.below(5) {
        0 => 200,
        1 => 301,
        2 => 0,
        3 => 65_535,
        _ => 456,
    }
}

// A coordinate out of a range of so many seconds to each side.
fn beyond(chance: &mut Chance, side: u32) -> u32 {
    match chance.below(5) {
        0 => side.wrapping_add(1),
        1 => 0u32.wrapping_sub(side.wrapping_add(1)),
        2 => 0x7FFF_FFFF,
        3 => 0x8000_0000,
        _ => side.wrapping_add(65_536),
    }
}

// Damages a field of the record at a position.
fn damage_record(chance: &mut Chance, table: &mut [u8], position: u32, field: Field) {
    let at = field.of(position);
    match field {
        Field::Id => put(table, at, chance.below(3).to_be_bytes()),
        Field::Channel => put(table, at, other_channel(chance).to_be_bytes()),
        Field::Class => put(table, at, [8 + chance.below(248) as u8]),
        Field::Flags => put(table, at, [2 + chance.below(254) as u8]),
        Field::Latitude => put(table, at, beyond(chance, 270_000).to_be_bytes()),
        Field::Longitude => put(table, at, beyond(chance, 648_000).to_be_bytes()),
    }
}

// What is wrong with a damaged table.
#[derive(Clone, Copy)]
enum Damage {
    TooShort,
    Mark,
    Version,
    SixthByte,
    Count,
    TooLong,
    Record(Field),
    AnyByte,
}

impl Damage {
    // Any damage.
    fn any(chance: &mut Chance) -> Damage {
        match chance.below(13) {
            0 => Damage::TooShort,
            1 => Damage::Mark,
            2 => Damage::Version,
            3 => Damage::SixthByte,
            4 => Damage::Count,
            5 => Damage::TooLong,
            12 => Damage::AnyByte,
            kind => Damage::Record(Field::by_number(kind - 6)),
        }
    }

    // Does it to a table of n records, and gives its length.
    fn apply(self, chance: &mut Chance, table: &mut [u8], n: u32, length: usize) -> usize
        requires { (length ≤ longest) × (n ≤ most_records) }
        ensures { result ≤ room }
    {
        match self {
            Damage::TooShort => return chance.below(8) as usize,
            Damage::Mark => put(table, chance.below(3) as usize, [chance.below(70) as u8]),
            Damage::Version => put(table, 3, other_version(chance).to_be_bytes()),
            Damage::SixthByte => put(table, 5, [1 + chance.below(255) as u8]),
            Damage::Count => damage_count(chance, table, n),
            Damage::TooLong => return length + 1 + chance.below(33) as usize,
            Damage::Record(field) => {
                let position = chance.below(n + 1);
                damage_record(chance, table, position, field);
            }
            Damage::AnyByte => put(
                table,
                chance.below(40 + 16 * n) as usize,
                [chance.below(256) as u8],
            ),
        }
        length
    }
}

// Damages a table of n records, and once in three times a record of it before that, and gives its length.
pub fn damaged(chance: &mut Chance, table: &mut [u8], n: u32, length: usize) -> usize
    requires { (length ≤ longest) × (n ≤ most_records) }
    ensures { result ≤ room }
{
    if chance.once_in(3) {
        let field = Field::by_number(chance.below(6));
        let position = chance.below(n + 1);
        damage_record(chance, table, position, field);
    }
    let damage = Damage::any(chance);
    damage.apply(chance, table, n, length)
}
