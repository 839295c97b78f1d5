// The paper's questions, its station and its separations.
ghost use Rattle.std.specs.Prelude.{◌≡◌};

use super::question::{Kind, Question};
use scenes::{Record, Site, put_header, put_record};

// The channels whose differences from 240 are 0, 1, 2, 3, 53 and 54.
pub const CHANNELS: [u32; 6] = [240, 241, 242, 237, 293, 294];

// A question of a class in zone II at a longitude on the equator, by Table A; the second site is the crossing with the meridian.
pub fn paper_question<K: Into<Kind>>(
    kind: K,
    first: u32,
    last: u32,
    class: u32,
    lon: u32,
) -> Question
    ensures kind { K.converts kind result.kind }
    ensures asked { result.class ≡ class }
    ensures channels { (result.channel ≡ first) × (result.last ≡ last) }
    ensures at { (result.site.lat ≡ 0) × (result.site.lon ≡ lon) }
    ensures plain { (result.id ≡ 0) × (result.standard ≡ 1) × (result.zone ≡ 3) }
{
    Question {
        kind: kind.into(),
        id: 0,
        standard: 1,
        channel: first,
        last,
        class,
        zone: 3,
        site: Site { lat: 0, lon },
        other: Site { lat: 0, lon: 0 },
    }
}

// A station on the equator.
pub(crate) fn on_equator(id: u32, channel: u32, class: u32, lon: u32) -> Record {
    Record {
        id,
        channel,
        class,
        flags: 0,
        site: Site { lat: 0, lon },
    }
}

// Writes the table of one station, id 7, at the crossing of equator and meridian.
pub fn put_seven(table: &mut [u8], channel: u32, class: u32, flags: u32) {
    let record = Record {
        flags,
        ..on_equator(7, channel, class, 0)
    };
    put_header(table, 1);
    put_record(table, 0, record);
}

// A separation of the paper's: of two stations of a class, one of them on channel 240, with the column of the channels.
#[derive(Clone, Copy)]
pub struct Separation {
    pub class: u32,
    pub channel: u32,
    pub column: u32,
    pub km: u32,
}

// Two stations of a class that must keep so many km.
fn keeping(class: u32, channel: u32, column: u32, km: u32) -> Separation {
    Separation {
        class,
        channel,
        column,
        km,
    }
}

// Those of A to A, and then of C to C.
pub fn separations() -> [Separation; 12] {
    [
        keeping(0, 240, 0, 115),
        keeping(0, 241, 1, 72),
        keeping(0, 242, 2, 31),
        keeping(0, 237, 2, 31),
        keeping(0, 293, 3, 10),
        keeping(0, 294, 3, 10),
        keeping(7, 240, 0, 290),
        keeping(7, 241, 1, 241),
        keeping(7, 242, 2, 105),
        keeping(7, 237, 2, 105),
        keeping(7, 293, 3, 48),
        keeping(7, 294, 3, 48),
    ]
}
