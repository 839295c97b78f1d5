// Questions with two sites near each other on the two sides of the 180th meridian.
use cases::{Kind, Question};

// The circle, in seconds.
const CIRCLE: u32 = 1_296_000;

// Two longitudes at most so many seconds from each other, the short way round, are near.
const NEAR: u32 = 20_000;

// The bytes of a table's header, of a record, and of what stands in it before its longitude.
const HEADER: usize = 8;

const RECORD: usize = 16;

const BEFORE: usize = 12;

// So many records have their longitude, or the first byte of it, within the first 65,536 bytes.
const RECORDS: usize = 4_095;

// Whether a plain difference is nearly the whole circle.
fn nearly_round(seconds: u32) -> bool {
    (CIRCLE - NEAR..=CIRCLE).contains(&seconds)
}

// Whether two longitudes, as words, are near and on the two sides of the 180th meridian.
fn across(lon1: u32, lon2: u32) -> bool {
    nearly_round(lon1.wrapping_sub(lon2)) || nearly_round(lon2.wrapping_sub(lon1))
}

// Whether a longitude and that of a record are; a longitude of which only a part is there is 0.
fn across_record(lon: u32, record: &[u8]) -> bool {
    match record.get(BEFORE..) {
        Some([a, b, c, d]) => across(lon, u32::from_be_bytes([*a, *b, *c, *d])),
        Some([_, ..]) => across(lon, 0),
        _ => false,
    }
}

// Whether a longitude and that of some record of a table are.
fn any_across(table: &[u8], lon: u32) -> bool {
    match table.get(HEADER..) {
        Some(records) => records
            .chunks(RECORD)
            .take(RECORDS)
            .any(|record| across_record(lon, record)),
        None => false,
    }
}

// Whether the two sites of a question are, or its site and that of some record.
pub(crate) fn is_across(q: Question, table: &[u8]) -> bool {
    if q.kind == Kind::Distance {
        across(q.site.lon, q.other.lon)
    } else {
        any_across(table, q.site.lon)
    }
}
