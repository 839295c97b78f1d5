// Records that repeat an earlier one in channel, class and site: kept out of a table, or put into it.
ghost use Rattle.std.specs.Prelude.{◌≡◌, ◌<◌, ◌≤◌};

use super::chance::Chance;
use super::image::{Field, Record, put, start_of};
use super::words::Site;

// How often a record that would repeat another is moved on.
const TRIES: u32 = 1_000;

// The bits of a record's word that hold its channel, class and site, and not its id and its flags.
const STATION: u128 = 0xFFFF_FF00_FFFF_FFFF_FFFF_FFFF;

// The word of the record at a position; none behind the end.
fn word_at(table: &[u8], position: u32) -> Option<u128> {
    let bytes = table.get(start_of(position)..)?.first_chunk()?;
    Some(u128::from_be_bytes(*bytes))
}

// Whether the record at a position has the channel, the class and the site of another, given as its word. The last byte, of the
// longitude, is compared first, for most records differ in it.
fn repeats_it(table: &[u8], position: u32, other: u128) -> bool {
    table.get(start_of(position) + 15) == Some(&((other % 256) as u8))
        && word_at(table, position).is_some_and(|word| word & STATION == other & STATION)
}

// Whether one of the first n records does.
fn met_before(table: &[u8], n: u32, record: Record) -> bool {
    let word = record.word();
    (0..n).any(|i| repeats_it(table, i, word))
}

// The same record one second farther east.
fn farther(record: Record) -> Record {
    let site = record.site;
    Record {
        site: Site::at(site.north(), site.east().eastward(1)),
        ..record
    }
}

// A record that repeats none of the first n: this one, or the same some seconds farther east.
pub(crate) fn fresh(table: &[u8], n: u32, record: Record) -> Record {
    let mut other = record;
    for _ in 0..TRIES {
        if !met_before(table, n, other) {
            return other;
        }
        other = farther(other);
    }
    other
}

// Gives the record at a position the channel, the class and the site of another; its id and its flags stay.
fn copy_station(table: &mut [u8], from: u32, to: u32) {
    if let (Some(station), Some(word)) = (word_at(table, from), word_at(table, to)) {
        put(
            table,
            start_of(to),
            (word & !STATION | station & STATION).to_be_bytes(),
        );
    }
}

// Mostly leaves two records as they are; else gives the second another channel, class or latitude, or both the two longitudes of the
// 180th meridian.
fn tell_apart(chance: &mut Chance, table: &mut [u8], from: u32, to: u32) {
    match chance.below(12) {
        0 => put(
            table,
            Field::Channel.of(to),
            (201 + chance.below(100) as u16).to_be_bytes(),
        ),
        1 => put(table, Field::Class.of(to), [chance.below(8) as u8]),
        2 => put(
            table,
            Field::Latitude.of(to),
            chance.below(1_000).to_be_bytes(),
        ),
        3 => {
            put(table, Field::Longitude.of(from), 648_000i32.to_be_bytes());
            put(table, Field::Longitude.of(to), (-648_000i32).to_be_bytes());
        }
        _ => {}
    }
}

// The next position, or any of n.
fn next_or_any(chance: &mut Chance, position: u32, n: u32) -> u32
    requires { position < n }
    ensures { result ≤ n }
{
    if chance.once_in(3) {
        position + 1
    } else {
        chance.below(n)
    }
}

// Makes a record of a table of n, or the one behind them, repeat the one before it, or any other; or nearly so.
fn repeat_one(chance: &mut Chance, table: &mut [u8], n: u32)
    requires { 0 < n }
{
    let from = chance.below(n);
    let to = next_or_any(chance, from, n);
    copy_station(table, from, to);
    tell_apart(chance, table, from, to);
}

// Does so up to three times, where there are records.
pub fn repeat_some(chance: &mut Chance, table: &mut [u8], n: u32)
    ensures { n ≡ 0 → table.new ≡ table.old }
{
    if n == 0 {
        return;
    }
    for _ in 0..1 + chance.below(3) {
        repeat_one(chance, table, n);
    }
}
