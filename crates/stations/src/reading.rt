// The records of an image, read by position.
ghost use Rattle.std.specs.Prelude.{◌≡◌, ◌+◌, ◌*◌, ◌≤◌, length};
ghost use Rattle.stations.specs.Image.{station_from, station_at, count};
ghost use Rattle.stations.specs.Lists.{movable};

use crate::{HEADER, RECORD, Station};

// How many records the header counts.
pub fn count_of(table: &[u8]) -> usize
    requires { 8 ≤ length table.now }
    ensures { result ≡ count table.now }
{
    wire::get::<u16>(table, 6) as usize
}

// The record whose bytes begin at a place.
pub fn record_from(table: &[u8], at: usize) -> Station
    requires { at + 16 ≤ length table.now }
    ensures { result ≡ station_from table.now at }
{
    Station {
        id: wire::get(table, at),
        channel: wire::get(table, at + 4),
        class: table[at + 6],
        flags: table[at + 7],
        latitude: wire::get(table, at + 8),
        longitude: wire::get(table, at + 12),
    }
}

// The record at a position.
pub fn station_at(table: &[u8], i: usize) -> Station
    requires { 8 + 16 * i + 16 ≤ length table.now }
    ensures { result ≡ station_at table.now i }
{
    record_from(table, HEADER + RECORD * i)
}

// Whether a station may be moved.
#[tactic(auto, using(ground::proofs::Guards::guards), unfolding(crate::specs::Lists::movable))]
pub fn is_movable(r: Station) -> bool
    ensures { result ≡ movable r }
{
    r.flags % 2 == 0 && 220 < r.channel
}
