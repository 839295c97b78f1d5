// The tables of the cases with their answers.
ghost use Rattle.std.specs.Prelude.{◌≡◌, ◌+◌, ◌*◌, ◌≤◌, length};

use super::paper::on_equator;
use scenes::{Record, put_any_header, put_header, put_record};

// A header: its version, its sixth byte, and its count.
#[derive(Clone, Copy)]
pub struct Header {
    pub version: u32,
    pub sixth: u32,
    pub count: u32,
}

// What a table holds.
#[derive(Clone, Copy)]
pub enum Scene {
    // A header alone.
    Lone(Header),
    // One station.
    One(Record),
    // Four stations of class A, the last of any class. At the crossing of equator and meridian class A on channel 250 is short to id
    // 3 by 31 km, and to each of the others by 59 km.
    Equals(u32),
    // Four stations, the last of any class. The third is the first again, fixed, on channel 210; with class A the fourth is the
    // second again.
    Twice(u32),
    // Two stations that are alike but for the side from which the 180th meridian is written.
    BothEnds,
}

// The bytes of the longest.
pub const GIVEN_BYTES: usize = 72;

// Writes a table of some stations, and gives its length.
fn put_stations(table: &mut [u8], stations: &[Record]) -> usize
    requires { length stations.now ≤ 4 }
    ensures { result ≡ 8 + 16 * length stations.now }
{
    put_header(table, stations.len() as u32);
    for (position, station) in stations.iter().enumerate() {
        put_record(table, position, *station);
    }
    8 + 16 * stations.len()
}

impl Scene {
    // Station 7 of a class on a channel, at the crossing of equator and meridian.
    pub fn seven(channel: u32, class: u32) -> Scene {
        Scene::One(on_equator(7, channel, class, 0))
    }

    // Writes the table, and gives its length.
    pub fn put(self, table: &mut [u8]) -> usize
        ensures { result ≤ 72 }
    {
        match self {
            Scene::Lone(header) => {
                put_any_header(table, header.version, header.sixth, header.count);
                8
            }
            Scene::One(station) => put_stations(table, &[station]),
            Scene::Equals(class) => {
                let stations = [
                    on_equator(3, 253, 0, 0),
                    on_equator(5, 251, 0, 420),
                    on_equator(7, 250, 0, 1_800),
                    on_equator(9, 250, class, 4_294_965_496),
                ];
                put_stations(table, &stations)
            }
            Scene::Twice(class) => {
                let again = Record {
                    flags: 1,
                    ..on_equator(7, 210, 0, 0)
                };
                let stations = [
                    on_equator(3, 210, 0, 0),
                    on_equator(5, 251, 0, 420),
                    again,
                    on_equator(9, 251, class, 420),
                ];
                put_stations(table, &stations)
            }
            Scene::BothEnds => {
                let stations = [
                    on_equator(3, 251, 0, 648_000),
                    on_equator(5, 251, 0, 4_294_319_296),
                ];
                put_stations(table, &stations)
            }
        }
    }
}
