// Sites, stations, and who is short to whom.
ghost use Rattle.std.specs.Prelude.{◌≤◌, ◌<◌, IfErr};
ghost use Rattle.second.specs.Answer.{flaw_number};

use super::answer::{Flaw, Refusal};
use second_rule::{LATITUDES, LESSER, LONGITUDES, TABLE_A, column, kilometres, separation};

// A station in the image, as four words of four bytes: its id; channel, class and flags; latitude; longitude.
pub(crate) type Record = [[u8; 4]; 4];

// How far the equator and the prime meridian are from the ends that a site counts from.
const EQUATOR: u32 = 270_000;

const MERIDIAN: u32 = 648_000;

// Seconds from the southern and from the western end of the range; over its extent where the site is out of range.
#[derive(Clone, Copy)]
pub(crate) struct Site {
    pub(crate) north: u32,
    pub(crate) east: u32,
}

impl Site {
    // The site of a latitude and a longitude as words in two's complement.
    fn from_words(lat: u32, lon: u32) -> Site {
        Site {
            north: lat.wrapping_add(EQUATOR),
            east: lon.wrapping_add(MERIDIAN),
        }
    }

    // The site that is asked for.
    pub(crate) fn asked(lat: i32, lon: i32) -> Result<Site, Refusal> {
        let site = Site::from_words(lat.cast_unsigned(), lon.cast_unsigned());
        if site.in_latitudes() && site.in_longitudes() {
            Ok(site)
        } else {
            Err(Refusal::AskedSite)
        }
    }

    // Whether its latitude is in range.
    fn in_latitudes(self) -> bool {
        u64::from(self.north) <= LATITUDES
    }

    // Whether its longitude is in range.
    fn in_longitudes(self) -> bool {
        u64::from(self.east) <= LONGITUDES
    }

    // D of two sites.
    pub(crate) fn apart(self, other: Site) -> u32
        ensures { result ≤ 65536 }
    {
        kilometres(
            u64::from(self.north),
            u64::from(self.east),
            u64::from(other.north),
            u64::from(other.east),
        ) as u32
    }
}

// What separations are looked up in.
#[derive(Clone, Copy)]
pub(crate) enum Standard {
    TableA,
    Lesser,
}

impl Standard {
    // The standard that is asked for.
    pub(crate) fn asked(number: u32) -> Result<Standard, Refusal> {
        match u64::from(number) {
            TABLE_A => Ok(Standard::TableA),
            LESSER => Ok(Standard::Lesser),
            _ => Err(Refusal::AskedStandard),
        }
    }

    // The number that it is asked for by.
    fn number(self) -> u64 {
        match self {
            Standard::TableA => TABLE_A,
            Standard::Lesser => LESSER,
        }
    }
}

// A station or a proposal. What is proposed to check, arrange or reason has the id of the station left aside, 0 for none.
#[derive(Clone, Copy)]
pub(crate) struct Station {
    pub(crate) id: u32,
    pub(crate) channel: u16,
    pub(crate) class: u8,
    pub(crate) flags: u8,
    pub(crate) site: Site,
}

impl Station {
    // The station of a record.
    pub(crate) fn from_record(record: &Record) -> Station {
        let [id, [c1, c0, class, flags], lat, lon] = *record;
        Station {
            id: u32::from_be_bytes(id),
            channel: u16::from_be_bytes([c1, c0]),
            class,
            flags,
            site: Site::from_words(u32::from_be_bytes(lat), u32::from_be_bytes(lon)),
        }
    }

    // The record of a station.
    pub(crate) fn to_record(self) -> Record {
        let [c1, c0] = self.channel.to_be_bytes();
        let lat = self.site.north.wrapping_sub(EQUATOR);
        let lon = self.site.east.wrapping_sub(MERIDIAN);
        [
            self.id.to_be_bytes(),
            [c1, c0, self.class, self.flags],
            lat.to_be_bytes(),
            lon.to_be_bytes(),
        ]
    }

    // What is wrong with it behind a station of an id, 0 for none: its fields in order.
    pub(crate) fn judge(self, before: u32) -> Result<(), Flaw>
        ensures { IfErr result (λ flaw. flaw_number flaw ≤ 12) }
    {
        if self.id <= before {
            return Err(Flaw::Id);
        }
        if !(201..=300).contains(&self.channel) {
            return Err(Flaw::Channel);
        }
        if 7 < self.class {
            return Err(Flaw::Class);
        }
        if 1 < self.flags {
            return Err(Flaw::Flags);
        }
        if !self.site.in_latitudes() {
            return Err(Flaw::Latitude);
        }
        if !self.site.in_longitudes() {
            return Err(Flaw::Longitude);
        }
        Ok(())
    }

    // What no two stations of a table have alike: channel, class and site, in one number. The remainders change nothing of a station
    // that is in order.
    pub(crate) fn entry(self) -> u64 {
        let kind = u64::from(self.channel % 512) * 8 + u64::from(self.class % 8);
        let north = u64::from(self.site.north) % (LATITUDES + 1);
        let east = u64::from(self.site.east) % (LONGITUDES + 1);
        (kind * (LATITUDES + 1) + north) * (LONGITUDES + 1) + east
    }

    // Whether it may be moved.
    pub(crate) fn is_movable(self) -> bool {
        self.flags == 0 && 220 < self.channel
    }

    // The same station on another channel.
    pub(crate) fn on(self, channel: u16) -> Station {
        Station { channel, ..self }
    }

    // The column of two stations, 4 where there is no requirement.
    pub(crate) fn column(self, other: Station) -> u32
        ensures { result ≤ 4 }
    {
        column(u64::from(self.channel), u64::from(other.channel)) as u32
    }

    // R of two stations by a standard, 0 where there is no requirement.
    pub(crate) fn required(self, other: Station, standard: Standard) -> u32
        ensures { result < 1000 }
    {
        separation(
            standard.number(),
            u64::from(self.channel),
            u64::from(self.class),
            u64::from(other.channel),
            u64::from(other.class),
        ) as u32
    }

    // By how many km two stations are short by a standard, R - D; 0 where they are not.
    pub(crate) fn shortfall(self, other: Station, standard: Standard) -> u32 {
        match self.required(other, standard) {
            0 => 0,
            r => r.saturating_sub(self.site.apart(other.site)),
        }
    }

    // Whether two stations are short by a standard: D below R.
    pub(crate) fn is_short(self, other: Station, standard: Standard) -> bool {
        0 < self.shortfall(other, standard)
    }
}
