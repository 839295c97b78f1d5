// Made tables around the site, channel and class that are asked.
ghost use Rattle.std.specs.Prelude.{◌<◌, ◌≤◌};
ghost use Rattle.scenes.specs.Sites.{IsInRange};
ghost use Rattle.scenes.specs.Sizes.{most_records, longest};

use super::chance::Chance;
use super::image::{Record, put_header, put_record, start_of};
use super::limits::{at_limit, either_way, separation};
use super::repeats::fresh;
use super::styles::Style;
use super::words::{East, LATITUDES, LONGITUDES, North, Site};

// A reach of some hundred km, in seconds.
const WIDE: u32 = 20_000;

// A reach of some km, within which stations up to 3 channels from each other are short.
const NARROW: u32 = 400;

// An end of a range, or any place within it.
fn place_within(chance: &mut Chance, most: u32) -> u32
    requires { most ≤ 2000000 }
    ensures { result ≤ most }
{
    if chance.once_in(8) {
        0
    } else if chance.once_in(8) {
        most
    } else {
        chance.below(most + 1)
    }
}

// An end of the latitudes, or any other.
fn any_north(chance: &mut Chance) -> North {
    North::new(place_within(chance, LATITUDES))
}

// A site: the crossing of equator and meridian, one astride the 180th meridian, an end of a range, or any other.
pub fn any_site(chance: &mut Chance) -> Site
    ensures { IsInRange result }
{
    match chance.below(8) {
        0 | 1 => Site { lat: 0, lon: 0 },
        2 => site_astride(chance),
        _ => Site::at(
            any_north(chance),
            East::new(place_within(chance, LONGITUDES)),
        ),
    }
}

// A latitude at most reach away from another.
fn north_near(chance: &mut Chance, from: North, reach: u32) -> North
    requires { reach ≤ 100000 }
{
    let up = from.seconds + chance.below(2 * reach + 1);
    North::new(up.saturating_sub(reach))
}

// A site at most a height north or south and a width east or west of another, in seconds.
fn site_near(chance: &mut Chance, from: Site, height: u32, width: u32) -> Site
    requires { (height ≤ 100000) × (width ≤ 100000) }
    ensures { IsInRange result }
{
    let north = north_near(chance, from.north(), height);
    let west = from.east().westward(width);
    Site::at(north, west.eastward(chance.below(2 * width + 1)))
}

// A site at any latitude, at the western end or near the 180th meridian on either side.
pub fn site_astride(chance: &mut Chance) -> Site
    ensures { IsInRange result }
{
    let end = Site::at(any_north(chance), East::new(0));
    match chance.below(8) {
        0 => end,
        1..=3 => site_near(chance, end, 0, NARROW),
        _ => site_near(chance, end, 0, 4_000),
    }
}

// A channel difference: one with a requirement, or one beside such.
fn difference(chance: &mut Chance) -> u32
    ensures { result ≤ 55 }
{
    match chance.below(10) {
        0 | 1 => 0,
        2 => 1,
        3 => 2,
        4 => 3,
        5 => 4,
        6 => 52,
        7 => 53,
        8 => 54,
        _ => 55,
    }
}

// Any channel of a record.
fn any_channel(chance: &mut Chance) -> u32
    ensures { result ≤ 300 }
{
    201 + chance.below(100)
}

// A record's channel by a difference above or below another; any where that falls out of range.
fn channel_by(chance: &mut Chance, channel: u32, d: u32) -> u32 {
    let near = if chance.once_in(2) {
        channel.wrapping_add(d)
    } else {
        channel.wrapping_sub(d)
    };
    if (201..=300).contains(&near) {
        near
    } else {
        any_channel(chance)
    }
}

// A record's channel near another, or any.
fn near_channel(chance: &mut Chance, channel: u32) -> u32 {
    if chance.once_in(4) {
        return any_channel(chance);
    }
    let d = difference(chance);
    channel_by(chance, channel, d)
}

// Flags: one record in four is fixed.
fn any_flags(chance: &mut Chance) -> u32 {
    u32::from(chance.once_in(4))
}

// The same site as another, any, one near it, or one at either of two limits from it.
fn site_at_limits(chance: &mut Chance, from: Site, km: u32, r: u32) -> Site {
    match chance.below(8) {
        0 => from,
        1 => any_site(chance),
        2 => site_near(chance, from, 3_000, 6_000),
        3 => at_limit(chance, from, km),
        _ => at_limit(chance, from, r),
    }
}

// A record at the same site as another, at the limit from it by either standard, or some km away.
fn record_at_limits(chance: &mut Chance, id: u32, from: Record) -> Record {
    let class = chance.below(8);
    let channel = near_channel(chance, from.channel);
    let standard = 1 + chance.below(2);
    let r = separation(standard, from.channel, from.class, channel, class);
    let km = chance.below(300);
    let site = site_at_limits(chance, from.site, km, r);
    Record {
        id,
        channel,
        class,
        flags: any_flags(chance),
        site,
    }
}

// A record on a channel, at most a reach north or south and twice as far east or west of another.
fn record_near(chance: &mut Chance, id: u32, channel: u32, from: Record, reach: u32) -> Record
    requires { reach ≤ 50000 }
{
    Record {
        id,
        channel,
        class: chance.below(8),
        flags: any_flags(chance),
        site: site_near(chance, from.site, reach, 2 * reach),
    }
}

// A channel, or by chance the one as far on the other side of a middle, where that is within 201 to 300.
fn either_side(chance: &mut Chance, middle: u32, channel: u32) -> u32 {
    if chance.once_in(2) {
        return channel;
    }
    let other = middle.wrapping_add(middle).wrapping_sub(channel);
    if (201..=300).contains(&other) {
        other
    } else {
        channel
    }
}

// A record as far from what is asked as another one, by channel and by km, and of the same class.
fn twin_of(chance: &mut Chance, id: u32, asked: Record, from: Record) -> Record {
    let channel = either_side(chance, asked.channel, from.channel);
    let middle = asked.site.east();
    let way = from.site.east().westward(middle.seconds);
    Record {
        id,
        channel,
        class: from.class,
        flags: any_flags(chance),
        site: Site::at(from.site.north(), either_way(chance, middle, way.seconds)),
    }
}

// A twin of another record, but not of what is asked, or a record at the limits of what is asked.
fn record_among_equals(chance: &mut Chance, id: u32, asked: Record, from: Record) -> Record {
    if from.id != asked.id && chance.once_in(2) {
        twin_of(chance, id, asked, from)
    } else {
        record_at_limits(chance, id, asked)
    }
}

// A record of a style, from what is asked or from another record.
fn made_record(chance: &mut Chance, id: u32, asked: Record, from: Record, style: Style) -> Record {
    match style {
        Style::Low => {
            let low = 201 + chance.below(20);
            record_near(chance, id, low, from, WIDE)
        }
        Style::Equals => record_among_equals(chance, id, asked, from),
        Style::Crowded => {
            let d = chance.below(4);
            let channel = channel_by(chance, asked.channel, d);
            record_near(chance, id, channel, asked, NARROW)
        }
        _ if id == asked.id => record_at_limits(chance, id, asked),
        Style::AtLimits => record_at_limits(chance, id, from),
        Style::Scattered | Style::Astride | Style::Repeating => {
            let channel = any_channel(chance);
            record_near(chance, id, channel, from, WIDE)
        }
    }
}

// Writes a table of n records whose ids rise by 3 from a number, made from what is asked in a style or the style of a number, and gives
// its length.
pub fn made_table<S: Into<Style>>(
    chance: &mut Chance,
    asked: Record,
    start: u32,
    n: usize,
    style: S,
    table: &mut [u8],
) -> usize
    requires { n ≤ most_records }
    ensures { result ≤ longest }
{
    let style: Style = style.into();
    let n = n as u32;
    put_header(table, n);
    let mut from = asked;
    let mut id = start;
    for i in 0..n {
        let made = made_record(chance, id, asked, from, style);
        let record = if style.may_repeat() {
            fresh(table, i, made)
        } else {
            made
        };
        put_record(table, i as usize, record);
        if chance.once_in(3) {
            from = record;
        }
        id = id.wrapping_add(3);
    }
    start_of(n)
}
