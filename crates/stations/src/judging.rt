// The judgement of an image: its header, then its records, then whether one repeats another.
ghost use Rattle.std.specs.Prelude.{◌≡◌, ◌/◌, ◌≤◌, length};
ghost use Rattle.stations.specs.Image.{verdict, numbers as numbers_of, headed, scanned, repeated, judged, Headed};
ghost use Rattle.stations.specs.Scanning.{id_before, Topped, Ahead, Passed, SoundTo};

use crate::reading::{count_of, record_from, station_at};
use crate::{FOUR_RECORDS, HEADER, MARK, RECORD, Station};
use refusals::Fault;
use versions::{is_carried, is_known, top_of};

// The first of the refusals 3 to 6.
#[tactic(auto, using(ground::proofs::Guards::guards), unfolding(crate::specs::Image::numbers, ground::specs::Guard::given))]
fn numbers(table: &[u8]) -> Result<(), Fault>
    requires { 8 ≤ length table.now }
    ensures { result ≡ numbers_of table.now }
{
    let version = wire::get::<u16>(table, 3);
    let n = wire::get::<u16>(table, 6) as usize;
    if !is_known(version) {
        return Err(Fault::VersionUnknown);
    }
    if table[5] != 0 {
        return Err(Fault::SixthByteSet);
    }
    if !is_carried(version, n) {
        return Err(Fault::CountOutside);
    }
    if table.len() != HEADER + RECORD * n {
        return Err(Fault::LengthWrong);
    }
    Ok(())
}

// The first of the refusals 1 to 6.
#[tactic(auto, using(ground::proofs::Guards::guards), unfolding(crate::specs::Image::headed, ground::specs::Guard::given))]
fn header(table: &[u8]) -> Result<(), Fault>
    ensures { result ≡ headed table.now }
{
    if table.len() < HEADER {
        return Err(Fault::UnderEightBytes);
    }
    if table[0] != MARK[0] || table[1] != MARK[1] || table[2] != MARK[2] {
        return Err(Fault::MarkDiffers);
    }
    numbers(table)
}

// The first of the refusals 7 to 12 of a record with flags up to `top`, after one with the id `last`.
#[tactic(auto, using(ground::proofs::Guards::guards), unfolding(crate::specs::Image::verdict, ground::specs::Guard::given))]
fn verdict_of(top: u8, last: u32, position: u32, r: Station) -> Result<(), Fault>
    ensures { result ≡ verdict top last position r }
{
    if r.id <= last {
        return Err(Fault::IdNotAscending(position));
    }
    if r.channel < 201 || 300 < r.channel {
        return Err(Fault::ChannelOutside(position));
    }
    if 7 < r.class {
        return Err(Fault::ClassOver(position));
    }
    if top < r.flags {
        return Err(Fault::FlagsOver(position));
    }
    if !distance::latitude_ok(r.latitude) {
        return Err(Fault::LatitudeOutside(position));
    }
    if !distance::longitude_ok(r.longitude) {
        return Err(Fault::LongitudeOutside(position));
    }
    Ok(())
}

// Whether the record at a place is sound after one with the id `last`.
fn one_is_sound(table: &[u8], top: u8, at: usize, last: u32) -> bool
    requires { Ahead table.now top 1 at last }
    ensures { Passed table.now (at / 16) 1 result }
{
    let r = record_from(table, at);
    verdict_of(top, last, 0, r).is_ok()
}

// Whether the four records from a place on are. One record a turn takes three instructions a record more, of fifty-one.
fn four_are_sound(table: &[u8], top: u8, at: usize, last: u32) -> bool
    requires { Ahead table.now top 4 at last }
    ensures { Passed table.now (at / 16) 4 result }
{
    if !one_is_sound(table, top, at, last) {
        return false;
    }
    let first = wire::get::<u32>(table, at);
    if !one_is_sound(table, top, at + 16, first) {
        return false;
    }
    let second = wire::get::<u32>(table, at + 16);
    if !one_is_sound(table, top, at + 32, second) {
        return false;
    }
    let third = wire::get::<u32>(table, at + 32);
    one_is_sound(table, top, at + 48, third)
}

// A place up to which all records are sound, four at a time: one of the four from there on is not, or fewer than four are left.
fn sound_to(table: &[u8], top: u8) -> usize
    requires { Topped table.now top }
    ensures { SoundTo table.now result }
{
    let turns = count_of(table) / 4;
    let mut last: u32 = 0;
    for turn in 0..turns {
        let at = HEADER + FOUR_RECORDS * turn;
        if !four_are_sound(table, top, at, last) {
            return at;
        }
        last = wire::get(table, at + 48);
    }
    HEADER + FOUR_RECORDS * turns
}

// The id before a place.
fn id_before(table: &[u8], at: usize) -> u32
    requires { SoundTo table.now at }
    ensures { result ≡ id_before table.now (at / 16) }
{
    if at == HEADER {
        return 0;
    }
    wire::get::<u32>(table, at - RECORD)
}

// The first of the refusals 7 to 12, of the records in turn.
fn records(table: &[u8]) -> Result<(), Fault>
    requires { Headed table.now }
    ensures { result ≡ scanned table.now }
{
    let version = wire::get::<u16>(table, 3);
    let top = top_of(version);
    let at = sound_to(table, top);
    let mut last = id_before(table, at);
    for i in at / RECORD..count_of(table) {
        let r = station_at(table, i);
        verdict_of(top, last, i as u32, r)?;
        last = r.id;
    }
    Ok(())
}

// The refusal 27, of the first record that repeats an earlier one.
fn repeat_of(table: &[u8]) -> Result<(), Fault>
    requires { Headed table.now }
    ensures { result ≡ repeated table.now }
{
    let n = count_of(table);
    let i = repeats::first_repeat(table, n);
    if i < n {
        return Err(Fault::Repeated(i as u32));
    }
    Ok(())
}

// Header, then records, then repeats: how many records the table has, or its first refusal.
pub fn judge(table: &[u8]) -> Result<usize, Fault>
    ensures { result ≡ judged table.now }
{
    header(table)?;
    records(table)?;
    repeat_of(table)?;
    Ok(count_of(table))
}
