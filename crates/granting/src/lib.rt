// The answer to a change that is granted: the image of the new list where it fits, or 22 with the bytes that it needs.
#![tactic(auto)]

ghost use Rattle.std.specs.Prelude.{◌≡◌, ◌++◌, ◌+◌, ◌*◌, ◌<◌, ◌≤◌, length};
ghost use Rattle.std.proofs.lemmas.List.Edits.{sets};
ghost use Rattle.ground.specs.Lists.{each};
ghost use Rattle.stations.specs.Image.{station_at, stations, count};
ghost use Rattle.stations.specs.Encode.{record_of, encode};
ghost use Rattle.stations.specs.Lists.{insert, without, rechannel};
ghost use Rattle.desk.specs.Answers.{grant, Answered};
ghost use Rattle.granting.specs.Written.{Adds, Moves, Splices, spliced};

use refusals::Fault;
use stations::{HEADER, RECORD, Station, Table};
use std::ops::Range;

// From the insertion place on: records, and the later ones of the table.
fn put_rest(rest: &mut [u8], records: &[Station], later: &[u8])
    requires { 16 * length records.now + length later.now ≤ length rest.old }
    ensures { rest.new ≡ sets rest.old 0 (each record_of records.now ++ later.now) }
{
    let mut at: usize = 0;
    for r in records {
        stations::put_station(rest, at, *r);
        at += RECORD;
    }
    stations::copy(later, 0, rest, at, later.len());
}

// The list with some records in place of those at the positions of a range. It takes a plain slice: of one in a struct the check does not know
// that each byte is under 256.
#[tactic(auto, unfolding(versions::specs::Version::limit))]
fn splice(
    table: &[u8],
    replaced: Range<usize>,
    records: &[Station],
    image: &mut [u8],
) -> Result<u32, Fault>
    requires { Splices table.now replaced.start replaced.end (length records.now) }
    ensures { Answered (grant (encode (spliced replaced.start replaced.end records.now (stations table.now)))) image.old image.new result }
{
    let n = replaced.start + records.len() + (stations::count_of(table) - replaced.end);
    let need = (HEADER + RECORD * n) as u32;
    desk::room_fault(image.len(), need)?;
    let version = versions::version_for(n);
    stations::put_header(image, version, n as u16);
    let at = HEADER + RECORD * replaced.start;
    let from = HEADER + RECORD * replaced.end;
    stations::copy(table, HEADER, image, HEADER, at - HEADER);
    put_rest(&mut image[at..], records, &table[from..]);
    Ok(need)
}

// The list with a record set in at its place p.
pub fn grant_add(table: &Table<'_>, p: usize, r: Station, image: &mut [u8]) -> Result<u32, Fault>
    requires { Adds table.now.image.now p r }
    ensures { Answered (grant (encode (insert r (stations table.now.image.now)))) image.old image.new result }
{
    splice(table.image, p..p, &[r], image)
}

// The list with the record at position p on the channel of r.
pub fn grant_move(table: &Table<'_>, p: usize, r: Station, image: &mut [u8]) -> Result<u32, Fault>
    requires { Moves table.now.image.now p r }
    ensures { Answered (grant (encode (rechannel r.id r.channel (stations table.now.image.now)))) image.old image.new result }
{
    splice(table.image, p..p + 1, &[r], image)
}

// The list without the record at position p.
pub fn grant_withdraw(table: &Table<'_>, p: usize, image: &mut [u8]) -> Result<u32, Fault>
    requires { p < count table.now.image.now }
    ensures { Answered (grant (encode (without (station_at table.now.image.now p).id (stations table.now.image.now)))) image.old image.new result }
{
    splice(table.image, p..p + 1, &[], image)
}
