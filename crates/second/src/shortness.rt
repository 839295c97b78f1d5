// The question check.
ghost use Rattle.std.specs.Prelude.{◌≡◌, ◌+◌, ◌*◌, ◌≤◌, length, IfOk, MatchResult};
ghost use Rattle.second.specs.Answer.{Packed, number, extra};
ghost use Rattle.second.specs.Sizes.{capacity};

use super::answer::{Refusal, packed};
use super::asked::Asked;
use super::rows::{Rows, put_all};
use super::stations::Station;
use super::studies::Study;

// Puts the rows of the stations that are short to the proposal and not left aside.
fn put_short(study: &Study, rows: &mut Rows)
    ensures { rows.new.numbers ≤ rows.old.numbers + 3 * capacity }
{
    let new = study.proposal.station;
    let standard = study.proposal.standard;
    for record in study.table.records {
        let station = Station::from_record(record);
        if station.id != new.id && new.is_short(station, standard) {
            rows.push([
                station.id,
                new.site.apart(station.site),
                new.required(station, standard),
            ]);
        }
    }
}

// Puts the rows of the short stations if all fit; gives how many numbers they are.
fn put_if_room(study: &Study, rows: &mut [u32]) -> Result<u32, Refusal>
    ensures { MatchResult result (λ need. (need ≤ length rows.old) × (need ≤ 3 * capacity)) (λ refusal. (number refusal ≡ 22) × (extra refusal ≤ 3 * capacity)) }
{
    put_all(rows, |rows| put_short(study, rows))
}

// How many numbers the rows of the short stations are.
fn checked(table: &[u8], asked: Asked, rows: &mut [u32]) -> Result<u32, Refusal>
    ensures { IfOk result (λ need. (need ≤ length rows.old) × (need ≤ 3 * capacity)) }
{
    let study = Study::new(table, asked)?;
    put_if_room(&study, rows)
}

// The rows id, D, R of the stations that are short to a proposal by a standard; the station of an id is left aside, 0 for none.
pub fn check(
    table: &[u8],
    channel: u32,
    class: u32,
    zone: u32,
    lat: i32,
    lon: i32,
    aside: u32,
    standard: u32,
    rows: &mut [u32],
) -> u64
    ensures { Packed (length rows.old) result }
{
    let asked = Asked {
        id: aside,
        first: channel,
        last: channel,
        class,
        zone,
        standard,
        lat,
        lon,
    };
    packed(checked(table, asked, rows))
}
