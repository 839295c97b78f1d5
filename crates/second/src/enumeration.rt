// The question arrange, by plain enumeration.
ghost use Rattle.std.specs.Prelude.{◌≡◌, ◌+◌, ◌*◌, ◌≤◌, length, IfOk, MatchResult};
ghost use Rattle.second.specs.Answer.{Packed, number, extra};
ghost use Rattle.second.specs.Sizes.{capacity};

use super::answer::{Refusal, packed};
use super::asked::Asked;
use super::rows::{Rows, put_all};
use super::stations::Station;
use super::studies::Study;

// Whether a station, on its new channel, is short neither to the new station nor to any other that is not left aside.
fn is_clean(study: &Study, new: Station, moved: Station) -> bool {
    !moved.is_short(new, study.proposal.standard) && !study.is_blocked(moved, new.id)
}

// Puts a row for each clean channel of a station, none where it is left aside or others are in the way.
fn put_mover(study: &Study, new: Station, old: Station, rows: &mut Rows)
    ensures { rows.new.numbers ≤ rows.old.numbers + 240 }
{
    if old.id == new.id || !old.is_movable() || study.is_blocked(new, old.id) {
        return;
    }
    for channel in 221..=300 {
        if channel != old.channel && is_clean(study, new, old.on(channel)) {
            rows.push([u32::from(new.channel), old.id, u32::from(channel)]);
        }
    }
}

// Puts the rows of one new channel.
fn put_channel(study: &Study, new: Station, rows: &mut Rows)
    ensures { rows.new.numbers ≤ rows.old.numbers + 240 * capacity }
{
    if !study.is_blocked(new, new.id) {
        rows.push([u32::from(new.channel), 0, 0]);
        return;
    }
    for record in study.table.records {
        put_mover(study, new, Station::from_record(record), rows);
    }
}

// Puts the rows of all new channels.
fn put_arrangements(study: &Study, rows: &mut Rows)
    ensures { rows.new.numbers ≤ rows.old.numbers + 80 * 240 * capacity }
{
    let new = study.proposal.station;
    for channel in new.channel..=study.proposal.last {
        put_channel(study, new.on(channel), rows);
    }
}

// Puts the rows of the arrangements if all fit; gives how many numbers they are.
fn put_if_room(study: &Study, rows: &mut [u32]) -> Result<u32, Refusal>
    ensures { MatchResult result (λ need. (need ≤ length rows.old) × (need ≤ 80 * 240 * capacity)) (λ refusal. (number refusal ≡ 22) × (extra refusal ≤ 80 * 240 * capacity)) }
{
    put_all(rows, |rows| put_arrangements(study, rows))
}

// How many numbers the rows of the arrangements are.
fn arranged(table: &[u8], asked: Asked, rows: &mut [u32]) -> Result<u32, Refusal>
    ensures { IfOk result (λ need. (need ≤ length rows.old) × (need ≤ 80 * 240 * capacity)) }
{
    let study = Study::new(table, asked)?;
    put_if_room(&study, rows)
}

// The rows new channel, id moved, its new channel of the arrangements for a proposal on first to last by a standard; the station of
// an id is left aside, 0 for none.
pub fn arrange(
    table: &[u8],
    first: u32,
    last: u32,
    class: u32,
    zone: u32,
    lat: i32,
    lon: i32,
    aside: u32,
    standard: u32,
    rows: &mut [u32],
) -> u64
    ensures { Packed (length rows.old) result }
{
    let asked = Asked {
        id: aside,
        first,
        last,
        class,
        zone,
        standard,
        lat,
        lon,
    };
    packed(arranged(table, asked, rows))
}
