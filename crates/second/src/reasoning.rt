// The question reason: the first station whose shortfall no other one exceeds.
ghost use Rattle.std.specs.Prelude.{◌≤◌, ◌<◌, length, IfOk, IfSome};
ghost use Rattle.second.specs.Answer.{Packed};
ghost use Rattle.second.specs.Sizes.{longest};

use super::answer::{Refusal, packed};
use super::asked::{Asked, Proposal};
use super::image::size;
use super::stations::{Record, Station};
use super::studies::Study;

// By how many km the station of a record is short to the proposal; 0 where it is not, or is left aside.
fn shortfall(study: &Study, record: &Record) -> u32 {
    let station = Station::from_record(record);
    let new = study.proposal.station;
    if station.id == new.id {
        return 0;
    }
    new.shortfall(station, study.proposal.standard)
}

// The first position whose station is short to the proposal, and no other by more.
fn first_worst(study: &Study) -> Option<usize>
    ensures { IfSome result (λ i. i < length study.now.table.records.now) }
{
    let records = study.table.records;
    records.iter().position(|record| {
        let km = shortfall(study, record);
        0 < km && records.iter().all(|other| shortfall(study, other) <= km)
    })
}

// The place of the station with the largest shortfall, whose reason is told; 0 where none is short.
fn reasoned(table: &[u8], asked: Asked, told: &mut [u32; 4]) -> Result<u32, Refusal>
    ensures { IfOk result (λ place. place ≤ longest) }
{
    let study = Study::new(table, asked)?;
    let Some(position) = first_worst(&study) else {
        return Ok(0);
    };
    let Proposal {
        station: new,
        standard,
        ..
    } = study.proposal;
    let worst = study.table.station(position);
    *told = [
        worst.id,
        new.site.apart(worst.site),
        new.required(worst, standard),
        new.column(worst),
    ];
    // Its record begins behind those before it.
    Ok(size(position) as u32)
}

// The place in the table of the station with the largest shortfall to a proposal by a standard, the first of equals, and its id, D,
// R and column; 0 and nothing written where none is short. The station of an id is left aside, 0 for none.
pub fn reason(
    table: &[u8],
    channel: u32,
    class: u32,
    zone: u32,
    lat: i32,
    lon: i32,
    aside: u32,
    standard: u32,
    reason: &mut [u32; 4],
) -> u64
    ensures { Packed longest result }
{
    let asked = Asked {
        id: aside,
        first: channel,
        last: channel,
        class,
        zone,
        standard,
        lat,
        lon,
    };
    packed(reasoned(table, asked, reason))
}
