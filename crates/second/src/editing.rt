// The questions add, withdraw and move.
ghost use Rattle.std.specs.Prelude.{◌≤◌, length, IfOk};
ghost use Rattle.second.specs.Answer.{Packed};

use super::answer::{Refusal, packed};
use super::asked::{Asked, channel_of};
use super::image::put_image;
use super::stations::Standard;
use super::tables::Table;
use super::versions::CAPACITY;
use second_rule::TABLE_A;

// The bytes of the image with a proposal set in at its place by id.
fn added(table: &[u8], asked: Asked, image: &mut [u8]) -> Result<u32, Refusal>
    ensures { IfOk result (λ need. need ≤ length image.old) }
{
    let table = Table::read(table)?;
    let new = asked.judge()?.station;
    if new.id == 0 {
        return Err(Refusal::NoId);
    }
    if let Some(same) = table.position(new.id) {
        return Err(Refusal::IdPresent(same as u32));
    }
    if let Some(blocker) = table.first_short(new, new.id, Standard::TableA) {
        return Err(Refusal::TooShort(blocker as u32));
    }
    if table.records.len() == CAPACITY {
        return Err(Refusal::TableFull);
    }
    let place = table.place(new.id);
    put_image(
        image,
        &table.records[..place],
        &[new.to_record()],
        &table.records[place..],
    )
}

// The image with a station set in at its place by id.
pub fn add(
    table: &[u8],
    id: u32,
    channel: u32,
    class: u32,
    zone: u32,
    lat: i32,
    lon: i32,
    image: &mut [u8],
) -> u64
    ensures { Packed (length image.old) result }
{
    let asked = Asked {
        id,
        first: channel,
        last: channel,
        class,
        zone,
        standard: TABLE_A as u32,
        lat,
        lon,
    };
    packed(added(table, asked, image))
}

// The bytes of the image without the station of an id.
fn withdrawn(table: &[u8], id: u32, image: &mut [u8]) -> Result<u32, Refusal>
    ensures { IfOk result (λ need. need ≤ length image.old) }
{
    let table = Table::read(table)?;
    let Some(position) = table.position(id) else {
        return Err(Refusal::IdAbsent);
    };
    put_image(
        image,
        &table.records[..position],
        &[],
        &table.records[position + 1..],
    )
}

// The image without the station of an id.
pub fn withdraw(table: &[u8], id: u32, image: &mut [u8]) -> u64
    ensures { Packed (length image.old) result }
{
    packed(withdrawn(table, id, image))
}

// The bytes of the image with the station of an id on another channel.
fn moved(table: &[u8], id: u32, channel: u32, image: &mut [u8]) -> Result<u32, Refusal>
    ensures { IfOk result (λ need. need ≤ length image.old) }
{
    let table = Table::read(table)?;
    let channel = channel_of(channel)?;
    let Some(position) = table.position(id) else {
        return Err(Refusal::IdAbsent);
    };
    let old = table.station(position);
    if !old.is_movable() {
        return Err(Refusal::NotMovable(position as u32));
    }
    let new = old.on(channel);
    if let Some(blocker) = table.first_short(new, id, Standard::TableA) {
        return Err(Refusal::TooShort(blocker as u32));
    }
    put_image(
        image,
        &table.records[..position],
        &[new.to_record()],
        &table.records[position + 1..],
    )
}

// The image with the station of an id on another channel.
pub fn move_to(table: &[u8], id: u32, channel: u32, image: &mut [u8]) -> u64
    ensures { Packed (length image.old) result }
{
    packed(moved(table, id, channel, image))
}
