// The questions for other languages: what include/fms.h declares. Their parameters are loose numbers, as the C interface has them.
#![tactic(auto)]

ghost use Rattle.std.specs.Prelude.{◌≡◌, ◌/◌, ◌%◌};
ghost use Rattle.part73.specs.TableA.{table_a};
ghost use Rattle.squares.specs.Squares.{limit_for};
ghost use Rattle.desk.specs.Questions.{read_of, distance_of};
ghost use Rattle.changes.specs.Changes.{add as adding, withdraw as withdrawing, move as moving, changed_for};
ghost use Rattle.fms.specs.Packed.{Says, Packed, newcomer as asked, proposal, wanted};
ghost use Rattle.checks.specs.Check.{checked_for};
ghost use Rattle.arrangements.specs.Arrange.{arranged_for};
ghost use Rattle.std.proofs.lemmas.List.Edits.{sets};
ghost use Rattle.reasons.specs.Reason.{reasoned_for, outcome_of};
ghost use Rattle.reasons.specs.Inside.{Names};
ghost use Rattle.fms.specs.Reason.{located, granted, Explained};

use changes::Newcomer;
use checks::Proposal;
use desk::Site;
use neighbours::Neighbour;
use refusals::{Fault, Refusal};
use studies::Wanted;

fn pack(a: Result<u32, Fault>) -> u64
    ensures { Says a result }
{
    match a {
        Ok(n) => word(0, n),
        Err(f) => {
            let told = Refusal::from(f);
            word(told.number, told.extra)
        }
    }
}

fn word(number: u32, value: u32) -> u64
    ensures { (result / 4294967296 ≡ number) × (result % 4294967296 ≡ value) }
{
    u64::from(number) * 4_294_967_296 + u64::from(value)
}

pub fn fms_read(table: &[u8]) -> u64
    ensures { Says (read_of table.now) result }
{
    pack(desk::read(table))
}

pub fn fms_distance(lat1: i32, lon1: i32, lat2: i32, lon2: i32) -> u64
    ensures { Says (distance_of lat1 lon1 lat2 lon2) result }
{
    let a = Site {
        latitude: lat1,
        longitude: lon1,
    };
    let b = Site {
        latitude: lat2,
        longitude: lon2,
    };
    pack(desk::distance(a, b))
}

pub fn fms_add(
    table: &[u8],
    id: u32,
    channel: u32,
    class: u32,
    zone: u32,
    lat: i32,
    lon: i32,
    image: &mut [u8],
) -> u64
    ensures { Packed (changed_for table.now (adding (asked id channel class zone lat lon))) image.old image.new result }
{
    let newcomer = Newcomer {
        id,
        channel,
        class,
        zone,
        latitude: lat,
        longitude: lon,
    };
    pack(changes::add(table, newcomer, image))
}

pub fn fms_withdraw(table: &[u8], id: u32, image: &mut [u8]) -> u64
    ensures { Packed (changed_for table.now (withdrawing id)) image.old image.new result }
{
    pack(changes::withdraw(table, id, image))
}

pub fn fms_move(table: &[u8], id: u32, channel: u32, image: &mut [u8]) -> u64
    ensures { Packed (changed_for table.now (moving id channel)) image.old image.new result }
{
    pack(changes::move_to(table, id, channel, image))
}

pub fn fms_check(
    table: &[u8],
    channel: u32,
    class: u32,
    zone: u32,
    lat: i32,
    lon: i32,
    aside: u32,
    standard: u32,
    rows: &mut [u32],
) -> u64
    ensures { Packed (checked_for table.now (proposal channel class zone lat lon aside standard)) rows.old rows.new result }
{
    let asked = Proposal {
        channel,
        class,
        zone,
        latitude: lat,
        longitude: lon,
        aside,
        standard,
    };
    pack(checks::check(table, asked, rows))
}

pub fn fms_arrange(
    table: &[u8],
    first: u32,
    last: u32,
    class: u32,
    zone: u32,
    lat: i32,
    lon: i32,
    aside: u32,
    standard: u32,
    rows: &mut [u32],
) -> u64
    ensures { Packed (arranged_for table.now (wanted first last class zone lat lon aside standard)) rows.old rows.new result }
{
    let asked = Wanted {
        first,
        last,
        class,
        zone,
        latitude: lat,
        longitude: lon,
        aside,
        standard,
    };
    pack(arrangements::arrange(table, asked, rows))
}

// Where the station that is named begins in the table; 0 where none is.
fn locate(table: &[u8], why: Result<Option<Neighbour>, Fault>) -> Result<u32, Fault>
    requires { Names table.now why }
    ensures { result ≡ located table.now (outcome_of why) }
{
    match why? {
        None => Ok(0),
        Some(n) => Ok(reasons::begins_at(table, n.id) as u32),
    }
}

// Its four numbers.
fn put_why(why: Result<Option<Neighbour>, Fault>, reason: &mut [u32; 4])
    ensures { reason.new ≡ sets reason.old 0 (granted (outcome_of why)) }
{
    if let Ok(Some(n)) = why {
        *reason = [n.id, n.distance, n.separation, n.column];
    }
}

pub fn fms_reason(
    table: &[u8],
    channel: u32,
    class: u32,
    zone: u32,
    lat: i32,
    lon: i32,
    aside: u32,
    standard: u32,
    reason: &mut [u32; 4],
) -> u64
    ensures { Explained table.now (reasoned_for table.now (proposal channel class zone lat lon aside standard)) reason.old reason.new result }
{
    let proposed = Proposal {
        channel,
        class,
        zone,
        latitude: lat,
        longitude: lon,
        aside,
        standard,
    };
    let why = reasons::answer(table, proposed);
    put_why(why, reason);
    pack(locate(table, why))
}

// The limit that S is held to for two classes in any order, at a column; 0 where there is none.
pub fn fms_limit(a: u32, b: u32, column: u32) -> u64
    ensures { result ≡ limit_for table_a a b column }
{
    squares::limit_for(a, b, column)
}
