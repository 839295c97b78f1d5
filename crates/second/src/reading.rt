// The questions read and distance.
ghost use Rattle.std.specs.Prelude.{◌≤◌, IfOk};
ghost use Rattle.second.specs.Answer.{Packed};
ghost use Rattle.second.specs.Sizes.{capacity};

use super::answer::{Refusal, packed};
use super::stations::Site;
use super::tables::Table;

// The number of stations of a table.
fn count(table: &[u8]) -> Result<u32, Refusal>
    ensures { IfOk result (λ n. n ≤ capacity) }
{
    let table = Table::read(table)?;
    Ok(table.records.len() as u32)
}

// The number of stations of a table, or its refusal.
pub fn read(table: &[u8]) -> u64
    ensures { Packed capacity result }
{
    packed(count(table))
}

// D of two sites up to 475 km.
fn apart(lat1: i32, lon1: i32, lat2: i32, lon2: i32) -> Result<u32, Refusal>
    ensures { IfOk result (λ d. d ≤ 475) }
{
    let one = Site::asked(lat1, lon1)?;
    let other = Site::asked(lat2, lon2)?;
    match one.apart(other) {
        d @ 0..=475 => Ok(d),
        _ => Err(Refusal::TooFar),
    }
}

// D of two sites up to 475 km, or the refusal.
pub fn distance(lat1: i32, lon1: i32, lat2: i32, lon2: i32) -> u64
    ensures { Packed 475 result }
{
    packed(apart(lat1, lon1, lat2, lon2))
}
