// R by a standard: 1 for Table A; 2 for the lesser table, and Table A where that does not list the column.
ghost use Rattle.std.specs.Prelude.{◌<◌, MatchOption};

use super::lesser::lesser_in;
use super::table_a::{column, separation_in};

// Table A; any number but 2 goes by it.
pub const TABLE_A: u64 = 1;

// The lesser table.
pub const LESSER: u64 = 2;

// R of two channels and two classes by a standard; none where there is no requirement.
fn required(standard: u64, channel1: u64, class1: u64, channel2: u64, class2: u64) -> Option<u64>
    ensures { MatchOption result (Unit {0}) (λ r. (0 < r) × (r < 1000)) }
{
    if channel1 <= 220 && channel2 <= 220 {
        return None;
    }
    let at = column(channel1, channel2);
    if standard == LESSER {
        lesser_in(class1, class2, at).or_else(|| separation_in(class1, class2, at))
    } else {
        separation_in(class1, class2, at)
    }
}

// R of two channels and two classes by a standard, 0 where there is no requirement.
pub fn separation(standard: u64, channel1: u64, class1: u64, channel2: u64, class2: u64) -> u64
    ensures { result < 1000 }
{
    required(standard, channel1, class1, channel2, class2).unwrap_or(0)
}
