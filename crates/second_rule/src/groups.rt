// Four separations of three digits each in one number, one for each column.
ghost use Rattle.std.specs.Prelude.{◌<◌, MatchOption};

// The separation that stands in a column of a number; none past the columns, and none where it is 000.
pub(crate) fn in_column(groups: u64, column: u64) -> Option<u64>
    ensures { MatchOption result (Unit {0}) (λ r. (0 < r) × (r < 1000)) }
{
    let unit = match column {
        0 => 1_000_000_000,
        1 => 1_000_000,
        2 => 1_000,
        3 => 1,
        _ => return None,
    };
    match groups / unit % 1_000 {
        0 => None,
        r => Some(r),
    }
}
