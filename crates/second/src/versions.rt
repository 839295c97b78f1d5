// The versions of the image, each with the numbers of stations that it is for.
ghost use Rattle.std.specs.Prelude.{◌≤◌, IfSome};
ghost use Rattle.std.specs.Range.{range_inclusive_end};
ghost use Rattle.second.specs.Sizes.{capacity};

use std::ops::RangeInclusive;

// The most stations that a table holds.
pub(crate) const CAPACITY: usize = 4_000;

// The most stations of the first version.
const FIRST_MOST: usize = 2_000;

// The numbers of stations that a version is for; None where there is no such version.
pub(crate) fn range_of(version: u16) -> Option<RangeInclusive<usize>>
    ensures { IfSome result (λ range. range_inclusive_end range ≤ capacity) }
{
    match version {
        1 => Some(0..=FIRST_MOST),
        2 => Some(FIRST_MOST + 1..=CAPACITY),
        _ => None,
    }
}

// The version for n stations: the first that goes so far.
pub(crate) fn version_for(n: usize) -> u16 {
    if n <= FIRST_MOST { 1 } else { 2 }
}
