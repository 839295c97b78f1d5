// Sites at the limits, by the pair rule of the second implementation.
ghost use Rattle.std.specs.Prelude.{◌<◌, ◌≤◌};
ghost use Rattle.scenes.specs.Sites.{IsInRange};

use super::chance::Chance;
use super::words::{East, LATITUDES, North, Site};

// R of two channels and two classes by a standard, 0 where there is none or the first channel cannot be asked: a number of km, for it
// is taken as a distance.
pub fn separation(standard: u32, channel1: u32, class1: u32, channel2: u32, class2: u32) -> u32
    ensures { result < 1000 }
{
    if !(221..=300).contains(&channel1) {
        return 0;
    }
    second_rule::separation(
        u64::from(standard),
        u64::from(channel1),
        u64::from(class1),
        u64::from(channel2),
        u64::from(class2),
    ) as u32
}

// Whether D of two sites on two latitudes, so many seconds of longitude from each other, is at least r.
fn reaches(north1: u32, north2: u32, seconds: u32, r: u32) -> bool {
    let d = second_rule::kilometres(u64::from(north1), 0, u64::from(north2), u64::from(seconds));
    u64::from(r) <= d
}

// The fewest seconds of longitude at which two sites on two latitudes are at least r km from each other, found by halving, which no
// `for` counts.
pub fn edge(north1: u32, north2: u32, r: u32) -> u32
    ensures { result ≤ 65536 }
{
    let mut low: u32 = 0;
    let mut high: u32 = 65_536;
    while low < high {
        let middle = low + (high - low) / 2;
        if reaches(north1, north2, middle, r) {
            high = middle;
        } else {
            low = middle + 1;
        }
    }
    low
}

// A latitude so near to another that a distance of r km still lies within reach: north of it, or south where that passes the end.
fn near_north(chance: &mut Chance, from: North, r: u32) -> North {
    if chance.once_in(2) {
        return from;
    }
    let step = chance.below(33 * (r % 1_000) + 1);
    if from.seconds + step <= LATITUDES {
        North::new(from.seconds + step)
    } else {
        North::new(from.seconds - step)
    }
}

// A longitude so many seconds east or west of another.
pub(crate) fn either_way(chance: &mut Chance, from: East, seconds: u32) -> East
    requires { seconds ≤ 1296000 }
{
    if chance.once_in(2) {
        from.eastward(seconds)
    } else {
        from.westward(seconds)
    }
}

// A site at the limit of r km from another, or one second of longitude on either side of it.
pub fn at_limit(chance: &mut Chance, from: Site, r: u32) -> Site
    ensures { IsInRange result }
{
    let north1 = from.north();
    let north2 = near_north(chance, north1, r);
    let limit = either_way(chance, from.east(), edge(north1.seconds, north2.seconds, r));
    Site::at(north2, limit.westward(1).eastward(chance.below(3)))
}
