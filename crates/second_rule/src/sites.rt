// The distance between two sites, each given as seconds north of the southern end and east of the western end of its range.
ghost use Rattle.std.specs.Prelude.{◌+◌, ◌≤◌, ◌<◌};

use super::signed::{E, Signed};

// Seconds of latitude from one end of the range to the other.
pub const LATITUDES: u64 = 540_000;

// Seconds of longitude from one end of the range to the other: the whole circle.
pub const LONGITUDES: u64 = 1_296_000;

// Seconds east from one longitude to another, round the whole circle.
fn eastward(east1: u64, east2: u64) -> u64
    requires { (east1 ≤ 1296000) × (east2 ≤ 1296000) }
    ensures { result < 1296000 }
{
    (east2 + LONGITUDES - east1) % LONGITUDES
}

// The longitude difference: the way east or the rest of the circle, whichever is shorter.
fn longitude_difference(east1: u64, east2: u64) -> u64
    requires { (east1 ≤ 1296000) × (east2 ≤ 1296000) }
    ensures { result ≤ 648000 }
{
    let way = eastward(east1, east2);
    way.min(LONGITUDES - way)
}

// The divisor of step 2 behind the term with the index k.
fn divisor(k: u64) -> u64
    requires { k ≤ 8 }
    ensures { 2 ≤ result }
{
    (2 * k + 1) * (2 * k + 2)
}

// The term behind the term t with the index k.
fn next_term(t: u64, x: u64, k: u64) -> u64
    requires { (t ≤ 1000000000) × (x ≤ 1400000000) × (k ≤ 8) }
    ensures { result ≤ t }
{
    let once = t * x / E;
    let again = once * x / E;
    again / divisor(k)
}

// t - (t' - (t'' - ..)): the terms from the index k to 9, each taken from the one before it.
// By recursion, for the first implementation sums from the left, and the two are to differ.
fn series(t: u64, x: u64, k: u64) -> u64
    requires { (t ≤ 1000000000) × (x ≤ 1400000000) × (k ≤ 9) }
    ensures { result ≤ t }
{
    if k == 9 {
        return t;
    }
    t - series(next_term(t, x, k), x, k + 1)
}

// A cosine: no larger than 1 in size.
#[derive(Clone, Copy)]
struct Cosine {
    value: Signed,
    ghost at_most_one: { value.size ≤ 1000000000 },
}

impl Cosine {
    // c1, from the mean latitude in half-seconds.
    fn of_half_seconds(h: u64) -> Cosine
        requires { h ≤ 540000 }
    {
        let x = h * 2_424_068_405_548 / E;
        Cosine {
            value: Signed::from(series(E, x, 0)),
        }
    }

    // 2(c × c / E) - E: the cosine of the double angle.
    fn doubled(self) -> Cosine {
        let square = self.value * self.value;
        Cosine {
            value: Signed::difference(2 * square.size, E),
        }
    }
}

// 2(a × b / E) - c.
fn twice_less(a: Cosine, b: Cosine, c: Signed) -> Signed
    requires { c.size ≤ 3000000000 }
    ensures { result.size ≤ 2000000000 + c.size }
{
    let product = a.value * b.value;
    product + product - c
}

// The size of P.
fn latitude_degree(c2: Cosine) -> u64
    ensures { result ≤ 5600000000 }
{
    let c4 = c2.doubled();
    let p = Signed::from(1_111_320_900) - Signed::from(5_660_500) * c2.value
        + Signed::from(12_000) * c4.value;
    p.size
}

// The size of Q.
fn longitude_degree(c1: Cosine, c2: Cosine) -> u64
    ensures { result ≤ 5600000000 }
{
    let c3 = twice_less(c1, c2, c1.value);
    let c5 = twice_less(c1, c2.doubled(), c3);
    let q = Signed::from(1_114_151_300) * c1.value - Signed::from(945_500) * c3
        + Signed::from(1_200) * c5;
    q.size
}

// The size of NS or EW: seconds of arc in decimetres.
fn leg(seconds: u64, degree: u64) -> u64
    requires { (seconds ≤ 1296000) × (degree ≤ 5600000000) }
    ensures { result ≤ 2016000000 }
{
    seconds * degree / 3_600_000
}

// n × n.
fn square(n: u64) -> u64
    requires { n ≤ 2016000000 }
    ensures { result ≤ 4064256000000000000 }
{
    n * n
}

// S of two sites. The remainders change no site that is in range.
fn squared_distance(north1: u64, east1: u64, north2: u64, east2: u64) -> u64 {
    let n1 = north1 % (LATITUDES + 1);
    let n2 = north2 % (LATITUDES + 1);
    let e1 = east1 % (LONGITUDES + 1);
    let e2 = east2 % (LONGITUDES + 1);
    let c1 = Cosine::of_half_seconds(LATITUDES.abs_diff(n1 + n2));
    let c2 = c1.doubled();
    let ns = leg(n1.abs_diff(n2), latitude_degree(c2));
    let ew = leg(longitude_difference(e1, e2), longitude_degree(c1, c2));
    square(ns) + square(ew)
}

// Whether D is at most d.
fn within(s: u64, d: u64) -> bool
    requires { d ≤ 65536 }
{
    s < square(10_000 * d + 5_000)
}

// Whether D is at least d.
fn beyond(s: u64, d: u64) -> bool
    requires { d ≤ 65536 }
{
    d == 0 || square(10_000 * d - 5_000) <= s
}

// D: the whole km that meets both inequalities of step 6, found by halving, for the first implementation takes the root.
fn rounded(s: u64) -> u64
    ensures { result ≤ 65536 }
{
    let mut low: u64 = 0;
    let mut high: u64 = 65_536;
    while low < high {
        let d = low + (high - low) / 2;
        if !within(s, d) {
            low = d + 1;
        } else if !beyond(s, d) {
            high = d;
        } else {
            return d;
        }
    }
    low
}

// D of two sites, as four numbers, for each caller holds its sites in a struct of its own.
pub fn kilometres(north1: u64, east1: u64, north2: u64, east2: u64) -> u64
    ensures { result ≤ 65536 }
{
    rounded(squared_distance(north1, east1, north2, east2))
}
