// The distance of two sites in whole numbers: 47 CFR 73.208(c), as 01 puts it in integers.
#![tactic(auto)]

ghost use Rattle.std.specs.Prelude.{◌≡◌, ◌+◌, ◌*◌, ◌/◌, ◌≤◌, ◌<◌, ℤ, pos, nat_abs, ◌+ℤ◌, ◌-ℤ◌, ◌*ℤ◌};
ghost use Rattle.distance.specs.Distance.{◌÷◌, E, next, series, lon_gap, P, Q, S, root, D, latitude_ok, longitude_ok, Placed};
ghost use Rattle.distance.specs.Bounds.{LeastScale, MostHalves};

// A site in signed seconds of arc, in range or not.
#[derive(Clone, Copy, Debug, PartialEq, Eq)]
pub struct Site {
    pub latitude: i32,
    pub longitude: i32,
}

// a × b / E, cut toward zero.
fn scaled(a: i64, b: i64) -> i64
    requires { nat_abs a * nat_abs b ≤ 4000000000000000000 }
    ensures { result ≡ a *ℤ b ÷ E }
{
    a * b / 1_000_000_000
}

// 2 (a × b / E) - c: how each cosine of a multiple comes from two others.
fn double_less(a: i64, b: i64, c: i64) -> i64
    requires { (nat_abs a ≤ 1000000000) × (nat_abs b ≤ 1000000000) × (nat_abs c ≤ 3000000000) }
    ensures { result ≡ pos 2 *ℤ (a *ℤ b ÷ E) -ℤ c }
{
    2 * scaled(a, b) - c
}

// The next term of the series: never above the one before it.
fn next_term(t: u64, x: u64, d: u64) -> u64
    requires { (t ≤ E) × (x ≤ 1310000000) × (2 ≤ d) }
    ensures { (result ≡ next t x d) × (result ≤ t) }
{
    t * x / 1_000_000_000 * x / 1_000_000_000 / d
}

// The cosine of x: a term is taken away and the next one added. From the seventh on they are 0.
fn cosine(x: u64) -> i64
    requires { x ≤ 1310000000 }
    ensures { result ≡ series x }
{
    let mut term = 1_000_000_000;
    let mut sum = term;
    for k in 0..3 {
        let less = next_term(term, x, (4 * k + 1) * (4 * k + 2));
        term = next_term(less, x, (4 * k + 3) * (4 * k + 4));
        sum = sum - less + term;
    }
    sum as i64
}

// P, of the cosines of 2 and 4 times the mean latitude. P and Q are two sums of 73.208(c): one function for both would show neither.
fn p_of(c2: i64, c4: i64) -> i64
    requires { (nat_abs c2 ≤ 1000000000) × (nat_abs c4 ≤ 1000000000) }
    ensures { result ≡ pos 1111320900 -ℤ pos 5660500 *ℤ c2 ÷ E +ℤ pos 12000 *ℤ c4 ÷ E }
{
    1_111_320_900 - scaled(5_660_500, c2) + scaled(12_000, c4)
}

// Q, of the cosines of 1, 3 and 5 times the mean latitude.
fn q_of(c1: i64, c3: i64, c5: i64) -> i64
    requires { (nat_abs c1 ≤ 1000000000) × (nat_abs c3 ≤ 3000000000) × (nat_abs c5 ≤ 5000000000) }
    ensures { result ≡ pos 1114151300 *ℤ c1 ÷ E -ℤ pos 945500 *ℤ c3 ÷ E +ℤ pos 1200 *ℤ c5 ÷ E }
{
    scaled(1_114_151_300, c1) - scaled(945_500, c3) + scaled(1_200, c5)
}

// The length of a degree of latitude and of one of longitude.
#[derive(Clone, Copy)]
pub struct Scales {
    pub p: u64,
    pub q: u64,
}

// P and Q at the mean latitude, which is h half-seconds: neither is negative.
fn scales_at(h: u64) -> Scales
    requires { h ≤ 540000 }
    ensures { (pos result.p ≡ P h) × (pos result.q ≡ Q h) }
{
    let c1 = cosine(h * 2_424_068_405_548 / 1_000_000_000);
    let c2 = double_less(c1, c1, 1_000_000_000);
    let c4 = double_less(c2, c2, 1_000_000_000);
    let c3 = double_less(c1, c2, c1);
    let c5 = double_less(c1, c4, c3);
    let p = p_of(c2, c4) as u64;
    let q = q_of(c1, c3, c5) as u64;
    Scales { p, q }
}

// |a + b| and |a - b|, of two latitudes or two longitudes.
fn sum_size(a: i32, b: i32) -> u64
    requires { (nat_abs a ≤ 648000) × (nat_abs b ≤ 648000) }
    ensures { result ≡ nat_abs (a +ℤ b) }
{
    u64::from((a + b).unsigned_abs())
}

pub fn gap_size(a: i32, b: i32) -> u64
    requires { (nat_abs a ≤ 648000) × (nat_abs b ≤ 648000) }
    ensures { result ≡ nat_abs (a -ℤ b) }
{
    u64::from(a.abs_diff(b))
}

// The difference of two longitudes, the short way round.
#[tactic(auto, using(crate::proofs::Meridian::over_half, crate::proofs::Meridian::within_half))]
pub fn lon_gap(lon1: i32, lon2: i32) -> u64
    requires { (nat_abs lon1 ≤ 648000) × (nat_abs lon2 ≤ 648000) }
    ensures { result ≡ lon_gap lon1 lon2 }
{
    let plain = gap_size(lon1, lon2);
    plain.min(1_296_000 - plain)
}

// n seconds at p per degree, in decimetres.
fn along(n: u64, p: u64) -> u64
    requires { (n ≤ 2000000) × (p ≤ 2000000000) }
    ensures { result ≡ n * p / 3600000 }
{
    n * p / 3_600_000
}

fn square(n: u64) -> u64
    requires { n ≤ 2000000000 }
    ensures { result ≡ n * n }
{
    n * n
}

// The square of the distance, in square decimetres.
pub fn squared(a: Site, b: Site) -> u64
    requires { (Placed a.latitude a.longitude) × (Placed b.latitude b.longitude) }
    ensures { result ≡ S a.latitude a.longitude b.latitude b.longitude }
{
    let k = scales_at(sum_size(a.latitude, b.latitude));
    let p = k.p;
    let q = k.q;
    let ns = along(gap_size(a.latitude, b.latitude), p);
    let ew = along(lon_gap(a.longitude, b.longitude), q);
    square(ns) + square(ew)
}

// The whole number of km nearest to the root of s square decimetres; a half rounds up.
pub fn rounded_km(s: u64) -> u64
    requires { s ≤ 200000000000000000 }
    ensures { result ≡ D s }
{
    (s.isqrt() + 5_000) / 10_000
}

#[tactic(auto, unfolding(crate::specs::Distance::latitude_ok))]
pub fn latitude_ok(lat: i32) -> bool
    ensures { result ≡ latitude_ok lat }
{
    (-270_000..=270_000).contains(&lat)
}

#[tactic(auto, unfolding(crate::specs::Distance::longitude_ok))]
pub fn longitude_ok(lon: i32) -> bool
    ensures { result ≡ longitude_ok lon }
{
    (-648_000..=648_000).contains(&lon)
}

// A length that no degree of longitude falls below, at the mean latitude of this one and any that is at most 9,500 seconds
// from it.
pub fn least_scale(lat: i32) -> u64
    requires { nat_abs lat ≤ 270000 }
    ensures { LeastScale lat result }
{
    let x = half_seconds(lat) * 2_424_068_405_548 / 1_000_000_000;
    let least = 1_000_000_000 - x * x / 1_000_000_000 / 2;
    1_114_151_300 * least / 1_000_000_000 - 2_842_500
}

// The largest mean latitude of this one and any that is at most 9,500 seconds from it, in half-seconds.
fn half_seconds(lat: i32) -> u64
    requires { nat_abs lat ≤ 270000 }
    ensures { MostHalves lat result }
{
    let h = 2 * u64::from(lat.unsigned_abs()) + 9_500;
    h.min(540_000)
}
