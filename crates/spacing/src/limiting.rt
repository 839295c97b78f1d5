// The limits of a class at a latitude: the squares in the four columns against each class, and the seconds of latitude and
// of longitude that clear the first of them.
ghost use Rattle.std.specs.Prelude.{◌≡◌, ◌<◌, ◌≤◌};
ghost use Rattle.part73.specs.Standards.{chosen};
ghost use Rattle.squares.specs.Squares.{squared_limits};
ghost use Rattle.spacing.specs.Limits.{east_of, InKm, Cleared, LimitsAt};
ghost use Rattle.spacing.specs.Reaching.{InRange};

use crate::{Limits, Place};
use squares::Squares;

// No degree of latitude is shorter, in the unit of `distance::least_scale`.
const SHORTEST_LATITUDE: u64 = 1_105_648_400;

// Seconds of a degree, of which none is shorter than `scale`, that make at least (10,000 r - 5,000) decimetres.
#[tactic(auto, unfolding(crate::specs::Limits::east_of))]
fn seconds(r: u16, scale: u64) -> u64
    requires { (0 < r) × (r ≤ 290) × (0 < scale) }
    ensures { result ≡ east_of scale r }
{
    (10_000 * u64::from(r) - 5_000) * 3_600_000 / scale + 1
}

// The same against each class, by the co-channel separations. By `array::from_fn`, what the closure captured is not tied to what it
// gave, and the proof stays open.
fn cleared(separations: &[u16; 8], scale: u64) -> [u64; 8]
    requires { InKm separations.now × (0 < scale) }
    ensures { Cleared separations.now scale result }
{
    let mut out = [0; 8];
    for b in 0..8 {
        out[b] = seconds(separations[b], scale);
    }
    out
}

// The limits of a place by a standard, whose table of squares is lent.
pub fn limits_by(squares: &Squares, standard: u32, p: Place) -> Limits
    requires { (squares.now ≡ squared_limits (chosen standard)) × (InRange p) }
    ensures { LimitsAt (chosen standard) p result }
{
    let separations = standards::co_channel_of(standard, p.class);
    let scale = distance::least_scale(p.latitude);
    // By its parts: the whole row at once would be copied by `memmove`, which the library for C asks of nobody.
    let mut row = [[0; 4]; 8];
    for b in 0..8 {
        row[b] = squares[p.class][b];
    }
    Limits {
        squares: row,
        north: cleared(&separations, SHORTEST_LATITUDE),
        east: cleared(&separations, scale),
    }
}

// The limits of a place, for a question that makes limits once.
pub fn limits_of(standard: u32, p: Place) -> Limits
    requires { InRange p }
    ensures { LimitsAt (chosen standard) p result }
{
    limits_by(&standards::squares_by(standard), standard, p)
}
