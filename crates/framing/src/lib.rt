// A frame around a site, as a walk over records goes by it: the box outside of which nobody is short, in the bits of the
// coordinates, also where it lies over the 180th meridian.
#![tactic(auto)]

ghost use Rattle.std.specs.Prelude.{◌≡◌, ℕ, ◌≤◌, unsigned_abs};
ghost use Rattle.distance.specs.Distance.{lon_gap};
ghost use Rattle.spacing.specs.Limits.{Limited, ByTable};
ghost use Rattle.spacing.specs.Reaching.{Seconds, InRange};
ghost use Rattle.framing.specs.Frames.{past, Centred, Holds, Encloses};

use spacing::{Limits, Place};

// Coordinates by their bits: those of `low`, and the ones up to `size` above, the highest followed by 0.
#[derive(Clone, Copy)]
pub struct Span {
    pub low: u32,
    pub size: u32,
}

// The latitudes and the longitudes inside.
#[derive(Clone, Copy)]
pub struct Frame {
    pub latitudes: Span,
    pub longitudes: Span,
}

// The whole circle, in seconds.
const CIRCLE: u32 = 1_296_000;

// From the bits of the eastern end of the longitudes up to those of the western end: 2^32 less the circle.
const BETWEEN: u32 = 4_293_671_296;

impl Span {
    // Whether bits lie outside: one subtraction and one comparison.
    pub fn away(self, x: u32) -> bool
        ensures { result ≡ past self x }
    {
        self.size < x.wrapping_sub(self.low)
    }
}

// The numbers less than `far` from z.
fn centred(z: i32, far: u32) -> Span
    requires { Seconds far }
    ensures { Centred z far result }
{
    let reach = far - 1;
    Span {
        low: z.cast_unsigned().wrapping_sub(reach),
        size: 2 * reach,
    }
}

// The longitudes less than `far` from one, the short way round. A span that comes to one end of the longitudes goes on at the
// other; no longitude lies between.
fn longitudes_near(lon: i32, far: u32) -> Span
    requires { (unsigned_abs lon ≤ 648000) × (Seconds far) }
    ensures { Holds (lon_gap lon) far result }
{
    let plain = centred(lon, far);
    let size = plain.size + BETWEEN;
    if !plain.away(648_000_i32.cast_unsigned()) {
        return Span {
            low: plain.low,
            size,
        };
    }
    if !plain.away((-648_000_i32).cast_unsigned()) {
        return Span {
            low: plain.low.wrapping_add(CIRCLE),
            size,
        };
    }
    plain
}

impl Frame {
    // The frame around a class at a site, made once for a walk.
    pub fn around(p: Place, limits: &Limits) -> Frame
        requires { (ByTable p limits.now) × (InRange p) }
        ensures { (km : ℕ → ℕ → ℕ → ℕ) → Limited km p limits.now → Encloses km p result }
    {
        let around = limits.box_around(p);
        Frame {
            latitudes: centred(around.latitude, around.up),
            longitudes: longitudes_near(around.longitude, around.across),
        }
    }
}
