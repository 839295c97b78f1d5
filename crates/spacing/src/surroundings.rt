// The box around a site outside of which no station stands in the way of a class there.
ghost use Rattle.std.specs.Prelude.{ℕ};
ghost use Rattle.spacing.specs.Limits.{Limited, ByTable};
ghost use Rattle.spacing.specs.Reaching.{InRange, Surrounds};

use crate::{Around, Limits, Place};

// The class against which every class keeps the most.
const WIDEST: usize = 7;

impl Limits {
    pub fn box_around(&self, p: Place) -> Around
        requires { (ByTable p self.now) × (InRange p) }
        ensures { (km : ℕ → ℕ → ℕ → ℕ) → Limited km p self.now → Surrounds km p result }
    {
        Around {
            latitude: p.latitude,
            longitude: p.longitude,
            up: self.north[WIDEST] as u32,
            across: self.east[WIDEST] as u32,
        }
    }
}
