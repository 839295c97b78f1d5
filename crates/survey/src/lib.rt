// Who stands in the way of a class at a site: whether one record of the table does, and who does on each channel of a range, by
// one walk over the table.
#![tactic(auto)]

ghost use Rattle.std.specs.Prelude.{◌≡◌};
ghost use Rattle.survey.specs.Ways.{place_of, looked};

mod walk;

use spacing::Place;
use stations::Station;
pub use walk::{Study, Walk};

// What a question goes by beside class and site: the id of the record that it leaves aside, 0 for none, and the standard, by which
// the separations are chosen.
#[derive(Clone, Copy, Debug, PartialEq, Eq)]
pub struct Terms {
    pub aside: u32,
    pub standard: u32,
}

impl Terms {
    // Whether a question looks at a record.
    #[tactic(auto, unfolding(crate::specs::Ways::looked))]
    fn looks(self, r: Station) -> bool
        ensures { result ≡ looked self r }
    {
        r.id != self.aside
    }
}

// The class and site of a station.
pub fn place_of(r: Station) -> Place
    ensures { result ≡ place_of r }
{
    Place {
        class: r.class as usize,
        latitude: r.latitude,
        longitude: r.longitude,
    }
}
