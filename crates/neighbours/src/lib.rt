// What is told of a record beside a station on a channel: its id, D, R and the column that applies; and which of two stands
// more in the way.
#![tactic(auto)]

ghost use Rattle.std.specs.Prelude.{◌≡◌, ℕ, ◌<◌};
ghost use Rattle.distance.specs.Distance.{S, D};
ghost use Rattle.part73.specs.Reading.{Tabled};
ghost use Rattle.spacing.specs.Pair.{sited, column_for};
ghost use Rattle.spacing.specs.Reaching.{InRange};
ghost use Rattle.stations.specs.Image.{station_at, count};
ghost use Rattle.neighbours.specs.Neighbours.{neighbour_of, shortfall_of};
ghost use Rattle.neighbours.specs.Inside.{worse_of};

use part73::Rows;
use spacing::Place;
use survey::Study;

// D and R are in km; the column is a number, as `fms_reason` hands it out: 0 to 3, or 4 where none applies.
#[derive(Clone, Copy, Debug, PartialEq, Eq)]
pub struct Neighbour {
    pub id: u32,
    pub distance: u32,
    pub separation: u32,
    pub column: u32,
}

const NO_COLUMN: u32 = 4;

// D of two sites.
fn km_between(p: Place, q: Place) -> u32
    requires { (InRange p) × (InRange q) }
    ensures { result ≡ D (S p.latitude p.longitude q.latitude q.longitude) }
{
    let s = p.square_between(q);
    let d = distance::rounded_km(s);
    d as u32
}

// The column of two channels, as it is told.
fn column_told(x: usize, y: usize) -> u32
    ensures { result ≡ column_for x y }
{
    match spacing::column_for(x, y) {
        Some(column) => column as u32,
        None => NO_COLUMN,
    }
}

// The record at position i, beside what is studied on a channel, by the rows of a table of separations.
pub fn neighbour_at(study: &Study<'_>, i: usize, separations: &Rows, channel: usize) -> Neighbour
    requires { i < count study.now.table.image.now }
    ensures { (km : ℕ → ℕ → ℕ → ℕ) → Tabled km separations.now → result ≡ neighbour_of km (sited study.now.place channel) (station_at study.now.table.image.now i) }
{
    let place = study.place;
    let r = study.table.station_at(i);
    let c = r.channel as usize;
    let theirs = survey::place_of(r);
    let km = spacing::separation_of(separations, channel, place.class, c, theirs.class);
    Neighbour {
        id: r.id,
        distance: km_between(place, theirs),
        separation: u32::from(km),
        column: column_told(channel, c),
    }
}

impl Neighbour {
    // By how many km it is short; 0 where it is not.
    fn shortfall(self) -> u32
        ensures { result ≡ shortfall_of self }
    {
        self.separation.saturating_sub(self.distance)
    }

    // Of two, this one that comes earlier in the table and a later one, the one that stands more in the way: the earlier among
    // equals.
    #[tactic(auto, using(ground::proofs::Guards::guards), unfolding(crate::specs::Inside::worse_of, ground::specs::Guard::given))]
    pub fn worse(self, later: Neighbour) -> Neighbour
        ensures { result ≡ worse_of self later }
    {
        if self.shortfall() < later.shortfall() {
            return later;
        }
        self
    }
}
