// The pair rule: the separation that applies to two stations, and whether they are short.
#![tactic(auto)]

ghost use Rattle.std.specs.Prelude.{◌≡◌, ℕ, ◌<◌};
ghost use Rattle.distance.specs.Distance.{S};
ghost use Rattle.part73.specs.Columns.{IsColumn};
ghost use Rattle.part73.specs.Reading.{Tabled};
ghost use Rattle.spacing.specs.Pair.{sited, exempt, column_for, separation, short_by};
ghost use Rattle.spacing.specs.Limits.{Limited, Falling, Under, square_at};
ghost use Rattle.spacing.specs.Reaching.{InRange, hits, Reaches, Clears};

mod limiting;
mod surroundings;

use distance::Site;
pub use limiting::{limits_by, limits_of};
use part73::Rows;

// A class at a site, in range or not: `survey::place_of` makes one of any record, so `InRange` is no fact of the type.
#[derive(Clone, Copy)]
pub struct Place {
    pub class: usize,
    pub latitude: i32,
    pub longitude: i32,
}

// What a class at a latitude is held by against each of the eight: the squares in the four columns, and the seconds of latitude
// and of longitude that clear the first. Made once for a pass over the table and lent on.
#[derive(Clone, Copy)]
pub struct Limits {
    pub squares: [[u64; 4]; 8],
    pub north: [u64; 8],
    pub east: [u64; 8],
}

// How far along the channels two stations reach.
#[derive(Clone, Copy)]
pub struct Reach {
    pub steps: usize,
    pub far: bool,
}

// A box around a site: less than `up` seconds of latitude and less than `across` seconds of longitude from it.
#[derive(Clone, Copy)]
pub struct Around {
    pub latitude: i32,
    pub longitude: i32,
    pub up: u32,
    pub across: u32,
}

impl Place {
    // Its site.
    fn site(self) -> Site
        ensures { (result.latitude ≡ self.latitude) × (result.longitude ≡ self.longitude) }
    {
        Site {
            latitude: self.latitude,
            longitude: self.longitude,
        }
    }

    // S of two sites.
    pub fn square_between(self, q: Place) -> u64
        requires { (InRange self) × (InRange q) }
        ensures { result ≡ S self.latitude self.longitude q.latitude q.longitude }
    {
        distance::squared(self.site(), q.site())
    }
}

impl Limits {
    // The latitudes alone, or the longitudes alone, put two stations so far apart that they are short on no channels; where they
    // do not, S is to be taken.
    pub fn apart(&self, p: Place, q: Place) -> bool
        requires { (InRange p) × (InRange q) }
        ensures { (km : ℕ → ℕ → ℕ → ℕ) → Limited km p self.now → Clears km p q result }
    {
        self.north[q.class] <= distance::gap_size(p.latitude, q.latitude)
            || self.east[q.class] <= distance::lon_gap(p.longitude, q.longitude)
    }

    // How far along the channels two classes reach at S: in which columns it lies below the squares.
    pub fn reach_at(&self, theirs: usize, s: u64) -> Reach
        requires { theirs < 8 }
        ensures { Falling (square_at self.now theirs) → Under (square_at self.now theirs) s result }
    {
        let squares = &self.squares[theirs];
        let steps = if squares[0] <= s {
            0
        } else if squares[1] <= s {
            1
        } else if squares[2] <= s {
            2
        } else {
            4
        };
        Reach {
            steps,
            far: s < squares[3],
        }
    }

    // How far along the channels a station at p and one at q reach.
    pub fn reach_of(&self, p: Place, q: Place) -> Reach
        requires { (InRange p) × (InRange q) }
        ensures { (km : ℕ → ℕ → ℕ → ℕ) → Limited km p self.now → Reaches km p q result }
    {
        self.reach_at(q.class, p.square_between(q))
    }

    // Whether a station at p, on channel x, and one at q, on channel y, are short: far sites first, then the channels, then S.
    pub fn is_short(&self, x: usize, p: Place, y: usize, q: Place) -> bool
        requires { (InRange p) × (InRange q) }
        ensures { (km : ℕ → ℕ → ℕ → ℕ) → Limited km p self.now → result ≡ short_by km (sited p x) (sited q y) }
    {
        if self.apart(p, q) {
            return false;
        }
        match column_for(x, y) {
            Some(column) => {
                distance::squared(p.site(), q.site()) < self.squares[q.class][column]
            }
            None => false,
        }
    }
}

impl Reach {
    // Short at a difference of channels.
    pub fn is_hit(self, d: usize) -> bool
        ensures { result ≡ hits self d }
    {
        d < self.steps || (matches!(d, 53 | 54) && self.far)
    }
}

// Both channels are at or below 220.
#[tactic(auto, using(std::proofs::lemmas::Bool::Decides::nat_tests), unfolding(crate::specs::Pair::exempt))]
fn is_exempt(x: usize, y: usize) -> bool
    ensures { result ≡ exempt x y }
{
    x <= 220 && y <= 220
}

// The column that applies to two channels, where one does.
#[tactic(auto, using(crate::proofs::Rule::for_exempt, crate::proofs::Rule::for_open))]
pub fn column_for(x: usize, y: usize) -> Option<usize>
    ensures { IsColumn (column_for x y) result }
{
    if is_exempt(x, y) {
        return None;
    }
    part73::column_of(part73::gap_of(x, y))
}

// R of two stations by the rows of a table; 0 where none applies.
pub fn separation_of(rows: &Rows, x: usize, a: usize, y: usize, b: usize) -> u16
    requires { (a < 8) × (b < 8) }
    ensures { (km : ℕ → ℕ → ℕ → ℕ) → Tabled km rows.now → result ≡ separation km x a y b }
{
    match column_for(x, y) {
        Some(column) => standards::separation(rows, a, b, column),
        None => 0,
    }
}
