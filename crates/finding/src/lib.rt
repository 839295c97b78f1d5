// The record that a change names, and the first record that stands in its way.
#![tactic(auto)]

ghost use Rattle.std.specs.Prelude.{◌≡◌};
ghost use Rattle.stations.specs.Image.{stations};
ghost use Rattle.finding.specs.Conflicts.{conflicts};
ghost use Rattle.finding.specs.Asking.{found_at, first_of, Entrant};

use nearby::Search;
use standards::BY_TABLE_A;
use stations::{Station, Table};
use survey::{Study, Terms};

// The position of the record with an id; or, as an error, the place where it would stand.
pub fn find(table: &Table<'_>, id: u32) -> Result<usize, usize>
    ensures { result ≡ found_at id (stations table.now.image.now) }
{
    let p = table.place_of(id);
    if p < table.count() && table.station_at(p).id == id {
        Ok(p)
    } else {
        Err(p)
    }
}

// The position of the first other record that the station is short to by Table A.
pub fn first_conflict(table: &Table<'_>, r: Station) -> Option<usize>
    requires { Entrant r }
    ensures { result ≡ first_of (conflicts r) (stations table.now.image.now) }
{
    let others = Study {
        table: *table,
        terms: Terms {
            aside: r.id,
            standard: BY_TABLE_A,
        },
        place: survey::place_of(r),
    };
    Search::of(&others, r.channel as usize).next(0)
}
