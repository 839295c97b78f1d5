// What the studies of a table share: what is wanted of one, what is wrong with it, and how it begins.
#![tactic(auto)]

ghost use Rattle.std.specs.Prelude.{◌≡◌, MatchResult};
ghost use Rattle.stations.specs.Image.{stations};
ghost use Rattle.studies.specs.Studies.{place_asked, channels_asked, terms_asked, standard_fault, wanted_fault, aside_fault, study_fault};
ghost use Rattle.studies.specs.Passed.{Asks, Denied};

use desk::Site;
use marking::Channels;
use refusals::Fault;
use spacing::Place;
use stations::Table;
use survey::Terms;

// What is wanted: a new station on one of the channels from first to last, its class, zone and site, the id of the record that is
// left aside, 0 for none, and the standard.
#[derive(Clone, Copy, Debug, PartialEq, Eq)]
pub struct Wanted {
    pub first: u32,
    pub last: u32,
    pub class: u32,
    pub zone: u32,
    pub latitude: i32,
    pub longitude: i32,
    pub aside: u32,
    pub standard: u32,
}

impl Wanted {
    // Its class and site.
    pub fn place(self) -> Place
        ensures { result ≡ place_asked self }
    {
        Place {
            class: self.class as usize,
            latitude: self.latitude,
            longitude: self.longitude,
        }
    }

    // Its channels.
    pub fn channels(self) -> Channels
        ensures { result ≡ channels_asked self }
    {
        Channels {
            first: self.first as usize,
            last: self.last as usize,
        }
    }

    // Its terms.
    pub fn terms(self) -> Terms
        ensures { result ≡ terms_asked self }
    {
        Terms {
            aside: self.aside,
            standard: self.standard,
        }
    }
}

// 26 where a number is no standard.
#[tactic(auto, using(ground::proofs::Guards::guards), unfolding(crate::specs::Studies::standard_fault, ground::specs::Guard::given))]
fn standard_fault(standard: u32) -> Result<(), Fault>
    ensures { result ≡ standard_fault standard }
{
    if !standards::is_standard(standard) {
        return Err(Fault::StandardUnknown);
    }
    Ok(())
}

// The first that applies of 13 to 16, 26 and 17.
#[tactic(auto, unfolding(crate::specs::Studies::wanted_fault))]
fn wanted_fault(wanted: Wanted) -> Result<(), Fault>
    ensures { result ≡ wanted_fault wanted }
{
    desk::kind_fault(wanted.first, wanted.last, wanted.class, wanted.zone)?;
    standard_fault(wanted.standard)?;
    desk::site_fault(Site {
        latitude: wanted.latitude,
        longitude: wanted.longitude,
    })
}

// 23 where the id left aside is that of no record; 0 leaves nobody aside.
#[tactic(auto, using(ground::proofs::Guards::guards), unfolding(crate::specs::Studies::aside_fault, ground::specs::Guard::given, finding::specs::Asking::found_at))]
fn aside_fault(table: &Table<'_>, id: u32) -> Result<(), Fault>
    ensures { result ≡ aside_fault id (stations table.now.image.now) }
{
    if id != 0 && finding::find(table, id).is_err() {
        return Err(Fault::IdAbsent);
    }
    Ok(())
}

// The first that applies of 13 to 16, 26, 17 and 23.
#[tactic(auto, unfolding(crate::specs::Studies::study_fault))]
pub fn fault_of(table: &Table<'_>, wanted: Wanted) -> Result<(), Fault>
    ensures { result ≡ study_fault (stations table.now.image.now) wanted }
{
    wanted_fault(wanted)?;
    aside_fault(table, wanted.aside)
}

// How a study of a table begins: with the table judged and the question passed, or the first refusal.
pub fn study<'a>(table: &'a [u8], wanted: Wanted) -> Result<survey::Study<'a>, Fault>
    ensures { MatchResult result (λ s. Asks table.now wanted s.table.image.now s.terms s.place) (λ f. Denied table.now wanted f) }
{
    let judged = Table::of(table);
    let Ok(table) = judged else {
        return Err(judged.unwrap_err());
    };
    fault_of(&table, wanted)?;
    Ok(survey::Study {
        table,
        terms: wanted.terms(),
        place: wanted.place(),
    })
}
