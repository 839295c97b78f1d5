// What all questions share, and the two questions without a buffer: read, and the distance of two sites.
#![tactic(auto)]

ghost use Rattle.std.specs.Prelude.{◌≡◌};
ghost use Rattle.desk.specs.Answers.{room_fault};
ghost use Rattle.desk.specs.Asked.{outside, site_ok, class_fault, kind_fault, site_fault, asked_fault};
ghost use Rattle.desk.specs.Questions.{read_of, distance_of};

pub use distance::Site;
use part73::{HIGHEST_ASKED, LOWEST_ASKED};
use refusals::Fault;

// 22 where an answer takes more places than the lent buffer has.
#[tactic(auto, using(ground::proofs::Guards::guards), unfolding(crate::specs::Answers::room_fault, ground::specs::Guard::given))]
pub fn room_fault(room: usize, need: u32) -> Result<(), Fault>
    ensures { result ≡ room_fault room need }
{
    if room < need as usize {
        return Err(Fault::DoesNotFit(need));
    }
    Ok(())
}

#[tactic(auto, using(ground::proofs::Guards::guards), unfolding(crate::specs::Asked::site_ok))]
pub fn site_ok(site: Site) -> bool
    ensures { result ≡ site_ok site.latitude site.longitude }
{
    distance::latitude_ok(site.latitude) && distance::longitude_ok(site.longitude)
}

// The first that applies of 14 to 16.
#[tactic(auto, using(ground::proofs::Guards::guards), unfolding(crate::specs::Asked::class_fault, ground::specs::Guard::given))]
fn class_fault(class: u32, zone: u32) -> Result<(), Fault>
    ensures { result ≡ class_fault class zone }
{
    if !part73::is_class(class) {
        return Err(Fault::AskedClass);
    }
    if !part73::is_zone(zone) {
        return Err(Fault::AskedZone);
    }
    if !part73::permitted(zone, class) {
        return Err(Fault::NotPermitted);
    }
    Ok(())
}

// Outside of 221 to 300.
#[tactic(auto, using(ground::proofs::Guards::guards))]
pub fn is_outside(channel: u32) -> bool
    ensures { result ≡ outside channel }
{
    channel < LOWEST_ASKED || HIGHEST_ASKED < channel
}

// The first that applies of 13 to 16.
#[tactic(auto, using(ground::proofs::Guards::guards), unfolding(crate::specs::Asked::kind_fault, ground::specs::Guard::given))]
pub fn kind_fault(first: u32, last: u32, class: u32, zone: u32) -> Result<(), Fault>
    ensures { result ≡ kind_fault first last class zone }
{
    if is_outside(first) || is_outside(last) || last < first {
        return Err(Fault::AskedChannel);
    }
    class_fault(class, zone)
}

// 17 where a site is out of range.
#[tactic(auto, using(ground::proofs::Guards::guards), unfolding(crate::specs::Asked::site_fault, ground::specs::Guard::given))]
pub fn site_fault(site: Site) -> Result<(), Fault>
    ensures { result ≡ site_fault site.latitude site.longitude }
{
    if !site_ok(site) {
        return Err(Fault::AskedSite);
    }
    Ok(())
}

// The first that applies of 13 to 17.
#[tactic(auto, unfolding(crate::specs::Asked::asked_fault))]
pub fn asked_fault(first: u32, last: u32, class: u32, zone: u32, site: Site) -> Result<(), Fault>
    ensures { result ≡ asked_fault first last class zone site.latitude site.longitude }
{
    kind_fault(first, last, class, zone)?;
    site_fault(site)
}

// How many stations a table has.
#[tactic(auto, unfolding(crate::specs::Questions::read_of))]
pub fn read(table: &[u8]) -> Result<u32, Fault>
    ensures { result ≡ read_of table.now }
{
    let judged = stations::judge(table);
    let Ok(n) = judged else {
        return Err(judged.unwrap_err());
    };
    Ok(n as u32)
}

// The rounded distance of two sites, in km.
#[tactic(auto, using(ground::proofs::Guards::guards), unfolding(crate::specs::Questions::distance_of, ground::specs::Guard::given))]
pub fn distance(a: Site, b: Site) -> Result<u32, Fault>
    ensures { result ≡ distance_of a.latitude a.longitude b.latitude b.longitude }
{
    if !site_ok(a) || !site_ok(b) {
        return Err(Fault::AskedSite);
    }
    let s = distance::squared(a, b);
    let d = distance::rounded_km(s);
    if 475 < d {
        return Err(Fault::TooFar);
    }
    Ok(d as u32)
}
