// Add, Withdraw and Move: the new image in a second buffer.
#![tactic(auto)]

ghost use Rattle.std.specs.Prelude.{◌≡◌, MatchResult, Ok, Err};
ghost use Rattle.desk.specs.Answers.{Answered};
ghost use Rattle.changes.specs.Changes.{add as adding, withdraw as withdrawing, move as moving, asked_of, entered, entering, written, changed_for};
ghost use Rattle.finding.specs.Asking.{Entrant};
ghost use Rattle.stations.specs.Image.{stations};

use desk::Site;
use finding::{find, first_conflict};
use granting::{grant_add, grant_move, grant_withdraw};
use refusals::Fault;
use stations::{Station, Table};

// What is asked to be added.
#[derive(Clone, Copy, Debug, PartialEq, Eq)]
pub struct Newcomer {
    pub id: u32,
    pub channel: u32,
    pub class: u32,
    pub zone: u32,
    pub latitude: i32,
    pub longitude: i32,
}

impl Newcomer {
    // Its record, with flags 0, or the first that applies of 13 to 17.
    fn record(self) -> Result<Station, Fault>
        ensures { MatchResult result (λ r. (asked_of self ≡ Ok tt) × (r ≡ entered self) × Entrant r) (λ f. asked_of self ≡ Err f) }
    {
        desk::asked_fault(
            self.channel,
            self.channel,
            self.class,
            self.zone,
            Site {
                latitude: self.latitude,
                longitude: self.longitude,
            },
        )?;
        Ok(Station {
            id: self.id,
            channel: self.channel as u16,
            class: self.class as u8,
            flags: 0,
            latitude: self.latitude,
            longitude: self.longitude,
        })
    }
}

// The record set in at its place by id, with flags 0.
pub fn add(table: &[u8], newcomer: Newcomer, image: &mut [u8]) -> Result<u32, Fault>
    ensures { Answered (changed_for table.now (adding newcomer)) image.old image.new result }
{
    let judged = Table::of(table);
    let Ok(table) = judged else {
        return Err(judged.unwrap_err());
    };
    let r = newcomer.record()?;
    enter(&table, r, image)
}

// A record to be entered, of a class at a site that passed.
fn enter(table: &Table<'_>, r: Station, image: &mut [u8]) -> Result<u32, Fault>
    requires { Entrant r }
    ensures { Answered (written (entering (stations table.now.image.now) r)) image.old image.new result }
{
    if r.id == 0 {
        return Err(Fault::IdZero);
    }
    let place = match find(table, r.id) {
        Ok(p) => return Err(Fault::IdPresent(p as u32)),
        Err(place) => place,
    };
    if let Some(q) = first_conflict(table, r) {
        return Err(Fault::Short(q as u32));
    }
    if versions::is_full(table.count()) {
        return Err(Fault::TableFull);
    }
    grant_add(table, place, r, image)
}

// The record taken out.
pub fn withdraw(table: &[u8], id: u32, image: &mut [u8]) -> Result<u32, Fault>
    ensures { Answered (changed_for table.now (withdrawing id)) image.old image.new result }
{
    let judged = Table::of(table);
    let Ok(table) = judged else {
        return Err(judged.unwrap_err());
    };
    let Ok(p) = find(&table, id) else {
        return Err(Fault::IdAbsent);
    };
    grant_withdraw(&table, p, image)
}

// The record on another channel.
pub fn move_to(table: &[u8], id: u32, channel: u32, image: &mut [u8]) -> Result<u32, Fault>
    ensures { Answered (changed_for table.now (moving id channel)) image.old image.new result }
{
    let judged = Table::of(table);
    let Ok(table) = judged else {
        return Err(judged.unwrap_err());
    };
    if desk::is_outside(channel) {
        return Err(Fault::AskedChannel);
    }
    let Ok(p) = find(&table, id) else {
        return Err(Fault::IdAbsent);
    };
    let x = table.station_at(p);
    if !stations::is_movable(x) {
        return Err(Fault::NotMovable(p as u32));
    }
    let r = Station {
        channel: channel as u16,
        ..x
    };
    if let Some(q) = first_conflict(&table, r) {
        return Err(Fault::Short(q as u32));
    }
    grant_move(&table, p, r, image)
}
