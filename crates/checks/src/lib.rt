// Check: the stations that a proposal is short to, each with its D and R.
#![tactic(auto)]

ghost use Rattle.spacing.specs.Pair.{sited};
ghost use Rattle.stations.specs.Image.{stations};
ghost use Rattle.survey.specs.Ways.{studied, chosen_for};
ghost use Rattle.desk.specs.Answers.{Answered, grant};
ghost use Rattle.nearby.specs.Positions.{Asked};
ghost use Rattle.checks.specs.Check.{rows_for, checked_for};

mod writing;

use refusals::Fault;
use studies::Wanted;
use survey::Study;
use writing::put_noted;

// What is proposed: a station of a class on a channel at a site, in a zone; the id of the record that is left aside, 0 for none;
// and the standard.
#[derive(Clone, Copy, Debug, PartialEq, Eq)]
pub struct Proposal {
    pub channel: u32,
    pub class: u32,
    pub zone: u32,
    pub latitude: i32,
    pub longitude: i32,
    pub aside: u32,
    pub standard: u32,
}

// What is wanted of the study: the channel that is proposed alone.
impl From<Proposal> for Wanted {
    ghost use Rattle.std.specs.Prelude.{◌≡◌};
    ghost use Rattle.checks.specs.Check.{on_one};

    ghost from_gives = { λ p w. w ≡ on_one p };

    fn from(proposal: Proposal) -> Wanted {
        Wanted {
            first: proposal.channel,
            last: proposal.channel,
            class: proposal.class,
            zone: proposal.zone,
            latitude: proposal.latitude,
            longitude: proposal.longitude,
            aside: proposal.aside,
            standard: proposal.standard,
        }
    }
}

// The rows of what is studied, on a channel; 22 where they do not fit.
fn list(study: &Study<'_>, channel: usize, rows: &mut [u32]) -> Result<u32, Fault>
    requires { Asked channel }
    ensures { let s = study.now in Answered (grant (rows_for (sited s.place channel) (chosen_for s.terms) (studied s.terms (stations s.table.image.now)))) rows.old rows.new result }
{
    let positions = nearby::short_positions(study, channel);
    let need = 3 * positions.len() as u32;
    desk::room_fault(rows.len(), need)?;
    put_noted(study, channel, positions.as_slice(), rows);
    Ok(need)
}

// The short stations of a proposal.
pub fn check(table: &[u8], proposal: Proposal, rows: &mut [u32]) -> Result<u32, Fault>
    ensures { Answered (checked_for table.now proposal) rows.old rows.new result }
{
    let study = studies::study(table, Wanted::from(proposal))?;
    list(&study, proposal.channel as usize, rows)
}
