// Why a channel is blocked: the station in the way that is short by the most, and its own bytes of the lent table.
#![tactic(auto)]

ghost use Rattle.std.specs.Prelude.{◌≡◌, ◌<◌, Ok};
ghost use Rattle.std.specs.List.{All, reduce};
ghost use Rattle.part73.specs.Standards.{chosen};
ghost use Rattle.spacing.specs.Pair.{sited};
ghost use Rattle.stations.specs.Image.{stations, count};
ghost use Rattle.survey.specs.Ways.{studied, chosen_for};
ghost use Rattle.desk.specs.Answers.{grant};
ghost use Rattle.nearby.specs.Positions.{Asked};
ghost use Rattle.neighbours.specs.Inside.{worse_of};
ghost use Rattle.reasons.specs.Reason.{reason_for, reasoned_for, outcome_of, begins_at, part_of, Reasoned};
ghost use Rattle.reasons.specs.Inside.{neighbours_at, Stands, Names};

use checks::Proposal;
use neighbours::{Neighbour, neighbour_at};
use refusals::Fault;
use stations::{HEADER, RECORD, Table};
use studies::Wanted;
use survey::Study;

// The answer: nobody is in the way, or the station that is named, or a refusal; and the named station's own sixteen bytes of the
// lent table, none where no station is named.
#[derive(Clone, Copy, Debug, PartialEq, Eq)]
pub struct ReasonSheet<'a> {
    pub part: &'a [u8],
    pub answer: Result<Option<Neighbour>, Fault>,
}

// Of the stations at noted positions, the one that what is studied, on a channel, is short to by the most, the first among
// equals.
fn most_of(study: &Study<'_>, channel: usize, positions: &[u16]) -> Option<Neighbour>
    requires { All (λ i. i < count study.now.table.image.now) positions.now }
    ensures { let s = study.now in result ≡ reduce worse_of (neighbours_at (chosen s.terms.standard) s.table.image.now (sited s.place channel) positions.now) }
{
    let separations = standards::rows_by(study.terms.standard);
    let mut most: Option<Neighbour> = None;
    for &i in positions {
        let next = neighbour_at(study, i as usize, &separations, channel);
        most = Some(most.map_or(next, |earlier| earlier.worse(next)));
    }
    most
}

// The reason for what is studied, on a channel.
fn found(study: &Study<'_>, channel: usize) -> Option<Neighbour>
    requires { Asked channel }
    ensures { let s = study.now in outcome_of (Ok result) ≡ grant (reason_for (sited s.place channel) (chosen_for s.terms) (studied s.terms (stations s.table.image.now))) }
{
    let positions = nearby::short_positions(study, channel);
    most_of(study, channel, positions.as_slice())
}

// The answer alone.
pub fn answer(table: &[u8], proposal: Proposal) -> Result<Option<Neighbour>, Fault>
    ensures { outcome_of result ≡ reasoned_for table.now proposal }
{
    let study = studies::study(table, Wanted::from(proposal))?;
    Ok(found(&study, proposal.channel as usize))
}

// The byte place where the record with an id begins in its table.
pub fn begins_at(table: &[u8], id: u32) -> usize
    requires { Stands table.now id }
    ensures { result ≡ begins_at table.now id }
{
    let table = Table { image: table };
    HEADER + RECORD * table.place_of(id)
}

// The named station's own bytes of the table.
fn part_of(table: &[u8], answer: Result<Option<Neighbour>, Fault>) -> &[u8]
    requires { Names table.now answer }
    ensures { result.now ≡ part_of table.now answer }
{
    let Ok(Some(n)) = answer else {
        return &[];
    };
    let at = begins_at(table, n.id);
    &table[at..at + RECORD]
}

// The answer, and beside it the named station's own bytes.
pub fn reason<'a>(table: &'a [u8], proposal: Proposal) -> ReasonSheet<'a>
    ensures { Reasoned table.now proposal result.answer result.part.now }
{
    let answer = answer(table, proposal);
    let part = part_of(table, answer);
    ReasonSheet { part, answer }
}
