// The answer to a question that passed: the survey, the moves, the rows.
ghost use Rattle.std.specs.Prelude.{◌-◌, ◌<◌, ◌≤◌};
ghost use Rattle.part73.specs.Channels.{channel_count};
ghost use Rattle.spacing.specs.Pair.{sited};
ghost use Rattle.stations.specs.Image.{stations};
ghost use Rattle.survey.specs.Ways.{studied, chosen_for};
ghost use Rattle.marking.specs.Marks.{Asked};
ghost use Rattle.desk.specs.Answers.{grant, Answered};
ghost use Rattle.arrangements.specs.Arrange.{rows_for};

use listing::Findings;
use marking::Channels;
use part73::CHANNEL_COUNT;
use refusals::Fault;
use survey::{Study, Walk};

// So many new channels take a short list of flags.
const FEW: usize = 8;

// The answer, with flags for N new channels.
fn list_with<const N: usize>(
    study: &Study<'_>,
    channels: Channels,
    rows: &mut [u32],
) -> Result<u32, Fault>
    requires asked { Asked channels }
    requires enough { channels.last - channels.first < N }
    requires few { N ≤ channel_count }
    ensures { let s = study.now in Answered (grant (rows_for (sited s.place) channels.first channels.last (chosen_for s.terms) (studied s.terms (stations s.table.image.now)))) rows.old rows.new result }
{
    let squares = standards::squares_by(study.terms.standard);
    let mut marks = [0; CHANNEL_COUNT];
    Walk::by(&squares, study).survey(channels, &mut marks);
    let mut moves = [[false; CHANNEL_COUNT]; N];
    planning::plan(study, &squares, channels, &marks, &mut moves);
    let findings = Findings {
        table: study.table,
        channels,
        marks: &marks,
        moves: &moves,
    };
    findings.list_if_room(rows)
}

// The answer, once table and question have passed.
pub fn list_asked(study: &Study<'_>, channels: Channels, rows: &mut [u32]) -> Result<u32, Fault>
    requires { Asked channels }
    ensures { let s = study.now in Answered (grant (rows_for (sited s.place) channels.first channels.last (chosen_for s.terms) (studied s.terms (stations s.table.image.now)))) rows.old rows.new result }
{
    if channels.last - channels.first < FEW {
        list_with::<FEW>(study, channels, rows)
    } else {
        list_with::<CHANNEL_COUNT>(study, channels, rows)
    }
}
