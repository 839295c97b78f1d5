// Where the lone blocker of a new channel may go: a row of flags for each new channel, from the first one asked for.
#![tactic(auto)]

ghost use Rattle.std.specs.Prelude.{◌≡◌, suc};
ghost use Rattle.part73.specs.Columns.{gap};
ghost use Rattle.spacing.specs.Reaching.{hits};
ghost use Rattle.stations.specs.Image.{count};
ghost use Rattle.planning.specs.Flags.{Mark, IsLone, IsMover, goes, goes_from, Rowed, Planned};
ghost use Rattle.planning.specs.Planning.{scene_in, Known, Meeting, Planning};

use marking::{Channels, MANY};
use part73::{CHANNEL_COUNT, HIGHEST, LOWEST};
use spacing::Reach;
use squares::Squares;
use stations::Table;
use survey::{Study, Walk};

// A station that alone stands in the way: its mark, its channel, and how far it and the new station reach.
#[derive(Clone, Copy)]
pub struct Blocker {
    pub mark: u16,
    pub own: usize,
    pub reach: Reach,
}

impl Blocker {
    // Whether it may go to m, with the new station on c: not to its own channel, and short to no other, by the mark there from its
    // site, and not to the new station.
    fn may_go(self, there: u16, m: usize, c: usize) -> bool
        ensures { result ≡ goes there self.mark m self.own (hits self.reach (gap c m)) }
    {
        m != self.own
            && (there == 0 || there == self.mark)
            && !self.reach.is_hit(part73::gap_of(c, m))
    }

    // The row of the new channel c: where it may go, by the marks from its site.
    fn fill_row(self, kept: &[u16; CHANNEL_COUNT], c: usize, row: &mut [bool; CHANNEL_COUNT])
        ensures { Rowed (goes_from self c kept.now) row.new }
    {
        for m in LOWEST..HIGHEST + 1 {
            let k = m - LOWEST;
            row[k] = self.may_go(kept[k], m, c);
        }
    }
}

// The position of the station that a mark is of, where it is of one alone.
pub fn lone(mark: u16) -> Option<usize>
    ensures { IsLone mark result }
{
    match mark {
        0 | MANY => None,
        _ => Some(mark as usize - 1),
    }
}

// The position of the station that a mark is of alone, where that one is movable.
fn mover(table: &Table<'_>, mark: u16) -> Option<usize>
    requires { Mark (count table.now.image.now) mark }
    ensures { IsMover table.now.image.now mark result }
{
    let i = lone(mark)?;
    stations::is_movable(table.station_at(i)).then_some(i)
}

// The station at i, with the marks from its site, unless it is the one that is kept.
fn blocker_at(
    study: &Study<'_>,
    squares: &Squares,
    i: usize,
    kept: Option<Blocker>,
    marks: &mut [u16; CHANNEL_COUNT],
) -> Blocker
    requires { Meeting study.now squares.now i kept marks.old }
    ensures { Known study.now i result marks.new }
{
    let mark = i as u16 + 1;
    if let Some(same) = kept
        && same.mark == mark
    {
        return same;
    }
    let r = study.table.station_at(i);
    let theirs = Study {
        table: study.table,
        terms: study.terms,
        place: survey::place_of(r),
    };
    let walk = Walk::by(squares, &theirs);
    let channels = Channels {
        first: LOWEST,
        last: HIGHEST,
    };
    walk.survey(channels, marks);
    Blocker {
        mark,
        own: r.channel as usize,
        reach: walk.limits.reach_of(theirs.place, study.place),
    }
}

// The rows of new channels: flags where one movable station alone stands in the way. One survey from that station's site, and
// one look at how far it and the new one reach, serve all the new channels that it alone blocks, one after the other.
pub fn plan(
    study: &Study<'_>,
    squares: &Squares,
    channels: Channels,
    marks: &[u16; CHANNEL_COUNT],
    moves: &mut [[bool; CHANNEL_COUNT]],
)
    requires { Planning study.now squares.now channels marks.now moves.old }
    ensures { Planned (scene_in study.now) channels.first (suc channels.last) moves.new }
{
    let mut kept = [0u16; CHANNEL_COUNT];
    let mut blocker = None;
    for c in channels.first..channels.last + 1 {
        if let Some(i) = mover(&study.table, marks[c - LOWEST]) {
            let one = blocker_at(study, squares, i, blocker, &mut kept);
            one.fill_row(&kept, c, &mut moves[c - channels.first]);
            blocker = Some(one);
        }
    }
}
