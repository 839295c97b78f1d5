// A study of a table, and the walk over its records.
ghost use Rattle.std.specs.Prelude.{◌≡◌, ◌≤◌, ◌<◌, not};
ghost use Rattle.part73.specs.Standards.{chosen};
ghost use Rattle.squares.specs.Squares.{squared_limits};
ghost use Rattle.spacing.specs.Limits.{LimitsAt};
ghost use Rattle.spacing.specs.Pair.{sited};
ghost use Rattle.spacing.specs.Reaching.{InRange};
ghost use Rattle.stations.specs.Image.{station_at, count};
ghost use Rattle.marking.specs.Marks.{Asked, Marked, Struck};
ghost use Rattle.survey.specs.Ways.{looked, chosen_for};
ghost use Rattle.survey.specs.Walking.{blocks, Outside, Close};

use crate::{Terms, place_of};
use framing::Frame;
use marking::{Channels, strike, wipe};
use part73::CHANNEL_COUNT;
use spacing::{Limits, Place};
use squares::Squares;
use stations::{HEADER, RECORD, Table};

// A study of a table, on terms, for a class at a site.
#[derive(Clone, Copy)]
pub struct Study<'a> {
    pub table: Table<'a>,
    pub terms: Terms,
    pub place: Place,
    ghost placed: { InRange place },
}

// A walk over the records for a study, with the limits of its class and site: made once.
#[derive(Clone, Copy)]
pub struct Walk<'a> {
    pub study: Study<'a>,
    pub limits: Limits,
    // Truncated: of the scales in `LimitsAt` several would do.
    ghost held: { ∥ LimitsAt (chosen study.terms.standard) study.place limits ∥₁ },
}

impl<'a> Walk<'a> {
    // By a table of squares that is lent.
    pub fn by(squares: &Squares, study: &Study<'a>) -> Walk<'a>
        requires { squares.now ≡ squared_limits (chosen study.now.terms.standard) }
        ensures table { result.study.table.image.now ≡ study.now.table.image.now }
        ensures terms { result.study.terms ≡ study.now.terms }
        ensures place { result.study.place ≡ study.now.place }
    {
        Walk {
            study: *study,
            limits: spacing::limits_by(squares, study.terms.standard, study.place),
        }
    }

    // For a question that walks for one class at one site.
    pub fn of(study: &Study<'a>) -> Walk<'a>
        ensures table { result.study.table.image.now ≡ study.now.table.image.now }
        ensures terms { result.study.terms ≡ study.now.terms }
        ensures place { result.study.place ≡ study.now.place }
    {
        Walk {
            study: *study,
            limits: spacing::limits_of(study.terms.standard, study.place),
        }
    }

    // Whether the station that is studied, on a channel, is short to the record at position i, where it is looked at.
    pub fn short_at(&self, i: usize, channel: usize) -> bool
        requires { i < count self.now.study.table.image.now }
        ensures { let s = self.now.study in result ≡ blocks (chosen_for s.terms) (looked s.terms) s.table.image.now (sited s.place channel) i }
    {
        let r = self.study.table.station_at(i);
        let short = self
            .limits
            .is_short(channel, self.study.place, r.channel as usize, place_of(r));
        short && self.study.terms.looks(r)
    }

    // Marks the channels on which the record at position i stands in the way. It takes S itself: `reach_of` is not inlined, and its
    // call would be paid for each record.
    fn look_at(&self, i: usize, channels: Channels, marks: &mut [u16; CHANNEL_COUNT])
        requires { (Asked channels) × (i < count self.now.study.table.image.now) }
        ensures { let s = self.now.study in Struck (λ m. blocks (chosen_for s.terms) (looked s.terms) s.table.image.now (sited s.place m) i) channels.first channels.last i marks.old marks.new }
    {
        let place = self.study.place;
        let r = self.study.table.station_at(i);
        let c = r.channel as usize;
        if !channels.touches(c) {
            return;
        }
        let theirs = place_of(r);
        if self.limits.apart(place, theirs) || !self.study.terms.looks(r) {
            return;
        }
        let s = place.square_between(theirs);
        let reach = self.limits.reach_at(theirs.class, s);
        strike(marks, c, reach, i as u16);
    }

    // The marks of new channels.
    pub fn survey(&self, channels: Channels, marks: &mut [u16; CHANNEL_COUNT])
        requires { Asked channels }
        ensures { let s = self.now.study in Marked (λ m j. blocks (chosen_for s.terms) (looked s.terms) s.table.image.now (sited s.place m) j) channels.first channels.last (count s.table.image.now) marks.new }
    {
        let table = &self.study.table;
        let frame = Frame::around(self.study.place, &self.limits);
        // An array of its own: a write into the caller's may change the table for all that the compiler knows, which would read the
        // count again after each record. `wipe` says what the zeros are, and is no second clearing.
        let mut own = [0; CHANNEL_COUNT];
        wipe(&mut own);
        let mut from: usize = 0;
        while let Some(i) = next_close(table, from, frame) {
            self.look_at(i, channels, &mut own);
            from = i + 1;
        }
        *marks = own;
    }
}

// Whether the record at position i lies outside a frame.
fn outside(table: &Table<'_>, i: usize, frame: Frame) -> bool
    requires { i < count table.now.image.now }
    ensures { Outside frame (station_at table.now.image.now i) result }
{
    let at = HEADER + RECORD * i;
    frame.latitudes.away(wire::get(table.image, at + 8))
        || frame.longitudes.away(wire::get(table.image, at + 12))
}

// The first position from one on whose record does not.
fn next_close(table: &Table<'_>, from: usize, frame: Frame) -> Option<usize>
    requires { from ≤ count table.now.image.now }
    ensures { Close table.now.image.now frame from result }
{
    table.next_where(
        from,
        |i: usize| -> bool
            requires { i < count table.now.image.now }
            ensures { Outside frame (station_at table.entry.now.image.now i) (not result) }
        { !outside(table, i, frame) },
    )
}
