// The records that a station on a channel, of a class at a site, is short to, of those that are looked at: one after the other,
// and their positions.
#![tactic(auto)]

ghost use Rattle.std.specs.Prelude.{◌≡◌, false, not, ◌%◌, ◌≤◌, ◌<◌, get_or};
ghost use Rattle.spacing.specs.Pair.{sited};
ghost use Rattle.stations.specs.Image.{station_at, count};
ghost use Rattle.survey.specs.Ways.{looked, chosen_for};
ghost use Rattle.nearby.specs.Positions.{short_positions, Asked, Free, NextHeld, NextShort};

mod nearness;

use arrayvec::ArrayVec;
pub use nearness::free_of;
use survey::{Study, Walk};
use versions::LIMIT;

// The search for the records that the station that is studied, on a channel, is short to.
#[derive(Clone, Copy)]
pub struct Search<'a> {
    walk: Walk<'a>,
    channel: usize,
    // For each channel, at its number's last byte, whether no column applies to it and this one.
    free: [bool; 256],
    ghost tells: { Free channel free },
}

impl<'a> Search<'a> {
    pub fn of(study: &Study<'a>, channel: usize) -> Search<'a>
        requires { Asked channel }
        ensures table { result.walk.study.table.image.now ≡ study.now.table.image.now }
        ensures terms { result.walk.study.terms ≡ study.now.terms }
        ensures place { result.walk.study.place ≡ study.now.place }
        ensures channel { result.channel ≡ channel }
    {
        Search {
            walk: Walk::of(study),
            channel,
            free: free_of(channel),
        }
    }

    // Whether the channel of the record at position i is free.
    fn is_free(&self, i: usize) -> bool
        requires { i < count self.now.walk.study.table.image.now }
        ensures { result ≡ get_or self.now.free ((station_at self.now.walk.study.table.image.now i).channel % 256) false }
    {
        let r = self.walk.study.table.station_at(i);
        self.free[r.channel as usize % 256]
    }

    // The first position from one on whose record's channel is not free.
    fn next_held(&self, from: usize) -> Option<usize>
        requires { from ≤ count self.now.walk.study.table.image.now }
        ensures { NextHeld self.now.walk.study.table.image.now self.now.free from result }
    {
        self.walk.study.table.next_where(
            from,
            |i: usize| -> bool
                requires { i < count self.now.walk.study.table.image.now }
                ensures { result ≡ not (get_or self.entry.now.free ((station_at self.entry.now.walk.study.table.image.now i).channel % 256) false) }
            { !self.is_free(i) },
        )
    }

    // The first position from one on whose record is looked at and the station is short to.
    pub fn next(&self, from: usize) -> Option<usize>
        requires { from ≤ count self.now.walk.study.table.image.now }
        ensures { let s = self.now.walk.study in NextShort (chosen_for s.terms) (looked s.terms) s.table.image.now (sited s.place self.now.channel) from result }
    {
        let mut from = from;
        while let Some(i) = self.next_held(from) {
            if self.walk.short_at(i, self.channel) {
                return Some(i);
            }
            from = i + 1;
        }
        None
    }
}

// The positions of all of them, noted in one walk.
pub fn short_positions(study: &Study<'_>, channel: usize) -> ArrayVec<u16, LIMIT>
    requires { Asked channel }
    ensures { let s = study.now in result.items ≡ short_positions (chosen_for s.terms) (looked s.terms) s.table.image.now (sited s.place channel) }
{
    let search = Search::of(study, channel);
    let mut positions = ArrayVec::new();
    let mut from: usize = 0;
    while let Some(i) = search.next(from) {
        positions.push(i as u16);
        from = i + 1;
    }
    positions
}
